//! The general registers.
ghost use Rattle.std.specs.Prelude.{◌≡◌, ◌<◌, ◌*◌, replicate, slice_index, slice_set, List, ℕ, IsTrue};
ghost use Rattle.gpr_flags.specs.Registers.{is_size, register_with, with_register};

use std::marker::Model;

/// The sixteen general registers, in the order of their numbers: rax, rcx, rdx, rbx, rsp, rbp, rsi, rdi, r8 to r15
/// (SDM volume 2, table 3-1).
#[derive(Drop)]
pub struct Gprs {
    values: [u64; 16],
}

impl Model for Gprs {
    ghost Value = { List ℕ };

    ghost view = { λ g. g.values };
}

/// A register where a number of `size` bytes was written to it.
fn written(size: u8, old: u64, number: u64) -> u64
    requires { IsTrue (is_size size) }
    ensures { result ≡ register_with (8 * size) old number }
{
    match size {
        1 => old / 0x100 * 0x100 + number % 0x100,
        2 => old / 0x1_0000 * 0x1_0000 + number % 0x1_0000,
        4 => number % 0x1_0000_0000,
        _ => number,
    }
}

impl Gprs {
    /// Sixteen zeros.
    pub fn new() -> Gprs
        ensures { result ≡ replicate 16 0 }
    {
        Gprs { values: [0; 16] }
    }

    /// The value of register `n`.
    pub fn get(&self, n: u8) -> u64
        requires { n < 16 }
        ensures { result ≡ slice_index self.now n }
    {
        self.values[n as usize]
    }

    /// Puts a value into register `n`.
    pub fn set(&mut self, n: u8, value: u64)
        requires { n < 16 }
        ensures { self.new ≡ slice_set self.old n value }
    {
        self.values[n as usize] = value;
    }

    /// Writes the low `size` bytes of a number to register `n`: one and two leave the others, four clear the upper half.
    pub fn write(&mut self, n: u8, size: u8, number: u64)
        requires register { n < 16 }
        requires size { IsTrue (is_size size) }
        ensures { self.new ≡ with_register n (8 * size) number self.old }
    {
        self.set(n, written(size, self.get(n), number));
    }
}
