//! Numbers as bits, unsigned or in two's complement.
ghost use Rattle.std.specs.Prelude.{◌≡◌, ◌*◌, ◌<◌, ◌≤◌, ◌^◌, ◌%◌, true};
ghost use Rattle.gpr_units.specs.Numbers.{is_outside};

use gpr_flags::{low, power};

/// How many bits a size in bytes has.
pub(crate) fn bits_in(size: u8) -> u32
    requires some { 0 < size }
    requires most { size ≤ 8 }
    ensures value { result ≡ 8 * size }
    ensures some { 8 ≤ result }
    ensures most { result ≤ 64 }
{
    8 * u32::from(size)
}

/// 2 to the power `bits`.
pub(crate) fn full(bits: u32) -> u128
    requires { bits ≤ 64 }
    ensures value { result ≡ 2 ^ bits }
    ensures most { result ≤ 2 ^ 64 }
{
    power(bits)
}

/// The low bits of an operand.
pub(crate) fn cut(bits: u32, operand: u64) -> u64
    requires { bits ≤ 64 }
    ensures value { result ≡ operand % 2 ^ bits }
    ensures small { result < 2 ^ bits }
{
    low(bits, u128::from(operand))
}

/// Whether a number is none of `bits` bits in two's complement.
pub(crate) fn is_outside_signed(bits: u32, number: i128) -> bool
    requires some { 0 < bits }
    requires most { bits ≤ 64 }
    ensures { result ≡ is_outside true bits number }
{
    let half: i128 = 1 << (bits - 1);
    number >= half || number < -half
}
