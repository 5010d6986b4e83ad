//! CMPXCHG8B and CMPXCHG16B.
ghost use Rattle.std.specs.Prelude.{◌≡◌, ◌*◌, ◌/◌, ◌<◌, ◌≤◌, ◌^◌, None};
ghost use Rattle.machine_state.specs.Memory.{Swap};
ghost use Rattle.guest_pages.specs.Table.{blocked};
ghost use Rattle.guest_pages.specs.Pages.{table_of, byte_of};
ghost use Rattle.guest_pages.specs.Changes.{KeepsTable};
ghost use Rattle.core_step.specs.Size.{bits_in, bytes_in, cut};
ghost use Rattle.core_step.specs.Pair.{half_in, pair_bytes, joined as joined_of, pair_at, is_equal as is_equal_by, pair_loaded, pair_stored, gprs_exchanged, byte_exchanged};

use crate::kinds::Operand;
use crate::sizes::Size;
use crate::values::set_register;
use byteorder::{ByteOrder, LittleEndian};
use gpr_flags::{Gprs, RAX, RBX, RCX, RDX, low, power};
use guest_pages::Pages;
use machine_state::Kind;
use row_table::Row;

/// The low parts of two numbers as one number.
fn joined(half: Size, high: u64, low: u64) -> u128
    ensures value { result ≡ joined_of half high low }
    ensures fits { result < 256 ^ (2 * bytes_in half) }
{
    u128::from(half.cut(high)) * power(half.bits()) + u128::from(half.cut(low))
}

/// The low half of a number.
fn low_half(half: Size, number: u128) -> u64
    ensures { result ≡ cut half number }
{
    low(half.bits(), number)
}

/// The half above it.
fn high_half(half: Size, number: u128) -> u64
    ensures { result ≡ cut half (number / 2 ^ bits_in half) }
{
    low(half.bits(), number >> half.bits())
}

/// Puts the halves of a number into rdx and rax.
fn load_registers(half: Size, found: u128, gprs: &mut Gprs)
    ensures { gprs.new ≡ pair_loaded half found gprs.old }
{
    set_register(gprs, Operand::Register(RAX), half, low_half(half, found));
    set_register(gprs, Operand::Register(RDX), half, high_half(half, found));
}

/// CMPXCHG8B or CMPXCHG16B.
#[derive(Clone, Copy)]
pub struct PairPlan {
    /// The size of half of its operand.
    pub half: Size,
    /// Where its operand is.
    pub addr: u64,
    /// Where the next instruction stands.
    pub next: u64,
}

impl PairPlan {
    /// The size of each half, by the row.
    pub(crate) fn half_by(row: &Row) -> Size
        ensures { result ≡ half_in row.now }
    {
        if row.width == 64 {
            Size::Double
        } else {
            Size::Quad
        }
    }

    /// How many bytes both halves have.
    pub(crate) fn bytes(&self) -> usize
        ensures value { result ≡ pair_bytes self.now }
        ensures most { result ≤ 16 }
    {
        2 * self.half.bytes() as usize
    }

    /// What stands in memory, which can be written.
    #[tactic(auto, unfolding(crate::specs::Pair::pair_at))]
    pub(crate) fn load(&self, pages: &Pages) -> u128
        requires { blocked (table_of pages.now) Kind.Write self.now.addr (pair_bytes self.now) ≡ None }
        ensures { (w : Swap) → result ≡ pair_at self.now (byte_of pages.now w) }
    {
        let mut bytes = [0; 16];
        let len = self.bytes();
        match pages.read(self.addr, &mut bytes[..len], Kind::Write) {
            Ok(()) => LittleEndian::read_uint128(&bytes, len),
            Err(_) => unreachable!(),
        }
    }

    /// Whether a number is what stands in rdx and rax.
    pub(crate) fn is_equal(&self, found: u128, gprs: &Gprs) -> bool
        ensures { result ≡ is_equal_by self.now.half found gprs.now }
    {
        found == joined(self.half, gprs.get(RDX), gprs.get(RAX))
    }

    /// Puts rcx and rbx into memory, which can be written.
    fn store(&self, gprs: &Gprs, pages: &mut Pages)
        requires { blocked (table_of pages.old) Kind.Write self.now.addr (pair_bytes self.now) ≡ None }
        ensures byte { (w : Swap) → byte_of pages.new w ≡ pair_stored self.now gprs.now (byte_of pages.old w) }
        ensures table { KeepsTable pages.old pages.new }
    {
        let mut bytes = [0; 16];
        let len = self.bytes();
        let number = joined(self.half, gprs.get(RCX), gprs.get(RBX));
        LittleEndian::write_uint128(&mut bytes, number, len);
        match pages.write(self.addr, &bytes[..len]) {
            Ok(()) => {}
            Err(_) => unreachable!(),
        }
    }

    /// Puts rcx and rbx into memory where what stood there is what stands in rdx and rax.
    #[tactic(auto, unfolding(crate::specs::Pair::byte_exchanged))]
    pub(crate) fn exchange_memory(&self, found: u128, gprs: &Gprs, pages: &mut Pages)
        requires { blocked (table_of pages.old) Kind.Write self.now.addr (pair_bytes self.now) ≡ None }
        ensures byte { (w : Swap) → byte_of pages.new w ≡ byte_exchanged self.now found gprs.now (byte_of pages.old w) }
        ensures table { KeepsTable pages.old pages.new }
    {
        if self.is_equal(found, gprs) {
            self.store(gprs, pages);
        }
    }

    /// Puts what stood in memory into rdx and rax where it isn't what stands there.
    #[tactic(auto, unfolding(crate::specs::Pair::gprs_exchanged))]
    pub(crate) fn exchange_registers(&self, found: u128, gprs: &mut Gprs)
        ensures { gprs.new ≡ gprs_exchanged self.now found gprs.old }
    {
        if !self.is_equal(found, gprs) {
            load_registers(self.half, found, gprs);
        }
    }
}
