//! The registers of an iteration: where its operands are, and what it leaves in them.
ghost use Rattle.std.specs.Prelude.{◌≡◌, ◌%◌, ◌^◌, ◌<◌};
ghost use Rattle.string_unit.specs.Strings.{place_bits, source_place as source_place_of, destination_place as destination_place_of, moved as moved_to, passed};

use gpr_flags::{Gprs, RDI, RSI};

/// The bits of rsi, rdi or rcx that count.
pub fn index(wrap32: bool, value: u64) -> u64
    ensures { result ≡ value % 2 ^ place_bits wrap32 }
{
    if wrap32 { value % 0x1_0000_0000 } else { value }
}

/// Where the operand at rsi is, of which the base of a segment counts.
#[tactic(auto, unfolding(crate::specs::Strings::source_place))]
pub fn source_place(wrap32: bool, base: u64, g: &Gprs) -> u64
    ensures { result ≡ source_place_of wrap32 base g.now }
{
    index(wrap32, g.get(RSI)).wrapping_add(base)
}

/// Where the operand at rdi is.
#[tactic(auto, unfolding(crate::specs::Strings::destination_place))]
pub fn destination_place(wrap32: bool, g: &Gprs) -> u64
    ensures { result ≡ destination_place_of wrap32 g.now }
{
    index(wrap32, g.get(RDI))
}

/// rsi or rdi, past an operand.
fn moved(size: u8, wrap32: bool, down: bool, value: u64) -> u64
    ensures { result ≡ moved_to size wrap32 down value }
{
    let size = u64::from(size);
    if down {
        index(wrap32, value.wrapping_sub(size))
    } else {
        index(wrap32, value.wrapping_add(size))
    }
}

/// Moves rsi or rdi past an operand.
pub(crate) fn pass(register: u8, size: u8, wrap32: bool, down: bool, g: &mut Gprs)
    requires { register < 16 }
    ensures { g.new ≡ passed register size wrap32 down g.old }
{
    let value = g.get(register);
    g.set(register, moved(size, wrap32, down, value));
}

/// Moves rsi and rdi past their operands.
pub(crate) fn pass_both(size: u8, wrap32: bool, down: bool, g: &mut Gprs)
    ensures { g.new ≡ passed RDI size wrap32 down (passed RSI size wrap32 down g.old) }
{
    pass(RSI, size, wrap32, down, g);
    pass(RDI, size, wrap32, down, g);
}
