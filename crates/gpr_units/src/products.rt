//! Products.
ghost use Rattle.std.specs.Prelude.{◌≡◌, pos, ◌*◌, ◌<◌, ◌≤◌, ◌^◌, ◌*ℤ◌, true, false};
ghost use Rattle.gpr_flags.specs.Numbers.{signed_of, low_half, high_half};
ghost use Rattle.gpr_units.specs.Multiply.{product_of, product_flags};

use crate::numbers::{bits_in, cut, full, is_outside_signed};
use gpr_flags::{Flags, halves, signed as signed_number, signed_halves, signed_product};

fn set_wide(is_wide: bool, f: &mut Flags)
    ensures { f.new ≡ record f.old { cf = is_wide; ovf = is_wide } }
{
    f.cf = is_wide;
    f.ovf = is_wide;
}

fn multiply_unsigned(bits: u32, a: u64, b: u64, f: &mut Flags) -> (u64, u64)
    requires most { bits ≤ 64 }
    requires a { a < 2 ^ bits }
    requires b { b < 2 ^ bits }
    ensures low { result.0 ≡ low_half bits (pos (a * b)) }
    ensures high { result.1 ≡ high_half bits (pos (a * b)) }
    ensures flags { f.new ≡ product_flags false bits (pos (a * b)) f.old }
    ensures low_small { result.0 < 2 ^ bits }
    ensures high_small { result.1 < 2 ^ bits }
{
    let product = u128::from(a) * u128::from(b);
    set_wide(product >= full(bits), f);
    halves(bits, product)
}

fn multiply_signed(bits: u32, a: u64, b: u64, f: &mut Flags) -> (u64, u64)
    requires some { 0 < bits }
    requires most { bits ≤ 64 }
    requires a { a < 2 ^ bits }
    requires b { b < 2 ^ bits }
    ensures low { result.0 ≡ low_half bits (signed_of bits a *ℤ signed_of bits b) }
    ensures high { result.1 ≡ high_half bits (signed_of bits a *ℤ signed_of bits b) }
    ensures flags { f.new ≡ product_flags true bits (signed_of bits a *ℤ signed_of bits b) f.old }
    ensures low_small { result.0 < 2 ^ bits }
    ensures high_small { result.1 < 2 ^ bits }
{
    let product = signed_product(signed_number(bits, a), signed_number(bits, b));
    set_wide(is_outside_signed(bits, product), f);
    signed_halves(bits, product)
}

/// The product of operands of `size` bytes, as its low half and its high half (SDM volume 2, MUL and IMUL). CF and OF say
/// that the high half is significant. Bits of the operands above the size don't count.
#[tactic(auto, unfolding(crate::specs::Multiply::product_of))]
pub fn multiply(size: u8, signed: bool, a: u64, b: u64, f: &mut Flags) -> (u64, u64)
    requires some { 0 < size }
    requires most { size ≤ 8 }
    ensures low { result.0 ≡ low_half (8 * size) (product_of signed (8 * size) a b) }
    ensures high { result.1 ≡ high_half (8 * size) (product_of signed (8 * size) a b) }
    ensures flags { f.new ≡ product_flags signed (8 * size) (product_of signed (8 * size) a b) f.old }
    ensures low_small { result.0 < 2 ^ (8 * size) }
    ensures high_small { result.1 < 2 ^ (8 * size) }
{
    let bits = bits_in(size);
    let a = cut(bits, a);
    let b = cut(bits, b);
    if signed {
        multiply_signed(bits, a, b, f)
    } else {
        multiply_unsigned(bits, a, b, f)
    }
}
