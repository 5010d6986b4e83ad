//! Masks by the lowest 1 bit, parts of a number, and its bytes.
ghost use Rattle.std.specs.Prelude.{◌≡◌, ◌/◌, ◌%◌, ◌^◌, ◌<◌, ◌≤◌};
ghost use Rattle.bit_units.specs.Bits.{andn_value as value_of_andn, less_one as one_less, blsr_value as value_of_blsr, blsmsk_value as value_of_blsmsk, blsi_value as value_of_blsi, mask_flags as flags_of_mask, bzhi_value as value_of_bzhi, bextr_value as value_of_bextr, bextr_flags as flags_of_bextr, reversed as reversed_at};

use gpr_flags::{Flags, low, ones, power};

/// The number with its bytes in the other order, BSWAP and MOVBE.
pub(crate) fn reversed(width: u32, a: u64) -> u64
    requires a { a < 2 ^ width }
    requires most { width ≤ 64 }
    ensures value { result ≡ reversed_at width a }
    ensures fits { result < 2 ^ width }
{
    if width == 64 {
        a.swap_bytes()
    } else if width == 32 {
        u64::from((a as u32).swap_bytes())
    } else if width == 16 {
        u64::from((a as u16).swap_bytes())
    } else {
        a
    }
}

/// ANDN.
pub(crate) fn andn_value(width: u32, a: u64, b: u64) -> u64
    requires most { width ≤ 64 }
    requires a { a < 2 ^ width }
    requires b { b < 2 ^ width }
    ensures value { result ≡ value_of_andn width a b }
    ensures fits { result < 2 ^ width }
{
    (ones(width) - a) & b
}

/// One less, and the highest number for 0.
fn less_one(width: u32, b: u64) -> u64
    requires most { width ≤ 64 }
    requires b { b < 2 ^ width }
    ensures value { result ≡ one_less width b }
    ensures fits { result < 2 ^ width }
{
    low(width, u128::from(b) + u128::from(ones(width)))
}

/// BLSR.
pub(crate) fn blsr_value(width: u32, b: u64) -> u64
    requires most { width ≤ 64 }
    requires b { b < 2 ^ width }
    ensures value { result ≡ value_of_blsr width b }
    ensures fits { result < 2 ^ width }
{
    less_one(width, b) & b
}

/// BLSMSK.
#[tactic(auto, using(std::proofs::lemmas::Nat::xor_lt))]
pub(crate) fn blsmsk_value(width: u32, b: u64) -> u64
    requires most { width ≤ 64 }
    requires b { b < 2 ^ width }
    ensures value { result ≡ value_of_blsmsk width b }
    ensures fits { result < 2 ^ width }
{
    less_one(width, b) ^ b
}

/// BLSI.
pub(crate) fn blsi_value(width: u32, b: u64) -> u64
    requires most { width ≤ 64 }
    requires b { b < 2 ^ width }
    ensures value { result ≡ value_of_blsi width b }
    ensures fits { result < 2 ^ width }
{
    low(width, power(width) - u128::from(b)) & b
}

/// The flags of ANDN, BLSR, BLSI and BZHI, by the new CF.
pub(crate) fn mask_flags(width: u32, value: u64, carry: bool, f: Flags) -> Flags
    requires some { 0 < width }
    requires most { width ≤ 64 }
    ensures { result ≡ flags_of_mask width value carry f }
{
    let cleared = Flags {
        cf: carry,
        ovf: false,
        ..f
    };
    cleared.with_sign_and_zero(width, value)
}

/// The index of BZHI, the start of BEXTR.
pub(crate) fn low_byte(b: u64) -> u32
    ensures value { result ≡ b % 256 }
    ensures most { result < 256 }
{
    (b % 256) as u32
}

/// BZHI.
pub(crate) fn bzhi_value(width: u32, a: u64, b: u64) -> u64
    requires most { width ≤ 64 }
    requires a { a < 2 ^ width }
    ensures value { result ≡ value_of_bzhi width a b }
    ensures fits { result < 2 ^ width }
{
    let index = low_byte(b);
    if index < width {
        low(index, u128::from(a))
    } else {
        a
    }
}

/// The number without its low bits.
fn above(a: u64, start: u32) -> u64
    ensures value { result ≡ a / 2 ^ start }
    ensures most { result ≤ a }
{
    if start < 64 { a >> start } else { 0 }
}

/// The low bits of a number, and the number where it hasn't more.
fn field(a: u64, len: u32) -> u64
    ensures value { result ≡ a % 2 ^ len }
    ensures most { result ≤ a }
{
    if len < 64 { low(len, u128::from(a)) } else { a }
}

/// BEXTR.
pub(crate) fn bextr_value(width: u32, a: u64, b: u64) -> u64
    requires a { a < 2 ^ width }
    ensures value { result ≡ value_of_bextr a b }
    ensures fits { result < 2 ^ width }
{
    field(above(a, low_byte(b)), low_byte(b / 256))
}

/// The flags of BEXTR.
pub(crate) fn bextr_flags(value: u64, f: Flags) -> Flags
    ensures { result ≡ flags_of_bextr value f }
{
    Flags {
        cf: false,
        zf: value == 0,
        ovf: false,
        ..f
    }
}
