//! Sums, differences, signs and compares of lanes. The numbers are below 2 to the power of their bits; of a result its low bits
//! count.
ghost use Rattle.std.specs.Prelude.{◌≡◌, ◌+◌, ◌/◌, ◌%◌, ◌^◌, ◌<◌, ◌≤◌, if◌then◌else◌};
ghost use Rattle.lane_kernels.specs.LaneOps.{negated, is_below as is_below_of, with_sign_of as sign_taken, relates as relates_by};

use gpr_flags::{is_negative, signed};

/// A difference.
pub(crate) fn subtract(bits: u32, a: u64, b: u64) -> u64
    requires most { bits ≤ 64 }
    requires b { b < 2 ^ bits }
    ensures { result % 2 ^ bits ≡ (a + negated bits b) % 2 ^ bits }
{
    a.wrapping_sub(b)
}

/// The mean, rounded up.
pub(crate) fn mean(a: u64, b: u64) -> u64
    ensures { result ≡ (a + b + 1) / 2 }
{
    ((u128::from(a) + u128::from(b) + 1) / 2) as u64
}

/// Less, in two's complement.
pub(crate) fn is_below(bits: u32, a: u64, b: u64) -> bool
    requires some { 0 < bits }
    requires most { bits ≤ 64 }
    requires a { a < 2 ^ bits }
    requires b { b < 2 ^ bits }
    ensures { result ≡ is_below_of bits a b }
{
    signed(bits, a) < signed(bits, b)
}

/// One of two numbers.
pub(crate) fn choose(first: bool, a: u64, b: u64) -> u64
    ensures { result ≡ (if first then a else b) }
{
    if first { a } else { b }
}

/// `a` by the sign of `b`.
pub(crate) fn with_sign_of(bits: u32, a: u64, b: u64) -> u64
    requires some { 0 < bits }
    requires most { bits ≤ 64 }
    requires a { a < 2 ^ bits }
    ensures { result % 2 ^ bits ≡ sign_taken bits a b % 2 ^ bits }
{
    if b == 0 {
        0
    } else if is_negative(bits, b) {
        subtract(bits, 0, a)
    } else {
        a
    }
}

/// Whether two numbers, of which it is known whether they are equal and whether the first is less, are in the relation that the
/// low three bits of an immediate name.
pub(crate) fn relates(imm: u8, equal: bool, less: bool) -> bool
    ensures { result ≡ relates_by imm equal less }
{
    match imm % 8 {
        0 => equal,
        1 => less,
        2 => less || equal,
        3 => false,
        4 => !equal,
        5 => !less,
        6 => !(less || equal),
        _ => true,
    }
}
