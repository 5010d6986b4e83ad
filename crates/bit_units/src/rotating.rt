//! Rotates: the value, and the flags by that value.
ghost use Rattle.std.specs.Prelude.{◌≡◌, ◌+◌, ◌%◌, ◌^◌, ◌<◌, ◌≤◌};
ghost use Rattle.gpr_flags.specs.Numbers.{has_bit as has_bit_of, is_negative as is_negative_of};
ghost use Rattle.bit_units.specs.Shifts.{rol_value as value_of_rol, ror_value as value_of_ror, with_carry as with_carry_above, rcl_wide as wide_of_rcl, rcr_wide as wide_of_rcr, left_flags as flags_of_left, right_flags as flags_of_right};

use crate::shifting::overflow_at_one;
use gpr_flags::{Flags, has_bit, is_negative, low, power, rotated, rotated_number};

/// ROL.
pub(crate) fn rol_value(width: u32, a: u64, count: u32) -> u64
    requires some { 0 < width }
    requires most { width ≤ 64 }
    requires a { a < 2 ^ width }
    ensures value { result ≡ value_of_rol width a count }
    ensures fits { result < 2 ^ width }
{
    rotated_number(width, a, width - count % width)
}

/// ROR.
pub(crate) fn ror_value(width: u32, a: u64, count: u32) -> u64
    requires some { 0 < width }
    requires most { width ≤ 64 }
    requires a { a < 2 ^ width }
    ensures value { result ≡ value_of_ror width a count }
    ensures fits { result < 2 ^ width }
{
    rotated_number(width, a, count % width)
}

/// The number with CF above it as a further bit.
fn with_carry(width: u32, a: u64, carry: bool) -> u128
    requires most { width ≤ 64 }
    requires a { a < 2 ^ width }
    ensures value { result ≡ with_carry_above width a carry }
    ensures fits { result < 2 ^ (width + 1) }
{
    if carry {
        power(width) + u128::from(a)
    } else {
        u128::from(a)
    }
}

/// RCL with the carry, which is the bit above the value's.
fn rcl_wide(width: u32, a: u64, count: u32, carry: bool) -> u128
    requires most { width ≤ 64 }
    requires a { a < 2 ^ width }
    ensures value { result ≡ wide_of_rcl width a count carry }
    ensures fits { result < 2 ^ (width + 1) }
{
    rotated(
        width + 1,
        with_carry(width, a, carry),
        width + 1 - count % (width + 1),
    )
}

/// RCR with the carry, which is the bit above the value's.
fn rcr_wide(width: u32, a: u64, count: u32, carry: bool) -> u128
    requires most { width ≤ 64 }
    requires a { a < 2 ^ width }
    ensures value { result ≡ wide_of_rcr width a count carry }
    ensures fits { result < 2 ^ (width + 1) }
{
    rotated(width + 1, with_carry(width, a, carry), count % (width + 1))
}

/// RCL.
pub(crate) fn rcl_value(width: u32, a: u64, count: u32, carry: bool) -> u64
    requires most { width ≤ 64 }
    requires a { a < 2 ^ width }
    ensures value { result ≡ wide_of_rcl width a count carry % 2 ^ width }
    ensures fits { result < 2 ^ width }
{
    low(width, rcl_wide(width, a, count, carry))
}

/// RCR.
pub(crate) fn rcr_value(width: u32, a: u64, count: u32, carry: bool) -> u64
    requires most { width ≤ 64 }
    requires a { a < 2 ^ width }
    ensures value { result ≡ wide_of_rcr width a count carry % 2 ^ width }
    ensures fits { result < 2 ^ width }
{
    low(width, rcr_wide(width, a, count, carry))
}

/// Whether the bit of that place is 1.
fn wide_has_bit(number: u128, place: u32) -> bool
    requires { place < 128 }
    ensures { result ≡ has_bit_of number place }
{
    (number >> place) % 2 == 1
}

/// The flags of a rotate to the left, by the new CF.
fn left_flags(width: u32, count: u32, value: u64, carry: bool, f: Flags) -> Flags
    requires some { 0 < width }
    requires most { width ≤ 64 }
    ensures { result ≡ flags_of_left width count value carry f }
{
    Flags {
        cf: carry,
        ovf: overflow_at_one(count, is_negative(width, value) != carry, f),
        ..f
    }
}

/// The flags of a rotate to the right, by the new CF.
fn right_flags(width: u32, count: u32, value: u64, carry: bool, f: Flags) -> Flags
    requires some { 1 < width }
    requires most { width ≤ 64 }
    ensures { result ≡ flags_of_right width count value carry f }
{
    let second = has_bit(value, width - 2);
    Flags {
        cf: carry,
        ovf: overflow_at_one(count, is_negative(width, value) != second, f),
        ..f
    }
}

/// The flags of ROL.
pub(crate) fn rol_flags(width: u32, count: u32, value: u64, f: Flags) -> Flags
    requires some { 0 < width }
    requires most { width ≤ 64 }
    ensures { result ≡ flags_of_left width count value (has_bit_of value 0) f }
{
    left_flags(width, count, value, has_bit(value, 0), f)
}

/// The flags of ROR.
pub(crate) fn ror_flags(width: u32, count: u32, value: u64, f: Flags) -> Flags
    requires some { 1 < width }
    requires most { width ≤ 64 }
    ensures { result ≡ flags_of_right width count value (is_negative_of width value) f }
{
    right_flags(width, count, value, is_negative(width, value), f)
}

/// The flags of RCL.
pub(crate) fn rcl_flags(width: u32, a: u64, count: u32, value: u64, f: Flags) -> Flags
    requires some { 0 < width }
    requires most { width ≤ 64 }
    requires a { a < 2 ^ width }
    ensures { result ≡ flags_of_left width count value (has_bit_of (wide_of_rcl width a count f.cf) width) f }
{
    let carry = wide_has_bit(rcl_wide(width, a, count, f.cf), width);
    left_flags(width, count, value, carry, f)
}

/// The flags of RCR.
pub(crate) fn rcr_flags(width: u32, a: u64, count: u32, value: u64, f: Flags) -> Flags
    requires some { 1 < width }
    requires most { width ≤ 64 }
    requires a { a < 2 ^ width }
    ensures { result ≡ flags_of_right width count value (has_bit_of (wide_of_rcr width a count f.cf) width) f }
{
    let carry = wide_has_bit(rcr_wide(width, a, count, f.cf), width);
    right_flags(width, count, value, carry, f)
}
