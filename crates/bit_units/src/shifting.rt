//! Shifts and rotates: the value, and the flags by that value.
ghost use Rattle.std.specs.Prelude.{◌≡◌, ◌-◌, ◌*◌, ◌^◌, ◌<◌, ◌≤◌, if◌then◌else◌, nat_lt};
ghost use Rattle.gpr_flags.specs.Numbers.{has_bit as has_bit_of, is_negative as is_negative_of};
ghost use Rattle.bit_units.specs.Numbers.{differ};
ghost use Rattle.bit_units.specs.Shifts.{shl_value as value_of_shl, shr_value as value_of_shr, shld_value as value_of_shld, shrd_value as value_of_shrd, shl_flags as flags_of_shl, shr_flags as flags_of_shr, sar_flags as flags_of_sar, shld_flags as flags_of_shld, shrd_flags as flags_of_shrd, overflow_at_one as overflow_of_one, shifted_value as value_shifted, shifted_flags as flags_shifted, value_of_shift, flags_of_shift, shift_value, shift_flags};
ghost use Rattle.row_table.specs.declared.operations.Op.TheVariants.{Bit};

use crate::numbers::masked;
use crate::rotating::{
    rcl_flags, rcl_value, rcr_flags, rcr_value, rol_flags, rol_value, ror_flags, ror_value,
};
use gpr_flags::{Flags, has_bit, is_negative, low, power, sar_value};
use row_table::{BitOp, Op};

/// SHL.
pub(crate) fn shl_value(width: u32, a: u64, count: u32) -> u64
    requires most { width ≤ 64 }
    requires small { count < 64 }
    ensures value { result ≡ value_of_shl width a count }
    ensures fits { result < 2 ^ width }
{
    low(width, u128::from(a) << count)
}

/// SHR.
pub(crate) fn shr_value(width: u32, a: u64, count: u32) -> u64
    requires a { a < 2 ^ width }
    requires small { count < 64 }
    ensures value { result ≡ value_of_shr a count }
    ensures fits { result < 2 ^ width }
{
    a >> count
}

/// A number of 64 bits shifted to the left, with nothing lost.
fn widened(a: u64, count: u32) -> u128
    requires { count ≤ 64 }
    ensures value { result ≡ a * 2 ^ count }
    ensures fits { result ≤ (2 ^ 64 - 1) * 2 ^ 64 }
{
    u128::from(a) << count
}

/// SHLD.
fn shld_value(width: u32, a: u64, b: u64, count: u32) -> u64
    requires most { width ≤ 64 }
    requires a { a < 2 ^ width }
    requires small { count < 64 }
    ensures value { result ≡ value_of_shld width a b count }
    ensures fits { result < 2 ^ width }
{
    if count > width {
        a
    } else {
        low(
            width,
            widened(a, count) + (u128::from(b) >> (width - count)),
        )
    }
}

/// SHRD.
fn shrd_value(width: u32, a: u64, b: u64, count: u32) -> u64
    requires most { width ≤ 64 }
    requires a { a < 2 ^ width }
    requires small { count < 64 }
    ensures value { result ≡ value_of_shrd width a b count }
    ensures fits { result < 2 ^ width }
{
    if count > width {
        a
    } else {
        low(
            width,
            (u128::from(b) * power(width) + u128::from(a)) >> count,
        )
    }
}

/// OF where the count is 1.
pub(crate) fn overflow_at_one(count: u32, overflow: bool, f: Flags) -> bool
    ensures { result ≡ overflow_of_one count overflow f }
{
    if count == 1 { overflow } else { f.ovf }
}

/// Whether the highest bits of two numbers differ.
fn sign_differs(width: u32, value: u64, a: u64) -> bool
    requires some { 0 < width }
    requires most { width ≤ 64 }
    ensures { result ≡ differ (is_negative_of width value) (is_negative_of width a) }
{
    is_negative(width, value) != is_negative(width, a)
}

/// The last bit shifted out to the left, where that was one of the number's.
fn left_carry(width: u32, a: u64, count: u32, other: bool) -> bool
    requires most { width ≤ 64 }
    requires some { 0 < count }
    ensures { result ≡ (if nat_lt count width then has_bit_of a (width - count) else other) }
{
    if count < width {
        has_bit(a, width - count)
    } else {
        other
    }
}

/// The last bit shifted out to the right, where that was one of the number's.
fn right_carry(width: u32, a: u64, count: u32, other: bool) -> bool
    requires most { width ≤ 64 }
    requires some { 0 < count }
    ensures { result ≡ (if nat_lt count width then has_bit_of a (count - 1) else other) }
{
    if count < width {
        has_bit(a, count - 1)
    } else {
        other
    }
}

/// The flags of SHL.
fn shl_flags(width: u32, a: u64, count: u32, value: u64, f: Flags) -> Flags
    requires some { 0 < width }
    requires most { width ≤ 64 }
    requires counted { 0 < count }
    ensures { result ≡ flags_of_shl width a count value f }
{
    let shifted = Flags {
        cf: left_carry(width, a, count, f.cf),
        ovf: overflow_at_one(count, sign_differs(width, value, a), f),
        ..f
    };
    shifted.with_value(width, value)
}

/// The flags of SHR.
fn shr_flags(width: u32, a: u64, count: u32, value: u64, f: Flags) -> Flags
    requires some { 0 < width }
    requires most { width ≤ 64 }
    requires counted { 0 < count }
    ensures { result ≡ flags_of_shr width a count value f }
{
    let shifted = Flags {
        cf: right_carry(width, a, count, f.cf),
        ovf: overflow_at_one(count, is_negative(width, a), f),
        ..f
    };
    shifted.with_value(width, value)
}

/// The flags of SAR.
fn sar_flags(width: u32, a: u64, count: u32, value: u64, f: Flags) -> Flags
    requires some { 0 < width }
    requires most { width ≤ 64 }
    requires counted { 0 < count }
    ensures { result ≡ flags_of_sar width a count value f }
{
    let shifted = Flags {
        cf: right_carry(width, a, count, is_negative(width, a)),
        ovf: overflow_at_one(count, false, f),
        ..f
    };
    shifted.with_value(width, value)
}

/// The flags of SHLD.
fn shld_flags(width: u32, a: u64, count: u32, value: u64, f: Flags) -> Flags
    requires some { 0 < width }
    requires most { width ≤ 64 }
    requires counted { 0 < count }
    ensures { result ≡ flags_of_shld width a count value f }
{
    if count > width {
        return f;
    }
    let shifted = Flags {
        cf: has_bit(a, width - count),
        ovf: overflow_at_one(count, sign_differs(width, value, a), f),
        ..f
    };
    shifted.with_value(width, value)
}

/// The flags of SHRD.
fn shrd_flags(width: u32, a: u64, count: u32, value: u64, f: Flags) -> Flags
    requires some { 0 < width }
    requires most { width ≤ 64 }
    requires counted { 0 < count }
    ensures { result ≡ flags_of_shrd width a count value f }
{
    if count > width {
        return f;
    }
    let shifted = Flags {
        cf: has_bit(a, count - 1),
        ovf: overflow_at_one(count, sign_differs(width, value, a), f),
        ..f
    };
    shifted.with_value(width, value)
}

/// The value by operation.
#[tactic(auto, unfolding(crate::specs::Shifts::shifted_value))]
fn shifted_value(op: BitOp, width: u32, a: u64, b: u64, count: u32, carry: bool) -> u64
    requires some { 0 < width }
    requires most { width ≤ 64 }
    requires a { a < 2 ^ width }
    requires b { b < 2 ^ width }
    requires small { count < 64 }
    ensures value { result ≡ value_shifted op width a b count carry }
    ensures fits { result < 2 ^ width }
{
    match op {
        BitOp::Rol => rol_value(width, a, count),
        BitOp::Ror => ror_value(width, a, count),
        BitOp::Rcl => rcl_value(width, a, count, carry),
        BitOp::Rcr => rcr_value(width, a, count, carry),
        BitOp::Shl => shl_value(width, a, count),
        BitOp::Shr => shr_value(width, a, count),
        BitOp::Sar => sar_value(width, a, count),
        BitOp::Shld => shld_value(width, a, b, count),
        BitOp::Shrd => shrd_value(width, a, b, count),
        _ => a,
    }
}

/// The flags by operation, at a count above 0.
#[tactic(auto, unfolding(crate::specs::Shifts::shifted_flags))]
fn shifted_flags(op: BitOp, width: u32, a: u64, count: u32, value: u64, f: Flags) -> Flags
    requires some { 8 ≤ width }
    requires most { width ≤ 64 }
    requires a { a < 2 ^ width }
    requires counted { 0 < count }
    requires small { count < 64 }
    ensures { result ≡ flags_shifted op width a count value f }
{
    match op {
        BitOp::Rol => rol_flags(width, count, value, f),
        BitOp::Ror => ror_flags(width, count, value, f),
        BitOp::Rcl => rcl_flags(width, a, count, value, f),
        BitOp::Rcr => rcr_flags(width, a, count, value, f),
        BitOp::Shl => shl_flags(width, a, count, value, f),
        BitOp::Shr => shr_flags(width, a, count, value, f),
        BitOp::Sar => sar_flags(width, a, count, value, f),
        BitOp::Shld => shld_flags(width, a, count, value, f),
        BitOp::Shrd => shrd_flags(width, a, count, value, f),
        _ => f,
    }
}

/// The value; an operation that isn't a shift or a rotate gives `a`.
fn value_of(op: Op, width: u32, a: u64, b: u64, count: u32, carry: bool) -> u64
    requires some { 0 < width }
    requires most { width ≤ 64 }
    requires a { a < 2 ^ width }
    requires b { b < 2 ^ width }
    requires small { count < 64 }
    ensures value { result ≡ value_of_shift op width a b count carry }
    ensures fits { result < 2 ^ width }
{
    match op {
        Op::Bit(op) => shifted_value(op, width, a, b, count, carry),
        _ => a,
    }
}

/// The flags; an operation that isn't a shift or a rotate keeps them.
fn flags_of(op: Op, width: u32, a: u64, count: u32, value: u64, f: Flags) -> Flags
    requires some { 8 ≤ width }
    requires most { width ≤ 64 }
    requires a { a < 2 ^ width }
    requires small { count < 64 }
    ensures { result ≡ flags_of_shift op width a count value f }
{
    match op {
        Op::Bit(op) => counted_flags(op, width, a, count, value, f),
        _ => f,
    }
}

/// The flags by operation, which stay at a count of 0.
fn counted_flags(op: BitOp, width: u32, a: u64, count: u32, value: u64, f: Flags) -> Flags
    requires some { 8 ≤ width }
    requires most { width ≤ 64 }
    requires a { a < 2 ^ width }
    requires small { count < 64 }
    ensures { result ≡ flags_of_shift (Bit op) width a count value f }
{
    if count == 0 {
        f
    } else {
        shifted_flags(op, width, a, count, value, f)
    }
}

/// ROL, ROR, RCL, RCR, SHL, SHR, SAR, SHLD or SHRD of `a`, of which `size` bytes count, by `count`; `b` is the second
/// operand of SHLD and SHRD. Any other operation gives `a` and keeps the flags.
#[tactic(auto, unfolding(crate::specs::Shifts::shift_value, crate::specs::Shifts::shift_flags))]
pub fn shift(op: Op, size: u8, a: u64, b: u64, count: u8, f: &mut Flags) -> u64
    requires some { 1 ≤ size }
    requires most { size ≤ 8 }
    ensures value { result ≡ shift_value op (8 * size) a b count f.old }
    ensures flags { f.new ≡ shift_flags op (8 * size) a b count f.old }
    ensures fits { result < 2 ^ (8 * size) }
{
    let width = 8 * u32::from(size);
    let a = low(width, u128::from(a));
    let b = low(width, u128::from(b));
    let count = masked(width, u64::from(count));
    let value = value_of(op, width, a, b, count, f.cf);
    *f = flags_of(op, width, a, count, value, *f);
    value
}
