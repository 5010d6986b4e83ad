//! Shifts and rotates of lanes. The numbers are below 2 to the power of their bits; of a result its low bits count.
ghost use Rattle.std.specs.Prelude.{◌≡◌, ◌%◌, ◌^◌, ◌<◌, ◌≤◌};
ghost use Rattle.lane_kernels.specs.LaneOps.{left as shifted_left, right as shifted_right, right_signed as shifted_signed, rotated_right as rotated_to_right, rotated_left as rotated_to_left};

use gpr_flags::{is_negative, rotated_number, sar_value};
use num_lanes::ones_where;

/// To the left; a count not below the width leaves 0.
pub(crate) fn left(bits: u32, a: u64, count: u64) -> u64
    requires most { bits ≤ 64 }
    requires a { a < 2 ^ bits }
    ensures { result % 2 ^ bits ≡ shifted_left bits a count % 2 ^ bits }
{
    if count < u64::from(bits) {
        a << count
    } else {
        0
    }
}

/// To the right; a count not below the width leaves 0.
pub(crate) fn right(bits: u32, a: u64, count: u64) -> u64
    requires most { bits ≤ 64 }
    ensures { result ≡ shifted_right bits a count }
{
    if count < u64::from(bits) {
        a >> count
    } else {
        0
    }
}

/// To the right with the sign; a count not below the width leaves the sign.
pub(crate) fn right_signed(bits: u32, a: u64, count: u64) -> u64
    requires some { 0 < bits }
    requires most { bits ≤ 64 }
    requires a { a < 2 ^ bits }
    ensures { result % 2 ^ bits ≡ shifted_signed bits a count % 2 ^ bits }
{
    if count < u64::from(bits) {
        sar_value(bits, a, count as u32)
    } else {
        ones_where(bits, is_negative(bits, a))
    }
}

/// A count modulo the width.
fn turn(bits: u32, count: u64) -> u32
    requires some { 0 < bits }
    ensures value { result ≡ count % bits }
    ensures within { result < bits }
{
    (count % u64::from(bits)) as u32
}

/// A rotate to the right.
pub(crate) fn rotated_right(bits: u32, a: u64, count: u64) -> u64
    requires some { 0 < bits }
    requires most { bits ≤ 64 }
    requires a { a < 2 ^ bits }
    ensures { result ≡ rotated_to_right bits a count }
{
    rotated_number(bits, a, turn(bits, count))
}

/// A rotate to the left.
pub(crate) fn rotated_left(bits: u32, a: u64, count: u64) -> u64
    requires some { 0 < bits }
    requires most { bits ≤ 64 }
    requires a { a < 2 ^ bits }
    ensures { result ≡ rotated_to_left bits a count }
{
    rotated_number(bits, a, bits - turn(bits, count))
}
