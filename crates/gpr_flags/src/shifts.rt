//! Shifts and rotates of numbers of so many bits.
ghost use Rattle.std.specs.Prelude.{◌≡◌, ◌-◌, ◌^◌, ◌<◌, ◌≤◌};
ghost use Rattle.gpr_flags.specs.Shifts.{sar_value as value_of_sar, rotated as rotated_by};

use crate::numbers::{is_negative, power};

/// The number of that width whose bits are all 1.
pub fn ones(width: u32) -> u64
    requires { width ≤ 64 }
    ensures { result ≡ 2 ^ width - 1 }
{
    (power(width) - 1) as u64
}

/// To the right, with the sign.
pub fn sar_value(width: u32, a: u64, count: u32) -> u64
    requires some { 0 < width }
    requires most { width ≤ 64 }
    requires a { a < 2 ^ width }
    requires small { count < 64 }
    ensures value { result ≡ value_of_sar width a count }
    ensures fits { result < 2 ^ width }
{
    if is_negative(width, a) {
        ones(width) - ((ones(width) - a) >> count)
    } else {
        a >> count
    }
}

/// The low bits, as many as `to_top`, go to the top, and the others down to bit 0.
pub fn rotated(width: u32, number: u128, to_top: u32) -> u128
    requires most { width ≤ 65 }
    requires number { number < 2 ^ width }
    requires within { to_top ≤ width }
    ensures value { result ≡ rotated_by width number to_top }
    ensures fits { result < 2 ^ width }
{
    number % power(to_top) * power(width - to_top) + (number >> to_top)
}

/// The same of a number of at most 64 bits.
pub fn rotated_number(width: u32, number: u64, to_top: u32) -> u64
    requires most { width ≤ 64 }
    requires number { number < 2 ^ width }
    requires within { to_top ≤ width }
    ensures value { result ≡ rotated_by width number to_top }
    ensures fits { result < 2 ^ width }
{
    rotated(width, u128::from(number), to_top) as u64
}
