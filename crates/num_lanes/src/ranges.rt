//! The signed numbers in lanes, the nearest numbers of a range, and the numbers that say whether something holds.
ghost use Rattle.std.specs.Prelude.{◌≡◌, ◌*◌, ◌%◌, ◌^◌, ◌<◌, ◌≤◌, ◌+ℤ◌, ◌-ℤ◌};
ghost use Rattle.gpr_flags.specs.Numbers.{signed_of};
ghost use Rattle.num_lanes.specs.Ranges.{clamp_signed_of, clamp_unsigned_of, ones_where as ones_by};

use gpr_flags::{low, low_signed, ones, signed};

/// The number that the low `W` bytes of a number are in two's complement.
pub fn sign<const W: usize>(value: u64) -> i64
    requires some { 0 < W }
    requires most { W ≤ 8 }
    ensures { result ≡ signed_of (8 * W) (value % 2 ^ (8 * W)) }
{
    let bits = 8 * W as u32;
    signed(bits, low(bits, u128::from(value)))
}

/// The nearest number that `bits` bits are in two's complement, as these bits.
pub fn clamp_signed(value: i128, bits: u32) -> u64
    requires some { 0 < bits }
    requires most { bits ≤ 64 }
    ensures { result ≡ clamp_signed_of bits value }
{
    let half: i128 = 1 << (bits - 1);
    low_signed(bits, value.clamp(-half, half - 1))
}

/// The nearest number of `bits` bits without a sign.
pub fn clamp_unsigned(value: i128, bits: u32) -> u64
    requires { bits ≤ 64 }
    ensures { result ≡ clamp_unsigned_of bits value }
{
    let full: i128 = 1 << bits;
    low_signed(bits, value.clamp(0, full - 1))
}

/// A sum with signed saturation.
pub fn add_signed(bits: u32, a: u64, b: u64) -> u64
    requires some { 0 < bits }
    requires most { bits ≤ 64 }
    requires a { a < 2 ^ bits }
    requires b { b < 2 ^ bits }
    ensures { result ≡ clamp_signed_of bits (signed_of bits a +ℤ signed_of bits b) }
{
    clamp_signed(
        i128::from(signed(bits, a)) + i128::from(signed(bits, b)),
        bits,
    )
}

/// A difference with signed saturation.
pub fn subtract_signed(bits: u32, a: u64, b: u64) -> u64
    requires some { 0 < bits }
    requires most { bits ≤ 64 }
    requires a { a < 2 ^ bits }
    requires b { b < 2 ^ bits }
    ensures { result ≡ clamp_signed_of bits (signed_of bits a -ℤ signed_of bits b) }
{
    clamp_signed(
        i128::from(signed(bits, a)) - i128::from(signed(bits, b)),
        bits,
    )
}

/// All bits 1, or all 0.
pub fn ones_where(bits: u32, holds: bool) -> u64
    requires { bits ≤ 64 }
    ensures value { result ≡ ones_by bits holds }
    ensures fits { result < 2 ^ bits }
{
    if holds { ones(bits) } else { 0 }
}
