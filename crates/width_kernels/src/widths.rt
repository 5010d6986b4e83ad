//! Lanes of one width as lanes of another.
ghost use Rattle.std.specs.Prelude.{◌≡◌, ◌*◌, ◌^◌, ◌<◌, ◌≤◌, length, IsTrue};
ghost use Rattle.gpr_flags.specs.Registers.{is_size};
ghost use Rattle.num_lanes.specs.Lane.{IsLength};
ghost use Rattle.width_kernels.specs.WidthOps.{lane_or_zero as lane_or_zero_of, signed_lane as signed_lane_of, nearest_signed as nearest_signed_of, nearest_unsigned as nearest_unsigned_of};

use gpr_flags::{low_signed, signed};
use num_lanes::{clamp_signed, clamp_unsigned, get_lane};

/// A lane of `V` bytes, or 0 where the bytes have no such lane.
pub(crate) fn lane_or_zero<const V: usize>(bytes: &[u8], lane: usize) -> u64
    requires width { IsTrue (is_size V) }
    requires length { IsLength (length bytes.now) }
    requires lane { lane < 64 }
    ensures value { result ≡ lane_or_zero_of V bytes.now lane }
    ensures small { result < 2 ^ (8 * V) }
{
    if lane * V + V <= bytes.len() {
        get_lane::<V>(bytes, lane)
    } else {
        0
    }
}

/// The same as a signed number, in two's complement.
pub(crate) fn signed_lane<const V: usize>(bits: u32, bytes: &[u8], lane: usize) -> u64
    requires most { bits ≤ 64 }
    requires width { IsTrue (is_size V) }
    requires length { IsLength (length bytes.now) }
    requires lane { lane < 64 }
    ensures { result ≡ signed_lane_of bits V bytes.now lane }
{
    let number = signed(8 * V as u32, lane_or_zero::<V>(bytes, lane));
    low_signed(bits, i128::from(number))
}

/// The same with signed saturation.
pub(crate) fn nearest_signed<const V: usize>(bits: u32, bytes: &[u8], lane: usize) -> u64
    requires some { 0 < bits }
    requires most { bits ≤ 64 }
    requires width { IsTrue (is_size V) }
    requires length { IsLength (length bytes.now) }
    requires lane { lane < 64 }
    ensures { result ≡ nearest_signed_of bits V bytes.now lane }
{
    let number = signed(8 * V as u32, lane_or_zero::<V>(bytes, lane));
    clamp_signed(i128::from(number), bits)
}

/// The unsigned number with unsigned saturation.
pub(crate) fn nearest_unsigned<const V: usize>(bits: u32, bytes: &[u8], lane: usize) -> u64
    requires most { bits ≤ 64 }
    requires width { IsTrue (is_size V) }
    requires length { IsLength (length bytes.now) }
    requires lane { lane < 64 }
    ensures { result ≡ nearest_unsigned_of bits V bytes.now lane }
{
    clamp_unsigned(i128::from(lane_or_zero::<V>(bytes, lane)), bits)
}
