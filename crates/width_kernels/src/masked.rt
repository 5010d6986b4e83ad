//! Lanes by a mask.
ghost use Rattle.std.specs.Prelude.{◌≡◌, ◌+◌, ◌*◌, ◌/◌, ◌==◌, ◌<◌, ◌≤◌, ◌&&◌, if◌then◌else◌, length, IsTrue};
ghost use Rattle.gpr_flags.specs.Registers.{is_size};
ghost use Rattle.gpr_flags.specs.Numbers.{has_bit as has_bit_of};
ghost use Rattle.num_lanes.specs.Lane.{IsLength, lane_of};
ghost use Rattle.width_kernels.specs.WidthOps.{masked_below as masked_below_of, masked_lane as masked_lane_of};

use gpr_flags::{has_bit, low};
use num_lanes::get_lane;

/// How many lanes below a lane a mask has.
fn masked_below(mask: u64, lane: usize) -> usize
    requires { lane < 64 }
    ensures value { result ≡ masked_below_of mask lane }
    ensures within { result ≤ lane }
{
    low(lane as u32, u128::from(mask)).count_ones() as usize
}

/// A lane, where the mask has it and as many lanes below it as are wanted, or another number.
fn lane_if_counted<const W: usize>(
    source: &[u8],
    mask: u64,
    lane: usize,
    wanted: usize,
    other: u64,
) -> u64
    requires width { IsTrue (is_size W) }
    requires lane { lane < 64 }
    requires in_range { lane * W + W ≤ length source.now }
    ensures { result ≡ (if has_bit_of mask lane && masked_below_of mask lane == wanted then lane_of W source.now lane else other) }
{
    if has_bit(mask, lane as u32) && masked_below(mask, lane) == wanted {
        get_lane::<W>(source, lane)
    } else {
        other
    }
}

/// The lane that the mask has and below which it has `wanted` lanes, or 0.
pub(crate) fn masked_lane<const W: usize>(source: &[u8], mask: u64, wanted: usize) -> u64
    requires width { IsTrue (is_size W) }
    requires length { IsLength (length source.now) }
    ensures { result ≡ masked_lane_of (length source.now / W) mask (lane_of W source.now) wanted }
{
    let mut value = 0;
    for lane in 0..source.len() / W {
        value = lane_if_counted::<W>(source, mask, lane, wanted, value);
    }
    value
}

/// The lane whose number is how many lanes below `lane` the mask has.
pub(crate) fn expanded<const W: usize>(source: &[u8], mask: u64, lane: usize) -> u64
    requires width { IsTrue (is_size W) }
    requires length { IsLength (length source.now) }
    requires in_range { lane * W + W ≤ length source.now }
    ensures { result ≡ lane_of W source.now (masked_below_of mask lane) }
{
    get_lane::<W>(source, masked_below(mask, lane))
}
