//! Sums and differences of the two lanes of a pair.
ghost use Rattle.std.specs.Prelude.{◌≡◌, pos, ◌+◌, ◌-ℤ◌, ◌+ℤ◌, ◌*◌, ◌%◌, ◌^◌, ◌<◌, ◌≤◌, length, IsTrue};
ghost use Rattle.gpr_flags.specs.Registers.{is_size};
ghost use Rattle.gpr_flags.specs.Numbers.{low_of, signed_of};
ghost use Rattle.num_lanes.specs.Lane.{IsLength};
ghost use Rattle.num_lanes.specs.Ranges.{clamp_signed_of};
ghost use Rattle.mac_kernels.specs.MacOps.{of_pair as lane_of_pair};

use gpr_flags::{low, low_signed};
use num_lanes::{add_signed, get_lane, subtract_signed};

/// A lane of the pair that a lane of the result is of: the lower one, or the upper one.
fn of_pair<const W: usize>(first: &[u8], second: &[u8], lane: usize, upper: usize) -> u64
    requires width { IsTrue (is_size W) }
    requires length { IsLength (length second.now) }
    requires first { length first.now ≡ length second.now }
    requires in_range { lane * W + W ≤ length second.now }
    requires upper { upper < 2 }
    ensures value { result ≡ lane_of_pair W first.now second.now lane upper }
    ensures small { result < 2 ^ (8 * W) }
{
    let lanes = 16 / W;
    let place = lane / lanes * lanes + 2 * (lane % (lanes / 2)) + upper;
    if lane % lanes < lanes / 2 {
        get_lane::<W>(first, place)
    } else {
        get_lane::<W>(second, place)
    }
}

/// The sum of the lanes of a pair.
pub(crate) fn pair_sum<const W: usize>(first: &[u8], second: &[u8], lane: usize) -> u64
    requires width { IsTrue (is_size W) }
    requires length { IsLength (length second.now) }
    requires first { length first.now ≡ length second.now }
    requires in_range { lane * W + W ≤ length second.now }
    ensures { result % 2 ^ (8 * W)
        ≡ (lane_of_pair W first.now second.now lane 0 + lane_of_pair W first.now second.now lane 1) % 2 ^ (8 * W) }
{
    let lower = of_pair::<W>(first, second, lane, 0);
    let upper = of_pair::<W>(first, second, lane, 1);
    low(8 * W as u32, u128::from(lower) + u128::from(upper))
}

/// The same with signed saturation.
pub(crate) fn pair_sum_signed<const W: usize>(first: &[u8], second: &[u8], lane: usize) -> u64
    requires width { IsTrue (is_size W) }
    requires length { IsLength (length second.now) }
    requires first { length first.now ≡ length second.now }
    requires in_range { lane * W + W ≤ length second.now }
    ensures { result ≡ clamp_signed_of (8 * W)
        (signed_of (8 * W) (lane_of_pair W first.now second.now lane 0) +ℤ signed_of (8 * W) (lane_of_pair W first.now second.now lane 1)) }
{
    let lower = of_pair::<W>(first, second, lane, 0);
    let upper = of_pair::<W>(first, second, lane, 1);
    add_signed(8 * W as u32, lower, upper)
}

/// The lower lane of a pair, less the upper one.
pub(crate) fn pair_difference<const W: usize>(first: &[u8], second: &[u8], lane: usize) -> u64
    requires width { IsTrue (is_size W) }
    requires length { IsLength (length second.now) }
    requires first { length first.now ≡ length second.now }
    requires in_range { lane * W + W ≤ length second.now }
    ensures { result ≡ low_of (8 * W)
        (pos (lane_of_pair W first.now second.now lane 0) -ℤ pos (lane_of_pair W first.now second.now lane 1)) }
{
    let lower = of_pair::<W>(first, second, lane, 0);
    let upper = of_pair::<W>(first, second, lane, 1);
    low_signed(8 * W as u32, i128::from(lower) - i128::from(upper))
}

/// The same with signed saturation.
pub(crate) fn pair_difference_signed<const W: usize>(
    first: &[u8],
    second: &[u8],
    lane: usize,
) -> u64
    requires width { IsTrue (is_size W) }
    requires length { IsLength (length second.now) }
    requires first { length first.now ≡ length second.now }
    requires in_range { lane * W + W ≤ length second.now }
    ensures { result ≡ clamp_signed_of (8 * W)
        (signed_of (8 * W) (lane_of_pair W first.now second.now lane 0) -ℤ signed_of (8 * W) (lane_of_pair W first.now second.now lane 1)) }
{
    let lower = of_pair::<W>(first, second, lane, 0);
    let upper = of_pair::<W>(first, second, lane, 1);
    subtract_signed(8 * W as u32, lower, upper)
}
