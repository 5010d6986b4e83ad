//! Lanes of two operands in turn, and numbers of twice the width, saturated.
ghost use Rattle.std.specs.Prelude.{◌≡◌, ◌+◌, ◌*◌, ◌/◌, ◌%◌, ◌^◌, ◌<◌, ◌≤◌, length, IsTrue};
ghost use Rattle.gpr_flags.specs.Registers.{is_size};
ghost use Rattle.gpr_flags.specs.Numbers.{signed_of};
ghost use Rattle.num_lanes.specs.Lane.{IsLength, lane_of};
ghost use Rattle.cross_kernels.specs.CrossOps.{in_turn as in_turn_by, wide_in_row as wide_in_row_of};

use crate::places::{block_start, one_of, per_block, place_of};
use gpr_flags::{power, signed};

/// The lanes of two operands in turn, those of the block from a place of it on.
pub(crate) fn in_turn<const W: usize>(from: usize, first: &[u8], second: &[u8], lane: usize) -> u64
    requires width { IsTrue (is_size W) }
    requires first { IsLength (length first.now) }
    requires second { IsLength (length second.now) }
    requires from { from ≤ 16 }
    requires lane { lane < 64 }
    ensures { result ≡ in_turn_by W from (lane_of W first.now) (lane_of W second.now) lane }
{
    let place = place_of::<W>(lane);
    one_of::<W>(
        place % 2 == 0,
        first,
        second,
        block_start::<W>(lane) + from + place / 2,
    )
}

/// The number in two's complement of which these are the lower and the upper half.
fn signed_pair(bits: u32, low: u64, high: u64) -> i128
    requires some { 0 < bits }
    requires most { bits ≤ 64 }
    requires low { low < 2 ^ bits }
    requires high { high < 2 ^ bits }
    ensures { result ≡ signed_of (2 * bits) (low + 2 ^ bits * high) }
{
    i128::from(signed(bits, high)) * power(bits) as i128 + i128::from(low)
}

/// The numbers of twice the width, one a lane: those of the first operand's block, and then those of the second's.
pub(crate) fn wide_in_row<const W: usize>(first: &[u8], second: &[u8], lane: usize) -> i128
    requires width { IsTrue (is_size W) }
    requires first { IsLength (length first.now) }
    requires second { IsLength (length second.now) }
    requires lane { lane < 64 }
    ensures { result ≡ wide_in_row_of W (lane_of W first.now) (lane_of W second.now) lane }
{
    let place = place_of::<W>(lane);
    let half = per_block::<W>() / 2;
    let pair = block_start::<W>(lane) + 2 * (place % half);
    let low = one_of::<W>(place < half, first, second, pair);
    let high = one_of::<W>(place < half, first, second, pair + 1);
    signed_pair(8 * W as u32, low, high)
}
