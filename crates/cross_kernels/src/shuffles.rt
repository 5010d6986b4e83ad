//! Lanes by an immediate or an index, within a block of 128 bits.
ghost use Rattle.std.specs.Prelude.{◌≡◌, ◌+◌, ◌-◌, ◌*◌, ◌/◌, ◌%◌, ◌^◌, ◌<◌, ◌≤◌, ◌==◌, length, IsTrue, if◌then◌else◌, nat_lt};
ghost use Rattle.gpr_flags.specs.Registers.{is_size};
ghost use Rattle.gpr_flags.specs.Numbers.{is_negative as is_negative_of};
ghost use Rattle.num_lanes.specs.Lane.{IsLength, lane_of};
ghost use Rattle.cross_kernels.specs.CrossOps.{per_block as per_block_of, block_start as start_of, place_of as place_by, two_bits as two_bits_of, named_place as named_place_of, of_blocks as of_blocks_by};

use crate::places::{block_start, lane_at, one_bit, one_of, per_block, place_of, two_bits};
use gpr_flags::is_negative;

/// The lane of the block that the lane of the second operand names, or 0 where that has its highest bit.
pub(crate) fn by_lane<const W: usize>(first: &[u8], second: &[u8], lane: usize) -> u64
    requires width { IsTrue (is_size W) }
    requires first { IsLength (length first.now) }
    requires second { IsLength (length second.now) }
    requires lane { lane < 64 }
    ensures { result ≡ (if is_negative_of (8 * W) (lane_of W second.now lane) then 0
        else lane_of W first.now (start_of W lane + lane_of W second.now lane % per_block_of W)) }
{
    let index = lane_at::<W>(second, lane);
    if is_negative(8 * W as u32, index) {
        0
    } else {
        lane_at::<W>(
            first,
            block_start::<W>(lane) + index as usize % per_block::<W>(),
        )
    }
}

/// The lane of the block that two bits of an immediate name.
pub(crate) fn by_two_bits<const W: usize>(imm: u8, second: &[u8], lane: usize) -> u64
    requires width { IsTrue (is_size W) }
    requires second { IsLength (length second.now) }
    requires lane { lane < 64 }
    ensures { result ≡ lane_of W second.now (start_of W lane + two_bits_of imm (place_by W lane)) }
{
    lane_at::<W>(
        second,
        block_start::<W>(lane) + two_bits(imm, place_of::<W>(lane)),
    )
}

/// The same for the lower four lanes of the block; the others stay.
pub(crate) fn lower_four<const W: usize>(imm: u8, second: &[u8], lane: usize) -> u64
    requires width { IsTrue (is_size W) }
    requires second { IsLength (length second.now) }
    requires lane { lane < 64 }
    ensures { result ≡ (if nat_lt (place_by W lane) 4
        then lane_of W second.now (start_of W lane + two_bits_of imm (place_by W lane)) else lane_of W second.now lane) }
{
    if place_of::<W>(lane) < 4 {
        by_two_bits::<W>(imm, second, lane)
    } else {
        lane_at::<W>(second, lane)
    }
}

/// The same for the upper four lanes of a block of eight, and among these.
pub(crate) fn upper_four<const W: usize>(imm: u8, second: &[u8], lane: usize) -> u64
    requires width { IsTrue (is_size W) }
    requires second { IsLength (length second.now) }
    requires lane { lane < 64 }
    ensures { result ≡ (if nat_lt (place_by W lane) 4 then lane_of W second.now lane
        else lane_of W second.now (start_of W lane + 4 + two_bits_of imm (place_by W lane - 4))) }
{
    let place = place_of::<W>(lane);
    if place < 4 {
        lane_at::<W>(second, lane)
    } else {
        lane_at::<W>(
            second,
            block_start::<W>(lane) + 4 + two_bits(imm, place - 4),
        )
    }
}

/// A lane of two blocks as one, of which that of `high` is the upper, and 0 above both.
pub(crate) fn of_blocks<const W: usize>(low: &[u8], high: &[u8], lane: usize, place: usize) -> u64
    requires width { IsTrue (is_size W) }
    requires low { IsLength (length low.now) }
    requires high { IsLength (length high.now) }
    requires lane { lane < 64 }
    requires place { place < 1024 }
    ensures { result ≡ of_blocks_by W lane (lane_of W low.now) (lane_of W high.now) place }
{
    let start = block_start::<W>(lane);
    let per = per_block::<W>();
    if place < per {
        lane_at::<W>(low, start + place)
    } else if place < 2 * per {
        lane_at::<W>(high, start + (place - per))
    } else {
        0
    }
}

/// The place in the block that an immediate names for a lane: by one bit where lanes have 8 bytes, else by two bits for each place.
pub(crate) fn named_place<const W: usize>(imm: u8, lane: usize) -> usize
    requires width { IsTrue (is_size W) }
    requires lane { lane < 64 }
    ensures value { result ≡ named_place_of W imm lane }
    ensures small { result < 4 }
{
    if W == 8 {
        one_bit(imm, lane)
    } else {
        two_bits(imm, place_of::<W>(lane))
    }
}

/// The lane that an immediate names: of the first operand for the lower half of the block, of the second for the upper.
pub(crate) fn by_halves<const W: usize>(imm: u8, first: &[u8], second: &[u8], lane: usize) -> u64
    requires width { IsTrue (is_size W) }
    requires first { IsLength (length first.now) }
    requires second { IsLength (length second.now) }
    requires lane { lane < 64 }
    ensures { let k = start_of W lane + named_place_of W imm lane in
        result ≡ (if nat_lt (place_by W lane) (per_block_of W / 2) then lane_of W first.now k else lane_of W second.now k) }
{
    let of_first = place_of::<W>(lane) < per_block::<W>() / 2;
    one_of::<W>(
        of_first,
        first,
        second,
        block_start::<W>(lane) + named_place::<W>(imm, lane),
    )
}

/// The place in a block that a lane names: by bit 1 of a lane of 8 bytes, by the low two bits of any other.
pub(crate) fn place_in<const W: usize>(index: u64) -> usize
    requires { IsTrue (is_size W) }
    ensures value { result ≡ (if W == 8 then index / 2 % 2 else index % 4) }
    ensures small { result < 4 }
{
    if W == 8 {
        (index / 2 % 2) as usize
    } else {
        (index % 4) as usize
    }
}
