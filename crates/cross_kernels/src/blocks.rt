//! Blocks of 128 and 256 bits, lanes that are put among others or taken from them, and shifts of blocks.
ghost use Rattle.std.specs.Prelude.{◌≡◌, ◌+◌, ◌-◌, ◌*◌, ◌/◌, ◌%◌, ◌^◌, ◌<◌, ◌≤◌, ◌==◌, length, IsTrue, if◌then◌else◌, nat_lt};
ghost use Rattle.gpr_flags.specs.Registers.{is_size};
ghost use Rattle.gpr_flags.specs.Numbers.{has_bit as has_bit_of};
ghost use Rattle.num_lanes.specs.Lane.{IsLength, lane_of};
ghost use Rattle.cross_kernels.specs.CrossOps.{per_block as per_block_of, block_of as block_by, place_of as place_by, two_bits as two_bits_of, of_both as of_both_by, named_block as named_block_of, inserted as inserted_of, extracted as extracted_of, with_single as with_single_of};

use crate::places::{
    block_of, lane_at, lane_count, of_both, one_bit, one_of, per_block, place_of, two_bits,
};
use gpr_flags::has_bit;

/// One of two numbers.
pub(crate) fn choose(first: bool, a: u64, b: u64) -> u64
    ensures { result ≡ (if first then a else b) }
{
    if first { a } else { b }
}

/// The lane at a lane's place in another block.
fn in_block<const W: usize>(block: usize, lane: usize) -> usize
    requires width { IsTrue (is_size W) }
    requires block { block < 32 }
    ensures value { result ≡ block * per_block_of W + place_by W lane }
    ensures small { result < 1024 }
{
    block * per_block::<W>() + place_of::<W>(lane)
}

/// How many blocks an operand has.
pub(crate) fn block_count<const W: usize>(bytes: &[u8]) -> usize
    requires width { IsTrue (is_size W) }
    requires length { IsLength (length bytes.now) }
    ensures value { result ≡ length bytes.now / W / per_block_of W }
    ensures some { 0 < result }
    ensures most { result ≤ 4 }
{
    lane_count::<W>(bytes) / per_block::<W>()
}

/// The block that an immediate names for that of a lane: by two bits where there are four, else by one.
fn named_block<const W: usize>(imm: u8, bytes: &[u8], lane: usize) -> usize
    requires width { IsTrue (is_size W) }
    requires length { IsLength (length bytes.now) }
    requires lane { lane < 64 }
    ensures value { result ≡ named_block_of W (length bytes.now / W) imm lane }
    ensures small { result < 4 }
{
    let block = block_of::<W>(lane);
    if lane_count::<W>(bytes) == 4 * per_block::<W>() {
        two_bits(imm, block)
    } else {
        one_bit(imm, block)
    }
}

/// A lane of the block that an immediate names, of the first operand for the lower half of the lanes, of the second for the upper.
pub(crate) fn by_named_block<const W: usize>(
    imm: u8,
    first: &[u8],
    second: &[u8],
    lane: usize,
) -> u64
    requires width { IsTrue (is_size W) }
    requires first { IsLength (length first.now) }
    requires second { IsLength (length second.now) }
    requires lane { lane < 64 }
    ensures { let k = named_block_of W (length second.now / W) imm lane * per_block_of W + place_by W lane in
        result ≡ (if nat_lt lane (length second.now / W / 2) then lane_of W first.now k else lane_of W second.now k) }
{
    let block = named_block::<W>(imm, second, lane);
    one_of::<W>(
        lane < lane_count::<W>(second) / 2,
        first,
        second,
        in_block::<W>(block, lane),
    )
}

/// A lane of the half that four bits of an immediate name, of both operands, or 0.
pub(crate) fn by_named_half<const W: usize>(
    imm: u8,
    first: &[u8],
    second: &[u8],
    lane: usize,
) -> u64
    requires width { IsTrue (is_size W) }
    requires first { IsLength (length first.now) }
    requires second { IsLength (length second.now) }
    requires lane { lane < 64 }
    ensures { result ≡ (if has_bit_of imm (4 * block_by W lane + 3) then 0
        else of_both_by (length first.now / W) (lane_of W first.now) (lane_of W second.now)
        (two_bits_of imm (2 * block_by W lane) * per_block_of W + place_by W lane)) }
{
    let half = block_of::<W>(lane);
    if one_bit(imm, 4 * half + 3) == 1 {
        0
    } else {
        of_both::<W>(first, second, in_block::<W>(two_bits(imm, 2 * half), lane))
    }
}

/// The blocks of so many lanes of the first operand, of which one is replaced by the lowest of the second.
pub(crate) fn inserted<const W: usize>(
    size: usize,
    number: usize,
    first: &[u8],
    second: &[u8],
    lane: usize,
) -> u64
    requires width { IsTrue (is_size W) }
    requires first { IsLength (length first.now) }
    requires second { IsLength (length second.now) }
    requires size { 0 < size }
    ensures { result ≡ inserted_of size number (lane_of W first.now) (lane_of W second.now) lane }
{
    if lane / size == number {
        lane_at::<W>(second, lane % size)
    } else {
        lane_at::<W>(first, lane)
    }
}

/// A block of so many lanes, and 0 above it.
pub(crate) fn extracted<const W: usize>(
    size: usize,
    number: usize,
    second: &[u8],
    lane: usize,
) -> u64
    requires width { IsTrue (is_size W) }
    requires second { IsLength (length second.now) }
    requires size { size ≤ 32 }
    requires number { number < 4 }
    requires lane { lane < 64 }
    ensures { result ≡ extracted_of size number (lane_of W second.now) lane }
{
    if lane < size {
        lane_at::<W>(second, number * size + lane)
    } else {
        0
    }
}

/// The first operand with a number in the lane of bits 5:4, and 0 where bits 3:0 are set.
pub(crate) fn with_single<const W: usize>(imm: u8, number: u64, first: &[u8], lane: usize) -> u64
    requires width { IsTrue (is_size W) }
    requires first { IsLength (length first.now) }
    requires lane { lane < 64 }
    ensures { result ≡ with_single_of imm number (lane_of W first.now) lane }
{
    if has_bit(u64::from(imm), lane as u32) {
        0
    } else if lane == two_bits(imm, 2) {
        number
    } else {
        lane_at::<W>(first, lane)
    }
}

/// A block shifted right by so many lanes.
pub(crate) fn block_right<const W: usize>(count: u8, first: &[u8], lane: usize) -> u64
    requires width { IsTrue (is_size W) }
    requires first { IsLength (length first.now) }
    requires lane { lane < 64 }
    ensures { result ≡ (if nat_lt (place_by W lane + count) (per_block_of W) then lane_of W first.now (lane + count) else 0) }
{
    let count = usize::from(count);
    if place_of::<W>(lane) + count < per_block::<W>() {
        lane_at::<W>(first, lane + count)
    } else {
        0
    }
}

/// A block shifted left by so many lanes.
pub(crate) fn block_left<const W: usize>(count: u8, first: &[u8], lane: usize) -> u64
    requires width { IsTrue (is_size W) }
    requires first { IsLength (length first.now) }
    requires lane { lane < 64 }
    ensures { result ≡ (if nat_lt (place_by W lane) count then 0 else lane_of W first.now (lane - count)) }
{
    let count = usize::from(count);
    if place_of::<W>(lane) < count {
        0
    } else {
        lane_at::<W>(first, lane.saturating_sub(count))
    }
}
