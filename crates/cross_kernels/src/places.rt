//! Lanes by their number, their places in blocks of 128 bits, and the places that an immediate names.
ghost use Rattle.std.specs.Prelude.{◌≡◌, ◌+◌, ◌*◌, ◌/◌, ◌%◌, ◌^◌, ◌<◌, ◌≤◌, length, IsTrue, if◌then◌else◌, nat_lt};
ghost use Rattle.std.specs.Int.{bit_at};
ghost use Rattle.gpr_flags.specs.Registers.{is_size};
ghost use Rattle.num_lanes.specs.Lane.{IsLength, lane_of};
ghost use Rattle.cross_kernels.specs.CrossOps.{per_block as per_block_of, block_of as block_by, block_start as start_of, place_of as place_by, two_bits as two_bits_of, of_both as of_both_by};

use num_lanes::get_lane;

/// How many lanes bytes have.
pub(crate) fn lane_count<const W: usize>(bytes: &[u8]) -> usize
    requires width { IsTrue (is_size W) }
    requires length { IsLength (length bytes.now) }
    ensures value { result ≡ length bytes.now / W }
    ensures some { 0 < result }
    ensures most { result ≤ 64 }
{
    bytes.len() / W
}

/// The number in a lane, or 0 where the bytes end before it.
pub(crate) fn lane_at<const W: usize>(bytes: &[u8], lane: usize) -> u64
    requires width { IsTrue (is_size W) }
    requires length { IsLength (length bytes.now) }
    ensures value { result ≡ lane_of W bytes.now lane }
    ensures small { result < 2 ^ (8 * W) }
{
    if lane < bytes.len() / W {
        get_lane::<W>(bytes, lane)
    } else {
        0
    }
}

/// A lane of one of two operands.
pub(crate) fn one_of<const W: usize>(
    of_first: bool,
    first: &[u8],
    second: &[u8],
    lane: usize,
) -> u64
    requires width { IsTrue (is_size W) }
    requires first { IsLength (length first.now) }
    requires second { IsLength (length second.now) }
    ensures value { result ≡ (if of_first then lane_of W first.now lane else lane_of W second.now lane) }
    ensures small { result < 2 ^ (8 * W) }
{
    if of_first {
        lane_at::<W>(first, lane)
    } else {
        lane_at::<W>(second, lane)
    }
}

/// A lane of two operands as one, of which `high` is the upper.
pub(crate) fn of_both<const W: usize>(low: &[u8], high: &[u8], lane: usize) -> u64
    requires width { IsTrue (is_size W) }
    requires low { IsLength (length low.now) }
    requires high { IsLength (length high.now) }
    ensures { result ≡ of_both_by (length low.now / W) (lane_of W low.now) (lane_of W high.now) lane }
{
    let count = lane_count::<W>(low);
    if lane < count {
        lane_at::<W>(low, lane)
    } else {
        lane_at::<W>(high, lane - count)
    }
}

/// How many lanes a block of 128 bits has.
pub(crate) fn per_block<const W: usize>() -> usize
    requires { IsTrue (is_size W) }
    ensures value { result ≡ per_block_of W }
    ensures some { 0 < result }
    ensures most { result ≤ 16 }
{
    16 / W
}

/// The number of the block that a lane is in.
pub(crate) fn block_of<const W: usize>(lane: usize) -> usize
    requires width { IsTrue (is_size W) }
    requires lane { lane < 64 }
    ensures value { result ≡ block_by W lane }
    ensures small { result < 32 }
{
    lane / per_block::<W>()
}

/// The first lane of that block.
pub(crate) fn block_start<const W: usize>(lane: usize) -> usize
    requires width { IsTrue (is_size W) }
    requires lane { lane < 64 }
    ensures value { result ≡ start_of W lane }
    ensures most { result ≤ lane }
{
    let per = per_block::<W>();
    lane / per * per
}

/// The place of a lane in its block.
pub(crate) fn place_of<const W: usize>(lane: usize) -> usize
    requires { IsTrue (is_size W) }
    ensures value { result ≡ place_by W lane }
    ensures small { result < 16 }
{
    lane % per_block::<W>()
}

/// Two bits of an immediate, the field of that number; it has four.
pub(crate) fn two_bits(imm: u8, field: usize) -> usize
    ensures value { result ≡ two_bits_of imm field }
    ensures small { result < 4 }
{
    if field < 4 {
        usize::from((imm >> (2 * field)) % 4)
    } else {
        0
    }
}

/// One bit of an immediate, which has eight.
pub(crate) fn one_bit(imm: u8, place: usize) -> usize
    ensures value { result ≡ bit_at imm place }
    ensures small { result < 2 }
{
    if place < 8 {
        usize::from((imm >> place) % 2)
    } else {
        0
    }
}
