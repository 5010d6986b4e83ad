//! One lane of an operation.
ghost use Rattle.std.specs.Prelude.{◌≡◌, ◌+◌, ◌*◌, ◌/◌, ◌%◌, ◌^◌, ◌<◌, ◌≤◌, length, IsTrue};
ghost use Rattle.gpr_flags.specs.Registers.{is_size};
ghost use Rattle.num_lanes.specs.Lane.{IsLength, lane_of};
ghost use Rattle.cross_kernels.specs.CrossOps.{lane_raw};

use crate::blocks::{
    block_count, block_left, block_right, by_named_block, by_named_half, choose, extracted,
    inserted, with_single,
};
use crate::interleaving::{in_turn, wide_in_row};
use crate::places::{
    block_start, lane_at, lane_count, of_both, one_of, per_block, place_of, two_bits,
};
use crate::shuffles::{
    by_halves, by_lane, by_two_bits, lower_four, named_place, of_blocks, place_in, upper_four,
};
use gpr_flags::has_bit;
use num_lanes::{clamp_signed, clamp_unsigned, ones_where};
use row_table::CrossOp;

/// What of an instruction counts for all lanes: its immediate, its mask, and the low 64 bits of the second operand.
#[derive(Clone, Copy)]
pub(crate) struct Common {
    pub imm: u8,
    pub mask: u64,
    pub low: u64,
}

/// A number of which the low bits are a lane of an operation's result.
#[tactic(auto, unfolding(crate::specs::CrossOps::lane_raw))]
pub(crate) fn one_lane<const W: usize>(
    op: CrossOp,
    common: Common,
    dest: &[u8],
    first: &[u8],
    second: &[u8],
    lane: usize,
) -> u64
    requires width { IsTrue (is_size W) }
    requires length { IsLength (length second.now) }
    requires dest { length dest.now ≡ length second.now }
    requires first { length first.now ≡ length second.now }
    requires lane { lane < 64 }
    ensures { result % 2 ^ (8 * W)
        ≡ lane_raw op W (length second.now / W) common.imm common.mask
        (lane_of W dest.now) (lane_of W first.now) (lane_of W second.now) common.low lane % 2 ^ (8 * W) }
{
    let Common { imm, mask, low } = common;
    let bits = 8 * W as u32;
    let amount = usize::from(imm);
    let count = lane_count::<W>(second);
    let per = per_block::<W>();
    let start = block_start::<W>(lane);
    let place = place_of::<W>(lane);
    let d = lane_at::<W>(dest, lane);
    let a = lane_at::<W>(first, lane);
    let b = lane_at::<W>(second, lane);
    match op {
        CrossOp::Punpckl | CrossOp::Unpckl => in_turn::<W>(0, first, second, lane),
        CrossOp::Punpckh | CrossOp::Unpckh => in_turn::<W>(per / 2, first, second, lane),
        CrossOp::Packss => clamp_signed(wide_in_row::<W>(first, second, lane), bits),
        CrossOp::Packus => clamp_unsigned(wide_in_row::<W>(first, second, lane), bits),
        CrossOp::Pshufb => by_lane::<W>(first, second, lane),
        CrossOp::Pshufd => by_two_bits::<W>(imm, second, lane),
        CrossOp::Pshufhw => upper_four::<W>(imm, second, lane),
        CrossOp::Pshuflw => lower_four::<W>(imm, second, lane),
        CrossOp::Palignr => of_blocks::<W>(second, first, lane, place + amount),
        CrossOp::Valign => of_both::<W>(second, first, lane + amount % count),
        CrossOp::Vperm | CrossOp::Vpermp => lane_at::<W>(second, a as usize % count),
        CrossOp::Vpermq | CrossOp::Vpermpd => {
            lane_at::<W>(second, lane / 4 * 4 + two_bits(imm, lane % 4))
        }
        CrossOp::Vpermi2 => of_both::<W>(first, second, d as usize % (2 * count)),
        CrossOp::Vpermt2 => of_both::<W>(dest, second, a as usize % (2 * count)),
        CrossOp::Vpermilp => lane_at::<W>(first, start + place_in::<W>(b)),
        CrossOp::VpermilpIb => lane_at::<W>(second, start + named_place::<W>(imm, lane)),
        CrossOp::Shuf => by_halves::<W>(imm, first, second, lane),
        CrossOp::Vshuf => by_named_block::<W>(imm, first, second, lane),
        CrossOp::Vperm2f128 | CrossOp::Vperm2i128 => by_named_half::<W>(imm, first, second, lane),
        CrossOp::Pblend => choose(has_bit(u64::from(imm), place as u32), b, a),
        CrossOp::Blendp | CrossOp::Vpblend => choose(has_bit(u64::from(imm), lane as u32), b, a),
        CrossOp::Pblendv | CrossOp::Blendvp => choose(has_bit(mask, lane as u32), b, a),
        CrossOp::Vpblendm | CrossOp::Vpmov2m => b,
        CrossOp::Broadcast => lane_at::<W>(second, 0),
        CrossOp::Broadcast2 => lane_at::<W>(second, lane % 2),
        CrossOp::Broadcast4 => lane_at::<W>(second, lane % 4),
        CrossOp::Broadcast8 => lane_at::<W>(second, lane % 8),
        CrossOp::Vpbroadcastm => choose(W == 8, low % (1 << 8), low % (1 << 16)),
        CrossOp::Vpmovm2 => ones_where(bits, has_bit(low, lane as u32)),
        CrossOp::Insert128 => {
            inserted::<W>(per, amount % block_count::<W>(second), first, second, lane)
        }
        CrossOp::Insert256 => inserted::<W>(2 * per, amount % 2, first, second, lane),
        CrossOp::Extract128 => {
            extracted::<W>(per, amount % block_count::<W>(second), second, lane)
        }
        CrossOp::Extract256 => extracted::<W>(2 * per, amount % 2, second, lane),
        CrossOp::Pinsr => choose(lane == amount % per, lane_at::<W>(second, 0), a),
        CrossOp::Pextr => choose(lane == 0, lane_at::<W>(second, amount % per), 0),
        CrossOp::Insertps => {
            with_single::<W>(imm, lane_at::<W>(second, two_bits(imm, 3)), first, lane)
        }
        CrossOp::InsertpsLoad => with_single::<W>(imm, lane_at::<W>(second, 0), first, lane),
        CrossOp::Extractps => choose(lane == 0, lane_at::<W>(second, amount % 4), 0),
        CrossOp::Psrldq => block_right::<W>(imm, first, lane),
        CrossOp::Pslldq => block_left::<W>(imm, first, lane),
    }
}
