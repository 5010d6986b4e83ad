//! One lane of an operation.
ghost use Rattle.std.specs.Prelude.{◌≡◌, ◌+◌, ◌*◌, ◌%◌, ◌^◌, ◌≤◌, length, IsTrue};
ghost use Rattle.gpr_flags.specs.Registers.{is_size};
ghost use Rattle.num_lanes.specs.Lane.{IsLength};
ghost use Rattle.width_kernels.specs.WidthOps.{lane_raw};

use crate::masked::{expanded, masked_lane};
use crate::widths::{lane_or_zero, nearest_signed, nearest_unsigned, signed_lane};
use row_table::WidthOp;

/// A number of which the low bits are a lane of an operation's result.
#[tactic(auto, unfolding(crate::specs::WidthOps::lane_raw))]
pub(crate) fn one_lane<const W: usize>(op: WidthOp, source: &[u8], mask: u64, lane: usize) -> u64
    requires width { IsTrue (is_size W) }
    requires length { IsLength (length source.now) }
    requires in_range { lane * W + W ≤ length source.now }
    ensures { result % 2 ^ (8 * W) ≡ lane_raw op W (8 * W) source.now mask lane % 2 ^ (8 * W) }
{
    let bits = 8 * W as u32;
    match op {
        WidthOp::Pmovsxb => signed_lane::<1>(bits, source, lane),
        WidthOp::Pmovsxw => signed_lane::<2>(bits, source, lane),
        WidthOp::Pmovsxd => signed_lane::<4>(bits, source, lane),
        WidthOp::Pmovzxb => lane_or_zero::<1>(source, lane),
        WidthOp::Pmovzxw | WidthOp::Vpmovw => lane_or_zero::<2>(source, lane),
        WidthOp::Pmovzxd | WidthOp::Vpmovd => lane_or_zero::<4>(source, lane),
        WidthOp::Vpmovq => lane_or_zero::<8>(source, lane),
        WidthOp::Vpmovusw => nearest_unsigned::<2>(bits, source, lane),
        WidthOp::Vpmovusd => nearest_unsigned::<4>(bits, source, lane),
        WidthOp::Vpmovusq => nearest_unsigned::<8>(bits, source, lane),
        WidthOp::Vpmovsw => nearest_signed::<2>(bits, source, lane),
        WidthOp::Vpmovsd => nearest_signed::<4>(bits, source, lane),
        WidthOp::Vpmovsq => nearest_signed::<8>(bits, source, lane),
        WidthOp::Vpcompress => masked_lane::<W>(source, mask, lane),
        WidthOp::Vpexpand => expanded::<W>(source, mask, lane),
    }
}
