//! An operation on all lanes.
ghost use Rattle.std.specs.Prelude.{◌≡◌, length, IsTrue};
ghost use Rattle.gpr_flags.specs.Registers.{is_size};
ghost use Rattle.num_lanes.specs.Lane.{IsLength, LanesAre};
ghost use Rattle.width_kernels.specs.WidthOps.{is_handled, op_lane, lane_op};

use crate::lane::one_lane;
use num_lanes::set_lane;
use row_table::{Op, WidthOp};

/// Whether an operation is one of this crate.
#[tactic(auto, unfolding(crate::specs::WidthOps::is_handled))]
pub fn handles(op: Op) -> bool
    ensures { result ≡ is_handled op }
{
    match op {
        Op::Width(_) => true,
        Op::Core(_)
        | Op::Gpr(_)
        | Op::Bit(_)
        | Op::String(_)
        | Op::Lane(_)
        | Op::Cross(_)
        | Op::Mac(_)
        | Op::Mask(_)
        | Op::Vector(_)
        | Op::Gather(_)
        | Op::Xsave(_) => false,
    }
}

/// An operation on lanes of `W` bytes.
fn apply_at<const W: usize>(op: WidthOp, source: &[u8], mask: u64, into: &mut [u8])
    requires width { IsTrue (is_size W) }
    requires length { IsLength (length into.old) }
    requires source { length source.now ≡ length into.old }
    ensures { LanesAre W into.new (lane_op op W source.now mask) }
{
    for lane in 0..into.len() / W {
        let value = one_lane::<W>(op, source, mask, lane);
        set_lane::<W>(into, lane, value);
    }
}

/// Puts the result of an operation into each lane of `into`, of lanes of `width` bytes. All slices have the vector's length, 16, 32
/// or 64 bytes. An operation takes `second`. The mask is of lanes, the lowest bit for the lowest; an operation of widths alone
/// doesn't look at it.
#[tactic(auto, unfolding(crate::specs::WidthOps::is_handled, crate::specs::WidthOps::op_lane))]
pub fn apply(
    op: Op,
    width: u8,
    imm: u8,
    dest: &[u8],
    first: &[u8],
    second: &[u8],
    mask: u64,
    into: &mut [u8],
)
    requires op { IsTrue (is_handled op) }
    requires width { IsTrue (is_size width) }
    requires length { IsLength (length into.old) }
    requires dest { length dest.now ≡ length into.old }
    requires first { length first.now ≡ length into.old }
    requires second { length second.now ≡ length into.old }
    ensures { LanesAre width into.new (op_lane op width imm dest.now first.now second.now mask) }
{
    let Op::Width(op) = op else {
        return;
    };
    match width {
        1 => apply_at::<1>(op, second, mask, into),
        2 => apply_at::<2>(op, second, mask, into),
        4 => apply_at::<4>(op, second, mask, into),
        _ => apply_at::<8>(op, second, mask, into),
    }
}
