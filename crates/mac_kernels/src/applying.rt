//! An operation on all lanes.
ghost use Rattle.std.specs.Prelude.{◌≡◌, length, IsTrue};
ghost use Rattle.gpr_flags.specs.Registers.{is_size};
ghost use Rattle.num_lanes.specs.Lane.{IsLength, LanesAre};
ghost use Rattle.mac_kernels.specs.MacOps.{is_handled, op_lane, lane_op};

use crate::lane::one_lane;
use num_lanes::set_lane;
use row_table::{MacOp, Op};

/// Whether an operation is one of this crate.
#[tactic(auto, unfolding(crate::specs::MacOps::is_handled))]
pub fn handles(op: Op) -> bool
    ensures { result ≡ is_handled op }
{
    match op {
        Op::Mac(_) => true,
        Op::Core(_)
        | Op::Gpr(_)
        | Op::Bit(_)
        | Op::String(_)
        | Op::Lane(_)
        | Op::Cross(_)
        | Op::Width(_)
        | Op::Mask(_)
        | Op::Vector(_)
        | Op::Gather(_)
        | Op::Xsave(_) => false,
    }
}

/// An operation on lanes of `W` bytes.
fn apply_at<const W: usize>(
    op: MacOp,
    imm: u8,
    dest: &[u8],
    first: &[u8],
    second: &[u8],
    into: &mut [u8],
)
    requires width { IsTrue (is_size W) }
    requires length { IsLength (length into.old) }
    requires dest { length dest.now ≡ length into.old }
    requires first { length first.now ≡ length into.old }
    requires second { length second.now ≡ length into.old }
    ensures { LanesAre W into.new (lane_op op W imm dest.now first.now second.now) }
{
    for lane in 0..into.len() / W {
        let value = one_lane::<W>(op, imm, dest, first, second, lane);
        set_lane::<W>(into, lane, value);
    }
}

/// Puts the result of an operation into each lane of `into`, of lanes of `width` bytes. All slices have the vector's length, 16, 32
/// or 64 bytes. An operation of one source takes `second`. No operation looks at the mask.
#[tactic(auto, unfolding(crate::specs::MacOps::is_handled, crate::specs::MacOps::op_lane))]
pub fn apply(
    op: Op,
    width: u8,
    imm: u8,
    dest: &[u8],
    first: &[u8],
    second: &[u8],
    mask: u64,
    into: &mut [u8],
)
    requires op { IsTrue (is_handled op) }
    requires width { IsTrue (is_size width) }
    requires length { IsLength (length into.old) }
    requires dest { length dest.now ≡ length into.old }
    requires first { length first.now ≡ length into.old }
    requires second { length second.now ≡ length into.old }
    ensures { LanesAre width into.new (op_lane op width imm dest.now first.now second.now mask) }
{
    let Op::Mac(op) = op else {
        return;
    };
    match width {
        1 => apply_at::<1>(op, imm, dest, first, second, into),
        2 => apply_at::<2>(op, imm, dest, first, second, into),
        4 => apply_at::<4>(op, imm, dest, first, second, into),
        _ => apply_at::<8>(op, imm, dest, first, second, into),
    }
}
