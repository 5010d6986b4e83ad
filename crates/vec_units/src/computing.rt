//! An operation on all lanes, by the crate that has it.
ghost use Rattle.std.specs.Prelude.{◌≡◌, length, IsTrue};
ghost use Rattle.gpr_flags.specs.Registers.{is_size};
ghost use Rattle.num_lanes.specs.Lane.{IsLength, LanesAre};
ghost use Rattle.vec_units.specs.Compute.{is_vector, lane_by};

use row_table::Op;

/// Puts an operation into each lane of `into`.
#[tactic(auto, unfolding(crate::specs::Compute::is_vector, crate::specs::Compute::lane_by, lane_kernels::specs::LaneOps::is_handled, cross_kernels::specs::CrossOps::is_handled, width_kernels::specs::WidthOps::is_handled, mac_kernels::specs::MacOps::is_handled))]
pub(crate) fn compute(
    op: Op,
    width: u8,
    imm: u8,
    dest: &[u8],
    first: &[u8],
    second: &[u8],
    mask: u64,
    into: &mut [u8],
)
    requires op { IsTrue (is_vector op) }
    requires width { IsTrue (is_size width) }
    requires length { IsLength (length into.old) }
    requires dest { length dest.now ≡ length into.old }
    requires first { length first.now ≡ length into.old }
    requires second { length second.now ≡ length into.old }
    ensures { LanesAre width into.new (lane_by op width imm dest.now first.now second.now mask) }
{
    match op {
        Op::Lane(_) => lane_kernels::apply(op, width, imm, dest, first, second, mask, into),
        Op::Cross(_) => cross_kernels::apply(op, width, imm, dest, first, second, mask, into),
        Op::Width(_) => width_kernels::apply(op, width, imm, dest, first, second, mask, into),
        Op::Mac(_) => mac_kernels::apply(op, width, imm, dest, first, second, mask, into),
        Op::Vector(_) => into.copy_from_slice(second),
        Op::Core(_)
        | Op::Gpr(_)
        | Op::Bit(_)
        | Op::String(_)
        | Op::Mask(_)
        | Op::Gather(_)
        | Op::Xsave(_) => {}
    }
}
