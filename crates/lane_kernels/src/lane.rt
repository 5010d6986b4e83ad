//! One lane of an operation.
ghost use Rattle.std.specs.Prelude.{◌≡◌, ◌+◌, ◌-◌, ◌*◌, ◌/◌, ◌%◌, ◌^◌, ◌<◌, ◌≤◌, if◌then◌else◌, length, IsTrue};
ghost use Rattle.gpr_flags.specs.Registers.{is_size};
ghost use Rattle.num_lanes.specs.Lane.{IsLength, lane_of};
ghost use Rattle.lane_kernels.specs.LaneOps.{is_lower, half_lanes, lane_raw};

use crate::bitwise::ternary;
use crate::shifts::{left, right, right_signed, rotated_left, rotated_right};
use crate::sums::{choose, is_below, mean, relates, subtract, with_sign_of};
use num_lanes::{add_signed, clamp_unsigned, get_lane, ones_where, subtract_signed};
use row_table::LaneOp;

/// What of an instruction counts for all lanes: its immediate, and the low 64 bits of the second operand.
#[derive(Clone, Copy)]
pub(crate) struct Common {
    pub imm: u8,
    pub count: u64,
}

/// The second operand's lane of the pair that `lane` is in: its lower one, or its upper one.
fn of_pair<const W: usize>(second: &[u8], lane: usize, upper: usize) -> u64
    requires width { IsTrue (is_size W) }
    requires length { IsLength (length second.now) }
    requires in_range { lane * W + W ≤ length second.now }
    requires upper { upper < 2 }
    ensures { result ≡ lane_of W second.now (lane / 2 * 2 + upper) }
{
    get_lane::<W>(second, lane / 2 * 2 + upper)
}

/// Whether a lane is in the lower half of 128 bits.
fn is_in_lower_half<const W: usize>(lane: usize) -> bool
    requires width { IsTrue (is_size W) }
    requires in_range { lane * W + W ≤ 64 }
    ensures { result ≡ is_lower (8 * W) lane }
{
    lane * W < 8
}

/// The second operand's lane that is a half of 128 bits below `lane`.
fn half_below<const W: usize>(second: &[u8], lane: usize) -> u64
    requires width { IsTrue (is_size W) }
    requires length { IsLength (length second.now) }
    requires in_range { lane * W + W ≤ length second.now }
    ensures { result ≡ lane_of W second.now (lane - half_lanes (8 * W)) }
{
    get_lane::<W>(second, lane.saturating_sub(8 / W))
}

/// The second operand's lane that is a half of 128 bits above `lane`, where that is in the lower half.
fn half_above<const W: usize>(second: &[u8], lane: usize) -> u64
    requires width { IsTrue (is_size W) }
    requires length { IsLength (length second.now) }
    requires in_range { lane * W + W ≤ length second.now }
    ensures { result ≡ if is_lower (8 * W) lane then lane_of W second.now (lane + half_lanes (8 * W)) else 0 }
{
    if is_in_lower_half::<W>(lane) {
        get_lane::<W>(second, lane + 8 / W)
    } else {
        0
    }
}

/// A number of which the low bits are a lane of an operation's result.
#[tactic(auto, unfolding(crate::specs::LaneOps::lane_raw))]
pub(crate) fn one_lane<const W: usize>(
    op: LaneOp,
    common: Common,
    dest: &[u8],
    first: &[u8],
    second: &[u8],
    lane: usize,
) -> u64
    requires width { IsTrue (is_size W) }
    requires length { IsLength (length second.now) }
    requires dest { length dest.now ≡ length second.now }
    requires first { length first.now ≡ length second.now }
    requires in_range { lane * W + W ≤ length second.now }
    ensures { result % 2 ^ (8 * W)
        ≡ lane_raw op (8 * W) common.imm (lane_of W dest.now) (lane_of W first.now) (lane_of W second.now) common.count lane % 2 ^ (8 * W) }
{
    let bits = 8 * W as u32;
    let d = get_lane::<W>(dest, lane);
    let a = get_lane::<W>(first, lane);
    let b = get_lane::<W>(second, lane);
    match op {
        LaneOp::Padd => a.wrapping_add(b),
        LaneOp::Psub => subtract(bits, a, b),
        LaneOp::Padds => add_signed(bits, a, b),
        LaneOp::Paddus => clamp_unsigned(i128::from(a) + i128::from(b), bits),
        LaneOp::Psubs => subtract_signed(bits, a, b),
        LaneOp::Psubus => clamp_unsigned(i128::from(a) - i128::from(b), bits),
        LaneOp::Pavg => mean(a, b),
        LaneOp::Pminu => a.min(b),
        LaneOp::Pmaxu => a.max(b),
        LaneOp::Pmins => choose(is_below(bits, b, a), b, a),
        LaneOp::Pmaxs => choose(is_below(bits, b, a), a, b),
        LaneOp::Pand | LaneOp::Andp => a & b,
        LaneOp::Pandn | LaneOp::Andnp => !a & b,
        LaneOp::Por | LaneOp::Orp => a | b,
        LaneOp::Pxor | LaneOp::Xorp => a ^ b,
        LaneOp::Psign => with_sign_of(bits, a, b),
        LaneOp::Pabs => with_sign_of(bits, b, b),
        LaneOp::Pcmpeq => ones_where(bits, a == b),
        LaneOp::Pcmpgt => ones_where(bits, is_below(bits, b, a)),
        LaneOp::Vpcmpu => ones_where(bits, relates(common.imm, a == b, a < b)),
        LaneOp::Vpcmp => ones_where(bits, relates(common.imm, a == b, is_below(bits, a, b))),
        LaneOp::Vptestm => ones_where(bits, a & b != 0),
        LaneOp::Vptestnm => ones_where(bits, a & b == 0),
        LaneOp::Psrl => right(bits, a, common.count),
        LaneOp::Psra => right_signed(bits, a, common.count),
        LaneOp::Psll => left(bits, a, common.count),
        LaneOp::Vpsrlv => right(bits, a, b),
        LaneOp::Vpsrav => right_signed(bits, a, b),
        LaneOp::Vpsllv => left(bits, a, b),
        LaneOp::Vpror => rotated_right(bits, a, common.count),
        LaneOp::Vprol => rotated_left(bits, a, common.count),
        LaneOp::Vprorv => rotated_right(bits, a, b),
        LaneOp::Vprolv => rotated_left(bits, a, b),
        LaneOp::Vpternlog => ternary(common.imm, d, a, b),
        LaneOp::Movdqa
        | LaneOp::Movdqu
        | LaneOp::Movap
        | LaneOp::Movup
        | LaneOp::Movntp
        | LaneOp::Movntdq
        | LaneOp::Movntdqa
        | LaneOp::Lddqu
        | LaneOp::Vpmaskmov
        | LaneOp::Vmaskmov => b,
        LaneOp::Movd | LaneOp::Movq | LaneOp::MovssLoad | LaneOp::MovsdLoad => {
            choose(lane == 0, b, 0)
        }
        LaneOp::Movss | LaneOp::Movsd => choose(lane == 0, b, a),
        LaneOp::Movlp => choose(is_in_lower_half::<W>(lane), b, a),
        LaneOp::Movhp => choose(
            is_in_lower_half::<W>(lane),
            a,
            half_below::<W>(second, lane),
        ),
        LaneOp::MovhpStore => half_above::<W>(second, lane),
        LaneOp::Movhlps => choose(lane == 0, get_lane::<W>(second, 1), a),
        LaneOp::Movlhps => choose(lane == 0, a, get_lane::<W>(second, lane.saturating_sub(1))),
        LaneOp::Movddup | LaneOp::Movsldup => of_pair::<W>(second, lane, 0),
        LaneOp::Movshdup => of_pair::<W>(second, lane, 1),
    }
}
