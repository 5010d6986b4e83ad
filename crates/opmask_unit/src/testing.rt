//! Tests, which give flags.
ghost use Rattle.std.specs.Prelude.{◌≡◌, ◌^◌, ◌<◌, IsTrue};
ghost use Rattle.opmask_unit.specs.Opmasks.{is_width, is_zero as is_zero_by, is_carried as is_carried_by, is_testing, is_test, zero_of, carry_of};

use crate::numbers::{cut, inverted};
use gpr_flags::ones;
use row_table::{MaskOp, Op};

/// ZF and CF by operation.
#[tactic(auto, unfolding(crate::specs::Opmasks::is_zero, crate::specs::Opmasks::is_carried))]
fn flags(op: MaskOp, bits: u8, a: u64, b: u64) -> (bool, bool)
    requires op { IsTrue (is_testing op) }
    requires bits { IsTrue (is_width bits) }
    requires a { a < 2 ^ bits }
    requires b { b < 2 ^ bits }
    ensures zf { result.0 ≡ is_zero_by op bits a b }
    ensures cf { result.1 ≡ is_carried_by op bits a b }
{
    match op {
        MaskOp::Kortest => (a | b == 0, a | b == ones(u32::from(bits))),
        MaskOp::Ktest => (b & a == 0, b & inverted(bits, a) == 0),
        MaskOp::Kand
        | MaskOp::Kandn
        | MaskOp::Kor
        | MaskOp::Kxnor
        | MaskOp::Kxor
        | MaskOp::Kadd
        | MaskOp::Kunpck
        | MaskOp::Knot
        | MaskOp::Kmov
        | MaskOp::Kshiftr
        | MaskOp::Kshiftl => unreachable!(),
    }
}

/// ZF and CF of KORTEST and KTEST, at the opmasks `a` in ModRM.reg and `b` in ModRM.r/m, whose low `bits` bits count.
#[tactic(auto, unfolding(crate::specs::Opmasks::zero_of, crate::specs::Opmasks::carry_of))]
pub fn test(op: Op, bits: u8, a: u64, b: u64) -> (bool, bool)
    requires op { IsTrue (is_test op) }
    requires bits { IsTrue (is_width bits) }
    ensures zf { result.0 ≡ zero_of op bits a b }
    ensures cf { result.1 ≡ carry_of op bits a b }
{
    match op {
        Op::Mask(op) => flags(op, bits, cut(bits, a), cut(bits, b)),
        _ => unreachable!(),
    }
}
