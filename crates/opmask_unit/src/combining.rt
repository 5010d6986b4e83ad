//! Logic, sums and moves.
ghost use Rattle.std.specs.Prelude.{◌≡◌, ◌+◌, ◌%◌, ◌*◌, ◌^◌, ◌<◌, ◌≤◌, IsTrue};
ghost use Rattle.opmask_unit.specs.Opmasks.{is_width, unpacked as unpacked_to, combined as combined_by, is_combining, is_logic, logic_of};

use crate::numbers::{cut, inverted};
use gpr_flags::{low, power};
use row_table::{MaskOp, Op};

/// A sum.
fn sum(bits: u8, a: u64, b: u64) -> u64
    requires { bits ≤ 64 }
    ensures value { result ≡ (a + b) % 2 ^ bits }
    ensures fits { result < 2 ^ bits }
{
    low(u32::from(bits), u128::from(a) + u128::from(b))
}

/// Two halves as one number.
fn unpacked(half: u8, upper: u64, lower: u64) -> u64
    requires { half ≤ 32 }
    ensures value { result ≡ unpacked_to half upper lower }
    ensures fits { result < 2 ^ (2 * half) }
{
    cut(half, upper) << half | cut(half, lower)
}

/// The value by operation.
#[tactic(auto, using(std::proofs::lemmas::Nat::or_lt, std::proofs::lemmas::Nat::xor_lt), unfolding(crate::specs::Opmasks::combined))]
fn combined(op: MaskOp, bits: u8, a: u64, b: u64) -> u64
    requires op { IsTrue (is_combining op) }
    requires bits { IsTrue (is_width bits) }
    requires a { a < 2 ^ bits }
    requires b { b < 2 ^ bits }
    ensures value { result ≡ combined_by op bits a b }
    ensures fits { result < 2 ^ bits }
{
    match op {
        MaskOp::Kand => a & b,
        MaskOp::Kandn => inverted(bits, a) & b,
        MaskOp::Kor => a | b,
        MaskOp::Kxnor => inverted(bits, a ^ b),
        MaskOp::Kxor => a ^ b,
        MaskOp::Kadd => sum(bits, a, b),
        MaskOp::Kunpck => unpacked(bits / 2, a, b),
        MaskOp::Knot => inverted(bits, a),
        MaskOp::Kmov => a,
        MaskOp::Kortest | MaskOp::Ktest | MaskOp::Kshiftr | MaskOp::Kshiftl => unreachable!(),
    }
}

/// An operation on two opmasks `a` and `b`, the first source and the second, whose low `bits` bits count. KANDN inverts
/// `a`, KUNPCK takes its upper half from `a`, and KNOT and KMOV take `a` alone. The result has no bit above `bits`.
#[tactic(auto, unfolding(crate::specs::Opmasks::logic_of))]
pub fn logic(op: Op, bits: u8, a: u64, b: u64) -> u64
    requires op { IsTrue (is_logic op) }
    requires bits { IsTrue (is_width bits) }
    ensures value { result ≡ logic_of op bits a b }
    ensures fits { result < 2 ^ bits }
{
    match op {
        Op::Mask(op) => combined(op, bits, cut(bits, a), cut(bits, b)),
        _ => unreachable!(),
    }
}
