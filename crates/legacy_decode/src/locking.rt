//! Where LOCK may stand.
ghost use Rattle.std.specs.Prelude.{◌≡◌};
ghost use Rattle.legacy_decode.specs.Lock.{operation_locks, lock_fits};

use row_table::{BitOp, CoreOp, Fields, GprOp, Op, Row, does_write_rm, is_memory};

/// Whether LOCK may stand before the operation.
#[tactic(auto, unfolding(crate::specs::Lock::operation_locks))]
fn does_operation_lock(op: Op) -> bool
    ensures { result ≡ operation_locks op }
{
    match op {
        Op::Core(op) => matches!(
            op,
            CoreOp::Xchg | CoreOp::Xadd | CoreOp::Cmpxchg | CoreOp::Cmpxchg8b
        ),
        Op::Gpr(op) => matches!(
            op,
            GprOp::Add
                | GprOp::Or
                | GprOp::Adc
                | GprOp::Sbb
                | GprOp::And
                | GprOp::Sub
                | GprOp::Xor
                | GprOp::Not
                | GprOp::Neg
                | GprOp::Inc
                | GprOp::Dec
        ),
        Op::Bit(op) => matches!(op, BitOp::Bts | BitOp::Btr | BitOp::Btc),
        _ => false,
    }
}

/// Whether LOCK, where it is there, is allowed.
#[tactic(auto, unfolding(crate::specs::Lock::lock_fits))]
pub(crate) fn does_lock_fit(row: &Row, fields: &Fields) -> bool
    ensures { result ≡ lock_fits row.now fields.now }
{
    !fields.lock
        || does_operation_lock(row.op) && does_write_rm(row.operands) && is_memory(fields.modrm)
}
