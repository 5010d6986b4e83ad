//! Operations, against what a processor gives.
ghost use Rattle.std.specs.Prelude.{IsTrue};
ghost use Rattle.gpr_units.specs.Alu.{is_alu};

mod rows;

use crate::*;
use gpr_flags::Flags;
use row_table::{GprOp, Op};
use rows::*;

/// The first row that `alu` doesn't give.
fn wrong_row(op: GprOp, rows: &[Row]) -> Option<usize>
    requires { IsTrue (is_alu (Op.Gpr op)) }
{
    for (i, row) in rows.iter().enumerate() {
        let mut flags = Flags::from_word(row.before);
        if row.size == 0 || row.size > 8 {
            return Some(i);
        }
        let value = alu(Op::Gpr(op), row.size, row.a, row.b, &mut flags);
        if value != row.value || flags.word() != row.after {
            return Some(i);
        }
    }
    None
}

fn wrong_product(rows: &[Product]) -> Option<usize> {
    for (i, row) in rows.iter().enumerate() {
        let mut flags = Flags::from_word(row.before);
        if row.size == 0 || row.size > 8 {
            return Some(i);
        }
        let halves = multiply(row.size, row.signed, row.a, row.b, &mut flags);
        if halves != (row.low, row.high) || flags.word() != row.after {
            return Some(i);
        }
    }
    None
}

fn wrong_quotient(rows: &[Quotient]) -> Option<usize> {
    for (i, row) in rows.iter().enumerate() {
        if row.size == 0 || row.size > 8 {
            return Some(i);
        }
        let gives = match divide(row.size, row.signed, row.high, row.low, row.by) {
            Ok(gives) => Some(gives),
            Err(DivFault) => None,
        };
        if gives != row.gives {
            return Some(i);
        }
    }
    None
}

#[test]
fn sums_are_the_processor_s(rt: HostRuntime) {
    assert_eq!(rt; wrong_row(GprOp::Add, &ADD), None);
    assert_eq!(rt; wrong_row(GprOp::Adc, &ADC), None);
    assert_eq!(rt; wrong_row(GprOp::Inc, &INC), None);
    assert_eq!(rt; wrong_row(GprOp::Adcx, &ADCX), None);
    assert_eq!(rt; wrong_row(GprOp::Adox, &ADOX), None);
}

#[test]
fn differences_are_the_processor_s(rt: HostRuntime) {
    assert_eq!(rt; wrong_row(GprOp::Sub, &SUB), None);
    assert_eq!(rt; wrong_row(GprOp::Sbb, &SBB), None);
    assert_eq!(rt; wrong_row(GprOp::Cmp, &CMP), None);
    assert_eq!(rt; wrong_row(GprOp::Dec, &DEC), None);
    assert_eq!(rt; wrong_row(GprOp::Neg, &NEG), None);
}

#[test]
fn logical_values_are_the_processor_s(rt: HostRuntime) {
    assert_eq!(rt; wrong_row(GprOp::And, &AND), None);
    assert_eq!(rt; wrong_row(GprOp::Or, &OR), None);
    assert_eq!(rt; wrong_row(GprOp::Xor, &XOR), None);
    assert_eq!(rt; wrong_row(GprOp::Test, &TEST), None);
    assert_eq!(rt; wrong_row(GprOp::Not, &NOT), None);
}

#[test]
fn products_are_the_processor_s(rt: HostRuntime) {
    assert_eq!(rt; wrong_product(&PRODUCTS), None);
}

#[test]
fn quotients_are_the_processor_s(rt: HostRuntime) {
    assert_eq!(rt; wrong_quotient(&QUOTIENTS), None);
}
