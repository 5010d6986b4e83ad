//! Each operation at each of its widths, as a processor has it.
mod rows;

use crate::{logic, shift, test};
use row_table::{MaskOp, Op};
use rows::{COMBINED, Combined, SHIFTED, Shifted, TESTED, Tested};

fn is_combined(row: &Combined) -> bool {
    let (op, bits, a, b, value) = *row;
    if bits != 8 && bits != 16 && bits != 32 && bits != 64 {
        return false;
    }
    match op {
        MaskOp::Kortest | MaskOp::Ktest | MaskOp::Kshiftr | MaskOp::Kshiftl => false,
        _ => logic(Op::Mask(op), bits, a, b) == value,
    }
}

fn is_shifted(row: &Shifted) -> bool {
    let (left, bits, a, count, value) = *row;
    if bits != 8 && bits != 16 && bits != 32 && bits != 64 {
        return false;
    }
    shift(left, bits, a, count) == value
}

fn is_tested(row: &Tested) -> bool {
    let (op, bits, a, b, zf, cf) = *row;
    if bits != 8 && bits != 16 && bits != 32 && bits != 64 {
        return false;
    }
    match op {
        MaskOp::Kortest | MaskOp::Ktest => test(Op::Mask(op), bits, a, b) == (zf, cf),
        _ => false,
    }
}

#[test]
fn logic_and_sums_are_a_processors(rt: HostRuntime) {
    for (index, row) in COMBINED.iter().enumerate() {
        assert!(rt; is_combined(row), "at row {index}");
    }
}

#[test]
fn shifts_are_a_processors(rt: HostRuntime) {
    for (index, row) in SHIFTED.iter().enumerate() {
        assert!(rt; is_shifted(row), "at row {index}");
    }
}

#[test]
fn flags_are_a_processors(rt: HostRuntime) {
    for (index, row) in TESTED.iter().enumerate() {
        assert!(rt; is_tested(row), "at row {index}");
    }
}
