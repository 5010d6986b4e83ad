//! Each operation at each of its widths, as a processor has it or, where few have it, as it is computed.
mod rows;

use crate::{apply, handles};
use num_lanes::Vec64;
use row_table::{CoreOp, LaneOp, Op, WidthOp};
use rows::{COMPUTED_16_1, COMPUTED_64_1, ROWS_16_1, ROWS_16_2, ROWS_32_1, ROWS_64_1, Row};
use std::process::Abort;

/// The bytes of a vector that is written as numbers of 16 bytes.
fn bytes_of<const N: usize>(numbers: &[u128; N]) -> Vec64 {
    let mut bytes = [0; 64];
    for (index, number) in numbers.iter().enumerate() {
        if index < 4 {
            bytes[16 * index..16 * index + 16].copy_from_slice(&number.to_le_bytes());
        }
    }
    bytes
}

/// Whether an operation gives the result of the row.
#[tactic(auto, unfolding(crate::specs::WidthOps::is_handled))]
fn is_a_processors<const N: usize>(row: &Row<N>) -> bool {
    let (op, width, imm, mask, dest, first, second, want) = *row;
    if width != 1 && width != 2 && width != 4 && width != 8 || N != 1 && N != 2 && N != 4 {
        return false;
    }
    let length = 16 * N;
    let mut into: Vec64 = [0; 64];
    apply(
        Op::Width(op),
        width,
        imm,
        &bytes_of(&dest)[..length],
        &bytes_of(&first)[..length],
        &bytes_of(&second)[..length],
        mask,
        &mut into[..length],
    );
    into == bytes_of(&want)
}

/// Every row of a table.
fn check_rows<const N: usize>(rt: &impl Abort, rows: &[Row<N>]) {
    for (index, row) in rows.iter().enumerate() {
        assert!(rt; is_a_processors(row), "at row {index}");
    }
}

#[test]
fn lanes_are_a_processors(rt: HostRuntime) {
    check_rows(&rt, &ROWS_16_1);
    check_rows(&rt, &ROWS_16_2);
    check_rows(&rt, &ROWS_32_1);
    check_rows(&rt, &ROWS_64_1);
}

#[test]
fn bytes_and_words_by_a_mask_are_those_computed(rt: HostRuntime) {
    check_rows(&rt, &COMPUTED_16_1);
    check_rows(&rt, &COMPUTED_64_1);
}

#[test]
fn width_operations_alone_are_handled(rt: HostRuntime) {
    assert!(rt; handles(Op::Width(WidthOp::Pmovsxb)));
    assert!(rt; handles(Op::Width(WidthOp::Vpexpand)));
    assert!(rt; !handles(Op::Lane(LaneOp::Padd)));
    assert!(rt; !handles(Op::Core(CoreOp::Vzeroupper)));
}
