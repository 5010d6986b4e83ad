//! Each operation at each of its widths, as a processor has it.
mod rows;

use crate::{apply, handles};
use num_lanes::Vec64;
use row_table::{CoreOp, CrossOp, LaneOp, Op};
use rows::{ROWS_16_1, ROWS_16_2, ROWS_16_3, ROWS_32_1, ROWS_32_2, ROWS_64_1, ROWS_64_2, Row};
use std::process::Abort;

/// The bytes of a vector that is written as numbers of 16 bytes.
fn bytes_of<const N: usize>(numbers: &[u128; N]) -> Vec64 {
    let mut bytes = [0; 64];
    for (index, number) in numbers.iter().enumerate() {
        if index < 4 {
            bytes[16 * index..16 * index + 16].copy_from_slice(&number.to_le_bytes());
        }
    }
    bytes
}

/// Whether an operation gives the result of the row.
#[tactic(auto, unfolding(crate::specs::CrossOps::is_handled))]
fn is_a_processors<const N: usize>(row: &Row<N>) -> bool {
    let (op, width, imm, mask, dest, first, second, want) = *row;
    if width != 1 && width != 2 && width != 4 && width != 8 || N != 1 && N != 2 && N != 4 {
        return false;
    }
    let length = 16 * N;
    let mut into: Vec64 = [0; 64];
    apply(
        Op::Cross(op),
        width,
        imm,
        &bytes_of(&dest)[..length],
        &bytes_of(&first)[..length],
        &bytes_of(&second)[..length],
        mask,
        &mut into[..length],
    );
    into == bytes_of(&want)
}

/// Every row of a table.
fn check_rows<const N: usize>(rt: &impl Abort, rows: &[Row<N>]) {
    for (index, row) in rows.iter().enumerate() {
        assert!(rt; is_a_processors(row), "at row {index}");
    }
}

#[test]
fn lanes_of_16_bytes_are_a_processors(rt: HostRuntime) {
    check_rows(&rt, &ROWS_16_1);
    check_rows(&rt, &ROWS_16_2);
    check_rows(&rt, &ROWS_16_3);
}

#[test]
fn lanes_of_32_bytes_are_a_processors(rt: HostRuntime) {
    check_rows(&rt, &ROWS_32_1);
    check_rows(&rt, &ROWS_32_2);
}

#[test]
fn lanes_of_64_bytes_are_a_processors(rt: HostRuntime) {
    check_rows(&rt, &ROWS_64_1);
    check_rows(&rt, &ROWS_64_2);
}

/// Bytes that go on from a number, each by so much more than the one before.
fn counted(from: u8, by: u8) -> Vec64 {
    let mut bytes = [0; 64];
    for index in 0..64u8 {
        bytes[usize::from(index)] = from.wrapping_add(index.wrapping_mul(by));
    }
    bytes
}

// of bytes that are equal to their places in two tables of 64, an index takes itself, without its highest bit
#[test]
#[tactic(auto, unfolding(crate::specs::CrossOps::is_handled))]
fn bytes_are_taken_by_the_low_bits_of_an_index(rt: HostRuntime) {
    let index = counted(255, 253);
    let low = counted(0, 1);
    let high = counted(64, 1);
    let mut into: Vec64 = [0; 64];
    apply(
        Op::Cross(CrossOp::Vperm),
        1,
        0,
        &low,
        &index,
        &high,
        0,
        &mut into,
    );
    for place in 0..64 {
        assert_eq!(rt; into[place], 64 + index[place] % 64);
    }
    apply(
        Op::Cross(CrossOp::Vpermi2),
        1,
        0,
        &index,
        &low,
        &high,
        0,
        &mut into,
    );
    for place in 0..64 {
        assert_eq!(rt; into[place], index[place] % 128);
    }
    apply(
        Op::Cross(CrossOp::Vpermt2),
        1,
        0,
        &low,
        &index,
        &high,
        0,
        &mut into,
    );
    for place in 0..64 {
        assert_eq!(rt; into[place], index[place] % 128);
    }
}

#[test]
fn cross_operations_alone_are_handled(rt: HostRuntime) {
    assert!(rt; handles(Op::Cross(CrossOp::Punpckl)));
    assert!(rt; handles(Op::Cross(CrossOp::Pslldq)));
    assert!(rt; !handles(Op::Lane(LaneOp::Padd)));
    assert!(rt; !handles(Op::Core(CoreOp::Vzeroupper)));
}
