//! Each operation at each of its widths, as a processor has it.
mod rows;

use crate::{apply, handles};
use num_lanes::Vec64;
use row_table::{CoreOp, LaneOp, MacOp, Op};
use rows::{ROWS, Row};

/// Whether an operation on vectors of 16 bytes gives the result of the row.
#[tactic(auto, unfolding(crate::specs::LaneOps::is_handled))]
fn is_a_processors(row: &Row) -> bool {
    let (op, width, imm, dest, first, second, want) = *row;
    let mut into = [0; 16];
    if width != 1 && width != 2 && width != 4 && width != 8 {
        return false;
    }
    apply(
        Op::Lane(op),
        width,
        imm,
        &dest.to_le_bytes(),
        &first.to_le_bytes(),
        &second.to_le_bytes(),
        0,
        &mut into,
    );
    u128::from_le_bytes(into) == want
}

#[test]
fn lanes_are_a_processors(rt: HostRuntime) {
    for (index, row) in ROWS.iter().enumerate() {
        assert!(rt; is_a_processors(row), "at row {index}");
    }
}

#[test]
#[tactic(auto, unfolding(crate::specs::LaneOps::is_handled))]
fn each_lane_of_longer_vectors_has_its_result(rt: HostRuntime) {
    let first: Vec64 = [0x81; 64];
    let second: Vec64 = [0x82; 64];
    let mut into: Vec64 = [0; 64];
    apply(
        Op::Lane(LaneOp::Padd),
        1,
        0,
        &[0; 64],
        &first,
        &second,
        0,
        &mut into,
    );
    assert_eq!(rt; into, [3; 64]);
    let pairs: [u8; 32] = [
        0, 1, 2, 3, 4, 5, 6, 7, 8, 9, 10, 11, 12, 13, 14, 15, 16, 17, 18, 19, 20, 21, 22, 23, 24,
        25, 26, 27, 28, 29, 30, 31,
    ];
    let mut half = [0; 32];
    apply(
        Op::Lane(LaneOp::Movshdup),
        4,
        0,
        &[0; 32],
        &[0; 32],
        &pairs,
        0,
        &mut half,
    );
    assert_eq!(rt; &half[24..], [28, 29, 30, 31, 28, 29, 30, 31].as_slice());
}

#[test]
fn lane_operations_alone_are_handled(rt: HostRuntime) {
    assert!(rt; handles(Op::Lane(LaneOp::Padd)));
    assert!(rt; handles(Op::Lane(LaneOp::Vmaskmov)));
    assert!(rt; !handles(Op::Mac(MacOp::Pmull)));
    assert!(rt; !handles(Op::Core(CoreOp::Vzeroupper)));
}
