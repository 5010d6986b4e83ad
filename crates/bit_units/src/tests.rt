//! Each operation at each of its sizes, as a processor has it.
use crate::bit_rows::{self, BitRow};
use crate::shift_rows::{self, ShiftRow};
use crate::{bits, shift};
use gpr_flags::Flags;
use row_table::{BitOp, CoreOp, Op};

fn is_shifted(row: Option<ShiftRow>) -> bool {
    match row {
        None => false,
        Some((op, size, a, b, count, before, value, after)) => {
            let mut flags = Flags::from_word(before);
            1 <= size
                && size <= 8
                && shift(Op::Bit(op), size, a, b, count, &mut flags) == value
                && flags == Flags::from_word(after)
        }
    }
}

fn is_done(op: Op, size: u8, a: u64, b: u64, before: u64, value: u64, after: u64) -> bool {
    let mut flags = Flags::from_word(before);
    1 <= size
        && size <= 8
        && bits(op, size, a, b, &mut flags) == value
        && flags == Flags::from_word(after)
}

fn are_bits(row: Option<BitRow>) -> bool {
    match row {
        None => false,
        Some((op, size, a, b, before, value, after)) => {
            is_done(Op::Bit(op), size, a, b, before, value, after)
        }
    }
}

#[test]
fn shifts_are_a_processors(rt: HostRuntime) {
    for index in 0..shift_rows::ROW_COUNT {
        assert!(rt; is_shifted(shift_rows::row(index)), "at row {index}");
    }
}

#[test]
fn bits_are_a_processors(rt: HostRuntime) {
    for index in 0..bit_rows::ROW_COUNT {
        assert!(rt; are_bits(bit_rows::row(index)), "at row {index}");
    }
}

#[test]
fn bytes_are_reversed(rt: HostRuntime) {
    let op = Op::Core(CoreOp::Bswap);
    assert!(rt; is_done(op, 2, 0x1122_3344_5566_7788, 0, 0x8d5, 0x8877, 0x8d5));
    assert!(rt; is_done(op, 4, 0x1122_3344_5566_7788, 0, 0x8d5, 0x8877_6655, 0x8d5));
    assert!(rt; is_done(op, 8, 0x1122_3344_5566_7788, 0, 0, 0x8877_6655_4433_2211, 0));
}
