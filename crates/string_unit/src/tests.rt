//! Iterations: the processor's, and those whose accesses can't be made.

mod rows;

use crate::*;
use gpr_flags::{Flags, Gprs};
use guest_pages::{Full, Perms};
use page_fixture::map_in_frame;
use row_table::{Op, StringOp};
use rows::*;
use std::process::Abort;
use std::test::Fail;

const BOTH: Perms = Perms(3);

/// rax, rsi and rdi, as a row has them.
const NUMBERS: [u8; 3] = [0, 6, 7];

fn gprs_of(values: &[u64; 4]) -> Gprs {
    let mut g = Gprs::new();
    for (k, n) in NUMBERS.iter().enumerate() {
        if *n < 16 && k < 4 {
            g.set(*n, values[k]);
        }
    }
    g
}

fn values_of(g: &Gprs, f: Flags) -> [u64; 4] {
    [g.get(0), g.get(6), g.get(7), f.word()]
}

/// The number in the eight bytes at an address.
fn number_at(pages: &Pages, addr: u64) -> Result<u64, Miss> {
    let mut bytes = [0; 8];
    pages.read(addr, &mut bytes, Kind::Read)?;
    Ok(u64::from_le_bytes(bytes))
}

/// The bytes of memory that a row names, or why they can't be had.
fn window(row: &Row, pages: &Pages) -> [Result<u64, Miss>; 2] {
    let destination = if row.form.1 {
        row.before[2] % 0x1_0000_0000
    } else {
        row.before[2]
    };
    [
        number_at(pages, destination.wrapping_sub(4)),
        number_at(pages, destination.wrapping_add(4)),
    ]
}

/// Maps the pages of the rows.
fn map_rows(pages: &mut Pages) -> Result<(), Full> {
    map_in_frame(pages, 0x10_0000, BOTH)?;
    map_in_frame(pages, 0x10_1000, BOTH)?;
    map_in_frame(pages, 0xFFFF_F000, BOTH)?;
    map_in_frame(pages, 0x1_0000_0000, BOTH)
}

/// The first row that `iterate` doesn't give.
fn wrong_row(op: StringOp, rows: &[Row], pages: &mut Pages) -> Option<usize> {
    for (i, row) in rows.iter().enumerate() {
        let (size, wrap32, base) = row.form;
        if size != 1 && size != 2 && size != 4 && size != 8 {
            return Some(i);
        }
        let mut g = gprs_of(&row.before);
        let mut f = Flags::from_word(row.before[3]);
        let written = pages.write(FROM, &BYTES);
        let answer = iterate(Op::String(op), size, wrap32, base, &mut g, &mut f, pages);
        let memory = window(row, pages);
        if written != Ok(())
            || answer != Ok(())
            || values_of(&g, f) != row.after
            || memory != [Ok(row.memory[0]), Ok(row.memory[1])]
        {
            return Some(i);
        }
    }
    None
}

#[test]
fn iterations_are_the_processor_s(rt: HostRuntime) -> Result<(), Fail> {
    let mut pages = Pages::new(rt.alloc(), 8, 8)?;
    map_rows(&mut pages)?;
    assert_eq!(rt; wrong_row(StringOp::Movs, &MOVS, &mut pages), None);
    assert_eq!(rt; wrong_row(StringOp::Cmps, &CMPS, &mut pages), None);
    assert_eq!(rt; wrong_row(StringOp::Stos, &STOS, &mut pages), None);
    assert_eq!(rt; wrong_row(StringOp::Lods, &LODS, &mut pages), None);
    assert_eq!(rt; wrong_row(StringOp::Scas, &SCAS, &mut pages), None);
    Ok(())
}

/// Iterates with operands of four bytes at two places, and sees that nothing but the answer comes of it.
fn expect_miss(
    rt: &impl Abort,
    pages: &mut Pages,
    op: StringOp,
    (source, destination): (u64, u64),
    want: Miss,
) {
    let before = [0x1234_5678_9ABC_DEF0, source, destination, 0xED7];
    let mut g = gprs_of(&before);
    let mut f = Flags::from_word(before[3]);
    let answer = iterate(Op::String(op), 4, false, 0, &mut g, &mut f, pages);
    assert_eq!(rt; answer, Err(want), "{source:#x}, {destination:#x}");
    assert_eq!(rt; values_of(&g, f), before, "{source:#x}, {destination:#x}");
    assert_eq!(rt; number_at(pages, 0x1FF8), Ok(0x5555_5555_5555_5555));
    assert_eq!(rt; number_at(pages, 0x2000), Ok(0));
}

#[test]
fn first_access_that_is_not_allowed_stops_all(rt: HostRuntime) -> Result<(), Fail> {
    let mut pages = Pages::new(rt.alloc(), 8, 8)?;
    map_in_frame(&mut pages, 0x1000, BOTH)?;
    map_in_frame(&mut pages, 0x2000, Perms::READ)?;
    assert_eq!(rt; pages.write(0x1FF8, &[0x55; 8]), Ok(()));
    let high = 0x8000_0000_0000;
    for (op, places, want) in [
        (StringOp::Movs, (0x3000, 0x1FF8), Miss::Unmapped(0x3000)),
        (StringOp::Movs, (0x2FFE, 0x1FF8), Miss::Unmapped(0x3000)),
        (StringOp::Movs, (0x2000, 0x2000), Miss::Denied(0x2000)),
        (StringOp::Movs, (0x2000, 0x1FFD), Miss::Denied(0x2000)),
        (StringOp::Movs, (0x4000, 0x2000), Miss::Unmapped(0x4000)),
        (StringOp::Movs, (0x2000, high), Miss::NonCanonical(high)),
        (StringOp::Cmps, (0x2000, 0x4000), Miss::Unmapped(0x4000)),
        (StringOp::Cmps, (0x5000, 0x4000), Miss::Unmapped(0x5000)),
        (StringOp::Cmps, (high, 0x4000), Miss::NonCanonical(high)),
        (StringOp::Stos, (0x1000, 0x1FFE), Miss::Denied(0x2000)),
        (StringOp::Stos, (0x1000, 0x3000), Miss::Unmapped(0x3000)),
        (StringOp::Lods, (0x2FFD, 0x1000), Miss::Unmapped(0x3000)),
        (StringOp::Scas, (0x1000, 0x2FFF), Miss::Unmapped(0x3000)),
    ] {
        expect_miss(&rt, &mut pages, op, places, want);
    }
    Ok(())
}

#[test]
fn page_that_is_away_is_brought_first(rt: HostRuntime) -> Result<(), Fail> {
    let mut pages = Pages::new(rt.alloc(), 8, 9)?;
    map_in_frame(&mut pages, 0x1000, BOTH)?;
    map_in_frame(&mut pages, 0x8000, BOTH)?;
    pages.map_page(0x9000, BOTH)?;
    let mut g = gprs_of(&[0, 0x1000, 0x8FFF, 0x202]);
    let mut f = Flags::none();
    for (op, size) in [
        (StringOp::Movs, 2),
        (StringOp::Cmps, 4),
        (StringOp::Stos, 8),
    ] {
        if size == 2 || size == 4 || size == 8 {
            let answer = iterate(Op::String(op), size, false, 0, &mut g, &mut f, &mut pages);
            assert!(rt; matches!(answer, Err(Miss::Away(_))));
            assert_eq!(rt; values_of(&g, f), [0, 0x1000, 0x8FFF, 0x202]);
        }
    }
    assert_eq!(rt; number_at(&pages, 0x8FF8), Ok(0));
    Ok(())
}
