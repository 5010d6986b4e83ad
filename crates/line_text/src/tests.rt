//! The text of numbers at the ends of their ranges, and what a sink is given.
use crate::Line;
use host_edge::{Failed, MemSink};
use std::alloc::Global;
use std::process::Abort;
use std::test::Fail;

// Numbers, and what they are in base 10.
static IN_DECIMAL: [(u64, &str); 8] = [
    (0, "0"),
    (9, "9"),
    (10, "10"),
    (99, "99"),
    (100, "100"),
    (4096, "4096"),
    (10_000_000_000_000_000_000, "10000000000000000000"),
    (u64::MAX, "18446744073709551615"),
];

fn in_decimal() -> &'static [(u64, &'static str)] {
    &IN_DECIMAL
}

// Numbers, how many digits they are shown with, and what they are in base 16.
static IN_HEX: [(u64, u8, &str); 20] = [
    (0, 1, "0"),
    (0xA, 1, "a"),
    (0xF, 1, "f"),
    (0x1F, 2, "1f"),
    (0xA0, 3, "0a0"),
    (0xFFFF, 4, "ffff"),
    (0x1_2345, 5, "12345"),
    (0x9, 6, "000009"),
    (0xFED_CBA9, 7, "fedcba9"),
    (0x8000_0000, 8, "80000000"),
    (0x1_0000_0000, 9, "100000000"),
    (0x3F_FFFF_FFFF, 10, "3fffffffff"),
    (0x800_0000_0000, 11, "80000000000"),
    (0x7FFF_FFFF_EE70, 12, "7fffffffee70"),
    (0x1_0000_0000_0000, 13, "1000000000000"),
    (0, 14, "00000000000000"),
    (0xABC, 15, "000000000000abc"),
    (0x7FFF_FFFF_EE70, 16, "00007fffffffee70"),
    (0x0123_4567_89AB_CDEF, 16, "0123456789abcdef"),
    (u64::MAX, 16, "ffffffffffffffff"),
];

fn in_hex() -> &'static [(u64, u8, &'static str)] {
    &IN_HEX
}

// What a sink has once a line was put to it.
fn expect_put(rt: &impl Abort, alloc: Global, line: &Line, want: &[u8]) -> Result<(), Fail> {
    let mut sink = MemSink::new(alloc, 300, &[])?;
    assert_eq!(rt; line.put(&mut sink), Ok(()), "at {want:?}");
    assert_eq!(rt; sink.bytes(), want, "at {want:?}");
    Ok(())
}

// A line with one number in base 16, where the digits hold it.
fn hex_line(n: u64, digits: u8) -> Option<Line> {
    if digits == 0 || 16 < digits {
        return None;
    }
    if digits < 16 && 16u64.pow(digits as u32) <= n {
        return None;
    }
    let mut line = Line::new();
    line.hex(n, digits);
    Some(line)
}

#[test]
#[tactic(auto, using(crate::proofs::Room::decimal_short))]
fn numbers_in_base_10_have_no_leading_zeros(rt: HostRuntime) -> Result<(), Fail> {
    for (n, want) in in_decimal() {
        let mut line = Line::new();
        line.dec(*n);
        expect_put(&rt, rt.alloc(), &line, want.as_bytes())?;
    }
    Ok(())
}

#[test]
fn numbers_in_base_16_have_the_digits_that_are_asked_for(rt: HostRuntime) -> Result<(), Fail> {
    for (n, digits, want) in in_hex() {
        let line = hex_line(*n, *digits).ok_or("the digits don't hold the number")?;
        expect_put(&rt, rt.alloc(), &line, want.as_bytes())?;
    }
    Ok(())
}

#[test]
#[tactic(auto, using(crate::proofs::Room::decimal_short))]
fn texts_and_numbers_stand_one_after_the_other(rt: HostRuntime) -> Result<(), Fail> {
    let mut line = Line::new();
    expect_put(&rt, rt.alloc(), &line, b"")?;
    line.text("xemu: image ");
    line.dec(12);
    line.text(" at ");
    line.hex(96, 4);
    line.text("");
    line.text("\n");
    expect_put(&rt, rt.alloc(), &line, b"xemu: image 12 at 0060\n")
}

#[test]
fn a_line_has_256_bytes(rt: HostRuntime) -> Result<(), Fail> {
    let text = "The quick brown fox jumps over the lazy dog; the lazy dog sleeps";
    let mut line = Line::new();
    line.text(text);
    line.text(text);
    line.text(text);
    line.text("the quick brown fox jumps over 42 lazy dogs, at ");
    line.hex(0x0123_4567_89AB_CDEF, 16);
    let mut sink = MemSink::new(rt.alloc(), 256, &[])?;
    assert_eq!(rt; line.put(&mut sink), Ok(()));
    assert_eq!(rt; sink.bytes().len(), 256);
    assert_eq!(rt; &sink.bytes()[236..], b" at 0123456789abcdef".as_slice());
    Ok(())
}

#[test]
#[tactic(auto, using(crate::proofs::Room::decimal_short))]
fn a_sink_that_fails_keeps_what_it_took(rt: HostRuntime) -> Result<(), Fail> {
    let mut line = Line::new();
    line.text("abc");
    line.dec(10);
    let mut sink = MemSink::new(rt.alloc(), 8, &[(1, 4)])?;
    assert_eq!(rt; line.put(&mut sink), Err(Failed));
    assert_eq!(rt; sink.bytes(), b"abc1".as_slice());
    assert_eq!(rt; line.put(&mut sink), Err(Failed));
    assert_eq!(rt; sink.bytes(), b"abc1".as_slice());
    Ok(())
}
