//! Program files: cut, edited, and with several segments. What is expected is ELF-64's, and the order of the checks.

mod rows;

use crate::*;
use machine_state::Perms;
use rows::*;
use std::process::Abort;
use std::test::Fail;

/// The number and place of a refusal.
fn refusal(bytes: &[u8], pages: u32) -> Option<(u8, u64)> {
    match read_image(bytes, pages) {
        Ok(_) => None,
        Err(fault) => Some((fault.number, fault.place)),
    }
}

/// Whether a file whose bytes end here is refused as it is expected.
fn is_cut(len: usize) -> bool {
    let want = match len {
        0..=63 => (1, len as u64),
        64..=119 => (10, 32),
        _ => (12, 96),
    };
    len <= HELLO.len() && refusal(&HELLO[..len], 16_384) == Some(want)
}

#[test]
fn cut_file_is_refused(rt: HostRuntime) {
    for len in 0..159 {
        assert!(rt; is_cut(len), "{len}");
    }
    assert_eq!(rt; refusal(&HELLO, 16_384), None);
}

/// Writes the bytes of a number from a place on, as far as they fit.
fn put(bytes: &mut [u8], place: usize, number: u64) {
    for (i, byte) in number.to_le_bytes().iter().enumerate() {
        if place < bytes.len() && i < bytes.len() - place {
            bytes[place + i] = *byte;
        }
    }
}

/// `hello` with a row's edits.
fn edited(row: &Edited) -> [u8; 159] {
    let mut bytes = HELLO;
    for (place, byte) in [row.first, row.second] {
        if place < bytes.len() {
            bytes[place] = byte;
        }
    }
    put(&mut bytes, row.number.0, row.number.1);
    bytes
}

#[test]
fn first_check_that_fails_answers(rt: HostRuntime) {
    for (i, row) in EDITED.iter().enumerate() {
        assert_eq!(rt; refusal(&edited(row), row.pages), row.gives, "row {i}");
    }
}

/// A file of 512 bytes with a row's headers.
fn file(row: &File) -> [u8; 512] {
    let mut bytes = [0; 512];
    for (place, byte) in HELLO[..64].iter().enumerate() {
        if place < bytes.len() {
            bytes[place] = *byte;
        }
    }
    bytes[16] = row.kind;
    bytes[56] = 4;
    put(&mut bytes, 24, row.entry);
    for (i, header) in row.headers.iter().enumerate() {
        if i < 4 {
            let place = 64 + 56 * i;
            put(&mut bytes, place, header.kind);
            put(&mut bytes, place + 8, header.offset);
            put(&mut bytes, place + 16, header.addr);
            put(&mut bytes, place + 32, header.file_len);
            put(&mut bytes, place + 40, header.mem_len);
        }
    }
    bytes
}

fn expect_file(rt: &impl Abort, row: &File, i: usize) {
    match read_image(&file(row), 16_384) {
        Ok(image) => {
            let numbers = (image.entry, image.phdr, image.phnum, image.heap);
            assert_eq!(rt; Ok((numbers.0, numbers.1, numbers.3)), row.gives, "row {i}");
            assert_eq!(rt; numbers.2, 4, "row {i}");
            assert_eq!(rt; image.segments.as_slice(), &row.segments[..], "row {i}");
        }
        Err(fault) => assert_eq!(rt; Err((fault.number, fault.place)), row.gives, "row {i}"),
    }
}

#[test]
fn file_gives_its_segments(rt: HostRuntime) {
    for (i, row) in FILES.iter().enumerate() {
        expect_file(&rt, row, i);
    }
}
