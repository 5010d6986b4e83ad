//! The calls one after the other, as a guest makes them.
ghost use Rattle.std.specs.Prelude.{◌≡◌, true, map};
ghost use Rattle.guest_files.specs.Entries.{guest_file};
ghost use Rattle.guest_files.specs.Files.{AreEntries, IsFit};

mod rows;

use crate::entries::number_of;
use crate::{Entry, Errno, Files};
use rows::{Step, closing, moving, opening, reading, writing};
use std::alloc::{AllocError, Global};
use std::process::Abort;
use std::test::Fail;

// Whether an entry may be given.
fn is_fit(entry: &Entry, cap: u32) -> bool
    ensures { result ≡ true → IsFit cap (guest_file entry.now) }
{
    let name = entry.name.len();
    name >= 1
        && name <= 255
        && entry.bytes.len() <= cap as usize
        && (entry.exists || entry.bytes.is_empty())
}

// Whether entries may be given.
fn are_fit(entries: &[Entry], cap: u32) -> bool
    ensures { result ≡ true → AreEntries cap (map guest_file entries.now) }
{
    if entries.len() > 16 {
        return false;
    }
    for (index, entry) in entries.iter().enumerate() {
        if !is_fit(entry, cap) {
            return false;
        }
        match number_of(entries, entry.name.as_bytes()) {
            Some(number) if number == index => {}
            _ => return false,
        }
    }
    true
}

fn entry(
    alloc: Global,
    name: &str,
    bytes: &str,
    exists: bool,
    writable: bool,
) -> Result<Entry, AllocError> {
    Ok(Entry {
        name: String::from_str(alloc, name)?,
        bytes: Vec::from_slice(alloc, bytes.as_bytes())?,
        exists,
        writable,
    })
}

fn made(alloc: Global, entries: Vec<Entry>, cap: u32) -> Result<Files, Fail> {
    if !are_fit(&entries, cap) {
        return Err(Fail::from("the entries don't fit"));
    }
    Ok(Files::new(alloc, entries, cap)?)
}

// Four files: to be read, to be made, both, and none.
fn four(alloc: Global, cap: u32) -> Result<Files, Fail> {
    let entries = vec![in alloc;
        entry(alloc, "in", "hello", true, false)?,
        entry(alloc, "out", "", false, true)?,
        entry(alloc, "both", "0123456789", true, true)?,
        entry(alloc, "gone", "", false, false)?,
    ]?;
    made(alloc, entries, cap)
}

// A read of as many bytes as the text has, which is what the buffer holds afterwards.
fn reads(files: &Files, fd: u32, at: u64, want: Result<usize, Errno>, text: &str) -> bool {
    let mut into = *b"................";
    let size = text.len();
    if size > 16 {
        return false;
    }
    files.read_at(fd, at, &mut into[..size]) == want && &into[..size] == text.as_bytes()
}

fn holds(files: &mut Files, step: &Step) -> bool {
    match step {
        Step::Open(name, flags, want) => files.open(name.as_bytes(), *flags) == *want,
        Step::Close(fd, want) => files.close(*fd) == *want,
        Step::Read(fd, at, want, text) => reads(files, *fd, *at, *want, text),
        Step::Write(fd, at, bytes, want) => files.write_at(*fd, *at, bytes.as_bytes()) == *want,
        Step::Seek(fd, to, whence, want) => files.seek(*fd, *to, *whence) == *want,
        Step::Size(fd, want) => files.size(*fd) == *want,
        Step::Offset(fd, want) => files.place(*fd).map(|place| place.at) == *want,
        Step::Appends(fd, want) => files.place(*fd).map(|place| place.append) == *want,
    }
}

fn expect_steps(rt: &impl Abort, files: &mut Files, steps: &[Step]) {
    for (index, step) in steps.iter().enumerate() {
        assert!(rt; holds(files, step), "at step {index}");
    }
}

#[test]
fn opens_are_checked_in_their_order(rt: HostRuntime) -> Result<(), Fail> {
    let mut files = four(rt.alloc(), 16)?;
    expect_steps(&rt, &mut files, opening());
    Ok(())
}

#[test]
fn closed_numbers_are_given_again(rt: HostRuntime) -> Result<(), Fail> {
    let mut files = four(rt.alloc(), 16)?;
    expect_steps(&rt, &mut files, closing());
    Ok(())
}

#[test]
fn reads_take_what_is_there(rt: HostRuntime) -> Result<(), Fail> {
    let mut files = four(rt.alloc(), 16)?;
    expect_steps(&rt, &mut files, reading());
    Ok(())
}

#[test]
fn writes_stop_at_the_cap_and_fill_gaps(rt: HostRuntime) -> Result<(), Fail> {
    let mut files = four(rt.alloc(), 16)?;
    expect_steps(&rt, &mut files, writing());
    assert_eq!(rt; files.entries().len(), 4);
    assert_eq!(rt; files.entries()[1].bytes.as_slice(), b"\0\0ab".as_slice());
    Ok(())
}

#[test]
fn offsets_are_moved_and_kept(rt: HostRuntime) -> Result<(), Fail> {
    let mut files = four(rt.alloc(), 16)?;
    expect_steps(&rt, &mut files, moving());
    Ok(())
}

#[test]
fn there_are_64_descriptors(rt: HostRuntime) -> Result<(), Fail> {
    let mut files = four(rt.alloc(), 16)?;
    for fd in 3..64u32 {
        assert_eq!(rt; files.open(b"in", 0), Ok(fd));
    }
    assert_eq!(rt; files.open(b"in", 0), Err(Errno::EMFILE));
    assert_eq!(rt; files.open(b"in", 1), Err(Errno::EROFS));
    assert_eq!(rt; files.open(b"out", 0x41), Err(Errno::EMFILE));
    assert_eq!(rt; files.close(63), Ok(()));
    assert_eq!(rt; files.close(31), Ok(()));
    assert_eq!(rt; files.open(b"out", 0), Err(Errno::ENOENT));
    assert_eq!(rt; files.open(b"out", 0x41), Ok(31));
    assert_eq!(rt; files.open(b"in", 0), Ok(63));
    Ok(())
}

// Caps, and what a write of twelve bytes at an offset answers and makes the length.
static CAPS: [(u32, u64, Result<usize, Errno>, u64); 9] = [
    (1, 0, Ok(1), 1),
    (1, 1, Err(Errno::ENOSPC), 0),
    (10, 0, Ok(10), 10),
    (10, 9, Ok(1), 10),
    (10, 10, Err(Errno::ENOSPC), 0),
    (4096, 0, Ok(12), 12),
    (4096, 4084, Ok(12), 4096),
    (4096, 4090, Ok(6), 4096),
    (4096, 4097, Err(Errno::ENOSPC), 0),
];

fn caps() -> &'static [(u32, u64, Result<usize, Errno>, u64)] {
    &CAPS
}

#[test]
fn each_cap_bounds_its_files(rt: HostRuntime) -> Result<(), Fail> {
    let alloc = rt.alloc();
    for (cap, at, want, size) in caps() {
        let entries = vec![in alloc; entry(alloc, "f", "", false, true)?]?;
        let mut files = made(alloc, entries, *cap)?;
        assert_eq!(rt; files.open(b"f", 0x42), Ok(3));
        assert_eq!(rt;
            files.write_at(3, *at, b"twelve bytes"),
            *want,
            "at {at} of {cap}"
        );
        assert_eq!(rt; files.size(3), Some(*size), "at {at} of {cap}");
    }
    Ok(())
}

// A name of so many bytes, of which the first tells it from others.
fn name(alloc: Global, first: char, count: u16) -> Result<String, AllocError> {
    let mut name = String::new(alloc);
    name.push(first)?;
    for _ in 1..count {
        name.push('n')?;
    }
    Ok(name)
}

#[test]
fn there_are_16_files_of_names_up_to_255_bytes(rt: HostRuntime) -> Result<(), Fail> {
    let alloc = rt.alloc();
    let mut entries = Vec::new(alloc);
    for (index, first) in "abcdefghijklmnop".chars().enumerate() {
        entries.push(Entry {
            name: name(alloc, first, if index % 2 == 0 { 1 } else { 255 })?,
            bytes: Vec::from_slice(alloc, b"x")?,
            exists: true,
            writable: false,
        })?;
    }
    let mut files = made(alloc, entries, 1)?;
    assert_eq!(rt; files.open(b"o", 0), Ok(3));
    assert_eq!(rt; files.open(name(alloc, 'p', 255)?.as_bytes(), 0), Ok(4));
    assert_eq!(rt;
        files.open(name(alloc, 'p', 254)?.as_bytes(), 0),
        Err(Errno::ENOENT)
    );
    assert_eq!(rt; files.place(3).and_then(|place| place.file), Some(14));
    assert_eq!(rt; files.place(4).and_then(|place| place.file), Some(15));
    Ok(())
}
