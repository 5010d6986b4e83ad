//! Transfers at work: where they stop for a page that is away, and what has moved once they are taken up again.
ghost use Rattle.std.specs.Prelude.{◌≡◌, ◌≤◌, true};
ghost use Rattle.guest_pages.specs.Table.{perms_in};
ghost use Rattle.guest_pages.specs.Pages.{table_of};
ghost use Rattle.guest_transfers.specs.Pieces.{are_allowed, asked, most_asked};
ghost use Rattle.guest_transfers.specs.Moves.{IsMappedRange, ReadsFile, WritesFile};

mod cases;

use crate::{
    ListRead, PathRead, Piece, Stop, allowed_pieces, copy_file, draw_bytes, put_pieces, read_file,
    read_list, read_path, take_pieces, total_len, write_file,
};
use arrayvec::ArrayVec;
use cases::{Want, drawn, draws, moves, paths};
use guest_files::{Entry, Files};
use guest_pages::{Kind, Pages, Perms};
use host_edge::{MemSink, MemSource};
use page_fixture::{enter_at, map_in_frame};
use std::alloc::{AllocError, Global};
use std::test::Fail;

const BOTH: Perms = Perms(3);

const START: u64 = 0x1000;

const SIZE: usize = 0x3000;

// Three pages from `START` on, of which one may be away.
fn three_pages(alloc: Global, away: u64, perms: Perms) -> Result<Pages, Fail> {
    let mut pages = Pages::new(alloc, 8, 16)?;
    for page in 1..4u64 {
        if page == away {
            pages.map_page(page * 0x1000, perms)?;
        } else {
            map_in_frame(&mut pages, page * 0x1000, perms)?;
        }
    }
    Ok(pages)
}

// Enters the page that is away.
fn bring(pages: &mut Pages, away: u64) {
    if away < 4 {
        enter_at(pages, away * 0x1000);
    }
}

// So many bytes, none of which is 0.
fn pattern(alloc: Global, count: usize) -> Result<Vec<u8>, AllocError> {
    let mut bytes = Vec::new(alloc);
    for at in 0..count {
        bytes.push((at % 251) as u8 + 1)?;
    }
    Ok(bytes)
}

// Writes bytes to the pages that are in frames.
fn fill(alloc: Global, pages: &mut Pages) -> Result<(), AllocError> {
    let bytes = pattern(alloc, 0x1000)?;
    for page in 1..4u64 {
        let skip = (page as usize).min(bytes.len());
        let _ = pages.write(page * 0x1000, &bytes[skip..]);
    }
    Ok(())
}

// All bytes of the three pages.
fn memory(alloc: Global, pages: &Pages) -> Result<Vec<u8>, Fail> {
    let mut bytes = vec![in alloc; 0; SIZE]?;
    match pages.read(START, &mut bytes, Kind::Read) {
        Ok(()) => Ok(bytes),
        Err(_) => Err(Fail::from("a page is away")),
    }
}

fn pieces_of(list: &[(u64, u64)]) -> Result<ArrayVec<Piece, 8>, Fail> {
    let mut pieces = ArrayVec::new();
    for (addr, len) in list {
        if pieces.is_full() {
            return Err(Fail::from("too many pieces"));
        }
        pieces.push(Piece {
            addr: *addr,
            len: *len,
        });
    }
    Ok(pieces)
}

// The indices in the memory of the three pages of the bytes of pieces, in order.
fn places(alloc: Global, list: &[(u64, u64)]) -> Result<Vec<usize>, AllocError> {
    let mut places = Vec::new(alloc);
    for (addr, len) in list {
        for at in *addr..addr.saturating_add(*len) {
            places.push((at % 0x8000) as usize)?;
        }
    }
    Ok(places)
}

// The bytes of pieces, joined.
fn joined(alloc: Global, memory: &[u8], list: &[(u64, u64)]) -> Result<Vec<u8>, AllocError> {
    let mut bytes = Vec::new(alloc);
    for place in places(alloc, list)? {
        bytes.push(
            memory
                .get(place.saturating_sub(0x1000))
                .copied()
                .unwrap_or(0),
        )?;
    }
    Ok(bytes)
}

// The memory of the three pages once bytes moved to pieces.
fn moved(alloc: Global, bytes: &[u8], list: &[(u64, u64)]) -> Result<Vec<u8>, AllocError> {
    let mut memory = vec![in alloc; 0; SIZE]?;
    for (place, byte) in places(alloc, list)?.iter().zip(bytes.iter()) {
        if let Some(there) = memory.get_mut(place.saturating_sub(0x1000)) {
            *there = *byte;
        }
    }
    Ok(memory)
}

// Whether a transfer may go on.
fn may_move(pages: &Pages, pieces: &[Piece], from: u64, kind: Kind) -> bool
    ensures allowed { result ≡ true → are_allowed (perms_in (table_of pages.now)) kind pieces.now ≡ true }
    ensures most { result ≡ true → asked pieces.now ≤ most_asked }
    ensures within { result ≡ true → from ≤ asked pieces.now }
{
    let total = total_len(pieces);
    allowed_pieces(pages, pieces, kind) && total <= 0x7FFF_F000 && from <= total
}

fn put(pages: &Pages, pieces: &[Piece], from: u64, sink: &mut MemSink) -> Option<Stop> {
    if may_move(pages, pieces, from, Kind::Read) {
        Some(put_pieces(pages, pieces, from, sink))
    } else {
        None
    }
}

fn take(pages: &mut Pages, pieces: &[Piece], from: u64, source: &mut MemSource) -> Option<Stop> {
    if may_move(pages, pieces, from, Kind::Write) {
        Some(take_pieces(pages, pieces, from, source))
    } else {
        None
    }
}

fn is_away(stop: Option<Stop>, done: u64) -> bool {
    match stop {
        Some(Stop::Away(at, _)) => at == done,
        _ => false,
    }
}

#[test]
fn puts_go_on_behind_a_page_that_was_away(rt: HostRuntime) -> Result<(), Fail> {
    let alloc = rt.alloc();
    for (index, (list, away, _, stop, _)) in moves().iter().enumerate() {
        let mut pages = three_pages(alloc, *away, BOTH)?;
        fill(alloc, &mut pages)?;
        let pieces = pieces_of(list)?;
        let mut sink = MemSink::new(alloc, 20000, &[])?;
        if let Some(done) = stop {
            assert!(rt;
                is_away(put(&pages, &pieces, 0, &mut sink), *done),
                "case {index}"
            );
            bring(&mut pages, *away);
        }
        let last = put(&pages, &pieces, stop.unwrap_or(0), &mut sink);
        assert_eq!(rt; last, Some(Stop::Whole(total_len(&pieces))), "case {index}");
        if stop.is_none() {
            bring(&mut pages, *away);
        }
        let want = joined(alloc, &memory(alloc, &pages)?, list)?;
        assert_eq!(rt; sink.bytes(), want.as_slice(), "case {index}");
    }
    Ok(())
}

#[test]
fn takes_go_on_until_the_source_ends(rt: HostRuntime) -> Result<(), Fail> {
    let alloc = rt.alloc();
    for (index, (list, away, given, stop, total)) in moves().iter().enumerate() {
        let mut pages = three_pages(alloc, *away, BOTH)?;
        let pieces = pieces_of(list)?;
        let bytes = pattern(alloc, *given as usize)?;
        let mut source = MemSource::new(alloc, &bytes, 3, &[])?;
        if let Some(done) = stop {
            assert!(rt;
                is_away(take(&mut pages, &pieces, 0, &mut source), *done),
                "case {index}"
            );
            bring(&mut pages, *away);
        }
        let last = take(&mut pages, &pieces, stop.unwrap_or(0), &mut source);
        assert_eq!(rt; last, Some(Stop::Whole(*total)), "case {index}");
        if stop.is_none() {
            bring(&mut pages, *away);
        }
        assert_eq!(rt;
            memory(alloc, &pages)?,
            moved(alloc, &bytes, list)?,
            "case {index}"
        );
    }
    Ok(())
}

// A file that may be read and written, open under the number 3.
fn one_file(alloc: Global, bytes: Vec<u8>, cap: u32) -> Result<Files, Fail> {
    if bytes.len() > cap as usize {
        return Err(Fail::from("the file is too long"));
    }
    let entries = vec![in alloc;
        Entry {
            name: String::from_str(alloc, "f")?,
            bytes,
            exists: true,
            writable: true,
        },
    ]?;
    let mut files = Files::new(alloc, entries, cap)?;
    match files.open(b"f", 2) {
        Ok(_) => Ok(files),
        Err(_) => Err(Fail::from("the file isn't open")),
    }
}

fn reads_file(files: &Files, fd: u32) -> bool
    ensures { result ≡ true → ReadsFile files.now fd }
{
    match files.place(fd) {
        Some(place) => place.reads && place.file.is_some(),
        None => false,
    }
}

fn writes_file(files: &Files, fd: u32) -> bool
    ensures { result ≡ true → WritesFile files.now fd }
{
    match files.place(fd) {
        Some(place) => place.writes && place.file.is_some(),
        None => false,
    }
}

fn read(pages: &mut Pages, pieces: &[Piece], from: u64, files: &Files) -> Option<Stop> {
    if may_move(pages, pieces, from, Kind::Write) && reads_file(files, 3) {
        Some(read_file(pages, pieces, from, files, 3, 0))
    } else {
        None
    }
}

fn write(pages: &Pages, pieces: &[Piece], from: u64, files: &mut Files) -> Option<Stop> {
    if may_move(pages, pieces, from, Kind::Read) && writes_file(files, 3) {
        Some(write_file(pages, pieces, from, files, 3, 0))
    } else {
        None
    }
}

#[test]
fn files_are_read_up_to_their_end(rt: HostRuntime) -> Result<(), Fail> {
    let alloc = rt.alloc();
    for (index, (list, away, given, stop, total)) in moves().iter().enumerate() {
        let mut pages = three_pages(alloc, *away, BOTH)?;
        let pieces = pieces_of(list)?;
        let bytes = pattern(alloc, *given as usize)?;
        let files = one_file(alloc, pattern(alloc, *given as usize)?, 20000)?;
        if let Some(done) = stop {
            assert!(rt;
                is_away(read(&mut pages, &pieces, 0, &files), *done),
                "case {index}"
            );
            bring(&mut pages, *away);
        }
        let last = read(&mut pages, &pieces, stop.unwrap_or(0), &files);
        assert_eq!(rt; last, Some(Stop::Whole(*total)), "case {index}");
        if stop.is_none() {
            bring(&mut pages, *away);
        }
        assert_eq!(rt;
            memory(alloc, &pages)?,
            moved(alloc, &bytes, list)?,
            "case {index}"
        );
    }
    Ok(())
}

#[test]
fn files_are_written_up_to_the_cap(rt: HostRuntime) -> Result<(), Fail> {
    let alloc = rt.alloc();
    for (index, (list, away, given, stop, total)) in moves().iter().enumerate() {
        let mut pages = three_pages(alloc, *away, BOTH)?;
        fill(alloc, &mut pages)?;
        let pieces = pieces_of(list)?;
        let mut files = one_file(alloc, Vec::new(alloc), *given)?;
        if let Some(done) = stop {
            assert!(rt;
                is_away(write(&pages, &pieces, 0, &mut files), *done),
                "case {index}"
            );
            bring(&mut pages, *away);
        }
        let last = write(&pages, &pieces, stop.unwrap_or(0), &mut files);
        assert_eq!(rt; last, Some(Stop::Whole(*total)), "case {index}");
        if stop.is_none() {
            bring(&mut pages, *away);
        }
        let mut want = joined(alloc, &memory(alloc, &pages)?, list)?;
        want.truncate(*total as usize);
        for entry in files.entries() {
            assert_eq!(rt; entry.bytes, want, "case {index}");
        }
    }
    Ok(())
}

fn copy(pages: &mut Pages, addr: u64, count: u64, from: u64, files: &Files) -> Option<Stop> {
    match pages.allowed(addr, count, Kind::Read) {
        Ok(()) if from <= count && reads_file(files, 3) => {
            Some(copy_file(pages, addr, count, from, files, 3, 1))
        }
        _ => None,
    }
}

#[test]
fn copies_look_at_no_permissions(rt: HostRuntime) -> Result<(), Fail> {
    let alloc = rt.alloc();
    for (given, stop, total) in [
        (0, None, 0),
        (1, None, 0),
        (4097, None, 4096),
        (4098, Some(4096), 4097),
        (20000, Some(4096), 12288),
    ] {
        let mut pages = three_pages(alloc, 2, Perms::READ)?;
        let bytes = pattern(alloc, given)?;
        let files = one_file(alloc, pattern(alloc, given)?, 20000)?;
        if let Some(done) = stop {
            assert!(rt;
                is_away(copy(&mut pages, START, 12288, 0, &files), done),
                "of {given}"
            );
            bring(&mut pages, 2);
        }
        let last = copy(&mut pages, START, 12288, stop.unwrap_or(0), &files);
        assert_eq!(rt; last, Some(Stop::Whole(total)), "of {given}");
        if stop.is_none() {
            bring(&mut pages, 2);
        }
        let rest = &bytes[bytes.len().min(1)..];
        assert_eq!(rt;
            memory(alloc, &pages)?,
            moved(alloc, rest, &[(START, 12288)])?,
            "of {given}"
        );
    }
    Ok(())
}

#[test]
fn a_put_that_fails_leaves_a_front(rt: HostRuntime) -> Result<(), Fail> {
    let alloc = rt.alloc();
    let mut pages = three_pages(alloc, 0, BOTH)?;
    fill(alloc, &mut pages)?;
    let pieces = pieces_of(&[(START, 12288)])?;
    for (call, part, count) in [(1, 0, 0), (1, 4096, 4096), (2, 1, 4097), (3, 4095, 12287)] {
        let mut sink = MemSink::new(alloc, 20000, &[(call, part)])?;
        assert_eq!(rt;
            put(&pages, &pieces, 0, &mut sink),
            Some(Stop::Failed),
            "at {call}"
        );
        let mut want = memory(alloc, &pages)?;
        want.truncate(count);
        assert_eq!(rt; sink.bytes(), want.as_slice(), "at {call}");
    }
    let bytes = pattern(alloc, 9000)?;
    let mut source = MemSource::new(alloc, &bytes, 4096, &[2])?;
    assert_eq!(rt;
        take(&mut pages, &pieces, 0, &mut source),
        Some(Stop::Failed)
    );
    assert_eq!(rt;
        take(&mut pages, &pieces, 4096, &mut source),
        Some(Stop::Whole(9000))
    );
    Ok(())
}

fn draw(pages: &mut Pages, piece: Piece, from: u64, random: &mut u64) -> Option<Stop> {
    if may_move(pages, &[piece], from, Kind::Write) {
        Some(draw_bytes(pages, piece, from, random))
    } else {
        None
    }
}

#[test]
fn draws_go_on_within_a_draw(rt: HostRuntime) -> Result<(), Fail> {
    let alloc = rt.alloc();
    for (index, (addr, len, stop, number)) in draws().iter().enumerate() {
        let piece = Piece {
            addr: *addr,
            len: *len,
        };
        let mut pages = three_pages(alloc, 2, BOTH)?;
        let mut random = 0;
        if let Some((done, used)) = stop {
            assert!(rt;
                is_away(draw(&mut pages, piece, 0, &mut random), *done),
                "case {index}"
            );
            assert_eq!(rt; random, *used, "case {index}");
        }
        bring(&mut pages, 2);
        let from = stop.map_or(0, |stop| stop.0);
        let last = draw(&mut pages, piece, from, &mut random);
        assert_eq!(rt; last, Some(Stop::Whole(*len)), "case {index}");
        assert_eq!(rt; random, *number, "case {index}");
        let want = moved(alloc, drawn(), &[(*addr, *len)])?;
        assert_eq!(rt; memory(alloc, &pages)?, want, "case {index}");
    }
    Ok(())
}

fn is_path(read: &PathRead, want: &Want) -> bool {
    match (read, want) {
        (PathRead::Text(text), Want::Text(bytes)) => text.as_slice() == bytes.as_bytes(),
        (PathRead::TooLong, Want::TooLong) => true,
        (PathRead::Fault, Want::Fault) => true,
        (PathRead::Away(_), Want::Waits(_)) => true,
        _ => false,
    }
}

#[test]
fn paths_are_read_up_to_their_0(rt: HostRuntime) -> Result<(), Fail> {
    let alloc = rt.alloc();
    for (index, (addr, bytes, want)) in paths().iter().enumerate() {
        let mut pages = three_pages(alloc, 2, BOTH)?;
        let _ = pages.write(*addr, bytes.as_bytes());
        assert!(rt; is_path(&read_path(&pages, *addr), want), "case {index}");
        if let Want::Waits(text) = want {
            bring(&mut pages, 2);
            assert!(rt;
                is_path(&read_path(&pages, *addr), &Want::Text(text)),
                "case {index}"
            );
        }
    }
    for (count, long) in [(255, false), (256, true), (300, true)] {
        let mut pages = three_pages(alloc, 0, BOTH)?;
        let bytes = pattern(alloc, count)?;
        assert_eq!(rt; pages.write(0x1F80, &bytes), Ok(()));
        match read_path(&pages, 0x1F80) {
            PathRead::Text(text) => assert!(rt; !long && text.as_slice() == bytes.as_slice()),
            read => assert!(rt; long && is_path(&read, &Want::TooLong)),
        }
    }
    Ok(())
}

// Reads a list of buffers on, where it may.
fn list(
    pages: &Pages,
    addr: u64,
    count: u64,
    list: &mut ArrayVec<Piece, 1024>,
) -> Option<ListRead> {
    if count <= 1024 && list.len() as u64 <= count && addr < 0x10000 {
        Some(read_list(pages, addr, count, list))
    } else {
        None
    }
}

// The number in eight bytes of the three pages.
fn number(memory: &[u8], addr: u64) -> u64 {
    let mut number = 0;
    for at in 0..8 {
        let place = addr.wrapping_add(at).wrapping_sub(START) as usize;
        number |= u64::from(memory.get(place).copied().unwrap_or(0)) << (8 * at);
    }
    number
}

// Whether buffers are those of the records from an address on.
fn are_records(memory: &[u8], addr: u64, pieces: &[Piece]) -> bool {
    let mut at = addr;
    for piece in pieces {
        if piece.addr != number(memory, at) || piece.len != number(memory, at.wrapping_add(8)) {
            return false;
        }
        at = at.wrapping_add(16);
    }
    true
}

#[test]
fn lists_go_on_with_the_next_record(rt: HostRuntime) -> Result<(), Fail> {
    let alloc = rt.alloc();
    for (addr, count, before, last, records) in [
        (0x1000, 0, None, ListRead::Whole, 0),
        (0x1000, 2, None, ListRead::Whole, 2),
        (0x1FE0, 2, None, ListRead::Whole, 2),
        (0x1FE0, 3, Some(2), ListRead::Whole, 3),
        (0x1FE8, 3, Some(1), ListRead::Whole, 3),
        (0x1FF8, 1, Some(0), ListRead::Whole, 1),
        (0x2000, 2, Some(0), ListRead::Whole, 2),
        (0x3FE0, 2, None, ListRead::Whole, 2),
        (0x3FE8, 2, None, ListRead::Fault, 1),
        (0x0FF8, 1, None, ListRead::Fault, 0),
    ] {
        let mut pages = three_pages(alloc, 2, BOTH)?;
        fill(alloc, &mut pages)?;
        let mut pieces = ArrayVec::new();
        if let Some(read) = before {
            assert!(rt;
                matches!(
                    list(&pages, addr, count, &mut pieces),
                    Some(ListRead::Away(_))
                )
            );
            assert_eq!(rt; pieces.len(), read, "at {addr:#x}");
        }
        bring(&mut pages, 2);
        assert_eq!(rt;
            list(&pages, addr, count, &mut pieces),
            Some(last),
            "at {addr:#x}"
        );
        assert_eq!(rt; pieces.len(), records, "at {addr:#x}");
        assert!(rt;
            are_records(&memory(alloc, &pages)?, addr, &pieces),
            "at {addr:#x}"
        );
    }
    Ok(())
}
