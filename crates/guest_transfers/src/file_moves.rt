//! Transfers between memory and files.
ghost use Rattle.std.specs.Prelude.{◌≡◌, ◌≤◌, ◌<◌, ◌+◌, ◌%◌, ◌^◌, true, None, Some, length, take, IfErr, IfOk, IsSome, OnErr, ◌/◌};
ghost use Rattle.machine_state.specs.Memory.{page_size, Swap};
ghost use Rattle.guest_pages.specs.Table.{away_at, blocked, perms_in};
ghost use Rattle.guest_pages.specs.Pages.{table_of, byte_of};
ghost use Rattle.guest_pages.specs.Changes.{IsWritten};
ghost use Rattle.guest_files.specs.Content.{count_below};
ghost use Rattle.guest_files.specs.Moves.{read_piece, written_at};
ghost use Rattle.guest_transfers.specs.Pieces.{are_allowed, asked, most_asked, single};
ghost use Rattle.guest_transfers.specs.Moves.{blocked_access, IsMappedRange, Copies, HasNext, Reads, ReadsFile, Stops, Writes, WritesFile};

use crate::kinds::{Piece, Stop};
use crate::pieces::{away_slot, part, part_of, total_len};
use guest_files::Files;
use guest_pages::{Kind, Miss, Pages};

// Reads at most so many bytes of a file, from an offset on, to the front of a buffer, and answers how many came. No file has
// bytes behind the cap.
fn read_front(files: &Files, fd: u32, at: u64, into: &mut [u8], most: usize) -> usize
    requires file { ReadsFile files.now fd }
    requires room { most ≤ length into.old }
    ensures count { result ≡ length (read_piece files.now fd at most) }
    ensures bytes { take result into.new ≡ read_piece files.now fd at most }
{
    if at >= u64::from(files.cap()) {
        return 0;
    }
    match files.read_at(fd, at, &mut into[..most]) {
        Ok(count) => count,
        Err(_) => unreachable!(),
    }
}

// Reads a file from an offset on to memory that is ready for it, and answers how many bytes came.
fn read_part(pages: &mut Pages, addr: u64, part: usize, files: &Files, fd: u32, at: u64) -> usize
    requires most { part ≤ 4096 }
    requires ready { blocked (table_of pages.old) Kind.Write addr part ≡ None }
    requires file { ReadsFile files.now fd }
    ensures count { result ≡ length (read_piece files.now fd at part) }
    ensures written { IsWritten pages.old pages.new addr (read_piece files.now fd at part) }
{
    let mut buffer = [0; 4096];
    let count = read_front(files, fd, at, &mut buffer, part);
    match pages.write(addr, &buffer[..count]) {
        Ok(()) => count,
        Err(_) => unreachable!(),
    }
}

/// Reads a file from an offset on to pieces, which may be written. The byte `from` of the pieces is the file's `at + from`.
pub fn read_file(
    pages: &mut Pages,
    pieces: &[Piece],
    from: u64,
    files: &Files,
    fd: u32,
    at: u64,
) -> Stop
    requires writable { are_allowed (perms_in (table_of pages.old)) Kind.Write pieces.now ≡ true }
    requires most { asked pieces.now ≤ most_asked }
    requires within { from ≤ asked pieces.now }
    requires file { ReadsFile files.now fd }
    requires offset { at < 2 ^ 63 }
    ensures reads { Reads pages.old pages.new pieces.now from files.now fd at result }
    ensures stops { Stops (blocked_access (table_of pages.old)) Kind.Write pieces.now from result }
{
    let count = total_len(pieces);
    let mut done = from;
    while done < count {
        let next = part(pages, pieces, done, Kind::Write);
        match pages.ready(next.addr, next.len, Kind::Write) {
            Ok(()) => {}
            Err(miss) => return Stop::Away(done, away_slot(miss)),
        }
        match read_part(pages, next.addr, next.len as usize, files, fd, at + done) {
            0 => return Stop::Whole(done),
            n => done += n as u64,
        }
    }
    Stop::Whole(done)
}

// Writes bytes to a file from an offset on, also where that lies behind the last offset, and answers how many fitted.
fn write_front(files: &mut Files, fd: u32, at: u64, bytes: &[u8]) -> usize
    requires { WritesFile files.old fd }
    ensures count { result ≡ count_below files.old.cap at (length bytes.now) }
    ensures written { files.new ≡ written_at files.old fd at bytes.now }
    ensures none { 0 < length bytes.now → result ≡ 0 → files.new ≡ files.old }
{
    if at >= u64::from(files.cap()) {
        return 0;
    }
    match files.write_at(fd, at, bytes) {
        Ok(count) => count,
        Err(_) => unreachable!(),
    }
}

/// Writes the bytes of pieces, which may be read, to a file from an offset on, as many as lie below the cap.
pub fn write_file(
    pages: &Pages,
    pieces: &[Piece],
    from: u64,
    files: &mut Files,
    fd: u32,
    at: u64,
) -> Stop
    requires readable { are_allowed (perms_in (table_of pages.now)) Kind.Read pieces.now ≡ true }
    requires most { asked pieces.now ≤ most_asked }
    requires within { from ≤ asked pieces.now }
    requires file { WritesFile files.old fd }
    requires offset { at < 2 ^ 63 }
    ensures writes { (w : Swap) → Writes (byte_of pages.now w) pieces.now from files.old files.new fd at result }
    ensures stops { Stops (blocked_access (table_of pages.now)) Kind.Read pieces.now from result }
{
    let count = total_len(pieces);
    let mut done = from;
    while done < count {
        let next = part(pages, pieces, done, Kind::Read);
        match pages.view(next.addr, next.len as usize, Kind::Read) {
            Ok(bytes) => match write_front(files, fd, at + done, bytes) {
                0 => return Stop::Whole(done),
                n => done += n as u64,
            },
            Err(miss) => return Stop::Away(done, away_slot(miss)),
        }
    }
    Stop::Whole(done)
}

// Copies a file from an offset on to a mapped page, and answers how many bytes came. Where none does, the page isn't asked for.
fn copy_part(
    pages: &mut Pages,
    addr: u64,
    part: usize,
    files: &Files,
    fd: u32,
    at: u64,
) -> Result<usize, Miss>
    requires one_page { addr % page_size + part ≤ page_size }
    requires mapped { IsSome (table_of pages.old (addr / page_size)) }
    requires file { ReadsFile files.now fd }
    ensures count { IfOk result (λ n. n ≡ length (read_piece files.now fd at part)) }
    ensures written { IfOk result (λ n. 0 < n
        → IsWritten pages.old pages.new addr (read_piece files.now fd at part)) }
    ensures there { IfOk result (λ n. 0 < n → away_at (table_of pages.old (addr / page_size)) ≡ None) }
    ensures none { IfOk result (λ n. n ≡ 0 → pages.new ≡ pages.old) }
    ensures away { IfErr result (λ miss. away_at (table_of pages.old (addr / page_size)) ≡ Some miss) }
    ensures some { OnErr result (0 < length (read_piece files.now fd at part)) }
    ensures err { OnErr result (pages.new ≡ pages.old) }
{
    let mut buffer = [0; 4096];
    let count = read_front(files, fd, at, &mut buffer, part);
    if count == 0 {
        return Ok(0);
    }
    match pages.put(addr, &buffer[..count]) {
        Ok(()) => Ok(count),
        Err(miss) => Err(miss),
    }
}

/// Copies a file from an offset on to mapped pages, whatever their permissions.
pub fn copy_file(
    pages: &mut Pages,
    addr: u64,
    count: u64,
    from: u64,
    files: &Files,
    fd: u32,
    at: u64,
) -> Stop
    requires mapped { IsMappedRange (table_of pages.old) addr count }
    requires within { from ≤ count }
    requires file { ReadsFile files.now fd }
    requires offset { at < 2 ^ 63 }
    ensures reads { Reads pages.old pages.new (single addr count) from files.now fd at result }
    ensures stops { Copies (table_of pages.old) addr count from result }
    ensures next { HasNext files.now fd at count result }
{
    let _ = pages.limit();
    let mut done = from;
    while done < count {
        let next = part_of(&[Piece { addr, len: count }], done, Kind::Write);
        match copy_part(pages, next.addr, next.len as usize, files, fd, at + done) {
            Ok(0) => return Stop::Whole(done),
            Ok(n) => done += n as u64,
            Err(miss) => return Stop::Away(done, away_slot(miss)),
        }
    }
    Stop::Whole(done)
}
