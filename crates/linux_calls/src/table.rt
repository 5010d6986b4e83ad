//! The calls by their numbers, and the transfers that they make.
ghost use Rattle.std.specs.Prelude.{◌≡◌, Some};
ghost use Rattle.linux_calls.specs.Rest.{call_transfer, transfer_of as transfer_of_spec};
ghost use Rattle.linux_calls.specs.Table.{call_numbered as call_numbered_spec};
ghost use Rattle.linux_calls.specs.Transfers.{read_through as read_through_spec, reads_at as reads_at_spec};
ghost use Rattle.linux_calls.specs.Transfers.{write_through as write_through_spec, writes_at as writes_at_spec};

use crate::kinds::{Call, Transfer};
use crate::world::{R10, World, low};
use guest_files::Files;
use machine_state::Place;

/// The call with a number, if there is one (syscall_64.tbl of Linux).
#[tactic(auto, unfolding(crate::specs::Table::call_numbered))]
pub(crate) fn call_numbered(number: u64) -> Option<Call>
    ensures { result ≡ call_numbered_spec number }
{
    match number {
        0 => Some(Call::Read),
        1 => Some(Call::Write),
        2 => Some(Call::Open),
        3 => Some(Call::Close),
        5 => Some(Call::Fstat),
        8 => Some(Call::Lseek),
        9 => Some(Call::Mmap),
        10 => Some(Call::Mprotect),
        11 => Some(Call::Munmap),
        12 => Some(Call::Brk),
        16 => Some(Call::Ioctl),
        17 => Some(Call::Pread64),
        18 => Some(Call::Pwrite64),
        19 => Some(Call::Readv),
        20 => Some(Call::Writev),
        28 => Some(Call::Madvise),
        39 => Some(Call::Getpid),
        60 => Some(Call::Exit),
        63 => Some(Call::Uname),
        158 => Some(Call::ArchPrctl),
        218 => Some(Call::SetTidAddress),
        228 => Some(Call::ClockGettime),
        231 => Some(Call::ExitGroup),
        257 => Some(Call::Openat),
        318 => Some(Call::Getrandom),
        _ => None,
    }
}

// A read through a descriptor that is open, if it is so for reading.
fn reads_at(fd: u32, place: Place) -> Option<Transfer>
    ensures { result ≡ reads_at_spec fd place }
{
    if !place.reads {
        None
    } else if place.file.is_some() {
        Some(Transfer::Reads(fd, place.at, true))
    } else if fd == 0 {
        Some(Transfer::Takes)
    } else {
        None
    }
}

// A write through a descriptor that is open, if it is so for writing.
fn writes_at(fd: u32, size: u64, done: u64, place: Place) -> Option<Transfer>
    ensures { result ≡ writes_at_spec fd size done place }
{
    let at = if place.append {
        size.saturating_sub(done)
    } else {
        place.at
    };
    if !place.writes {
        None
    } else if place.file.is_some() {
        Some(Transfer::Writes(fd, at, true))
    } else {
        match fd {
            1 => Some(Transfer::PutsOut),
            2 => Some(Transfer::PutsErr),
            _ => None,
        }
    }
}

/// A read through a descriptor, if that is open for reading.
#[tactic(auto, unfolding(crate::specs::Transfers::read_through))]
pub(crate) fn read_through(files: &Files, fd: u32) -> Option<Transfer>
    ensures { result ≡ read_through_spec files.now fd }
{
    match files.place(fd) {
        Some(place) => reads_at(fd, place),
        None => None,
    }
}

/// A write through a descriptor, of which so many bytes have moved, if that is open for writing.
#[tactic(auto, unfolding(crate::specs::Transfers::write_through))]
pub(crate) fn write_through(files: &Files, fd: u32, done: u64) -> Option<Transfer>
    ensures { result ≡ write_through_spec files.now fd done }
{
    match files.place(fd) {
        Some(place) => writes_at(fd, files.size(fd).unwrap_or(0), done, place),
        None => None,
    }
}

// The transfer that a call makes, of which so many bytes have moved.
fn transfer_by(w: &World, call: Call, done: u64) -> Option<Transfer>
    ensures { result ≡ call_transfer call w.now.gprs.now w.now.files.now done }
{
    let fd = low(w.rdi());
    let at = w.gprs.get(R10);
    match call {
        Call::Read => read_through(w.files, fd),
        Call::Readv => read_through(w.files, fd),
        Call::Write => write_through(w.files, fd, done),
        Call::Writev => write_through(w.files, fd, done),
        Call::Pread64 => Some(Transfer::Reads(fd, at, false)),
        Call::Pwrite64 => Some(Transfer::Writes(fd, at, false)),
        Call::Getrandom => Some(Transfer::Draws),
        Call::Open
        | Call::Close
        | Call::Fstat
        | Call::Lseek
        | Call::Mmap
        | Call::Mprotect
        | Call::Munmap
        | Call::Brk
        | Call::Ioctl
        | Call::Madvise
        | Call::Getpid
        | Call::Exit
        | Call::Uname
        | Call::ArchPrctl
        | Call::SetTidAddress
        | Call::ClockGettime
        | Call::ExitGroup
        | Call::Openat => None,
    }
}

/// The transfer that the registers ask for, of which so many bytes have moved.
#[tactic(auto, unfolding(crate::specs::Rest::transfer_of))]
pub(crate) fn transfer_of(w: &World, done: u64) -> Option<Transfer>
    ensures { result ≡ transfer_of_spec w.now.gprs.now w.now.files.now done }
{
    match call_numbered(w.rax()) {
        Some(call) => transfer_by(w, call, done),
        None => None,
    }
}
