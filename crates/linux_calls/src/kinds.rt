//! The calls, how they end, and how far they came.

use arrayvec::ArrayVec;
use guest_files::Errno;
use guest_pages::Pages;
use guest_transfers::{ListRead, Piece, read_list};
use host_edge::HostCall;
use std::marker::Model;

/// The system calls that there are, by their names in Linux.
#[derive(Clone, Copy, Debug, PartialEq, Eq)]
pub(crate) enum Call {
    Read,
    Write,
    Open,
    Close,
    Fstat,
    Lseek,
    Mmap,
    Mprotect,
    Munmap,
    Brk,
    Ioctl,
    Pread64,
    Pwrite64,
    Readv,
    Writev,
    Madvise,
    Getpid,
    Exit,
    Uname,
    ArchPrctl,
    SetTidAddress,
    ClockGettime,
    ExitGroup,
    Openat,
    Getrandom,
}

/// What comes of a call.
#[derive(Clone, Copy, Debug, PartialEq, Eq)]
pub enum CallEnd {
    /// The call is answered: rax holds this value.
    Value(i64),
    /// The guest exited with this status.
    Exit(u8),
    /// The page in this slot has to be brought into a frame first. Then the same call goes on.
    Need(u32),
    /// A call on the outside failed.
    Host(HostCall),
}

/// Why a call doesn't give a value now.
#[derive(Clone, Copy, Debug, PartialEq, Eq)]
pub(crate) enum Halt {
    /// It is refused with this error.
    Refused(Errno),
    /// The page in this slot has to be brought into a frame first.
    Need(u32),
    /// A call on the outside failed.
    Failed(HostCall),
}

/// What bytes move between memory and something else.
#[derive(Clone, Copy, Debug, PartialEq, Eq)]
pub(crate) enum Transfer {
    /// From the input.
    Takes,
    /// To the output.
    PutsOut,
    /// To the error output.
    PutsErr,
    /// From the file of a descriptor, from an offset on; the descriptor's offset moves, or not.
    Reads(u32, u64, bool),
    /// To the file of a descriptor.
    Writes(u32, u64, bool),
    /// From the random stream.
    Draws,
}

/// Where a call stands.
#[derive(Clone, Copy, Debug, PartialEq, Eq)]
pub(crate) enum Stage {
    /// Before it, or before any part of it is done.
    Start,
    /// Its list of buffers is read.
    Listing,
    /// So many bytes have moved.
    Moving(u64),
    /// A file is copied to the pages from this address on; so many bytes are.
    Copying(u64, u64),
}

/// The most buffers of a list.
pub(crate) const MOST_BUFFERS: usize = 1024;

/// How far a call came. The buffers are those of a transfer, as they were first read.
#[derive(Drop)]
pub struct Progress {
    stage: Stage,
    pieces: ArrayVec<Piece, MOST_BUFFERS>,
}

impl Model for Progress {
    ghost use Rattle.linux_calls.specs.Rest.{ProgressValue};

    ghost Value = { ProgressValue };

    ghost view = { λ p. record { stage = p.stage; pieces = p.pieces.items } };
}

impl Progress {
    ghost use Rattle.std.specs.Prelude.{◌≡◌, ◌<◌, ◌≤◌, ◌^◌, [], ◌∷◌, length};
    ghost use Rattle.guest_transfers.specs.Buffers.{most_buffers};
    ghost use Rattle.guest_transfers.specs.Moves.{ReadsList, record_place};
    ghost use Rattle.linux_calls.specs.Rest.{ProgressValue};

    /// Before a call.
    pub fn new() -> Progress
        ensures { result ≡ record { stage = Stage.Start; pieces = [] } }
    {
        Progress {
            stage: Stage::Start,
            pieces: ArrayVec::new(),
        }
    }

    pub(crate) fn stage(&self) -> Stage
        ensures { result ≡ self.now.stage }
    {
        self.stage
    }

    /// The buffers of the transfer.
    pub(crate) fn pieces(&self) -> &[Piece]
        ensures { result.now ≡ self.now.pieces }
    {
        self.pieces.as_slice()
    }

    /// The call stands here.
    pub(crate) fn wait(&mut self, stage: Stage)
        ensures { self.new ≡ record (self.old) { stage = stage } }
    {
        self.stage = stage;
    }

    /// A transfer has this piece alone.
    pub(crate) fn set(&mut self, piece: Piece)
        ensures { self.new ≡ record (self.old) { pieces = piece ∷ [] } }
    {
        self.pieces.clear();
        self.pieces.push(piece);
    }

    /// Reads buffers of a list behind those that were read.
    pub(crate) fn read(&mut self, pages: &Pages, addr: u64, count: u64) -> ListRead
        requires most { count ≤ most_buffers }
        requires within { length self.old.pieces ≤ count }
        requires place { record_place addr (length self.old.pieces) < 2 ^ 64 }
        ensures reads { ReadsList pages.now addr count self.old.pieces self.new.pieces result }
        ensures stage { self.new.stage ≡ self.old.stage }
    {
        read_list(pages, addr, count, &mut self.pieces)
    }

    /// A transfer has no buffers yet.
    pub(crate) fn clear(&mut self)
        ensures { self.new ≡ record (self.old) { pieces = [] } }
    {
        self.pieces.clear();
    }
}
