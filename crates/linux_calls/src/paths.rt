//! The calls open and openat.
ghost use Rattle.std.specs.Prelude.{◌≡◌, ◌==◌, ◌||◌};
ghost use Rattle.linux_calls.specs.FileCalls.{is_absolute as is_absolute_spec, open_call, openat_call, opened_call, opened_from};
ghost use Rattle.linux_calls.specs.FileCalls.{open_path_at};
ghost use Rattle.linux_calls.specs.View.{view_of, FitParts};
ghost use Rattle.linux_calls.specs.Following.{Does, DoesAtOnce, Kept};
ghost use Rattle.linux_calls.specs.Waiting.{NeedsFirst, NeedsPathIn};
ghost use Rattle.linux_calls.specs.Passing.{NeverWaits, PassedIn, PassesFirst};
ghost use Rattle.linux_calls.specs.declared.kinds.Call.{Call};
ghost use Rattle.guest_transfers.specs.Moves.{PathWaits};

use crate::errnos::{EFAULT, ENAMETOOLONG, ENOTDIR};
use crate::kinds::Halt;
use crate::world::{World, low};
use guest_files::Errno;
use guest_transfers::{PathRead, read_path};

/// The descriptor that stands for the working directory (AT_FDCWD, -100).
const WORKING_DIRECTORY: u32 = 0xFFFF_FF9C;

// Whether a path is taken from the root.
fn is_absolute(path: &[u8]) -> bool
    ensures { result ≡ is_absolute_spec path.now }
{
    match path.first() {
        Some(byte) => *byte == b'/',
        None => false,
    }
}

// Opens the file with a name.
#[tactic(auto, unfolding(crate::specs::FileCalls::opened_call))]
fn open_name(w: &mut World, name: &[u8], flags: u32) -> Result<u64, Errno>
    requires { FitParts (view_of w.old) }
    ensures kept { Kept w.old w.new }
    ensures does { DoesAtOnce (opened_call name.now flags) (view_of w.old) (view_of w.new) result }
{
    match w.files.open(name, flags) {
        Ok(fd) => Ok(u64::from(fd)),
        Err(errno) => Err(errno),
    }
}

// Opens a path from a descriptor on.
#[tactic(auto, unfolding(crate::specs::FileCalls::opened_from))]
fn open_from(w: &mut World, fd: u32, path: &[u8], flags: u32) -> Result<u64, Errno>
    requires { FitParts (view_of w.old) }
    ensures kept { Kept w.old w.new }
    ensures does { DoesAtOnce (opened_from fd path.now flags) (view_of w.old) (view_of w.new) result }
{
    if !is_absolute(path) && fd != WORKING_DIRECTORY {
        return match w.files.place(fd) {
            Some(_) => Err(ENOTDIR),
            None => Err(Errno::EBADF),
        };
    }
    open_name(w, path, flags)
}

// Opens the path at an address.
fn open_at(w: &mut World, fd: u32, addr: u64, flags: u32) -> Result<u64, Halt>
    requires { FitParts (view_of w.old) }
    ensures kept { Kept w.old w.new }
    ensures does { Does (open_path_at fd addr flags) (view_of w.old) (view_of w.new) result }
    ensures needs { NeedsPathIn (view_of w.new) addr result }
    ensures exact { PassedIn (λ _. NeverWaits (λ slot. PathWaits w.old.pages.now addr slot)) result }
{
    match read_path(w.pages, addr) {
        PathRead::Text(path) => match open_from(w, fd, path.as_slice(), flags) {
            Ok(opened) => Ok(opened),
            Err(errno) => Err(Halt::Refused(errno)),
        },
        PathRead::TooLong => Err(Halt::Refused(ENAMETOOLONG)),
        PathRead::Fault => Err(Halt::Refused(EFAULT)),
        PathRead::Away(slot) => Err(Halt::Need(slot)),
    }
}

/// The call open.
#[tactic(auto, unfolding(crate::specs::FileCalls::open_call))]
pub(crate) fn open(w: &mut World) -> Result<u64, Halt>
    requires { FitParts (view_of w.old) }
    ensures kept { Kept w.old w.new }
    ensures does { Does open_call (view_of w.old) (view_of w.new) result }
    ensures needs { NeedsFirst Call.Open (view_of w.new) result }
    ensures exact { PassedIn (λ _. PassesFirst Call.Open (view_of w.old)) result }
{
    let addr = w.rdi();
    let flags = low(w.rsi());
    open_at(w, WORKING_DIRECTORY, addr, flags)
}

/// The call openat.
#[tactic(auto, unfolding(crate::specs::FileCalls::openat_call))]
pub(crate) fn openat(w: &mut World) -> Result<u64, Halt>
    requires { FitParts (view_of w.old) }
    ensures kept { Kept w.old w.new }
    ensures does { Does openat_call (view_of w.old) (view_of w.new) result }
    ensures needs { NeedsFirst Call.Openat (view_of w.new) result }
    ensures exact { PassedIn (λ _. PassesFirst Call.Openat (view_of w.old)) result }
{
    let fd = low(w.rdi());
    let addr = w.rsi();
    let flags = low(w.rdx());
    open_at(w, fd, addr, flags)
}
