//! The answer of a call.
ghost use Rattle.std.specs.Prelude.{◌≡◌, ◌<◌, ◌^◌, false, Some, None};
ghost use Rattle.linux_calls.specs.Call.{rax, rdi, rdx, rsi};
ghost use Rattle.linux_calls.specs.Outside.{streams};
ghost use Rattle.linux_calls.specs.Rest.{rest_of, transfer_of as transfer_of_spec};
ghost use Rattle.linux_calls.specs.Transfers.{begun, named_piece};
ghost use Rattle.linux_calls.specs.Table.{act, call_numbered as call_numbered_spec, ends_guest};
ghost use Rattle.linux_calls.specs.View.{view_of, FitParts, KeepsPages, SameParts};
ghost use Rattle.linux_calls.specs.Following.{DoesAtOnce, DoesPart, FollowsAt, IsCaused, IsValue, Kept, Settles, StillTell, Works};
ghost use Rattle.linux_calls.specs.Following.{answered_view, exit_of as exit_of_spec, failed_by, faults};
ghost use Rattle.linux_calls.specs.Waiting.{CanGoOn, IsQuick, IsSlow, NeedsAt, NeedsIn};
ghost use Rattle.linux_calls.specs.Units.{KeepsSwap, WaitsAt, WaitsIn, moving_from};
ghost use Rattle.linux_calls.specs.Passing.{PassedAt, PassedIn, Passes, PassesFor, PassesTransfer};
ghost use Rattle.guest_pages.specs.Pages.{table_of};

use crate::copying::{copy_on, mmap};
use crate::errnos::{ENOSYS, negative};
use crate::files::{close, ioctl, lseek};
use crate::kinds::{Call, CallEnd, Halt, Stage, Transfer};
use crate::lists::{list_call, list_on};
use crate::mapping::{brk, madvise, mprotect, munmap};
use crate::paths::{open, openat};
use crate::records::{arch_prctl, clock_gettime, fstat, uname};
use crate::table::{call_numbered, transfer_of};
use crate::transfers::{move_on, transfer_call};
use crate::world::{World, low};
use gpr_flags::RAX;
use guest_files::Errno;
use guest_transfers::Piece;
use host_edge::{Sink, Source};

/// The number of the process and of its only thread.
const PROCESS_ID: u64 = 1;

/// The flags that getrandom knows.
const RANDOM_FLAGS: u32 = 7;

// A call that never waits, other than exit.
fn at_once(w: &mut World, call: Call) -> Result<u64, Errno>
    requires quick { IsQuick call }
    requires fit { FitParts (view_of w.old) }
    ensures kept { Kept w.old w.new }
    ensures does { DoesAtOnce (act call) (view_of w.old) (view_of w.new) result }
{
    match call {
        Call::Close => close(w),
        Call::Lseek => lseek(w),
        Call::Mprotect => mprotect(w),
        Call::Munmap => munmap(w),
        Call::Brk => brk(w),
        Call::Ioctl => ioctl(w),
        Call::Madvise => madvise(w),
        Call::Getpid => Ok(PROCESS_ID),
        Call::SetTidAddress => Ok(PROCESS_ID),
        Call::Open
        | Call::Fstat
        | Call::Mmap
        | Call::Uname
        | Call::ArchPrctl
        | Call::ClockGettime
        | Call::Openat
        | Call::Read
        | Call::Write
        | Call::Pread64
        | Call::Pwrite64
        | Call::Readv
        | Call::Writev
        | Call::Exit
        | Call::ExitGroup
        | Call::Getrandom => unreachable!(),
    }
}

// The same as a piece of a call.
fn quick(w: &mut World, call: Call) -> Result<u64, Halt>
    requires quick { IsQuick call }
    requires fit { FitParts (view_of w.old) }
    ensures kept { Kept w.old w.new }
    ensures does { DoesPart (act call) (view_of w.old) (view_of w.new) result }
    ensures needs { NeedsIn (view_of w.new) result }
    ensures waits { WaitsIn (view_of w.old) (view_of w.new) result }
    ensures exact { PassedIn (PassesFor call (view_of w.old) (table_of w.new.pages.now)) result }
{
    match at_once(w, call) {
        Ok(value) => Ok(value),
        Err(errno) => Err(Halt::Refused(errno)),
    }
}

// A call that reads a path or writes a record, or maps pages.
fn slow(w: &mut World, call: Call) -> Result<u64, Halt>
    requires is { call_numbered_spec (rax w.old.gprs.now) ≡ Some call }
    requires begins { w.old.progress.now.stage ≡ Stage.Start }
    requires slow { IsSlow call }
    requires fit { FitParts (view_of w.old) }
    ensures kept { Kept w.old w.new }
    ensures does { DoesPart (act call) (view_of w.old) (view_of w.new) result }
    ensures needs { NeedsIn (view_of w.new) result }
    ensures waits { WaitsIn (view_of w.old) (view_of w.new) result }
    ensures exact { PassedIn (PassesFor call (view_of w.old) (table_of w.new.pages.now)) result }
{
    match call {
        Call::Open => open(w),
        Call::Fstat => fstat(w),
        Call::Mmap => mmap(w),
        Call::Uname => uname(w),
        Call::ArchPrctl => arch_prctl(w),
        Call::ClockGettime => clock_gettime(w),
        Call::Openat => openat(w),
        Call::Close
        | Call::Lseek
        | Call::Mprotect
        | Call::Munmap
        | Call::Brk
        | Call::Ioctl
        | Call::Madvise
        | Call::Getpid
        | Call::SetTidAddress
        | Call::Read
        | Call::Write
        | Call::Pread64
        | Call::Pwrite64
        | Call::Readv
        | Call::Writev
        | Call::Exit
        | Call::ExitGroup
        | Call::Getrandom => unreachable!(),
    }
}

// The call getrandom.
fn getrandom<S: Source, O: Sink, E: Sink>(
    w: &mut World,
    input: &mut S,
    out: &mut O,
    err: &mut E,
) -> Result<u64, Halt>
    requires is { call_numbered_spec (rax w.old.gprs.now) ≡ Some Call.Getrandom }
    requires fit { FitParts (view_of w.old) }
    ensures works { Works (moving_from (named_piece (rdi w.old.gprs.now) (rsi w.old.gprs.now)) 0) (act Call.Getrandom) w.old w.new
        (streams (S.left input.old) (O.taken out.old) (E.taken err.old)) (streams (S.left input.new) (O.taken out.new) (E.taken err.new))
        (faults (S.faults input.old) (O.faults out.old) (E.faults err.old))
        (faults (S.faults input.new) (O.faults out.new) (E.faults err.new)) result }
    ensures exact { PassedIn (PassesFor Call.Getrandom (view_of w.old) (table_of w.new.pages.now)) result }
{
    if low(w.rdx()) > RANDOM_FLAGS {
        return Err(Halt::Refused(Errno::EINVAL));
    }
    let piece = Piece {
        addr: w.rdi(),
        len: w.rsi(),
    };
    transfer_call(w, Some(Transfer::Draws), piece, input, out, err)
}

// The transfer of read, write, pread64 or pwrite64, whose buffer rsi and rdx name.
fn moving<S: Source, O: Sink, E: Sink>(
    w: &mut World,
    transfer: Option<Transfer>,
    input: &mut S,
    out: &mut O,
    err: &mut E,
) -> Result<u64, Halt>
    requires is { transfer_of_spec w.old.gprs.now w.old.files.now 0 ≡ transfer }
    requires fit { FitParts (view_of w.old) }
    ensures works { Works (moving_from (named_piece (rsi w.old.gprs.now) (rdx w.old.gprs.now)) 0)
        (begun transfer (named_piece (rsi w.old.gprs.now) (rdx w.old.gprs.now))) w.old w.new
        (streams (S.left input.old) (O.taken out.old) (E.taken err.old)) (streams (S.left input.new) (O.taken out.new) (E.taken err.new))
        (faults (S.faults input.old) (O.faults out.old) (E.faults err.old))
        (faults (S.faults input.new) (O.faults out.new) (E.faults err.new)) result }
    ensures exact { PassedIn (λ stop.
        PassesTransfer transfer (view_of w.old) (named_piece (rsi w.old.gprs.now) (rdx w.old.gprs.now)) stop) result }
{
    let piece = Piece {
        addr: w.rsi(),
        len: w.rdx(),
    };
    transfer_call(w, transfer, piece, input, out, err)
}

// A call other than exit, from its beginning.
fn perform<S: Source, O: Sink, E: Sink>(
    w: &mut World,
    call: Call,
    input: &mut S,
    out: &mut O,
    err: &mut E,
) -> Result<u64, Halt>
    requires is { call_numbered_spec (rax w.old.gprs.now) ≡ Some call }
    requires begins { w.old.progress.now.stage ≡ Stage.Start }
    requires stays { ends_guest call ≡ false }
    requires fit { FitParts (view_of w.old) }
    ensures works { Works w.old.progress.now (act call) w.old w.new
        (streams (S.left input.old) (O.taken out.old) (E.taken err.old)) (streams (S.left input.new) (O.taken out.new) (E.taken err.new))
        (faults (S.faults input.old) (O.faults out.old) (E.faults err.old))
        (faults (S.faults input.new) (O.faults out.new) (E.faults err.new)) result }
    ensures exact { PassedIn (PassesFor call (view_of w.old) (table_of w.new.pages.now)) result }
{
    let transfer = transfer_of(w, 0);
    match call {
        Call::Read => moving(w, transfer, input, out, err),
        Call::Write => moving(w, transfer, input, out, err),
        Call::Pread64 => moving(w, transfer, input, out, err),
        Call::Pwrite64 => moving(w, transfer, input, out, err),
        Call::Readv => list_call(w, transfer, input, out, err),
        Call::Writev => list_call(w, transfer, input, out, err),
        Call::Getrandom => getrandom(w, input, out, err),
        Call::Exit | Call::ExitGroup => unreachable!(),
        Call::Open
        | Call::Fstat
        | Call::Mmap
        | Call::Uname
        | Call::ArchPrctl
        | Call::ClockGettime
        | Call::Openat => slow(w, call),
        Call::Close
        | Call::Lseek
        | Call::Mprotect
        | Call::Munmap
        | Call::Brk
        | Call::Ioctl
        | Call::Madvise
        | Call::Getpid
        | Call::SetTidAddress => quick(w, call),
    }
}

// A call from where it stands.
fn go_on<S: Source, O: Sink, E: Sink>(
    w: &mut World,
    input: &mut S,
    out: &mut O,
    err: &mut E,
) -> Result<u64, Halt>
    requires stays { exit_of_spec (view_of w.old) ≡ None }
    requires can { CanGoOn (view_of w.old) }
    requires fit { FitParts (view_of w.old) }
    ensures works { Works w.old.progress.now (rest_of w.old.progress.now) w.old w.new
        (streams (S.left input.old) (O.taken out.old) (E.taken err.old)) (streams (S.left input.new) (O.taken out.new) (E.taken err.new))
        (faults (S.faults input.old) (O.faults out.old) (E.faults err.old))
        (faults (S.faults input.new) (O.faults out.new) (E.faults err.new)) result }
    ensures exact { PassedIn (Passes (view_of w.old) (view_of w.new)) result }
{
    match w.progress.stage() {
        Stage::Start => match call_numbered(w.rax()) {
            Some(call) => perform(w, call, input, out, err),
            None => Err(Halt::Refused(ENOSYS)),
        },
        Stage::Listing => match transfer_of(w, 0) {
            Some(transfer) => list_on(w, transfer, input, out, err),
            None => unreachable!(),
        },
        Stage::Moving(done) => match transfer_of(w, done) {
            Some(transfer) => move_on(w, transfer, done, input, out, err),
            None => unreachable!(),
        },
        Stage::Copying(at, done) => copy_on(w, at, done),
    }
}

// Whether a call ends the guest.
fn ends(call: Call) -> bool
    ensures { result ≡ ends_guest call }
{
    match call {
        Call::Exit | Call::ExitGroup => true,
        Call::Read
        | Call::Write
        | Call::Open
        | Call::Close
        | Call::Fstat
        | Call::Lseek
        | Call::Mmap
        | Call::Mprotect
        | Call::Munmap
        | Call::Brk
        | Call::Ioctl
        | Call::Pread64
        | Call::Pwrite64
        | Call::Readv
        | Call::Writev
        | Call::Madvise
        | Call::Getpid
        | Call::Uname
        | Call::ArchPrctl
        | Call::SetTidAddress
        | Call::ClockGettime
        | Call::Openat
        | Call::Getrandom => false,
    }
}

// The status with which the call ends the guest, if it does.
#[tactic(auto, unfolding(crate::specs::Following::exit_of))]
fn exit_of(w: &World) -> Option<u8>
    ensures { result ≡ exit_of_spec (view_of w.now) }
{
    match w.progress.stage() {
        Stage::Start => match call_numbered(w.rax()) {
            Some(call) => {
                if ends(call) {
                    Some((w.rdi() % 256) as u8)
                } else {
                    None
                }
            }
            None => None,
        },
        Stage::Listing => None,
        Stage::Moving(_) => None,
        Stage::Copying(_, _) => None,
    }
}

// Answers with a value.
fn give(w: &mut World, value: u64) -> CallEnd
    ensures parts { SameParts w.old w.new }
    ensures view { view_of w.new ≡ answered_view (view_of w.old) value }
    ensures end { IsValue result value }
{
    w.gprs.set(RAX, value);
    w.progress.wait(Stage::Start);
    CallEnd::Value(value.cast_signed())
}

// Ends a call, or leaves it waiting.
fn settle(w: &mut World, came: Result<u64, Halt>) -> CallEnd
    ensures parts { SameParts w.old w.new }
    ensures settles { Settles came (view_of w.old) (view_of w.new) result }
{
    match came {
        Ok(value) => give(w, value),
        Err(Halt::Refused(errno)) => give(w, negative(errno)),
        Err(Halt::Need(slot)) => CallEnd::Need(slot),
        Err(Halt::Failed(call)) => CallEnd::Host(call),
    }
}

/// Answers the system call that the registers ask for, or goes on with one that waited for a page.
pub fn answer<S: Source, O: Sink, E: Sink>(
    w: &mut World,
    input: &mut S,
    out: &mut O,
    err: &mut E,
) -> CallEnd
    requires can_go_on { CanGoOn (view_of w.old) }
    requires fit { FitParts (view_of w.old) }
    ensures parts { SameParts w.old w.new }
    ensures pages { KeepsPages (view_of w.old) (view_of w.new) }
    ensures follows { FollowsAt (view_of w.old) (view_of w.new)
        (streams (S.left input.old) (O.taken out.old) (E.taken err.old))
        (streams (S.left input.new) (O.taken out.new) (E.taken err.new)) result }
    ensures tells { StillTell (streams (S.left input.old) (O.taken out.old) (E.taken err.old))
        (streams (S.left input.new) (O.taken out.new) (E.taken err.new)) }
    ensures needs { NeedsAt (view_of w.new) result }
    ensures waits { WaitsAt (view_of w.old) (view_of w.new) result }
    ensures exact { PassedAt (Passes (view_of w.old) (view_of w.new)) result }
    ensures swap { KeepsSwap (view_of w.old).pages (view_of w.new).pages }
    ensures cause { IsCaused (failed_by result) (faults (S.faults input.old) (O.faults out.old) (E.faults err.old))
        (faults (S.faults input.new) (O.faults out.new) (E.faults err.new)) }
{
    match exit_of(w) {
        Some(code) => CallEnd::Exit(code),
        None => {
            let came = go_on(w, input, out, err);
            settle(w, came)
        }
    }
}
