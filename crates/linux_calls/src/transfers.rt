//! Transfers between memory and streams, files and the random stream.
ghost use Rattle.std.specs.Prelude.{◌≡◌, ◌<◌, ◌≤◌, ◌^◌, ℕ, false, length, List, OnOk, Option, Some, IsSome, is_some};
ghost use Rattle.std.specs.Result.{result_err};
ghost use Rattle.machine_state.specs.World.{place_at};
ghost use Rattle.guest_files.specs.Checks.{is_stream};
ghost use Rattle.guest_files.specs.Files.{AreFiles};
ghost use Rattle.guest_pages.specs.Table.{perms_in};
ghost use Rattle.guest_pages.specs.Pages.{table_of};
ghost use Rattle.guest_files.specs.Moves.{read_refusal, write_refusal};
ghost use Rattle.guest_transfers.specs.declared.kinds.Piece.{Piece};
ghost use Rattle.guest_transfers.specs.Moves.{ReadsFile, WritesFile};
ghost use Rattle.guest_transfers.specs.Pieces.{asked, most_asked, single};
ghost use Rattle.linux_calls.specs.Outside.{streams};
ghost use Rattle.linux_calls.specs.Rest.{transfer_of};
ghost use Rattle.linux_calls.specs.Transfers.{begun, draws_rest, err_rest, kind_of as kind_of_spec, left_at, named_piece, out_rest};
ghost use Rattle.linux_calls.specs.Transfers.{reads_rest, refusal_of, takes_rest, transfer_rest, transferred, writes_rest};
ghost use Rattle.linux_calls.specs.View.{view_of, FitParts, SameParts};
ghost use Rattle.linux_calls.specs.Following.{Comes, DoesPart, Ends, EndsAt, IsCaused, IsLowStop, Kept, Works, failed_in, faults};
ghost use Rattle.linux_calls.specs.Waiting.{CanMove, HasOther, IsOne, NeedsIn};
ghost use Rattle.linux_calls.specs.Units.{WaitsIn, moving_from, standing_at};
ghost use Rattle.linux_calls.specs.Passing.{PassedIn, PassesParts, PassesTransfer};

use crate::errnos::EFAULT;
use crate::kinds::{Halt, Stage, Transfer};
use crate::world::World;
use guest_files::{Errno, Files};
use guest_pages::Kind;
use guest_transfers::{
    Piece, Stop, allowed_pieces, draw_bytes, put_pieces, read_file, take_pieces, total_len,
    write_file,
};
use host_edge::{HostCall, Sink, Source};

/// The most bytes of a transfer (MAX_RW_COUNT of Linux).
pub(crate) const MOST_ASKED: u64 = 0x7FFF_F000;

/// Offsets in files lie below this.
const OFFSET_END: u64 = 1 << 63;

// Ends a transfer, or leaves it waiting, by how it stopped.
fn finish(w: &mut World, stop: Stop, call: HostCall) -> Result<u64, Halt>
    ensures parts { SameParts w.old w.new }
    ensures ends { Ends stop call (view_of w.old) (view_of w.new) result }
{
    match stop {
        Stop::Whole(done) => Ok(done),
        Stop::Away(done, slot) => {
            w.progress.wait(Stage::Moving(done));
            Err(Halt::Need(slot))
        }
        Stop::Failed => Err(Halt::Failed(call)),
    }
}

// Goes on with a read from the input.
fn take_on<S: Source>(w: &mut World, from: u64, input: &mut S) -> Result<u64, Halt>
    requires is { (done : ℕ) → transfer_of w.old.gprs.now w.old.files.now done ≡ Some Transfer.Takes }
    requires can { CanMove Transfer.Takes (perms_in (table_of w.old.pages.now)) w.old.files.now w.old.progress.now.pieces from }
    requires fit { FitParts (view_of w.old) }
    ensures kept { Kept w.old w.new }
    ensures comes { (out err : Option (List ℕ)) → Comes (takes_rest w.old.progress.now.pieces from) (IsSome (S.left input.old))
        (view_of w.old) (view_of w.new) (streams (S.left input.old) out err) (streams (S.left input.new) out err) result }
    ensures tells { is_some (S.left input.new) ≡ is_some (S.left input.old) }
    ensures needs { NeedsIn (view_of w.new) result }
    ensures waits { WaitsIn (standing_at (view_of w.old) (moving_from w.old.progress.now.pieces from)) (view_of w.new) result }
    ensures cause { (o e : ℕ) → IsCaused (failed_in result) (faults (S.faults input.old) o e) (faults (S.faults input.new) o e) }
    ensures exact { PassedIn (λ stop. PassesParts Transfer.Takes (view_of w.old) w.old.progress.now.pieces from stop) result }
{
    let stop = take_pieces(w.pages, w.progress.pieces(), from, input);
    finish(w, stop, HostCall::Take)
}

// Goes on with a write to the output.
fn out_on<O: Sink>(w: &mut World, from: u64, out: &mut O) -> Result<u64, Halt>
    requires is { (done : ℕ) → transfer_of w.old.gprs.now w.old.files.now done ≡ Some Transfer.PutsOut }
    requires can { CanMove Transfer.PutsOut (perms_in (table_of w.old.pages.now)) w.old.files.now w.old.progress.now.pieces from }
    requires fit { FitParts (view_of w.old) }
    ensures kept { Kept w.old w.new }
    ensures comes { (left err : Option (List ℕ)) → Comes (out_rest w.old.progress.now.pieces from) (Unit {0})
        (view_of w.old) (view_of w.new) (streams left (O.taken out.old) err) (streams left (O.taken out.new) err) result }
    ensures tells { is_some (O.taken out.new) ≡ is_some (O.taken out.old) }
    ensures needs { NeedsIn (view_of w.new) result }
    ensures waits { WaitsIn (standing_at (view_of w.old) (moving_from w.old.progress.now.pieces from)) (view_of w.new) result }
    ensures cause { (t e : ℕ) → IsCaused (failed_in result) (faults t (O.faults out.old) e) (faults t (O.faults out.new) e) }
    ensures exact { PassedIn (λ stop. PassesParts Transfer.PutsOut (view_of w.old) w.old.progress.now.pieces from stop) result }
{
    let stop = put_pieces(w.pages, w.progress.pieces(), from, out);
    finish(w, stop, HostCall::PutOut)
}

// Goes on with a write to the error output.
fn err_on<E: Sink>(w: &mut World, from: u64, err: &mut E) -> Result<u64, Halt>
    requires is { (done : ℕ) → transfer_of w.old.gprs.now w.old.files.now done ≡ Some Transfer.PutsErr }
    requires can { CanMove Transfer.PutsErr (perms_in (table_of w.old.pages.now)) w.old.files.now w.old.progress.now.pieces from }
    requires fit { FitParts (view_of w.old) }
    ensures kept { Kept w.old w.new }
    ensures comes { (left out : Option (List ℕ)) → Comes (err_rest w.old.progress.now.pieces from) (Unit {0})
        (view_of w.old) (view_of w.new) (streams left out (E.taken err.old)) (streams left out (E.taken err.new)) result }
    ensures tells { is_some (E.taken err.new) ≡ is_some (E.taken err.old) }
    ensures needs { NeedsIn (view_of w.new) result }
    ensures waits { WaitsIn (standing_at (view_of w.old) (moving_from w.old.progress.now.pieces from)) (view_of w.new) result }
    ensures cause { (t o : ℕ) → IsCaused (failed_in result) (faults t o (E.faults err.old)) (faults t o (E.faults err.new)) }
    ensures exact { PassedIn (λ stop. PassesParts Transfer.PutsErr (view_of w.old) w.old.progress.now.pieces from stop) result }
{
    let stop = put_pieces(w.pages, w.progress.pieces(), from, err);
    finish(w, stop, HostCall::PutErr)
}

// What is known of files at any time.
fn known(files: &Files)
    ensures kept { AreFiles files.now }
    ensures cap { files.now.cap < 2 ^ 32 }
{
    let _ = files.cap();
    let _ = files.entries();
}

// Leaves the descriptor of a file at an offset, where the transfer moves it.
fn leave_at(files: &mut Files, fd: u32, at: u64, moves: bool)
    requires open { IsSome (place_at files.old.places fd) }
    requires file { is_stream (place_at files.old.places fd) ≡ false }
    requires low { at < 2 ^ 63 }
    ensures { files.new ≡ left_at moves files.old fd at }
{
    if moves {
        match files.seek(fd, at as i64, 0) {
            Ok(_) => {}
            Err(_) => unreachable!(),
        }
    }
}

// Ends a transfer with a file, or leaves it waiting, by how it stopped.
fn finish_at(w: &mut World, stop: Stop, fd: u32, at: u64, moves: bool) -> Result<u64, Halt>
    requires open { IsSome (place_at w.old.files.now.places fd) }
    requires file { is_stream (place_at w.old.files.now.places fd) ≡ false }
    requires low { IsLowStop stop at }
    ensures parts { SameParts w.old w.new }
    ensures ends { EndsAt stop fd at moves (view_of w.old) (view_of w.new) result }
{
    match stop {
        Stop::Whole(done) => {
            leave_at(w.files, fd, at + done, moves);
            Ok(done)
        }
        Stop::Away(done, slot) => {
            w.progress.wait(Stage::Moving(done));
            Err(Halt::Need(slot))
        }
        Stop::Failed => unreachable!(),
    }
}

// Goes on with a read from a file.
fn read_on(w: &mut World, fd: u32, at: u64, moves: bool, from: u64) -> Result<u64, Halt>
    requires is { (done : ℕ) → transfer_of w.old.gprs.now w.old.files.now done ≡ Some (Transfer.Reads fd at moves) }
    requires can { CanMove (Transfer.Reads fd at moves) (perms_in (table_of w.old.pages.now))
        w.old.files.now w.old.progress.now.pieces from }
    requires fit { FitParts (view_of w.old) }
    ensures kept { Kept w.old w.new }
    ensures does { DoesPart (reads_rest fd at moves w.old.progress.now.pieces from) (view_of w.old) (view_of w.new) result }
    ensures needs { NeedsIn (view_of w.new) result }
    ensures waits { WaitsIn (standing_at (view_of w.old) (moving_from w.old.progress.now.pieces from)) (view_of w.new) result }
    ensures exact { PassedIn (λ stop.
        PassesParts (Transfer.Reads fd at moves) (view_of w.old) w.old.progress.now.pieces from stop) result }
{
    known(w.files);
    let stop = read_file(w.pages, w.progress.pieces(), from, w.files, fd, at);
    finish_at(w, stop, fd, at, moves)
}

// Goes on with a write to a file.
fn write_on(w: &mut World, fd: u32, at: u64, moves: bool, from: u64) -> Result<u64, Halt>
    requires is { transfer_of w.old.gprs.now w.old.files.now from ≡ Some (Transfer.Writes fd at moves) }
    requires can { CanMove (Transfer.Writes fd at moves) (perms_in (table_of w.old.pages.now))
        w.old.files.now w.old.progress.now.pieces from }
    requires fit { FitParts (view_of w.old) }
    ensures kept { Kept w.old w.new }
    ensures does { DoesPart (writes_rest fd at moves w.old.progress.now.pieces from) (view_of w.old) (view_of w.new) result }
    ensures needs { NeedsIn (view_of w.new) result }
    ensures waits { WaitsIn (standing_at (view_of w.old) (moving_from w.old.progress.now.pieces from)) (view_of w.new) result }
    ensures exact { PassedIn (λ stop.
        PassesParts (Transfer.Writes fd at moves) (view_of w.old) w.old.progress.now.pieces from stop) result }
{
    known(w.files);
    let stop = write_file(w.pages, w.progress.pieces(), from, w.files, fd, at);
    finish_at(w, stop, fd, at, moves)
}

// The one piece of a transfer.
fn only(pieces: &[Piece]) -> Piece
    requires { length pieces.now ≡ 1 }
    ensures { pieces.now ≡ single result.addr result.len }
{
    pieces[0]
}

// Goes on with random bytes.
fn draw_on(w: &mut World, from: u64) -> Result<u64, Halt>
    requires is { (done : ℕ) → transfer_of w.old.gprs.now w.old.files.now done ≡ Some Transfer.Draws }
    requires can { CanMove Transfer.Draws (perms_in (table_of w.old.pages.now)) w.old.files.now w.old.progress.now.pieces from }
    requires fit { FitParts (view_of w.old) }
    ensures kept { Kept w.old w.new }
    ensures does { DoesPart (draws_rest w.old.progress.now.pieces from) (view_of w.old) (view_of w.new) result }
    ensures needs { NeedsIn (view_of w.new) result }
    ensures waits { WaitsIn (standing_at (view_of w.old) (moving_from w.old.progress.now.pieces from)) (view_of w.new) result }
    ensures exact { PassedIn (λ stop. PassesParts Transfer.Draws (view_of w.old) w.old.progress.now.pieces from stop) result }
{
    let piece = only(w.progress.pieces());
    let stop = draw_bytes(w.pages, piece, from, w.random);
    finish(w, stop, HostCall::Take)
}

/// Goes on with a transfer, from so many bytes on.
pub(crate) fn move_on<S: Source, O: Sink, E: Sink>(
    w: &mut World,
    transfer: Transfer,
    from: u64,
    input: &mut S,
    out: &mut O,
    err: &mut E,
) -> Result<u64, Halt>
    requires is { transfer_of w.old.gprs.now w.old.files.now from ≡ Some transfer }
    requires can { CanMove transfer (perms_in (table_of w.old.pages.now)) w.old.files.now w.old.progress.now.pieces from }
    requires fit { FitParts (view_of w.old) }
    ensures works { Works (moving_from w.old.progress.now.pieces from) (transfer_rest transfer w.old.progress.now.pieces from) w.old w.new
        (streams (S.left input.old) (O.taken out.old) (E.taken err.old)) (streams (S.left input.new) (O.taken out.new) (E.taken err.new))
        (faults (S.faults input.old) (O.faults out.old) (E.faults err.old))
        (faults (S.faults input.new) (O.faults out.new) (E.faults err.new)) result }
    ensures exact { PassedIn (λ stop. PassesParts transfer (view_of w.old) w.old.progress.now.pieces from stop) result }
{
    match transfer {
        Transfer::Takes => take_on(w, from, input),
        Transfer::PutsOut => out_on(w, from, out),
        Transfer::PutsErr => err_on(w, from, err),
        Transfer::Reads(fd, at, moves) => read_on(w, fd, at, moves, from),
        Transfer::Writes(fd, at, moves) => write_on(w, fd, at, moves, from),
        Transfer::Draws => draw_on(w, from),
    }
}

// What a transfer does with memory.
fn kind_of(transfer: Transfer) -> Kind
    ensures { result ≡ kind_of_spec transfer }
{
    match transfer {
        Transfer::Takes | Transfer::Reads(_, _, _) | Transfer::Draws => Kind::Write,
        Transfer::PutsOut | Transfer::PutsErr | Transfer::Writes(_, _, _) => Kind::Read,
    }
}

// Checks a read from a file.
#[tactic(auto, unfolding(guest_files::specs::Moves::read_refusal))]
fn check_read(files: &Files, fd: u32, at: u64) -> Result<(), Errno>
    ensures answer { result_err result ≡ read_refusal files.now fd at }
    ensures file { OnOk result (ReadsFile files.now fd) }
    ensures low { OnOk result (at < 2 ^ 63) }
{
    match files.place(fd) {
        Some(place) if place.reads => {
            if place.file.is_none() {
                return Err(Errno::ESPIPE);
            }
        }
        _ => return Err(Errno::EBADF),
    }
    if at >= OFFSET_END {
        return Err(Errno::EINVAL);
    }
    Ok(())
}

// Checks a write of so many bytes to a file.
#[tactic(auto, unfolding(guest_files::specs::Moves::write_refusal))]
fn check_write(files: &Files, fd: u32, at: u64, count: u64) -> Result<(), Errno>
    ensures answer { result_err result ≡ write_refusal files.now fd at count }
    ensures file { OnOk result (WritesFile files.now fd) }
    ensures low { OnOk result (at < 2 ^ 63) }
{
    match files.place(fd) {
        Some(place) if place.writes => {
            if place.file.is_none() {
                return Err(Errno::ESPIPE);
            }
        }
        _ => return Err(Errno::EBADF),
    }
    if at >= OFFSET_END {
        return Err(Errno::EINVAL);
    }
    if count > 0 && at >= u64::from(files.cap()) {
        return Err(Errno::ENOSPC);
    }
    Ok(())
}

// Checks a transfer of so many bytes, all but its buffers.
fn check(files: &Files, transfer: Transfer, count: u64) -> Result<(), Errno>
    ensures answer { result_err result ≡ refusal_of transfer count files.now }
    ensures other { OnOk result ((pieces : List Piece) → IsOne transfer pieces → HasOther transfer files.now pieces 0) }
{
    match transfer {
        Transfer::Takes | Transfer::PutsOut | Transfer::PutsErr | Transfer::Draws => Ok(()),
        Transfer::Reads(fd, at, _) => check_read(files, fd, at),
        Transfer::Writes(fd, at, _) => check_write(files, fd, at, count),
    }
}

/// Begins a transfer to or from the pieces that stand in the progress.
pub(crate) fn begin<S: Source, O: Sink, E: Sink>(
    w: &mut World,
    transfer: Transfer,
    input: &mut S,
    out: &mut O,
    err: &mut E,
) -> Result<u64, Halt>
    requires is { transfer_of w.old.gprs.now w.old.files.now 0 ≡ Some transfer }
    requires one { IsOne transfer w.old.progress.now.pieces }
    requires most { asked w.old.progress.now.pieces ≤ most_asked }
    requires fit { FitParts (view_of w.old) }
    ensures works { Works (moving_from w.old.progress.now.pieces 0) (transferred transfer w.old.progress.now.pieces) w.old w.new
        (streams (S.left input.old) (O.taken out.old) (E.taken err.old)) (streams (S.left input.new) (O.taken out.new) (E.taken err.new))
        (faults (S.faults input.old) (O.faults out.old) (E.faults err.old))
        (faults (S.faults input.new) (O.faults out.new) (E.faults err.new)) result }
    ensures exact { PassedIn (λ stop. PassesTransfer (Some transfer) (view_of w.old) w.old.progress.now.pieces stop) result }
{
    let count = total_len(w.progress.pieces());
    match check(w.files, transfer, count) {
        Ok(()) => {}
        Err(errno) => return Err(Halt::Refused(errno)),
    }
    let kind = kind_of(transfer);
    if allowed_pieces(w.pages, w.progress.pieces(), kind) {
        move_on(w, transfer, 0, input, out, err)
    } else {
        Err(Halt::Refused(EFAULT))
    }
}

/// A transfer to or from so many bytes at an address, or one through a descriptor that isn't open for it.
pub(crate) fn transfer_call<S: Source, O: Sink, E: Sink>(
    w: &mut World,
    transfer: Option<Transfer>,
    piece: Piece,
    input: &mut S,
    out: &mut O,
    err: &mut E,
) -> Result<u64, Halt>
    requires is { transfer_of w.old.gprs.now w.old.files.now 0 ≡ transfer }
    requires fit { FitParts (view_of w.old) }
    ensures works { Works (moving_from (named_piece piece.addr piece.len) 0) (begun transfer (named_piece piece.addr piece.len)) w.old w.new
        (streams (S.left input.old) (O.taken out.old) (E.taken err.old)) (streams (S.left input.new) (O.taken out.new) (E.taken err.new))
        (faults (S.faults input.old) (O.faults out.old) (E.faults err.old))
        (faults (S.faults input.new) (O.faults out.new) (E.faults err.new)) result }
    ensures exact { PassedIn (λ stop. PassesTransfer transfer (view_of w.old) (named_piece piece.addr piece.len) stop) result }
{
    match transfer {
        Some(transfer) => {
            let len = piece.len.min(MOST_ASKED);
            w.progress.set(Piece {
                addr: piece.addr,
                len,
            });
            begin(w, transfer, input, out, err)
        }
        None => Err(Halt::Refused(Errno::EBADF)),
    }
}
