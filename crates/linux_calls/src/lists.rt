//! The calls readv and writev.
ghost use Rattle.std.specs.Prelude.{◌≡◌, ◌≤◌, ◌<◌, ◌^◌, length, [], Some, Err};
ghost use Rattle.guest_transfers.specs.Buffers.{most_buffers};
ghost use Rattle.guest_transfers.specs.Moves.{record_place};
ghost use Rattle.linux_calls.specs.Call.{rsi, rdx};
ghost use Rattle.linux_calls.specs.Outside.{streams};
ghost use Rattle.linux_calls.specs.Rest.{transfer_of};
ghost use Rattle.linux_calls.specs.Transfers.{joined_transfer, list_rest, listed};
ghost use Rattle.linux_calls.specs.View.{view_of, FitParts};
ghost use Rattle.linux_calls.specs.Following.{Works, faults};
ghost use Rattle.linux_calls.specs.Waiting.{IsListed};
ghost use Rattle.linux_calls.specs.Units.{listing_from, moving_from};
ghost use Rattle.linux_calls.specs.Passing.{PassedIn, PassesList, PassesTransfer};
ghost use Rattle.guest_transfers.specs.Pieces.{asked, most_asked};
ghost use Rattle.guest_files.specs.declared.errno.Errno.{Errno};
ghost use Rattle.linux_calls.specs.declared.kinds.Halt.{Halt};
ghost use Rattle.linux_calls.specs.declared.kinds.Transfer.{Transfer};

use crate::errnos::EFAULT;
use crate::kinds::{Halt, MOST_BUFFERS, Stage, Transfer};
use crate::transfers::{MOST_ASKED, begin};
use crate::world::World;
use guest_files::Errno;
use guest_transfers::{ListRead, total_len};
use host_edge::{Sink, Source};

// Begins the transfer to or from the buffers of a list that was read.
fn join<S: Source, O: Sink, E: Sink>(
    w: &mut World,
    transfer: Transfer,
    input: &mut S,
    out: &mut O,
    err: &mut E,
) -> Result<u64, Halt>
    requires is { transfer_of w.old.gprs.now w.old.files.now 0 ≡ Some transfer }
    requires listed { IsListed transfer }
    requires fit { FitParts (view_of w.old) }
    ensures works { Works (moving_from w.old.progress.now.pieces 0) (joined_transfer transfer w.old.progress.now.pieces) w.old w.new
        (streams (S.left input.old) (O.taken out.old) (E.taken err.old)) (streams (S.left input.new) (O.taken out.new) (E.taken err.new))
        (faults (S.faults input.old) (O.faults out.old) (E.faults err.old))
        (faults (S.faults input.new) (O.faults out.new) (E.faults err.new)) result }
    ensures refused { most_asked < asked w.old.progress.now.pieces → result ≡ Err (Halt.Refused Errno.EINVAL) }
    ensures exact { PassedIn (λ stop. asked w.old.progress.now.pieces ≤ most_asked
        → PassesTransfer (Some transfer) (view_of w.old) w.old.progress.now.pieces stop) result }
{
    if total_len(w.progress.pieces()) > MOST_ASKED {
        return Err(Halt::Refused(Errno::EINVAL));
    }
    begin(w, transfer, input, out, err)
}

/// Goes on with a list of buffers, behind those that were read, and then with the transfer.
pub(crate) fn list_on<S: Source, O: Sink, E: Sink>(
    w: &mut World,
    transfer: Transfer,
    input: &mut S,
    out: &mut O,
    err: &mut E,
) -> Result<u64, Halt>
    requires is { transfer_of w.old.gprs.now w.old.files.now 0 ≡ Some transfer }
    requires listed { IsListed transfer }
    requires most { rdx w.old.gprs.now ≤ most_buffers }
    requires within { length w.old.progress.now.pieces ≤ rdx w.old.gprs.now }
    requires place { record_place (rsi w.old.gprs.now) (length w.old.progress.now.pieces) < 2 ^ 64 }
    requires fit { FitParts (view_of w.old) }
    ensures works { Works (listing_from w.old.progress.now.pieces) (list_rest transfer w.old.progress.now.pieces) w.old w.new
        (streams (S.left input.old) (O.taken out.old) (E.taken err.old)) (streams (S.left input.new) (O.taken out.new) (E.taken err.new))
        (faults (S.faults input.old) (O.faults out.old) (E.faults err.old))
        (faults (S.faults input.new) (O.faults out.new) (E.faults err.new)) result }
    ensures exact { PassedIn (λ stop. PassesList (Some transfer) (view_of w.old) w.old.progress.now.pieces stop) result }
{
    let addr = w.rsi();
    let count = w.rdx();
    match w.progress.read(w.pages, addr, count) {
        ListRead::Whole => join(w, transfer, input, out, err),
        ListRead::Fault => Err(Halt::Refused(EFAULT)),
        ListRead::Away(slot) => {
            w.progress.wait(Stage::Listing);
            Err(Halt::Need(slot))
        }
    }
}

/// The calls readv and writev, through a descriptor that is open for it or isn't.
pub(crate) fn list_call<S: Source, O: Sink, E: Sink>(
    w: &mut World,
    transfer: Option<Transfer>,
    input: &mut S,
    out: &mut O,
    err: &mut E,
) -> Result<u64, Halt>
    requires is { transfer_of w.old.gprs.now w.old.files.now 0 ≡ transfer }
    requires listed { (t : Transfer) → transfer ≡ Some t → IsListed t }
    requires fit { FitParts (view_of w.old) }
    ensures works { Works (listing_from []) (listed transfer) w.old w.new
        (streams (S.left input.old) (O.taken out.old) (E.taken err.old)) (streams (S.left input.new) (O.taken out.new) (E.taken err.new))
        (faults (S.faults input.old) (O.faults out.old) (E.faults err.old))
        (faults (S.faults input.new) (O.faults out.new) (E.faults err.new)) result }
    ensures exact { PassedIn (λ stop. rdx w.old.gprs.now ≤ most_buffers → PassesList transfer (view_of w.old) [] stop) result }
{
    match transfer {
        Some(transfer) => {
            if w.rdx() > MOST_BUFFERS as u64 {
                return Err(Halt::Refused(Errno::EINVAL));
            }
            // That rsi is a 64-bit number is told by reading it.
            let _ = w.rsi();
            w.progress.clear();
            list_on(w, transfer, input, out, err)
        }
        None => Err(Halt::Refused(Errno::EBADF)),
    }
}
