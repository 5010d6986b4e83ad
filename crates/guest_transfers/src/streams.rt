//! Transfers between memory and streams.
ghost use Rattle.std.specs.Prelude.{◌≡◌, ◌≤◌, ◌<◌, ◌+◌, true, None, ◌++◌, [], is_some, IsSome, length, take, OnErr, IfOk};
ghost use Rattle.machine_state.specs.Memory.{Swap};
ghost use Rattle.host_edge.specs.Causes.{HasCause};
ghost use Rattle.host_edge.specs.Streams.{told};
ghost use Rattle.guest_pages.specs.Table.{blocked, perms_in};
ghost use Rattle.guest_pages.specs.Pages.{table_of, byte_of};
ghost use Rattle.guest_transfers.specs.Pieces.{are_allowed, asked, most_asked};
ghost use Rattle.guest_transfers.specs.Moves.{blocked_access, IsCounted, Puts, Stops, Takes};
ghost use Rattle.guest_transfers.specs.Parts.{TookPart};

use crate::kinds::{Piece, Stop};
use crate::pieces::{away_slot, part, total_len};
use guest_pages::{Kind, Pages};
use host_edge::{Failed, Sink, Source};

/// Puts the bytes of pieces, which may be read, from the byte `from` on, part by part.
pub fn put_pieces<K: Sink>(pages: &Pages, pieces: &[Piece], from: u64, sink: &mut K) -> Stop
    requires readable { are_allowed (perms_in (table_of pages.now)) Kind.Read pieces.now ≡ true }
    requires most { asked pieces.now ≤ most_asked }
    requires within { from ≤ asked pieces.now }
    ensures tells { is_some (K.taken sink.new) ≡ is_some (K.taken sink.old) }
    ensures puts { (w : Swap) → Puts (byte_of pages.now w) pieces.now from (K.taken sink.old) (K.taken sink.new) result }
    ensures stops { Stops (blocked_access (table_of pages.now)) Kind.Read pieces.now from result }
    ensures cause { IsCounted (K.faults sink.old) (K.faults sink.new) result }
{
    let count = total_len(pieces);
    let mut done = from;
    while done < count {
        let next = part(pages, pieces, done, Kind::Read);
        match pages.view(next.addr, next.len as usize, Kind::Read) {
            Ok(bytes) => match sink.put(bytes) {
                Ok(()) => {}
                Err(_) => return Stop::Failed,
            },
            Err(miss) => return Stop::Away(done, away_slot(miss)),
        }
        done += next.len;
    }
    Stop::Whole(done)
}

// Takes at most so many bytes to the front of a buffer.
fn take_front<S: Source>(source: &mut S, into: &mut [u8], most: usize) -> Result<usize, Failed>
    requires some { 0 < most }
    requires room { most ≤ length into.old }
    ensures within { IfOk result (λ n. n ≤ most) }
    ensures moved { IfOk result (λ n. IsSome (S.left source.old)
        → told (S.left source.old) ≡ take n into.new ++ told (S.left source.new)) }
    ensures ended { IfOk result (λ n. IsSome (S.left source.old) → n ≡ 0 → told (S.left source.new) ≡ []) }
    ensures unmoved { OnErr result (S.left source.new ≡ S.left source.old) }
    ensures tells { is_some (S.left source.new) ≡ is_some (S.left source.old) }
    ensures cause { HasCause (S.faults source.old) (S.faults source.new) result }
{
    source.take(&mut into[..most])
}

// Takes at most so many bytes to memory that is ready for them.
fn take_part<S: Source>(
    pages: &mut Pages,
    at: u64,
    part: usize,
    source: &mut S,
) -> Result<usize, Failed>
    requires some { 0 < part }
    requires most { part ≤ 4096 }
    requires ready { blocked (table_of pages.old) Kind.Write at part ≡ None }
    ensures ok { IfOk result (λ n.
        TookPart pages.old pages.new at part n (S.left source.old) (S.left source.new)) }
    ensures err { OnErr result (pages.new ≡ pages.old) }
    ensures unmoved { OnErr result (S.left source.new ≡ S.left source.old) }
    ensures tells { is_some (S.left source.new) ≡ is_some (S.left source.old) }
    ensures cause { HasCause (S.faults source.old) (S.faults source.new) result }
{
    let mut buffer = [0; 4096];
    match take_front(source, &mut buffer, part) {
        Ok(n) => {
            match pages.write(at, &buffer[..n]) {
                Ok(()) => {}
                Err(_) => unreachable!(),
            }
            Ok(n)
        }
        Err(failed) => Err(failed),
    }
}

/// Takes bytes to pieces, which may be written, from the byte `from` on, part by part, until the source ends.
pub fn take_pieces<S: Source>(
    pages: &mut Pages,
    pieces: &[Piece],
    from: u64,
    source: &mut S,
) -> Stop
    requires writable { are_allowed (perms_in (table_of pages.old)) Kind.Write pieces.now ≡ true }
    requires most { asked pieces.now ≤ most_asked }
    requires within { from ≤ asked pieces.now }
    ensures tells { is_some (S.left source.new) ≡ is_some (S.left source.old) }
    ensures takes { Takes pages.old pages.new pieces.now from (S.left source.old) (S.left source.new) result }
    ensures stops { Stops (blocked_access (table_of pages.old)) Kind.Write pieces.now from result }
    ensures cause { IsCounted (S.faults source.old) (S.faults source.new) result }
{
    let count = total_len(pieces);
    let mut done = from;
    while done < count {
        let next = part(pages, pieces, done, Kind::Write);
        match pages.ready(next.addr, next.len, Kind::Write) {
            Ok(()) => {}
            Err(miss) => return Stop::Away(done, away_slot(miss)),
        }
        match take_part(pages, next.addr, next.len as usize, source) {
            Ok(0) => return Stop::Whole(done),
            Ok(n) => done += n as u64,
            Err(_) => return Stop::Failed,
        }
    }
    Stop::Whole(done)
}
