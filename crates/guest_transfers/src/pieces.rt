//! Pieces of guest memory, and their parts.
ghost use Rattle.std.specs.Prelude.{◌≡◌, ◌≤◌, ◌<◌, ◌+◌, ◌-◌, ◌^◌, ◌%◌, true, None, min, max, MatchOption};
ghost use Rattle.machine_state.specs.Memory.{first_miss, page_size};
ghost use Rattle.guest_pages.specs.Table.{perms_in};
ghost use Rattle.guest_pages.specs.Pages.{table_of};
ghost use Rattle.guest_transfers.specs.Pieces.{are_allowed, asked, part_at};
ghost use Rattle.guest_transfers.specs.Parts.{AreLow, IsAway, IsDenied};

use crate::kinds::Piece;
use guest_pages::Pages;
use machine_state::{Access, Kind, Miss, PAGE_SIZE};

/// How many bytes pieces have; where that is more than a number holds, the highest.
pub fn total_len(pieces: &[Piece]) -> u64
    ensures { result ≡ min (asked pieces.now) (2 ^ 64 - 1) }
{
    let mut total: u64 = 0;
    for piece in pieces {
        total = total.saturating_add(piece.len);
    }
    total
}

/// Whether each byte of each piece may be accessed.
pub fn allowed_pieces(pages: &Pages, pieces: &[Piece], kind: Kind) -> bool
    ensures { result ≡ are_allowed (perms_in (table_of pages.now)) kind pieces.now }
{
    pieces
        .iter()
        .all(|piece| pages.allowed(piece.addr, piece.len, kind).is_ok())
}

// The part with the byte `done` of pieces that end in the lower half of the address space.
pub(crate) fn part_of(pieces: &[Piece], done: u64, kind: Kind) -> Access
    requires low { AreLow pieces.now }
    ensures { result ≡ part_at kind pieces.now done }
{
    let mut left = done;
    for piece in pieces {
        if left < piece.len {
            let addr = piece.addr + left;
            let len = (piece.len - left).min(PAGE_SIZE - addr % PAGE_SIZE);
            return Access { kind, addr, len };
        }
        left -= piece.len;
    }
    Access {
        kind,
        addr: 0,
        len: 0,
    }
}

/// The part of a transfer with its next byte, behind so many.
pub fn part(pages: &Pages, pieces: &[Piece], done: u64, kind: Kind) -> Access
    requires allowed { are_allowed (perms_in (table_of pages.now)) kind pieces.now ≡ true }
    ensures value { result ≡ part_at kind pieces.now done }
    ensures some { done < asked pieces.now → 0 < result.len }
    ensures within { done + result.len ≤ max (asked pieces.now) done }
    ensures one_page { result.addr % page_size + result.len ≤ page_size }
    ensures free { first_miss (perms_in (table_of pages.now)) kind result.addr result.len ≡ None }
{
    let _ = pages.limit();
    part_of(pieces, done, kind)
}

// The slot of the page that is away.
pub(crate) fn away_slot(miss: Miss) -> u32
    requires { IsAway miss }
    ensures { miss ≡ Miss.Away result }
{
    match miss {
        Miss::Away(slot) => slot,
        Miss::Unmapped(_) | Miss::Denied(_) | Miss::NonCanonical(_) => unreachable!(),
    }
}

// The slot of the page that is away, where an access isn't kept from being made by its permissions.
pub(crate) fn away(miss: Miss) -> Option<u32>
    ensures { MatchOption result (IsDenied miss) (λ slot. miss ≡ Miss.Away slot) }
{
    match miss {
        Miss::Away(slot) => Some(slot),
        Miss::Unmapped(_) | Miss::Denied(_) | Miss::NonCanonical(_) => None,
    }
}
