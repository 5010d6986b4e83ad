//! Transfers from the random stream to memory.
ghost use Rattle.std.specs.Prelude.{◌≡◌, ◌≤◌, ◌<◌, ◌+◌, ◌-◌, ◌/◌, ◌%◌, ◌^◌, true, None, length, slice_index, take};
ghost use Rattle.byteorder.specs.Endian.{little_bytes};
ghost use Rattle.guest_pages.specs.Table.{blocked, perms_in};
ghost use Rattle.guest_pages.specs.Pages.{table_of};
ghost use Rattle.guest_pages.specs.Changes.{IsWritten};
ghost use Rattle.guest_transfers.specs.Draws.{drawn, number_after};
ghost use Rattle.guest_transfers.specs.Pieces.{are_allowed, most_asked, single};
ghost use Rattle.guest_transfers.specs.Moves.{blocked_access, Draws, Stops};

use crate::kinds::{Piece, Stop};
use crate::pieces::{away_slot, part};
use guest_pages::{Kind, Pages};
use machine_state::next_random;

// A byte of a draw.
fn draw_byte(draw: u64, at: usize) -> u8
    requires { at < 8 }
    ensures { result ≡ slice_index (little_bytes 8 draw) at }
{
    draw.to_le_bytes()[at]
}

// Fills the front of a buffer with bytes of successive draws, of the first from the byte `skip` on, and answers the number of
// the stream behind the draws that are used up.
fn fill(into: &mut [u8], count: usize, skip: usize, random: u64) -> u64
    requires skip { skip < 8 }
    requires room { count ≤ length into.old }
    requires most { length into.old ≤ 4096 }
    ensures len { length into.new ≡ length into.old }
    ensures bytes { take count into.new ≡ drawn random skip count }
    ensures number { result ≡ number_after random ((skip + count) / 8) }
{
    let mut number = random;
    for at in 0..count {
        let draw = next_random(number);
        let place = (skip + at) % 8;
        into[at] = draw_byte(draw, place);
        number = if place == 7 { draw } else { number };
    }
    number
}

/// Writes random bytes to a piece, which may be written, from the byte `from` on. The number of the random stream stands
/// behind the draws that are used up, so that the byte `from` is the byte `from % 8` of the next draw. At the end the rest of
/// the draw that was begun is dropped.
pub fn draw_bytes(pages: &mut Pages, piece: Piece, from: u64, random: &mut u64) -> Stop
    requires writable { are_allowed (perms_in (table_of pages.old)) Kind.Write (single piece.addr piece.len) ≡ true }
    requires most { piece.len ≤ most_asked }
    requires within { from ≤ piece.len }
    ensures draws { Draws pages.old pages.new piece.addr piece.len from random.old random.new result }
    ensures stops { Stops (blocked_access (table_of pages.old)) Kind.Write (single piece.addr piece.len) from result }
{
    let mut buffer = [0; 4096];
    let mut done = from;
    while done < piece.len {
        let next = part(pages, &[piece], done, Kind::Write);
        let number = fill(&mut buffer, next.len as usize, (done % 8) as usize, *random);
        match pages.write(next.addr, &buffer[..next.len as usize]) {
            Ok(()) => *random = number,
            Err(miss) => return Stop::Away(done, away_slot(miss)),
        }
        done += next.len;
    }
    if done % 8 != 0 {
        *random = next_random(*random);
    }
    Stop::Whole(done)
}
