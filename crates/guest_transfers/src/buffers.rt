//! Lists of buffers in memory.
ghost use Rattle.std.specs.Prelude.{◌≡◌, ◌≤◌, ◌<◌, ◌+◌, ◌^◌, None, length, MatchResult, OnOk};
ghost use Rattle.machine_state.specs.Memory.{Swap};
ghost use Rattle.guest_pages.specs.Table.{blocked};
ghost use Rattle.guest_pages.specs.Pages.{table_of, byte_of};
ghost use Rattle.guest_transfers.specs.Buffers.{most_buffers, buffer_at, record_size};
ghost use Rattle.guest_transfers.specs.Moves.{ReadsList, record_place};
ghost use Rattle.guest_transfers.specs.Parts.{RecordStops};

use crate::kinds::{ListRead, Piece};
use crate::pieces::away;
use arrayvec::ArrayVec;
use guest_pages::{Kind, Miss, Pages};
use machine_state::PAGE_SIZE;

// The bytes of a record.
const RECORD: u64 = 16;

// Whether a record can be read now. It may lie on two pages, of which the first is looked at first.
fn check_record(pages: &Pages, addr: u64) -> Result<(), Miss>
    ensures answer { MatchResult result (λ _. blocked (table_of pages.now) Kind.Read addr record_size ≡ None)
        (RecordStops (table_of pages.now) addr) }
    ensures low { OnOk result (addr + record_size ≤ 2 ^ 47) }
{
    let here = RECORD.min(PAGE_SIZE - addr % PAGE_SIZE);
    match pages.ready(addr, here, Kind::Read) {
        Ok(()) => {}
        Err(miss) => return Err(miss),
    }
    if here == RECORD {
        return Ok(());
    }
    match pages.ready(addr + here, RECORD - here, Kind::Read) {
        Ok(()) => Ok(()),
        Err(miss) => Err(miss),
    }
}

// The buffer of a record, which can be read now.
fn buffer(pages: &Pages, addr: u64) -> Piece
    requires ready { blocked (table_of pages.now) Kind.Read addr record_size ≡ None }
    requires low { addr + record_size ≤ 2 ^ 47 }
    ensures { (w : Swap) → result ≡ buffer_at (byte_of pages.now w) addr }
{
    Piece {
        addr: pages.load(addr, 8, Kind::Read),
        len: pages.load(addr + 8, 8, Kind::Read),
    }
}

/// Reads a list of so many buffers behind those that stand in `list`.
pub fn read_list(pages: &Pages, addr: u64, count: u64, list: &mut ArrayVec<Piece, 1024>) -> ListRead
    requires most { count ≤ most_buffers }
    requires within { length list.old.items ≤ count }
    requires place { record_place addr (length list.old.items) < 2 ^ 64 }
    ensures { ReadsList pages.now addr count list.old.items list.new.items result }
{
    while (list.len() as u64) < count {
        let at = addr + RECORD * list.len() as u64;
        match check_record(pages, at) {
            Ok(()) => list.push(buffer(pages, at)),
            Err(miss) => match away(miss) {
                Some(slot) => return ListRead::Away(slot),
                None => return ListRead::Fault,
            },
        }
    }
    ListRead::Whole
}
