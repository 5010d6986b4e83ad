//! Stores of lanes.
ghost use Rattle.std.specs.Prelude.{ℕ, ◌≡◌, ◌+◌, ◌*◌, ◌/◌, ◌%◌, ◌^◌, ◌<◌, ◌≤◌, None, Some, OnOk, OnErr, MatchResult, IsTrue, length};
ghost use Rattle.machine_state.specs.Memory.{page_size, Swap};
ghost use Rattle.gpr_flags.specs.Registers.{is_size};
ghost use Rattle.guest_pages.specs.Table.{blocked};
ghost use Rattle.guest_pages.specs.Pages.{table_of, byte_of};
ghost use Rattle.guest_pages.specs.Changes.{KeepsTable};
ghost use Rattle.guest_pages.specs.Walk.{walk};
ghost use Rattle.num_lanes.specs.Lane.{lane_of};
ghost use Rattle.masked_memory.specs.Lanes.{lane_accesses, stored, miss_of};
ghost use Rattle.masked_memory.specs.Parts.{byte_place, HasLane, bytes_stored};

use crate::checking::check_lanes;
use crate::parts::Part;
use guest_pages::Pages;
use machine_state::{Kind, Miss};
use num_lanes::Vec64;

/// Stores the bytes of a part that belong to lanes of the mask. A part that has none isn't asked for.
fn store_part<const W: usize>(pages: &mut Pages, part: Part, mask: u64, from: &Vec64)
    requires width { IsTrue (is_size W) }
    requires some { 0 < part.len }
    requires one_page { part.addr % page_size + part.len ≤ page_size }
    requires most { part.from + part.len ≤ 64 }
    requires ready { HasLane W mask part.from part.len → blocked (table_of pages.old) Kind.Write part.addr part.len ≡ None }
    ensures byte { (w : Swap) (addr : ℕ) → addr < 2 ^ 64 → part.addr ≡ byte_place addr part.from
        → byte_of pages.new w ≡ bytes_stored addr W mask part.from (part.from + part.len) from.now (byte_of pages.old w) }
    ensures table { KeepsTable pages.old pages.new }
{
    if part.has_lane(W as u8, mask) {
        let bytes = pages.lend_ready(part.addr, part.len);
        part.copy::<W>(mask, &from[part.from..part.from + part.len], bytes);
    }
}

/// Stores lanes of one width.
fn store_at<const W: usize>(pages: &mut Pages, addr: u64, lanes: u8, mask: u64, from: &Vec64)
    requires width { IsTrue (is_size W) }
    requires most { lanes * W ≤ 64 }
    requires ready { walk (table_of pages.old) (lane_accesses Kind.Write addr W mask lanes) ≡ None }
    ensures byte { (w : Swap) → byte_of pages.new w ≡ stored addr W mask (lane_of W from.now) lanes (byte_of pages.old w) }
    ensures table { KeepsTable pages.old pages.new }
{
    // Pages lie in the lower half, so no lane that can be accessed goes past the last address.
    let _ = pages.limit();
    let len = lanes as usize * W;
    let mut at = 0;
    while at < len {
        let part = Part::new(addr, at, len);
        store_part::<W>(pages, part, mask, from);
        at += part.len;
    }
}

/// Stores the lanes that the mask has, which can be accessed.
pub fn store_ready(pages: &mut Pages, addr: u64, width: u8, lanes: u8, mask: u64, from: &Vec64)
    requires width { IsTrue (is_size width) }
    requires most { lanes * width ≤ 64 }
    requires ready { walk (table_of pages.old) (lane_accesses Kind.Write addr width mask lanes) ≡ None }
    ensures byte { (w : Swap) → byte_of pages.new w ≡ stored addr width mask (lane_of width from.now) lanes (byte_of pages.old w) }
    ensures table { KeepsTable pages.old pages.new }
{
    match width {
        1 => store_at::<1>(pages, addr, lanes, mask, from),
        2 => store_at::<2>(pages, addr, lanes, mask, from),
        4 => store_at::<4>(pages, addr, lanes, mask, from),
        _ => store_at::<8>(pages, addr, lanes, mask, from),
    }
}

/// Stores the lanes that the mask has, or none. The miss is the first in lane order.
pub fn store_lanes(
    pages: &mut Pages,
    addr: u64,
    width: u8,
    lanes: u8,
    mask: u64,
    from: &Vec64,
) -> Result<(), Miss>
    requires width { IsTrue (is_size width) }
    requires most { lanes * width ≤ 64 }
    ensures answer { MatchResult result
        (λ _. walk (table_of pages.old) (lane_accesses Kind.Write addr width mask lanes) ≡ None)
        (λ miss. miss_of (walk (table_of pages.old) (lane_accesses Kind.Write addr width mask lanes)) ≡ Some miss) }
    ensures ok { OnOk result ((w : Swap) → byte_of pages.new w ≡ stored addr width mask (lane_of width from.now) lanes (byte_of pages.old w)) }
    ensures table { KeepsTable pages.old pages.new }
    ensures err { OnErr result (pages.new ≡ pages.old) }
{
    match check_lanes(pages, addr, width, lanes, mask, Kind::Write) {
        Ok(()) => {
            store_ready(pages, addr, width, lanes, mask, from);
            Ok(())
        }
        Err(stop) => Err(stop.miss),
    }
}
