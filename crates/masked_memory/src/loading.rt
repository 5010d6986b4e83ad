//! Loads of lanes.
ghost use Rattle.std.specs.Prelude.{ℕ, ◌≡◌, ◌+◌, ◌*◌, ◌/◌, ◌%◌, ◌^◌, ◌<◌, ◌≤◌, None, Some, OnOk, OnErr, MatchResult, IsTrue, slice_index};
ghost use Rattle.machine_state.specs.Memory.{page_size, Swap};
ghost use Rattle.gpr_flags.specs.Registers.{is_size};
ghost use Rattle.guest_pages.specs.Table.{blocked};
ghost use Rattle.guest_pages.specs.Pages.{table_of, byte_of};
ghost use Rattle.guest_pages.specs.Walk.{walk};
ghost use Rattle.num_lanes.specs.Lane.{lane_of};
ghost use Rattle.masked_memory.specs.Lanes.{lane_accesses, loaded, miss_of};
ghost use Rattle.masked_memory.specs.Parts.{byte_place, HasLane, AreLoaded};

use crate::checking::check_lanes;
use crate::parts::Part;
use guest_pages::Pages;
use machine_state::{Kind, Miss};
use num_lanes::Vec64;

/// Loads the bytes of a part that belong to lanes of the mask. A part that has none isn't asked for.
fn load_part<const W: usize>(pages: &Pages, part: Part, mask: u64, kind: Kind, bytes: &mut Vec64)
    requires width { IsTrue (is_size W) }
    requires some { 0 < part.len }
    requires one_page { part.addr % page_size + part.len ≤ page_size }
    requires most { part.from + part.len ≤ 64 }
    requires ready { HasLane W mask part.from part.len → blocked (table_of pages.now) kind part.addr part.len ≡ None }
    ensures loaded { (w : Swap) (addr : ℕ) → part.addr ≡ byte_place addr part.from
        → AreLoaded (byte_of pages.now w) addr W mask part.from (part.from + part.len) bytes.old bytes.new }
    ensures bytes { (k : ℕ) → slice_index bytes.new k < 256 }
{
    if part.has_lane(W as u8, mask) {
        match pages.view(part.addr, part.len, kind) {
            Ok(shown) => part.copy::<W>(mask, shown, &mut bytes[part.from..part.from + part.len]),
            Err(_) => unreachable!(),
        }
    }
}

/// A register after a load of lanes of one width.
fn load_at<const W: usize>(
    pages: &Pages,
    addr: u64,
    lanes: u8,
    mask: u64,
    kind: Kind,
    into: &Vec64,
) -> Vec64
    requires width { IsTrue (is_size W) }
    requires ready { walk (table_of pages.now) (lane_accesses kind addr W mask lanes) ≡ None }
    ensures { (w : Swap) → result ≡ loaded (byte_of pages.now w) addr W lanes mask (lane_of W into.now) }
{
    // Pages lie in the lower half, so no lane that can be accessed goes past the last address.
    let _ = pages.limit();
    let len = (lanes as usize).min(64 / W) * W;
    let mut bytes = *into;
    let mut from = 0;
    while from < len {
        let part = Part::new(addr, from, len);
        load_part::<W>(pages, part, mask, kind, &mut bytes);
        from += part.len;
    }
    bytes
}

/// Loads the lanes that the mask has, which can be accessed, over those of `into`.
pub fn load_ready(
    pages: &Pages,
    addr: u64,
    width: u8,
    lanes: u8,
    mask: u64,
    kind: Kind,
    into: &Vec64,
) -> Vec64
    requires width { IsTrue (is_size width) }
    requires ready { walk (table_of pages.now) (lane_accesses kind addr width mask lanes) ≡ None }
    ensures { (w : Swap) → result ≡ loaded (byte_of pages.now w) addr width lanes mask (lane_of width into.now) }
{
    match width {
        1 => load_at::<1>(pages, addr, lanes, mask, kind, into),
        2 => load_at::<2>(pages, addr, lanes, mask, kind, into),
        4 => load_at::<4>(pages, addr, lanes, mask, kind, into),
        _ => load_at::<8>(pages, addr, lanes, mask, kind, into),
    }
}

/// Loads the lanes that the mask has, which can be accessed, with 0 in all others.
pub fn load_zeroed(pages: &Pages, addr: u64, width: u8, lanes: u8, mask: u64, kind: Kind) -> Vec64
    requires width { IsTrue (is_size width) }
    requires ready { walk (table_of pages.now) (lane_accesses kind addr width mask lanes) ≡ None }
    ensures { (w : Swap) → result ≡ loaded (byte_of pages.now w) addr width lanes mask (λ _. 0) }
{
    load_ready(pages, addr, width, lanes, mask, kind, &[0; 64])
}

/// Loads the lanes that the mask has. The miss is the first in lane order, and leaves `into` as it was.
pub fn load_lanes(
    pages: &Pages,
    addr: u64,
    width: u8,
    lanes: u8,
    mask: u64,
    into: &mut Vec64,
) -> Result<(), Miss>
    requires width { IsTrue (is_size width) }
    requires most { lanes * width ≤ 64 }
    ensures answer { MatchResult result
        (λ _. walk (table_of pages.now) (lane_accesses Kind.Read addr width mask lanes) ≡ None)
        (λ miss. miss_of (walk (table_of pages.now) (lane_accesses Kind.Read addr width mask lanes)) ≡ Some miss) }
    ensures ok { OnOk result ((w : Swap) → into.new ≡ loaded (byte_of pages.now w) addr width lanes mask (lane_of width into.old)) }
    ensures err { OnErr result (into.new ≡ into.old) }
{
    match check_lanes(pages, addr, width, lanes, mask, Kind::Read) {
        Ok(()) => {
            *into = load_ready(pages, addr, width, lanes, mask, Kind::Read, into);
            Ok(())
        }
        Err(stop) => Err(stop.miss),
    }
}
