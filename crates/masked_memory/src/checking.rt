//! The accesses of lanes in memory.
ghost use Rattle.std.specs.Prelude.{ℕ, ◌≡◌, ◌+◌, ◌*◌, ◌%◌, ◌^◌, ◌<◌, ◌≤◌, ◌≢◌, true, false, None, Some, MatchResult};
ghost use Rattle.machine_state.specs.Memory.{page_size};
ghost use Rattle.guest_pages.specs.Table.{blocked};
ghost use Rattle.guest_pages.specs.Pages.{table_of};
ghost use Rattle.guest_pages.specs.Walk.{walk};
ghost use Rattle.masked_memory.specs.Lanes.{lane_place, lane_access, lane_accesses};
ghost use Rattle.masked_memory.specs.Parts.{byte_place, HasLane, AreFree};

use crate::parts::Part;
use gpr_flags::has_bit;
use guest_pages::Pages;
use machine_state::{Access, Kind, Stop};

/// The address of a lane, modulo 2^64.
pub(crate) fn place(addr: u64, width: u8, lane: usize) -> u64
    requires { lane < 64 }
    ensures { result ≡ lane_place addr width lane }
{
    addr.wrapping_add(lane as u64 * u64::from(width))
}

/// Walks along the access of one lane, where the mask has it.
#[tactic(auto, unfolding(guest_pages::specs::Walk::walk, crate::specs::Lanes::lane_access))]
fn check_lane(
    pages: &Pages,
    addr: u64,
    width: u8,
    mask: u64,
    lane: usize,
    kind: Kind,
) -> Result<(), Stop>
    requires { lane < 64 }
    ensures { MatchResult result (λ _. walk (table_of pages.now) (lane_access kind addr width mask lane) ≡ None)
        (λ stop. walk (table_of pages.now) (lane_access kind addr width mask lane) ≡ Some stop) }
{
    if has_bit(mask, lane as u32) {
        pages.walk(&[Access {
            kind,
            addr: place(addr, width, lane),
            len: u64::from(width),
        }])
    } else {
        Ok(())
    }
}

/// Walks along the accesses of the lanes that the mask has, one after the other.
fn walk_lanes(
    pages: &Pages,
    addr: u64,
    width: u8,
    lanes: u8,
    mask: u64,
    kind: Kind,
) -> Result<(), Stop>
    requires { lanes ≤ 64 }
    ensures { MatchResult result (λ _. walk (table_of pages.now) (lane_accesses kind addr width mask lanes) ≡ None)
        (λ stop. walk (table_of pages.now) (lane_accesses kind addr width mask lanes) ≡ Some stop) }
{
    for lane in 0..lanes as usize {
        match check_lane(pages, addr, width, mask, lane, kind) {
            Ok(()) => {}
            Err(stop) => return Err(stop),
        }
    }
    Ok(())
}

/// Whether the bytes of a part that belong to lanes of the mask can be accessed now. A part that has none isn't asked for.
fn is_ready(pages: &Pages, part: Part, width: u8, mask: u64, kind: Kind) -> bool
    requires width { 0 < width }
    requires some { 0 < part.len }
    requires most { part.from + part.len ≤ 64 * width }
    ensures ready { result ≡ true → (addr : ℕ) → part.addr ≡ byte_place addr part.from
        → AreFree (table_of pages.now) kind addr width mask part.from part.len }
    ensures lane { result ≡ false → HasLane width mask part.from part.len }
    ensures blocked { result ≡ false → blocked (table_of pages.now) kind part.addr part.len ≢ None }
{
    if !part.has_lane(width, mask) {
        return true;
    }
    match pages.ready(part.addr, part.len as u64, kind) {
        Ok(()) => true,
        Err(_) => false,
    }
}

/// Whether the lanes of the mask can be accessed now. Each part that has a byte of one of them is asked for once.
fn are_ready(pages: &Pages, addr: u64, width: u8, lanes: u8, mask: u64, kind: Kind) -> bool
    requires { lanes ≤ 64 }
    ensures ready { result ≡ true → walk (table_of pages.now) (lane_accesses kind addr width mask lanes) ≡ None }
    ensures blocked { result ≡ false → walk (table_of pages.now) (lane_accesses kind addr width mask lanes) ≢ None }
{
    // Pages lie in the lower half, so no lane that can be accessed goes past the last address.
    let _ = pages.limit();
    let len = lanes as usize * width as usize;
    let mut from = 0;
    while from < len {
        let part = Part::new(addr, from, len);
        if !is_ready(pages, part, width, mask, kind) {
            return false;
        }
        from += part.len;
    }
    true
}

/// Walks along the accesses of the lanes that the mask has, from lane 0 up: lane by lane only where one of them can't be made.
pub fn check_lanes(
    pages: &Pages,
    addr: u64,
    width: u8,
    lanes: u8,
    mask: u64,
    kind: Kind,
) -> Result<(), Stop>
    requires { lanes ≤ 64 }
    ensures { MatchResult result (λ _. walk (table_of pages.now) (lane_accesses kind addr width mask lanes) ≡ None)
        (λ stop. walk (table_of pages.now) (lane_accesses kind addr width mask lanes) ≡ Some stop) }
{
    if are_ready(pages, addr, width, lanes, mask, kind) {
        Ok(())
    } else {
        walk_lanes(pages, addr, width, lanes, mask, kind)
    }
}
