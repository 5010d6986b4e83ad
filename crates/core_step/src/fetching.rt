//! The fetch of an instruction.
ghost use Rattle.std.specs.Prelude.{◌≡◌, ◌<◌, ◌≤◌, ◌+◌, ◌-◌, ◌%◌, ℕ, take, length, None, IfSome};
ghost use Rattle.form_scan.specs.Shaped.{most_bytes};
ghost use Rattle.machine_state.specs.Memory.{page_size, Swap, bytes_at};
ghost use Rattle.guest_pages.specs.Table.{blocked};
ghost use Rattle.guest_pages.specs.Pages.{table_of, byte_of};
ghost use Rattle.guest_pages.specs.Changes.{IsShown};
ghost use Rattle.core_step.specs.Fetch.{IsRun, stopped as stopped_by, outcome};

use gpr_flags::Fault;
use guest_pages::Pages;
use machine_state::{Kind, Miss, PAGE_SIZE};
use row_table::Decoded;
use x_decode::{LIMIT, Seen};

/// How a fetch ends.
#[derive(Clone, Copy)]
pub enum Fetched {
    /// This instruction, which has so many bytes.
    Instr(Decoded, u8),
    Trap(Fault),
    /// The page in this slot has to be brought into a frame first.
    Need(u32),
}

/// How many executable bytes there are from an address up, and what stopped the next one.
#[derive(Clone, Copy)]
pub struct Run {
    pub count: usize,
    pub stop: Option<Miss>,
}

// The fifteen bytes from an address up, where they lie on one page and can be executed now.
#[inline(always)]
pub(crate) fn read_whole(pages: &Pages, addr: u64) -> Option<[u8; LIMIT]>
    ensures { IfSome result (λ bytes. (blocked (table_of pages.now) Kind.Execute addr most_bytes ≡ None)
        × ((w : Swap) → bytes ≡ bytes_at (byte_of pages.now w) addr most_bytes)) }
{
    if count_on_page(addr, LIMIT) < LIMIT {
        return None;
    }
    let mut own = [0; LIMIT];
    match pages.view(addr, LIMIT, Kind::Execute) {
        Ok(bytes) => own.copy_from_slice(bytes),
        Err(_) => return None,
    }
    Some(own)
}

// Reads the executable bytes from an address up, as far as they can be had now. Each page is looked at once.
pub(crate) fn read_run(pages: &Pages, addr: u64, into: &mut [u8]) -> Run
    requires some { 0 < length into.old }
    requires two_pages { length into.old ≤ page_size }
    ensures count { result.count ≤ length into.new }
    ensures run { IsRun (table_of pages.now) addr (length into.new) result.count result.stop }
    ensures bytes { (w : Swap) → take result.count into.new ≡ bytes_at (byte_of pages.now w) addr result.count }
{
    let here = count_on_page(addr, into.len());
    match pages.view(addr, here, Kind::Execute) {
        Ok(bytes) => into[..here].copy_from_slice(bytes),
        Err(miss) => {
            return Run {
                count: 0,
                stop: Some(miss),
            };
        }
    }
    if here == into.len() {
        return Run {
            count: here,
            stop: None,
        };
    }
    read_rest(pages, addr, into, here)
}

// How many of some bytes from an address up lie on its page.
fn count_on_page(addr: u64, count: usize) -> usize
    requires some { 0 < count }
    ensures some { 0 < result }
    ensures within { result ≤ count }
    ensures one_page { addr % page_size + result ≤ page_size }
    ensures rest { result < count → (addr + result) % page_size ≡ 0 }
{
    let page_left = (PAGE_SIZE - addr % PAGE_SIZE) as usize;
    if count <= page_left { count } else { page_left }
}

// Reads the bytes behind the first `here`, which were read. They begin a page and lie on it.
fn read_rest(pages: &Pages, addr: u64, into: &mut [u8], here: usize) -> Run
    requires more { here < length into.old }
    requires page { (addr + here) % page_size ≡ 0 }
    requires one_page { length into.old - here ≤ page_size }
    requires low { addr + here ≤ 0x800000000000 }
    requires ready { blocked (table_of pages.now) Kind.Execute addr here ≡ None }
    requires shown { IsShown pages.now addr here (take here into.old) }
    ensures count { result.count ≤ length into.new }
    ensures run { IsRun (table_of pages.now) addr (length into.new) result.count result.stop }
    ensures bytes { (w : Swap) → take result.count into.new ≡ bytes_at (byte_of pages.now w) addr result.count }
{
    match pages.view(addr + here as u64, into.len() - here, Kind::Execute) {
        Ok(bytes) => into[here..].copy_from_slice(bytes),
        Err(miss) => {
            return Run {
                count: here,
                stop: Some(miss),
            };
        }
    }
    Run {
        count: into.len(),
        stop: None,
    }
}

// What comes of bytes that are short, by what keeps the next one from being had.
fn stopped(stop: Option<Miss>) -> Fetched
    ensures { result ≡ stopped_by stop }
{
    match stop {
        None => Fetched::Trap(Fault::General),
        Some(Miss::Unmapped(addr)) => Fetched::Trap(Fault::Page {
            addr,
            write: false,
            fetch: true,
            mapped: false,
        }),
        Some(Miss::Denied(addr)) => Fetched::Trap(Fault::Page {
            addr,
            write: false,
            fetch: true,
            mapped: true,
        }),
        Some(Miss::NonCanonical(_)) => Fetched::Trap(Fault::General),
        Some(Miss::Away(slot)) => Fetched::Need(slot),
    }
}

// What comes of bytes by what they spell, and by what keeps the next one from being had.
pub(crate) fn fetch_outcome(seen: Seen, stop: Option<Miss>) -> Fetched
    ensures { result ≡ outcome seen stop }
{
    match seen {
        Seen::Instr(d, len) => Fetched::Instr(d, len),
        Seen::Short => stopped(stop),
        Seen::TooLong => Fetched::Trap(Fault::General),
        Seen::Bad => Fetched::Trap(Fault::Undefined),
    }
}
