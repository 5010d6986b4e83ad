//! The calls on the pages of memory.
ghost use Rattle.std.specs.Prelude.{◌≡◌, ◌≤◌, ◌<◌, ◌+◌, ◌/◌, ◌%◌, ◌^◌, ℕ, false, IsSome};
ghost use Rattle.machine_state.specs.Memory.{page_size};
ghost use Rattle.guest_pages.specs.Table.{perms_in};
ghost use Rattle.guest_pages.specs.Pages.{table_of};
ghost use Rattle.region_map.specs.Calls.{highest_end};
ghost use Rattle.linux_calls.specs.Mapping.{asked_perms as asked_perms_spec, discarded, is_file_page, is_hole as is_hole_spec, protected};
ghost use Rattle.linux_calls.specs.Mapping.{some_in, unmapped, mprotect_call, munmap_call, brk_call, madvise_call};
ghost use Rattle.linux_calls.specs.View.{view_of, FitParts};
ghost use Rattle.linux_calls.specs.Following.{AreZeroed, DoesAtOnce, Kept};

use crate::errnos::ENOMEM;
use crate::world::{World, low};
use guest_files::Errno;
use guest_pages::Pages;
use machine_state::{PAGE_SIZE, Perms};
use region_map::{Regions, pages_up};

/// The page behind the last one that a guest may choose.
pub(crate) const HIGHEST_END: u64 = 0x7_FFFF_FFFF;

/// The advice MADV_DONTNEED.
const DONT_NEED: u32 = 4;

/// The permissions that a call asks for.
pub(crate) fn asked_perms(bits: u64) -> Perms
    ensures value { result ≡ asked_perms_spec bits }
    ensures set { result.0 < 8 }
{
    Perms((bits % 8) as u8)
}

// Gives so many pages from an address on these permissions.
fn protect(w: &mut World, start: u64, count: u64, perms: Perms) -> Result<u64, Errno>
    requires page { start % page_size ≡ 0 }
    requires some { 0 < count }
    requires high { start / page_size + count ≤ highest_end }
    requires set { perms.0 < 8 }
    requires fit { FitParts (view_of w.old) }
    ensures kept { Kept w.old w.new }
    ensures does { DoesAtOnce (protected perms (start / page_size) count) (view_of w.old) (view_of w.new) result }
{
    match w.regions.protect(w.pages, start, count, perms) {
        Ok(()) => Ok(0),
        Err(_) => Err(ENOMEM),
    }
}

/// The call mprotect.
#[tactic(auto, unfolding(crate::specs::Mapping::mprotect_call))]
pub(crate) fn mprotect(w: &mut World) -> Result<u64, Errno>
    requires { FitParts (view_of w.old) }
    ensures kept { Kept w.old w.new }
    ensures does { DoesAtOnce mprotect_call (view_of w.old) (view_of w.new) result }
{
    let start = w.rdi();
    let len = w.rsi();
    let perms = asked_perms(w.rdx());
    if start % PAGE_SIZE != 0 {
        return Err(Errno::EINVAL);
    }
    if len == 0 {
        return Ok(0);
    }
    let count = pages_up(len);
    if start / PAGE_SIZE + count > HIGHEST_END {
        return Err(ENOMEM);
    }
    protect(w, start, count, perms)
}

// Unmaps so many pages from an address on.
fn unmap(w: &mut World, start: u64, count: u64) -> Result<u64, Errno>
    requires page { start % page_size ≡ 0 }
    requires some { 0 < count }
    requires high { start / page_size + count ≤ highest_end }
    requires fit { FitParts (view_of w.old) }
    ensures kept { Kept w.old w.new }
    ensures does { DoesAtOnce (unmapped (start / page_size) (start / page_size + count)) (view_of w.old) (view_of w.new) result }
{
    match w.regions.unmap(w.pages, start, count) {
        Ok(()) => Ok(0),
        Err(_) => Err(ENOMEM),
    }
}

/// The call munmap.
#[tactic(auto, unfolding(crate::specs::Mapping::munmap_call))]
pub(crate) fn munmap(w: &mut World) -> Result<u64, Errno>
    requires { FitParts (view_of w.old) }
    ensures kept { Kept w.old w.new }
    ensures does { DoesAtOnce munmap_call (view_of w.old) (view_of w.new) result }
{
    let start = w.rdi();
    let len = w.rsi();
    if start % PAGE_SIZE != 0 || len == 0 {
        return Err(Errno::EINVAL);
    }
    let count = pages_up(len);
    if start / PAGE_SIZE + count > HIGHEST_END {
        return Err(Errno::EINVAL);
    }
    unmap(w, start, count)
}

/// The call brk.
#[tactic(auto, using(crate::proofs::SwapLemmas::swap_resized))]
pub(crate) fn brk(w: &mut World) -> Result<u64, Errno>
    requires { FitParts (view_of w.old) }
    ensures kept { Kept w.old w.new }
    ensures does { DoesAtOnce brk_call (view_of w.old) (view_of w.new) result }
{
    let to = w.rdi();
    match w.regions.set_break(w.pages, to) {
        Ok(()) => Ok(to),
        Err(_) => Ok(w.regions.break_at()),
    }
}

// Whether a page is one that a range has as a hole.
fn is_hole(regions: &Regions, page: u64) -> bool
    ensures { result ≡ is_hole_spec regions.now.regions page }
{
    page >= HIGHEST_END || regions.origin(page * PAGE_SIZE).is_none()
}

// Whether one of so many pages from one on is a hole.
fn has_hole(regions: &Regions, first: u64, count: u64) -> bool
    requires { first + count < 2 ^ 64 }
    ensures { result ≡ some_in (is_hole_spec regions.now.regions) first count }
{
    for page in first..first + count {
        if is_hole(regions, page) {
            return true;
        }
    }
    false
}

// Whether one of so many pages from one on is of a file.
fn has_file_page(regions: &Regions, first: u64, count: u64) -> bool
    requires fits { first + count < 2 ^ 64 }
    requires low { (page : ℕ) → first ≤ page → page < first + count → page < highest_end }
    ensures { result ≡ some_in (is_file_page regions.now.regions) first count }
{
    for page in first..first + count {
        if regions.origin(page * PAGE_SIZE).unwrap_or(false) {
            return true;
        }
    }
    false
}

// Fills so many mapped pages from one on with zeros.
fn zero_pages(pages: &mut Pages, first: u64, count: u64)
    requires fits { first + count < 2 ^ 64 }
    requires low { (page : ℕ) → first ≤ page → page < first + count → page < highest_end }
    requires mapped { (page : ℕ) → first ≤ page → page < first + count → IsSome (perms_in (table_of pages.old) page) }
    ensures { AreZeroed first (first + count) pages.old pages.new }
{
    for page in first..first + count {
        pages.zero_page(page * PAGE_SIZE);
    }
}

// Makes so many anonymous pages from one on zeros.
#[tactic(auto, unfolding(crate::specs::Mapping::discarded))]
fn discard(w: &mut World, first: u64, count: u64) -> Result<u64, Errno>
    requires fits { first + count < 2 ^ 64 }
    requires whole { some_in (is_hole_spec w.old.regions.now.regions) first count ≡ false }
    requires fit { FitParts (view_of w.old) }
    ensures kept { Kept w.old w.new }
    ensures does { DoesAtOnce (discarded first count) (view_of w.old) (view_of w.new) result }
{
    if has_file_page(w.regions, first, count) {
        return Err(Errno::EINVAL);
    }
    zero_pages(w.pages, first, count);
    Ok(0)
}

/// The call madvise.
#[tactic(auto, unfolding(crate::specs::Mapping::madvise_call))]
pub(crate) fn madvise(w: &mut World) -> Result<u64, Errno>
    requires { FitParts (view_of w.old) }
    ensures kept { Kept w.old w.new }
    ensures does { DoesAtOnce madvise_call (view_of w.old) (view_of w.new) result }
{
    let start = w.rdi();
    let count = pages_up(w.rsi());
    let advice = low(w.rdx());
    if start % PAGE_SIZE != 0 {
        return Err(Errno::EINVAL);
    }
    if has_hole(w.regions, start / PAGE_SIZE, count) {
        return Err(ENOMEM);
    }
    match advice {
        DONT_NEED => discard(w, start / PAGE_SIZE, count),
        0..=3 | 8 | 14 | 15 | 16 => Ok(0),
        _ => Err(Errno::EINVAL),
    }
}
