//! The call mmap.
ghost use Rattle.std.specs.Prelude.{◌≡◌, ◌≤◌, ◌<◌, ◌+◌, ◌*◌, ◌/◌, ◌%◌, ◌^◌, ◌&&◌, ◌==◌, true, false, length, OnOk, IfSome, Some};
ghost use Rattle.std.specs.Result.{result_err};
ghost use Rattle.machine_state.specs.Memory.{page_size};
ghost use Rattle.machine_state.specs.World.{place_at};
ghost use Rattle.guest_files.specs.Open.{has_flag};
ghost use Rattle.guest_pages.specs.Pages.{table_of};
ghost use Rattle.guest_transfers.specs.Moves.{IsMappedRange, ReadsFile};
ghost use Rattle.region_map.specs.Calls.{highest_end, lowest_page, pages_up as up_of};
ghost use Rattle.region_map.specs.Ranges.{changed_regions};
ghost use Rattle.linux_calls.specs.Call.{is_page, r10, r9, rax, rdi, rsi};
ghost use Rattle.linux_calls.specs.Mapping.{copy_rest, file_refusal, filled_from, free_page as free_page_spec};
ghost use Rattle.linux_calls.specs.Mapping.{is_anonymous as is_anonymous_spec, is_fixed as is_fixed_spec, is_free, mapped_at};
ghost use Rattle.linux_calls.specs.Mapping.{mapped_descriptor, mmap_call, mmap_page as mmap_page_spec, mmap_refusal, place_refusal};
ghost use Rattle.linux_calls.specs.Mapping.{mmap_change};
ghost use Rattle.linux_calls.specs.Parts.{passes_limits};
ghost use Rattle.linux_calls.specs.View.{view_of, FitParts};
ghost use Rattle.linux_calls.specs.Following.{DoesPart, Kept};
ghost use Rattle.linux_calls.specs.Waiting.{CanCopy, NeedsIn, mapped_bytes};
ghost use Rattle.linux_calls.specs.Table.{call_numbered};
ghost use Rattle.linux_calls.specs.Units.{WaitsIn, copying_from, standing_at};
ghost use Rattle.linux_calls.specs.Passing.{PassedIn, PassesCopy, PassesMmap};
ghost use Rattle.linux_calls.specs.declared.kinds.Call.{Call};

use crate::errnos::{ENODEV, ENOMEM};
use crate::kinds::{Halt, Stage};
use crate::mapping::{HIGHEST_END, asked_perms};
use crate::world::{R8, R9, R10, World, low};
use guest_files::{Errno, Files};
use guest_transfers::{Stop, copy_file};
use machine_state::PAGE_SIZE;
use region_map::{Regions, pages_up};

/// The first page that a guest may choose.
const LOWEST_PAGE: u64 = 0x10;

/// Pages that are given where no others are asked for end here.
const GIVEN_END: u64 = 0x7FFF_F000_0000;

/// Offsets in files lie below this.
const OFFSET_END: u64 = 1 << 63;

fn is_fixed(flags: u64) -> bool
    ensures { result ≡ is_fixed_spec flags }
{
    flags & 0x10 == 0x10
}

fn is_anonymous(flags: u64) -> bool
    ensures { result ≡ is_anonymous_spec flags }
{
    flags & 0x20 == 0x20
}

/// Goes on with a copy of a file to the pages from an address on.
pub(crate) fn copy_on(w: &mut World, at: u64, from: u64) -> Result<u64, Halt>
    requires can { CanCopy (view_of w.old) at from }
    requires fit { FitParts (view_of w.old) }
    ensures kept { Kept w.old w.new }
    ensures does { DoesPart (copy_rest at from) (view_of w.old) (view_of w.new) result }
    ensures needs { NeedsIn (view_of w.new) result }
    ensures waits { WaitsIn (standing_at (view_of w.old) (copying_from at from w.old.progress.now.pieces)) (view_of w.new) result }
    ensures exact { PassedIn (λ _. PassesCopy (table_of w.old.pages.now) (view_of w.old) at from) result }
    ensures table { table_of w.new.pages.now ≡ table_of w.old.pages.now }
{
    let count = pages_up(w.rsi()) * PAGE_SIZE;
    let fd = low(w.gprs.get(R8));
    let offset = w.gprs.get(R9);
    match copy_file(w.pages, at, count, from, w.files, fd, offset) {
        Stop::Whole(_) => Ok(at),
        Stop::Away(done, slot) => {
            w.progress.wait(Stage::Copying(at, done));
            Err(Halt::Need(slot))
        }
        Stop::Failed => unreachable!(),
    }
}

// Checks a file that is mapped.
fn check_file(files: &Files, fd: u32, flags: u64) -> Result<(), Errno>
    ensures answer { result_err result ≡ file_refusal flags (place_at files.now.places fd) }
    ensures file { OnOk result (ReadsFile files.now fd) }
{
    match files.place(fd) {
        None => Err(Errno::EBADF),
        Some(place) => {
            if !place.reads || place.file.is_none() {
                return Err(Errno::EACCES);
            }
            if flags % 4 == 1 {
                return Err(ENODEV);
            }
            Ok(())
        }
    }
}

// Checks a fixed place for so many pages.
fn check_place(addr: u64, count: u64) -> Result<(), Errno>
    requires { count ≤ 2 ^ 52 }
    ensures answer { result_err result ≡ place_refusal addr count }
    ensures low { OnOk result (lowest_page ≤ addr / page_size) }
    ensures high { OnOk result (addr / page_size + count ≤ highest_end) }
{
    if addr % PAGE_SIZE != 0 {
        return Err(Errno::EINVAL);
    }
    if addr / PAGE_SIZE < LOWEST_PAGE || addr / PAGE_SIZE + count > HIGHEST_END {
        return Err(ENOMEM);
    }
    Ok(())
}

// Whether so many pages from a hint on can be had.
fn hint_is_free(regions: &Regions, hint: u64, count: u64) -> bool
    requires { 0 < count }
    ensures { result ≡ (is_page hint && is_free regions.now.regions highest_end count (hint / page_size)) }
{
    if hint % PAGE_SIZE != 0 || count > HIGHEST_END {
        return false;
    }
    match regions.free_below(hint.saturating_add(count * PAGE_SIZE), count) {
        Some(addr) => addr == hint,
        None => false,
    }
}

// The first of so many free pages: from a hint on, where they can be had, and else the highest.
fn free_page(regions: &Regions, hint: u64, count: u64) -> Option<u64>
    requires { 0 < count }
    ensures page { result ≡ free_page_spec regions.now.regions hint count }
    ensures low { IfSome result (λ page. lowest_page ≤ page) }
    ensures high { IfSome result (λ page. page + count ≤ highest_end) }
{
    if hint_is_free(regions, hint, count) {
        return Some(hint / PAGE_SIZE);
    }
    match regions.free_below(GIVEN_END, count) {
        Some(addr) => Some(addr / PAGE_SIZE),
        None => None,
    }
}

// Fills new pages from an address on: a file's are copied, and others stay zeros.
#[tactic(auto, unfolding(crate::specs::Mapping::filled_from))]
fn fill(w: &mut World, at: u64) -> Result<u64, Halt>
    requires mapped { IsMappedRange (table_of w.old.pages.now) at (mapped_bytes w.old.gprs.now) }
    requires low { at + mapped_bytes w.old.gprs.now ≤ 2 ^ 47 }
    requires file { is_anonymous_spec (r10 w.old.gprs.now) ≡ false → ReadsFile w.old.files.now (mapped_descriptor w.old.gprs.now) }
    requires fit { FitParts (view_of w.old) }
    ensures kept { Kept w.old w.new }
    ensures does { DoesPart (filled_from at) (view_of w.old) (view_of w.new) result }
    ensures needs { NeedsIn (view_of w.new) result }
    ensures waits { WaitsIn (standing_at (view_of w.old) (copying_from at 0 w.old.progress.now.pieces)) (view_of w.new) result }
    ensures exact { PassedIn (λ _. is_anonymous_spec (r10 w.old.gprs.now) ≡ false
        → PassesCopy (table_of w.new.pages.now) (view_of w.old) at 0) result }
{
    if is_anonymous(w.gprs.get(R10)) {
        return Ok(at);
    }
    if w.gprs.get(R9) >= OFFSET_END {
        return past_end(w, at);
    }
    copy_on(w, at, 0)
}

// A file has no bytes behind the last offset.
fn past_end(w: &mut World, at: u64) -> Result<u64, Halt>
    requires past { 2 ^ 63 ≤ r9 w.old.gprs.now }
    requires fit { FitParts (view_of w.old) }
    ensures kept { Kept w.old w.new }
    ensures does { DoesPart (copy_rest at 0) (view_of w.old) (view_of w.new) result }
    ensures needs { NeedsIn (view_of w.new) result }
    ensures waits { WaitsIn (standing_at (view_of w.old) (copying_from at 0 w.old.progress.now.pieces)) (view_of w.new) result }
    ensures exact { PassedIn (λ _. PassesCopy (table_of w.new.pages.now) (view_of w.old) at 0) result }
{
    let _ = w.files.cap();
    let _ = w.files.entries();
    Ok(at)
}

// Maps the pages that the registers ask for, from a page on.
fn map_at(w: &mut World, page: u64) -> Result<u64, Halt>
    requires is { call_numbered (rax w.old.gprs.now) ≡ Some Call.Mmap }
    requires begins { w.old.progress.now.stage ≡ Stage.Start }
    requires some { 0 < rsi w.old.gprs.now }
    requires low { lowest_page ≤ page }
    requires high { page + up_of (rsi w.old.gprs.now) ≤ highest_end }
    requires file { is_anonymous_spec (r10 w.old.gprs.now) ≡ false → ReadsFile w.old.files.now (mapped_descriptor w.old.gprs.now) }
    requires fit { FitParts (view_of w.old) }
    ensures kept { Kept w.old w.new }
    ensures does { DoesPart (mapped_at page) (view_of w.old) (view_of w.new) result }
    ensures needs { NeedsIn (view_of w.new) result }
    ensures waits { WaitsIn (view_of w.old) (view_of w.new) result }
    ensures exact { PassedIn (λ _. is_anonymous_spec (r10 w.old.gprs.now) ≡ false
        → passes_limits (length w.old.pages.now.slots)
        (changed_regions (mmap_change w.old.gprs.now) page (page + up_of (rsi w.old.gprs.now)) w.old.regions.now.regions) ≡ false
        → PassesCopy (table_of w.new.pages.now) (view_of w.old) (page * page_size) 0) result }
{
    let at = page * PAGE_SIZE;
    let count = pages_up(w.rsi());
    let perms = asked_perms(w.rdx());
    let file = !is_anonymous(w.gprs.get(R10));
    match w.regions.map(w.pages, at, count, perms, file) {
        Ok(()) => fill(w, at),
        Err(_) => Err(Halt::Refused(ENOMEM)),
    }
}

// Checks the arguments.
#[tactic(auto, unfolding(crate::specs::Mapping::mmap_refusal))]
fn check_mmap(w: &World) -> Result<(), Errno>
    ensures answer { result_err result ≡ mmap_refusal w.now.gprs.now w.now.files.now.places }
    ensures some { OnOk result (0 < rsi w.now.gprs.now) }
    ensures file { OnOk result (is_anonymous_spec (r10 w.now.gprs.now) ≡ false
        → ReadsFile w.now.files.now (mapped_descriptor w.now.gprs.now)) }
    ensures low { OnOk result (is_fixed_spec (r10 w.now.gprs.now) ≡ true → lowest_page ≤ rdi w.now.gprs.now / page_size) }
    ensures high { OnOk result (is_fixed_spec (r10 w.now.gprs.now) ≡ true
        → rdi w.now.gprs.now / page_size + up_of (rsi w.now.gprs.now) ≤ highest_end) }
{
    let flags = w.gprs.get(R10);
    let sharing = flags % 4;
    if w.rsi() == 0 || w.gprs.get(R9) % PAGE_SIZE != 0 || (sharing != 1 && sharing != 2) {
        return Err(Errno::EINVAL);
    }
    if !is_anonymous(flags) {
        match check_file(w.files, low(w.gprs.get(R8)), flags) {
            Ok(()) => {}
            Err(errno) => return Err(errno),
        }
    }
    if is_fixed(flags) {
        return check_place(w.rdi(), pages_up(w.rsi()));
    }
    Ok(())
}

// The first page of the pages that are mapped.
fn mmap_page(w: &World) -> Option<u64>
    requires some { 0 < rsi w.now.gprs.now }
    requires low { is_fixed_spec (r10 w.now.gprs.now) ≡ true → lowest_page ≤ rdi w.now.gprs.now / page_size }
    requires high { is_fixed_spec (r10 w.now.gprs.now) ≡ true
        → rdi w.now.gprs.now / page_size + up_of (rsi w.now.gprs.now) ≤ highest_end }
    ensures page { result ≡ mmap_page_spec w.now.gprs.now w.now.regions.now.regions }
    ensures low { IfSome result (λ page. lowest_page ≤ page) }
    ensures high { IfSome result (λ page. page + up_of (rsi w.now.gprs.now) ≤ highest_end) }
{
    if is_fixed(w.gprs.get(R10)) {
        Some(w.rdi() / PAGE_SIZE)
    } else {
        free_page(w.regions, w.rdi(), pages_up(w.rsi()))
    }
}

/// The call mmap.
#[tactic(auto, unfolding(crate::specs::Mapping::mmap_call))]
pub(crate) fn mmap(w: &mut World) -> Result<u64, Halt>
    requires is { call_numbered (rax w.old.gprs.now) ≡ Some Call.Mmap }
    requires begins { w.old.progress.now.stage ≡ Stage.Start }
    requires fit { FitParts (view_of w.old) }
    ensures kept { Kept w.old w.new }
    ensures does { DoesPart mmap_call (view_of w.old) (view_of w.new) result }
    ensures needs { NeedsIn (view_of w.new) result }
    ensures waits { WaitsIn (view_of w.old) (view_of w.new) result }
    ensures exact { PassedIn (λ _. PassesMmap (view_of w.old) (table_of w.new.pages.now)) result }
{
    match check_mmap(w) {
        Ok(()) => {}
        Err(errno) => return Err(Halt::Refused(errno)),
    }
    match mmap_page(w) {
        Some(page) => map_at(w, page),
        None => Err(Halt::Refused(ENOMEM)),
    }
}
