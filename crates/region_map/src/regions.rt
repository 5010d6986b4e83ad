//! The regions of guest memory.
ghost use Rattle.std.specs.Prelude.{◌≡◌, ◌≤◌, ◌<◌, ◌+◌, length, MatchResult};
ghost use Rattle.machine_state.specs.Regions.{AreRegions, page_sum as sum_of, most_regions};
ghost use Rattle.region_map.specs.Calls.{pages_up as up_of};

use crate::kinds::{BreakFault, Change, ProtectFault};
use crate::lists::{RegionList, changed, page_sum};
use crate::ranges::change_range;
use crate::searches::{HIGHEST_END, first_hole, first_taken, highest_free, origin_in};
use guest_pages::{Full, Pages};
use machine_state::{PAGE_SIZE, Perms};
use std::marker::Model;

/// What heap pages allow.
const HEAP_PERMS: Perms = Perms(3);

/// The regions of a guest's memory, and its heap. Nothing allocates. The calls that take pages want those that fit the regions, and
/// leave pages that do.
#[derive(Drop)]
pub struct Regions {
    regions: RegionList,
    heap: u64,
    at: u64,
}

impl Model for Regions {
    ghost use Rattle.region_map.specs.Calls.{RegionsValue, AreKept};

    ghost Value = { RegionsValue };

    ghost view = { λ r. record { regions = r.regions.items; heap = r.heap; at = r.at } };

    ghost invariant = { λ r. AreKept r.regions.items r.heap r.at };
}

// The same regions, where they are within both limits.
fn within(list: RegionList, pages: &Pages) -> Result<RegionList, Full>
    requires { AreRegions list.items }
    ensures { MatchResult result
        (λ same. (same ≡ list) × (length list.items ≤ most_regions) × (sum_of list.items ≤ length pages.now.slots))
        (λ _. length pages.now.slots < sum_of list.items) }
{
    let regions = list.as_slice();
    if page_sum(regions) <= pages.limit() as u64 {
        Ok(list)
    } else {
        Err(Full)
    }
}

/// The number of the first page at an address or above it.
pub fn pages_up(addr: u64) -> u64
    ensures value { result ≡ up_of addr }
    ensures small { result ≤ 0x10000000000000 }
{
    addr / PAGE_SIZE + u64::from(addr % PAGE_SIZE != 0)
}

impl Regions {
    ghost use Rattle.std.specs.Prelude.{◌≡◌, ◌≤◌, ◌<◌, ◌+◌, ◌*◌, ◌/◌, ◌%◌, ℕ, ◌↔◌, [], length, MatchResult, OnOk, OnErr, IsErr};
    ghost use Rattle.std.specs.Option.{option_map};
    ghost use Rattle.machine_state.specs.Memory.{page_size};
    ghost use Rattle.machine_state.specs.Regions.{nature_at, most_regions};
    ghost use Rattle.guest_pages.specs.Pages.{PagesValue};
    ghost use Rattle.guest_pages.specs.Changes.{IsBlank};
    ghost use Rattle.region_map.specs.Ranges.{changed_regions, IsAfter};
    ghost use Rattle.region_map.specs.Calls.{FitPages, AreKept, PassLimits, HeapPasses, IsChange, IsResized, IsProtectFault, IsBreakFault, IsFreeBelow, IsHighest, NoneIn, is_taken, lowest_page, highest_end};
    ghost use Rattle.region_map.specs.Lists.{MayChange};

    /// No region, and a heap from one address to another.
    pub fn new(heap: u64, at: u64) -> Regions
        requires page { heap % page_size ≡ 0 }
        requires above { heap ≤ at }
        ensures value { result ≡ record { regions = []; heap = heap; at = at } }
        ensures fit { (pages : PagesValue) (frames most : ℕ) → IsBlank pages frames most → FitPages pages [] }
    {
        Regions {
            regions: RegionList::new(),
            heap,
            at,
        }
    }

    pub fn heap_start(&self) -> u64
        ensures { result ≡ self.now.heap }
    {
        self.heap
    }

    /// The break. The other clause holds of regions at any time; a caller that needs it calls this.
    pub fn break_at(&self) -> u64
        ensures value { result ≡ self.now.at }
        ensures kept { AreKept self.now.regions self.now.heap self.now.at }
    {
        self.at
    }

    /// Whether the page at the address `addr` is of a file, if it is mapped.
    pub fn origin(&self, addr: u64) -> Option<bool>
        ensures { result ≡ option_map (λ nature. nature.file) (nature_at self.now.regions (addr / page_size)) }
    {
        origin_in(&self.regions, addr / PAGE_SIZE)
    }

    /// The highest address from which on so many pages are free, up to the address `top`.
    pub fn free_below(&self, top: u64, count: u64) -> Option<u64>
        requires { 0 < count }
        ensures { IsHighest (IsFreeBelow self.now.regions top count) result }
    {
        let end = (top / PAGE_SIZE).min(HIGHEST_END);
        match highest_free(&self.regions, end, count) {
            Some(first) => Some(first * PAGE_SIZE),
            None => None,
        }
    }

    // The regions after a change of a range, where they are within both limits.
    fn list_after(
        &self,
        pages: &Pages,
        from: u64,
        to: u64,
        change: Change,
    ) -> Result<RegionList, Full>
        requires range { from < to }
        requires may { MayChange change from to }
        ensures { MatchResult result
            (λ list. IsAfter change from to self.now.regions list.items × (length list.items ≤ most_regions) × (sum_of list.items ≤ length pages.now.slots))
            (λ _. PassLimits pages.now (changed_regions change from to self.now.regions)) }
    {
        within(changed(&self.regions, from, to, change)?, pages)
    }

    // Changes a range of pages, or nothing.
    fn change(&mut self, pages: &mut Pages, from: u64, to: u64, change: Change) -> Result<(), Full>
        requires fit { FitPages pages.old self.old.regions }
        requires range { from < to }
        requires may { MayChange change from to }
        ensures full { IsErr result ↔ PassLimits pages.old (changed_regions change from to self.old.regions) }
        ensures ok { OnOk result (IsChange change from to self.old.regions self.new.regions pages.old pages.new) }
        ensures err { OnErr result ((self.new ≡ self.old) × (pages.new ≡ pages.old)) }
        ensures heap { (self.new.heap ≡ self.old.heap) × (self.new.at ≡ self.old.at) }
        ensures fit { FitPages pages.new self.new.regions }
    {
        let list = self.list_after(pages, from, to, change)?;
        change_range(pages, &self.regions, from, to, change);
        self.regions = list;
        Ok(())
    }

    /// Maps so many pages from the address `start` on, as zeros, of a file or not; what was mapped there is gone.
    pub fn map(
        &mut self,
        pages: &mut Pages,
        start: u64,
        count: u64,
        perms: Perms,
        file: bool,
    ) -> Result<(), Full>
        requires page { start % page_size ≡ 0 }
        requires some { 0 < count }
        requires low { lowest_page ≤ start / page_size }
        requires high { start / page_size + count ≤ highest_end }
        requires set { perms.0 < 8 }
        requires fit { FitPages pages.old self.old.regions }
        ensures full { IsErr result ↔ PassLimits pages.old
            (changed_regions (Change.Map perms file) (start / page_size) (start / page_size + count) self.old.regions) }
        ensures ok { OnOk result (IsChange (Change.Map perms file) (start / page_size) (start / page_size + count)
            self.old.regions self.new.regions pages.old pages.new) }
        ensures err { OnErr result ((self.new ≡ self.old) × (pages.new ≡ pages.old)) }
        ensures heap { (self.new.heap ≡ self.old.heap) × (self.new.at ≡ self.old.at) }
        ensures fit { FitPages pages.new self.new.regions }
    {
        let from = start / PAGE_SIZE;
        self.change(pages, from, from + count, Change::Map(perms, file))
    }

    /// Unmaps so many pages from the address `start` on, if they are mapped.
    pub fn unmap(&mut self, pages: &mut Pages, start: u64, count: u64) -> Result<(), Full>
        requires page { start % page_size ≡ 0 }
        requires some { 0 < count }
        requires high { start / page_size + count ≤ highest_end }
        requires fit { FitPages pages.old self.old.regions }
        ensures full { IsErr result ↔ PassLimits pages.old
            (changed_regions Change.Unmap (start / page_size) (start / page_size + count) self.old.regions) }
        ensures ok { OnOk result (IsChange Change.Unmap (start / page_size) (start / page_size + count)
            self.old.regions self.new.regions pages.old pages.new) }
        ensures err { OnErr result ((self.new ≡ self.old) × (pages.new ≡ pages.old)) }
        ensures heap { (self.new.heap ≡ self.old.heap) × (self.new.at ≡ self.old.at) }
        ensures fit { FitPages pages.new self.new.regions }
    {
        let from = start / PAGE_SIZE;
        self.change(pages, from, from + count, Change::Unmap)
    }

    /// Gives so many pages from the address `start` on these permissions, where all of them are mapped.
    pub fn protect(
        &mut self,
        pages: &mut Pages,
        start: u64,
        count: u64,
        perms: Perms,
    ) -> Result<(), ProtectFault>
        requires page { start % page_size ≡ 0 }
        requires some { 0 < count }
        requires high { start / page_size + count ≤ highest_end }
        requires set { perms.0 < 8 }
        requires fit { FitPages pages.old self.old.regions }
        ensures answer { MatchResult result
            (λ _. (fault : ProtectFault) → IsProtectFault self.old.regions pages.old perms (start / page_size) (start / page_size + count) fault → ⊥)
            (IsProtectFault self.old.regions pages.old perms (start / page_size) (start / page_size + count)) }
        ensures ok { OnOk result (IsChange (Change.Protect perms) (start / page_size) (start / page_size + count)
            self.old.regions self.new.regions pages.old pages.new) }
        ensures err { OnErr result ((self.new ≡ self.old) × (pages.new ≡ pages.old)) }
        ensures heap { (self.new.heap ≡ self.old.heap) × (self.new.at ≡ self.old.at) }
        ensures fit { FitPages pages.new self.new.regions }
    {
        let from = start / PAGE_SIZE;
        let to = from + count;
        match first_hole(&self.regions, from, to) {
            Some(page) => Err(ProtectFault::Hole(page * PAGE_SIZE)),
            None => match self.change(pages, from, to, Change::Protect(perms)) {
                Ok(()) => Ok(()),
                Err(_) => Err(ProtectFault::Full),
            },
        }
    }

    // Moves the heap's end from one page to another.
    fn resize(&mut self, pages: &mut Pages, old: u64, new: u64) -> Result<(), Full>
        requires fit { FitPages pages.old self.old.regions }
        requires free { NoneIn (is_taken self.old.regions) old new }
        ensures full { IsErr result ↔ HeapPasses pages.old old new self.old.regions }
        ensures ok { OnOk result (IsResized old new self.old.regions self.new.regions pages.old pages.new) }
        ensures err { OnErr result ((self.new ≡ self.old) × (pages.new ≡ pages.old)) }
        ensures heap { (self.new.heap ≡ self.old.heap) × (self.new.at ≡ self.old.at) }
        ensures fit { FitPages pages.new self.new.regions }
    {
        if old < new {
            self.change(pages, old, new, Change::Map(HEAP_PERMS, false))
        } else if new < old {
            self.change(pages, new, old, Change::Unmap)
        } else {
            Ok(())
        }
    }

    // Whether the break may be moved to an address, as far as the limits allow.
    fn check_break(&self, to: u64) -> Result<(), BreakFault>
        ensures { MatchResult result
            (λ _. (self.now.heap ≤ to) × NoneIn (is_taken self.now.regions) (up_of self.now.at) (up_of to))
            (λ fault. (pages : PagesValue) → IsBreakFault self.now pages to fault) }
    {
        if to < self.heap {
            return Err(BreakFault::Below);
        }
        match first_taken(&self.regions, pages_up(self.at), pages_up(to)) {
            Some(page) => Err(BreakFault::Taken(page * PAGE_SIZE)),
            None => Ok(()),
        }
    }

    /// Moves the break to the address `to`. The heap's pages are those up to the break, rounded up: a higher break maps pages as
    /// zeros, readable and writable and of no file, and a lower one unmaps pages.
    pub fn set_break(&mut self, pages: &mut Pages, to: u64) -> Result<(), BreakFault>
        requires { FitPages pages.old self.old.regions }
        ensures answer { MatchResult result
            (λ _. (fault : BreakFault) → IsBreakFault self.old pages.old to fault → ⊥)
            (IsBreakFault self.old pages.old to) }
        ensures ok { OnOk result (IsResized (up_of self.old.at) (up_of to) self.old.regions self.new.regions pages.old pages.new) }
        ensures at { OnOk result (self.new.at ≡ to) }
        ensures err { OnErr result ((self.new ≡ self.old) × (pages.new ≡ pages.old)) }
        ensures heap { self.new.heap ≡ self.old.heap }
        ensures fit { FitPages pages.new self.new.regions }
    {
        self.check_break(to)?;
        let at = self.at;
        match self.resize(pages, pages_up(at), pages_up(to)) {
            Ok(()) => {
                self.at = to;
                Ok(())
            }
            Err(_) => Err(BreakFault::Full),
        }
    }
}

#[cfg(test)]
mod tests;
