//! Searches among regions, by the numbers of pages.
ghost use Rattle.std.specs.Prelude.{◌≡◌, ◌≤◌, ◌<◌, ◌+◌, ◌-◌, ℕ, nat_le, if◌then◌else◌, true, false, not, MatchOption};
ghost use Rattle.std.specs.Option.{option_map};
ghost use Rattle.machine_state.specs.Regions.{AreRegions, nature_at};
ghost use Rattle.region_map.specs.Calls.{is_mapped, is_taken, NoneIn, IsFirst, IsHighest};
ghost use Rattle.region_map.specs.Lists.{IsFreeSpan};

use machine_state::Region;

/// The first page that a guest may choose.
const LOWEST: u64 = 0x10;

/// The page behind the last one that a guest may choose.
pub(crate) const HIGHEST_END: u64 = 0x7_FFFF_FFFF;

/// Whether a page is of a file, by the regions.
pub(crate) fn origin_in(regions: &[Region], page: u64) -> Option<bool>
    requires { AreRegions regions.now }
    ensures { result ≡ option_map (λ nature. nature.file) (nature_at regions.now page) }
{
    for region in regions {
        if region.first <= page && page - region.first < region.count {
            return Some(region.file);
        }
    }
    None
}

// The first page from one on that isn't mapped.
fn hole_from(regions: &[Region], from: u64) -> u64
    requires { AreRegions regions.now }
    ensures above { from ≤ result }
    ensures hole { is_mapped regions.now result ≡ false }
    ensures before { (page : ℕ) → from ≤ page → page < result → is_mapped regions.now page ≡ true }
{
    let mut at = from;
    for region in regions {
        if at < region.first {
            return at;
        }
        at = at.max(region.first + region.count);
    }
    at
}

/// The first page of a range that isn't mapped.
pub(crate) fn first_hole(regions: &[Region], from: u64, to: u64) -> Option<u64>
    requires { AreRegions regions.now }
    ensures { MatchOption result (NoneIn (λ page. not (is_mapped regions.now page)) from to)
        (IsFirst (λ page. not (is_mapped regions.now page)) from to) }
{
    let hole = hole_from(regions, from);
    if hole < to { Some(hole) } else { None }
}

// The first page from one on and below another that is mapped, or else that other.
fn mapped_from(regions: &[Region], from: u64, to: u64) -> u64
    requires listed { AreRegions regions.now }
    requires range { from ≤ to }
    ensures above { from ≤ result }
    ensures within { result ≤ to }
    ensures mapped { result < to → is_mapped regions.now result ≡ true }
    ensures before { NoneIn (is_mapped regions.now) from result }
{
    for region in regions {
        if from < region.first + region.count {
            return region.first.max(from).min(to);
        }
    }
    to
}

/// The first page of a range that the heap can't grow over.
pub(crate) fn first_taken(regions: &[Region], from: u64, to: u64) -> Option<u64>
    requires { AreRegions regions.now }
    ensures { MatchOption result (NoneIn (is_taken regions.now) from to) (IsFirst (is_taken regions.now) from to) }
{
    if to <= from {
        return None;
    }
    let taken = mapped_from(regions, from, to).min(HIGHEST_END.max(from));
    if taken < to { Some(taken) } else { None }
}

// The last so many pages from one on and below another, or else those that were found before.
fn later(found: Option<u64>, low: u64, end: u64, count: u64) -> Option<u64>
    ensures { result ≡ (if nat_le (low + count) end then Some (end - count) else found) }
{
    if low <= end && count <= end - low {
        Some(end - count)
    } else {
        found
    }
}

/// The first of the highest so many free pages that end by another page.
pub(crate) fn highest_free(regions: &[Region], end: u64, count: u64) -> Option<u64>
    requires listed { AreRegions regions.now }
    requires some { 0 < count }
    ensures { IsHighest (IsFreeSpan regions.now end count) result }
{
    let mut found = None;
    let mut low = LOWEST;
    for region in regions {
        found = later(found, low, region.first.min(end), count);
        low = low.max(region.first + region.count);
    }
    later(found, low, end, count)
}
