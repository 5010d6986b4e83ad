//! Lists of regions, each as long as it can be.
ghost use Rattle.std.specs.Prelude.{◌≡◌, ◌≤◌, ◌<◌, ◌+◌, ◌^◌, ◌++◌, ◌∷◌, [], ℕ, List, length, map, min, max, MatchOption, MatchResult, OnOk, OnErr};
ghost use Rattle.std.specs.Option.{option_to_list};
ghost use Rattle.machine_state.specs.Regions.{AreRegions, end_of, page_sum as sum_of, most_regions};
ghost use Rattle.region_map.specs.Ranges.{touches, part as part_of, parts, middle, changed_regions, IsAfter};
ghost use Rattle.region_map.specs.Lists.{appended, appended_all, given, AreShort, MayChange};

use crate::kinds::Change;
use arrayvec::ArrayVec;
use guest_pages::Full;
use machine_state::{Perms, Region};

/// The most regions.
const MOST: usize = 1024;

/// The page behind the last one that can be mapped.
pub(crate) const PAGE_END: u64 = 0x8_0000_0000;

pub(crate) type RegionList = ArrayVec<Region, MOST>;

// Whether a region ends where another begins, and has its nature.
fn joins(region: Region, next: Region) -> bool
    ensures { result ≡ touches region next }
{
    region.first <= next.first
        && next.first - region.first == region.count
        && region.perms == next.perms
        && region.file == next.file
}

fn put(list: &mut RegionList, region: Region) -> Result<(), Full>
    ensures ok { OnOk result (list.new.items ≡ list.old.items ++ region ∷ []) }
    ensures full { OnErr result (most_regions < length list.old.items + 1) }
{
    match list.try_push(region) {
        Ok(()) => Ok(()),
        Err(_) => Err(Full),
    }
}

fn put_both(list: &mut RegionList, region: Region, next: Region) -> Result<(), Full>
    ensures ok { OnOk result (list.new.items ≡ list.old.items ++ region ∷ next ∷ []) }
    ensures full { OnErr result (most_regions < length list.old.items + 2) }
{
    put(list, region)?;
    put(list, next)
}

// Puts a region behind the others, or makes the last of them longer by it.
fn append(list: &mut RegionList, next: Region) -> Result<(), Full>
    requires { end_of next < 2 ^ 64 }
    ensures ok { OnOk result (list.new.items ≡ appended list.old.items next) }
    ensures full { OnErr result (most_regions < length (appended list.old.items next)) }
{
    match list.pop() {
        None => put(list, next),
        Some(last) => {
            if joins(last, next) {
                put(
                    list,
                    Region {
                        count: last.count + next.count,
                        ..last
                    },
                )
            } else {
                put_both(list, last, next)
            }
        }
    }
}

/// The pages of a region from one page on and below another, as a region.
pub(crate) fn part(region: Region, from: u64, to: u64) -> Option<Region>
    requires { end_of region < 2 ^ 64 }
    ensures value { option_to_list result ≡ part_of from to region }
    ensures span { MatchOption result (min (end_of region) to ≤ max region.first from)
        (λ part. (part.first ≡ max region.first from) × (part.first < end_of part) × (end_of part ≡ min (end_of region) to)) }
{
    let first = region.first.max(from);
    let end = (region.first + region.count).min(to);
    if first < end {
        Some(Region {
            first,
            count: end - first,
            ..region
        })
    } else {
        None
    }
}

fn with_perms(region: Region, perms: Option<Perms>) -> Region
    ensures { result ≡ given perms region }
{
    match perms {
        Some(perms) => Region { perms, ..region },
        None => region,
    }
}

// Puts a part of a region, with other permissions if some are given, behind the others.
fn append_part(
    list: &mut RegionList,
    region: Region,
    from: u64,
    to: u64,
    perms: Option<Perms>,
) -> Result<(), Full>
    requires { end_of region < 2 ^ 64 }
    ensures ok { OnOk result (list.new.items ≡ appended_all list.old.items (map (given perms) (part_of from to region))) }
    ensures full { OnErr result
        (most_regions < length (appended_all list.old.items (map (given perms) (part_of from to region)))) }
{
    match part(region, from, to) {
        Some(part) => append(list, with_perms(part, perms)),
        None => Ok(()),
    }
}

// Puts the parts of regions behind the others.
fn append_parts(
    list: &mut RegionList,
    regions: &[Region],
    from: u64,
    to: u64,
    perms: Option<Perms>,
) -> Result<(), Full>
    requires { AreShort regions.now }
    ensures ok { OnOk result (list.new.items ≡ appended_all list.old.items (map (given perms) (parts from to regions.now))) }
    ensures full { OnErr result
        (most_regions < length (appended_all list.old.items (map (given perms) (parts from to regions.now)))) }
{
    for region in regions {
        match append_part(list, *region, from, to, perms) {
            Ok(()) => {}
            Err(full) => return Err(full),
        }
    }
    Ok(())
}

// Puts what is mapped in a range after a change of it behind the others.
fn append_middle(
    list: &mut RegionList,
    regions: &[Region],
    from: u64,
    to: u64,
    change: Change,
) -> Result<(), Full>
    requires short { AreShort regions.now }
    requires range { from ≤ to }
    ensures ok { OnOk result (list.new.items ≡ appended_all list.old.items (middle change from to regions.now)) }
    ensures full { OnErr result (most_regions < length (appended_all list.old.items (middle change from to regions.now))) }
{
    match change {
        Change::Map(perms, file) => append(
            list,
            Region {
                first: from,
                count: to - from,
                perms,
                file,
            },
        ),
        Change::Unmap => Ok(()),
        Change::Protect(perms) => append_parts(list, regions, from, to, Some(perms)),
    }
}

// Fills an empty list with the regions after a change of a range.
fn fill(
    list: &mut RegionList,
    regions: &[Region],
    from: u64,
    to: u64,
    change: Change,
) -> Result<(), Full>
    requires empty { list.old.items ≡ [] }
    requires short { AreShort regions.now }
    requires range { from ≤ to }
    ensures ok { OnOk result (list.new.items ≡ changed_regions change from to regions.now) }
    ensures full { OnErr result (most_regions < length (changed_regions change from to regions.now)) }
{
    append_parts(list, regions, 0, from, None)?;
    append_middle(list, regions, from, to, change)?;
    append_parts(list, regions, to, PAGE_END, None)
}

/// The regions after a change of a range.
pub(crate) fn changed(
    regions: &[Region],
    from: u64,
    to: u64,
    change: Change,
) -> Result<RegionList, Full>
    requires listed { AreRegions regions.now }
    requires range { from < to }
    requires may { MayChange change from to }
    ensures { MatchResult result (λ list. IsAfter change from to regions.now list.items)
        (λ _. most_regions < length (changed_regions change from to regions.now)) }
{
    let mut list = RegionList::new();
    match fill(&mut list, regions, from, to, change) {
        Ok(()) => Ok(list),
        Err(full) => Err(full),
    }
}

/// How many pages regions have.
pub(crate) fn page_sum(regions: &[Region]) -> u64
    requires { AreRegions regions.now }
    ensures { result ≡ sum_of regions.now }
{
    let mut sum = 0;
    for region in regions {
        sum += region.count;
    }
    sum
}
