//! Changes of a range of pages.
ghost use Rattle.std.specs.Prelude.{◌≡◌, ◌≤◌, ◌<◌, ◌==◌, ◌&&◌, ℕ, true, IsSome};
ghost use Rattle.machine_state.specs.Regions.{AreRegions, FitRegions};
ghost use Rattle.guest_pages.specs.Table.{perms_in};
ghost use Rattle.guest_pages.specs.Pages.{table_of};
ghost use Rattle.region_map.specs.Ranges.{is_in, page_end};
ghost use Rattle.region_map.specs.Changes.{AreChanged};
ghost use Rattle.region_map.specs.Calls.{is_mapped};
ghost use Rattle.region_map.specs.Lists.{AreTallied, CanChange, CanChangeAll, HasRoom, MapsNone, MayChange};

use crate::kinds::Change;
use crate::lists::part;
use guest_pages::Pages;
use machine_state::{PAGE_SIZE, Region};

// Changes the page of this number.
fn change_page(pages: &mut Pages, page: u64, change: Change)
    requires low { page < page_end }
    requires can { CanChange change pages.old page }
    ensures changed { AreChanged change (λ other. other == page) pages.old pages.new }
    ensures tallied { AreTallied pages.old → AreTallied pages.new }
{
    let addr = page * PAGE_SIZE;
    match change {
        Change::Map(perms, _) => match pages.map_page(addr, perms) {
            Ok(()) => {}
            Err(_) => unreachable!(),
        },
        Change::Unmap => pages.unmap_page(addr),
        Change::Protect(perms) => pages.set_perms(addr, perms),
    }
}

// Changes the pages of a range.
fn change_pages(pages: &mut Pages, from: u64, to: u64, change: Change)
    requires range { from ≤ to }
    requires low { to ≤ page_end }
    requires can { CanChangeAll change pages.old from to }
    ensures changed { AreChanged change (is_in from to) pages.old pages.new }
    ensures tallied { AreTallied pages.old → AreTallied pages.new }
{
    for page in from..to {
        change_page(pages, page, change);
    }
}

// Changes the pages of a range that regions have.
fn change_mapped(pages: &mut Pages, regions: &[Region], from: u64, to: u64, change: Change)
    requires listed { AreRegions regions.now }
    requires none { MapsNone change }
    requires mapped { (page : ℕ) → is_mapped regions.now page ≡ true → IsSome (table_of pages.old page) }
    ensures changed { AreChanged change (λ page. is_in from to page && is_mapped regions.now page) pages.old pages.new }
    ensures tallied { AreTallied pages.old → AreTallied pages.new }
{
    for region in regions {
        match part(*region, from, to) {
            Some(part) => change_pages(pages, part.first, part.first + part.count, change),
            None => {}
        }
    }
}

/// Changes the pages of a range, of which the regions tell which are mapped.
pub(crate) fn change_range(
    pages: &mut Pages,
    regions: &[Region],
    from: u64,
    to: u64,
    change: Change,
)
    requires range { from ≤ to }
    requires may { MayChange change from to }
    requires room { HasRoom change pages.old from to }
    requires fit { FitRegions (perms_in (table_of pages.old)) regions.now }
    ensures changed { AreChanged change (is_in from to) pages.old pages.new }
    ensures tallied { AreTallied pages.old → AreTallied pages.new }
{
    match change {
        Change::Map(_, _) => change_pages(pages, from, to, change),
        Change::Unmap => change_mapped(pages, regions, from, to, change),
        Change::Protect(_) => change_mapped(pages, regions, from, to, change),
    }
}
