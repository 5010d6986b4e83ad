//! Laws of the definitions.
ghost use Rattle.std.specs.Prelude.{List, ◌≡◌, ◌≤◌, ◌+◌, ◌-◌, ℕ, Bool, length};
ghost use Rattle.machine_state.specs.Memory.{Swap};
ghost use Rattle.machine_state.specs.Regions.{AreRegions, nature_at, page_sum};
ghost use Rattle.guest_pages.specs.Pages.{PagesValue};
ghost use Rattle.guest_pages.specs.Changes.{KeepsTable};
ghost use Rattle.guest_pages.specs.Together.{AreClean, NoneSwapped};
ghost use Rattle.region_map.specs.Calls.{FitPages};
ghost use Rattle.region_map.specs.Changes.{AreChanged};
ghost use Rattle.region_map.specs.Ranges.{IsAfter, page_end};
ghost use Rattle.region_map.specs.declared.kinds.Change.{Change};
ghost use Rattle.machine_state.specs.declared.kinds.Region.{Region};

/// Accesses to pages leave pages that fit.
#[tactic(auto, using(crate::proofs::Fits::fit_kept))]
pub fn fitting_law()
    ensures { (old new : PagesValue) (regions : List Region) → KeepsTable old new → FitPages old regions → FitPages new regions }
{}

/// What the pages are tells the regions.
#[tactic(auto, using(crate::proofs::Unique::regions_unique))]
pub fn regions_law()
    ensures { (some others : List Region) → AreRegions some → AreRegions others
        → ((page : ℕ) → nature_at some page ≡ nature_at others page) → some ≡ others }
{}

/// A change of a range adds at most two regions, and at most the pages of the range.
pub fn bounds_law()
    ensures { (change : Change) (from to : ℕ) (old new : List Region) → AreRegions old → from ≤ to → to ≤ page_end
        → IsAfter change from to old new → (length new ≤ length old + 2) × (page_sum new ≤ page_sum old + (to - from)) }
{}

/// A change of pages leaves those that weren't written as the swap or the zeros give them, and puts none to the swap.
pub fn swap_law()
    ensures clean { (change : Change) (which : ℕ → Bool) (old new : PagesValue) (swap : Swap) → AreChanged change which old new
        → AreClean old swap → AreClean new swap }
    ensures none { (change : Change) (which : ℕ → Bool) (old new : PagesValue) → AreChanged change which old new
        → NoneSwapped old → NoneSwapped new }
{}
