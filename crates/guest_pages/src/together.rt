//! What joins the pages and a host's swap.
ghost use Rattle.std.specs.Prelude.{◌≡◌, ℕ, List, Some, IsSome};
ghost use Rattle.machine_state.specs.Memory.{Swap};
ghost use Rattle.machine_state.specs.declared.kinds.Kind.{Kind};
ghost use Rattle.machine_state.specs.declared.kinds.Access.{Access};
ghost use Rattle.machine_state.specs.declared.kinds.Miss.TheVariants.{Away};
ghost use Rattle.guest_pages.specs.Table.{blocked};
ghost use Rattle.guest_pages.specs.Walk.{walk};
ghost use Rattle.guest_pages.specs.Order.{AreOrdered, IsAwayIn, IsResidentIn, IsFirstBrought};
ghost use Rattle.guest_pages.specs.Pages.{PagesValue, table_of};
ghost use Rattle.guest_pages.specs.Changes.{IsBlank, KeepsTable, IsWritten, IsMapped, IsUnmapped, IsProtected, IsZeroed};
ghost use Rattle.guest_pages.specs.Together.{AreClean, NoneSwapped};

/// Pages that weren't written equal what the swap or the zeros give where no page is mapped, and after each call that
/// changes pages. The other parts of what joins pages and a swap hold of pages at any time.
#[tactic(auto, using(crate::proofs::Togethers::clean_blank, crate::proofs::Togethers::clean_table, crate::proofs::Togethers::clean_written, crate::proofs::Togethers::clean_mapped, crate::proofs::Togethers::clean_unmapped, crate::proofs::Togethers::clean_protected, crate::proofs::Togethers::clean_zeroed))]
pub fn clean_law()
    ensures blank { (pages : PagesValue) (swap : Swap) (frames most : ℕ) → IsBlank pages frames most → AreClean pages swap }
    ensures kept { (old new : PagesValue) (swap : Swap) → KeepsTable old new → AreClean old swap → AreClean new swap }
    ensures written { (old new : PagesValue) (swap : Swap) (addr : ℕ) (bytes : List ℕ) → IsWritten old new addr bytes
        → AreClean old swap → AreClean new swap }
    ensures mapped { (old new : PagesValue) (swap : Swap) (page perms : ℕ) → IsMapped old new page perms
        → AreClean old swap → AreClean new swap }
    ensures unmapped { (old new : PagesValue) (swap : Swap) (page : ℕ) → IsUnmapped old new page
        → AreClean old swap → AreClean new swap }
    ensures protected { (old new : PagesValue) (swap : Swap) (page perms : ℕ) → IsProtected old new page perms
        → AreClean old swap → AreClean new swap }
    ensures zeroed { (old new : PagesValue) (swap : Swap) (page : ℕ) → IsSome (table_of old page) → IsZeroed old new page
        → AreClean old swap → AreClean new swap }
{}

/// No page is on the swap where none is mapped, and none gets there by the calls that change pages.
#[tactic(auto, using(crate::proofs::Togethers::none_table, crate::proofs::Togethers::none_unmapped, crate::proofs::Togethers::none_zero))]
pub fn none_swapped_law()
    ensures blank { (pages : PagesValue) (frames most : ℕ) → IsBlank pages frames most → NoneSwapped pages }
    ensures kept { (old new : PagesValue) → KeepsTable old new → NoneSwapped old → NoneSwapped new }
    ensures mapped { (old new : PagesValue) (page perms : ℕ) → IsMapped old new page perms → NoneSwapped old → NoneSwapped new }
    ensures unmapped { (old new : PagesValue) (page : ℕ) → IsUnmapped old new page → NoneSwapped old → NoneSwapped new }
    ensures protected { (old new : PagesValue) (page perms : ℕ) → IsProtected old new page perms
        → NoneSwapped old → NoneSwapped new }
    ensures zeroed { (old new : PagesValue) (page : ℕ) → IsSome (table_of old page) → IsZeroed old new page
        → NoneSwapped old → NoneSwapped new }
{}

/// The page that an access or a walk waits for is away, and the page brought first is in a frame.
#[tactic(auto, using(crate::proofs::Aways::blocked_away, crate::proofs::Aways::walk_away, crate::proofs::Aways::first_resident))]
pub fn waiting_law()
    ensures access { (pages : PagesValue) (kind : Kind) (addr len slot : ℕ) → blocked (table_of pages) kind addr len ≡ Some (Away slot)
        → IsAwayIn pages slot }
    ensures accesses { (pages : PagesValue) (accesses : List Access) (kind : Kind) (slot : ℕ)
        → walk (table_of pages) accesses ≡ Some (record { kind = kind; miss = Away slot }) → IsAwayIn pages slot }
    ensures first { (pages : PagesValue) (slot : ℕ) → AreOrdered pages → IsFirstBrought pages.recent slot → IsResidentIn pages slot }
{}
