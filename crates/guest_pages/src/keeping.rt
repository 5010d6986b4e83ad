//! What a chain of accesses keeps of the pages.
ghost use Rattle.std.specs.Prelude.{ℕ, List};
ghost use Rattle.guest_pages.specs.Pages.{PagesValue};
ghost use Rattle.guest_pages.specs.Changes.{KeepsTable, IsWritten};

/// What accesses keep of pages composes, and a write keeps it.
#[tactic(auto, using(crate::proofs::Carries::keeps_on, crate::proofs::Carries::keeps_written))]
pub fn keeping_law()
    ensures together { (old between new : PagesValue) → KeepsTable old between → KeepsTable between new → KeepsTable old new }
    ensures written { (old new : PagesValue) (addr : ℕ) (bytes : List ℕ) → IsWritten old new addr bytes → KeepsTable old new }
{}
