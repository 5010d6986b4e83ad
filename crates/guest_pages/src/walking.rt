//! The walk along an access list.
ghost use Rattle.std.specs.Prelude.{◌≡◌, None, Some, MatchResult};
ghost use Rattle.guest_pages.specs.Pages.{table_of};
ghost use Rattle.guest_pages.specs.Walk.{walk};

use crate::pages::Pages;
use machine_state::{Access, Stop};

impl Pages {
    /// Walks an access list.
    #[tactic(auto, unfolding(crate::specs::Walk::walk))]
    pub fn walk(&self, accesses: &[Access]) -> Result<(), Stop>
        ensures { MatchResult result (λ _. walk (table_of self.now) accesses.now ≡ None)
            (λ stop. walk (table_of self.now) accesses.now ≡ Some stop) }
    {
        for access in accesses {
            let kind = access.kind;
            self.ready(access.addr, access.len, kind)
                .map_err(|miss| Stop { kind, miss })?;
        }
        Ok(())
    }
}
