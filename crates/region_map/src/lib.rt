//! The regions of guest memory: ranges of pages that are mapped, unmapped and protected together or not at all, and the heap.
#![tactic(auto)]

mod kinds;
mod laws;
mod lists;
mod ranges;
mod regions;
mod searches;

pub use guest_pages::{Full, Pages};
pub use kinds::{BreakFault, ProtectFault};
pub use laws::{bounds_law, fitting_law, regions_law, swap_law};
pub use machine_state::Perms;
pub use regions::{Regions, pages_up};
