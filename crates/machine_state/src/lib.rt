//! What the written machine is made of: guest memory, the machine state and the world, as definitions in `specs/`,
//! and the plain types that the crates above share.
#![tactic(auto)]

mod kinds;
mod laws;
mod pages;
mod permissions;
mod random;

pub use kinds::{Access, GuestEnd, Kind, Miss, Place, Region, Stop};
pub use laws::initial_law;
pub use pages::{PAGE_SIZE, page_size_law};
pub use permissions::Perms;
pub use random::next_random;
