//! A step of the machine: an instruction is fetched, told from its bytes by the row table, and performed. Performing goes
//! by stages that are the same for all rows: the operands are found, alignment is looked at, the access list is walked, what it
//! reads is loaded, the numbers that come of it are worked out, and these are put to their places.
#![tactic(auto)]

mod acted;
mod addressing;
mod alignment;
mod cpuid;
mod features;
mod fetch_cache;
mod fetching;
mod flags;
mod forms;
mod kinds;
mod locating;
mod machine;
mod operands;
mod pair;
mod planning;
mod prepared;
mod preparing;
mod resolving;
mod results;
mod roles;
mod save_area;
mod sizes;
mod strings;
mod taking;
#[cfg(test)]
mod tests;
mod values;
mod walking;
mod ways;

pub use acted::Acted;
pub use fetch_cache::FetchCache;
pub use fetching::Fetched;
pub use gpr_flags::{Fault, Flags, Gprs};
pub use guest_pages::Pages;
pub use machine::Machine;
pub use machine_state::{Kind, Perms};
pub use prepared::{Kept, Prepared};
pub use row_table::Decoded;
pub use vec_file::VecFile;
