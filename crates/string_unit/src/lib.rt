//! Strings in memory: one iteration of MOVS, CMPS, STOS, LODS and SCAS.
#![tactic(auto)]

mod access_list;
mod iteration;
mod memory;
mod registers;

pub use access_list::accesses;
pub use guest_pages::{Kind, Miss, Pages};
pub use iteration::{iterate, iterate_ready};
pub use registers::{destination_place, index, source_place};

#[cfg(test)]
mod tests;
