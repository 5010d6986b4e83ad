//! The guest's files, kept in memory, and its descriptors.
//!
//! Each call checks in the order in which its definition lists the checks, and answers the error of the first that fails;
//! a call that answers an error changes nothing. All memory is taken by [`Files::new`].
#![tactic(auto)]

mod content;
mod entries;
mod errno;
mod files;
mod offsets;
mod opening;
#[cfg(test)]
mod tests;

pub use entries::Entry;
pub use errno::Errno;
pub use files::Files;
