//! The system calls of the guest.
#![tactic(auto)]

mod answering;
mod copying;
mod errnos;
mod fields;
mod files;
mod kinds;
mod laws;
mod lists;
mod mapping;
mod paths;
mod records;
mod table;
mod transfers;
mod world;

pub use answering::answer;
pub use host_edge::HostCall;
pub use kinds::{CallEnd, Progress};
pub use laws::growth_law;
pub use world::World;

#[cfg(test)]
mod tests;
