//! The load of a program: its pages and their regions before its first step.
#![tactic(auto)]

mod filling;
mod kinds;
mod load;

pub use kinds::LoadFault;
pub use load::{Loaded, load_pages};

#[cfg(test)]
mod tests;
