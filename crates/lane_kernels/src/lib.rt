//! Vector operations on each lane by itself, and moves of lanes.
#![tactic(auto)]

mod applying;
mod bitwise;
mod lane;
mod shifts;
mod sums;

pub use applying::{apply, handles};

#[cfg(test)]
mod tests;
