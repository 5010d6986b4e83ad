//! Products, sums, counts and double shifts of lanes.
#![tactic(auto)]

mod applying;
mod counts;
mod differences;
mod lane;
mod pairs;
mod products;
mod shifts;
mod sums;

pub use applying::{apply, handles};

#[cfg(test)]
mod tests;
