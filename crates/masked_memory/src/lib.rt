//! Lanes in memory, of which only those that a mask has are accessed.
#![tactic(auto)]

mod checking;
mod loading;
mod parts;
mod storing;

pub use checking::check_lanes;
pub use loading::{load_lanes, load_ready, load_zeroed};
pub use storing::{store_lanes, store_ready};

#[cfg(test)]
mod tests;
