//! Vector operations that move lanes to other places.
#![tactic(auto)]

mod applying;
mod blocks;
mod interleaving;
mod lane;
mod places;
mod shuffles;

pub use applying::{apply, handles};

#[cfg(test)]
mod tests;
