//! Vector operations that change the width of lanes, or close up and spread out lanes by a mask.
#![tactic(auto)]

mod applying;
mod lane;
mod masked;
mod widths;

pub use applying::{apply, handles};

#[cfg(test)]
mod tests;
