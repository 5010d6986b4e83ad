//! Lines of text that are made in a buffer of their own, and put to a sink whole.
#![tactic(auto)]

mod line;
#[cfg(test)]
mod tests;

pub use line::{LINE_LEN, Line};
