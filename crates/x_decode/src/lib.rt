//! Exact decoding: the instruction that some bytes begin with.
#![tactic(auto)]

mod decoding;
mod kinds;

pub use decoding::decode;
pub use form_scan::LIMIT;
pub use kinds::Seen;

#[cfg(test)]
mod tests;
