//! The decoding of instructions without a VEX or EVEX prefix: the row that their fields spell.
#![tactic(auto)]

mod locking;
mod matching;

pub use matching::match_legacy;

#[cfg(test)]
mod tests;
