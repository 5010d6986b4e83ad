//! The decoding of instructions with an EVEX prefix: the row that their fields spell.
#![tactic(auto)]

mod masking;
mod matching;
mod naming;
mod scaling;

pub use matching::match_evex;

#[cfg(test)]
mod tests;
