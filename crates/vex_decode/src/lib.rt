//! The decoding of instructions with a VEX prefix: the row that their fields spell.
#![tactic(auto)]

mod matching;

pub use matching::match_vex;

#[cfg(test)]
mod tests;
