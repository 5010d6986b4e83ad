//! The words of the command line: the command, its options, the program and the guest's words.
#![tactic(auto)]

mod checks;
mod given;
mod kinds;
mod numbers;
mod options;
mod pairs;
mod reading;
mod texts;

pub use kinds::{Command, WordFault};
pub use pairs::{pair_name, pair_path, place_naming};
pub use reading::read_words;

#[cfg(test)]
mod tests;
