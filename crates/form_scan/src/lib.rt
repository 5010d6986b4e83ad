//! The shape of an instruction: which of its bytes are prefixes, opcode, ModRM, SIB, displacement and
//! immediate, and what they say.
#![tactic(auto)]

mod front;
mod head;
mod kinds;
mod payload;
mod scanning;
mod tail;

pub use kinds::Scan;
pub use scanning::{LIMIT, scan};

#[cfg(test)]
mod tests;
