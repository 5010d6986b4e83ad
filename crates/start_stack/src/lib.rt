//! The stack of a program before its first step.
#![tactic(auto)]

mod auxiliary;
mod building;
mod kinds;
mod sizes;
mod stack;

pub use kinds::{StartFault, TooLong};
pub use sizes::STACK_TOP;
pub use stack::{random_after, stack_bytes, stack_pointer};

#[cfg(test)]
mod tests;
