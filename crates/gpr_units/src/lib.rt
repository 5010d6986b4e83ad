//! Arithmetic of general registers: values and flags.
#![tactic(auto)]

mod numbers;
mod products;
mod quotients;
mod sums;

pub use products::multiply;
pub use quotients::{DivFault, divide};
pub use sums::alu;

#[cfg(test)]
mod tests;
