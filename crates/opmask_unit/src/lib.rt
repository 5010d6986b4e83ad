//! Opmasks as numbers of so many bits: logic, sums, shifts and tests.
#![tactic(auto)]

mod combining;
mod numbers;
mod shifting;
mod testing;

pub use combining::logic;
pub use shifting::shift;
pub use testing::test;

#[cfg(test)]
mod tests;
