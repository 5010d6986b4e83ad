//! Shifts, rotates and single bits of general registers: what comes of a number, and which flags.
#![tactic(auto)]

mod bitwise;
mod masking;
mod numbers;
mod picking;
mod rotating;
mod scanning;
mod shifting;
mod single_bits;

pub use bitwise::bits;
pub use shifting::shift;

#[cfg(test)]
mod bit_rows;
#[cfg(test)]
mod shift_rows;
#[cfg(test)]
mod tests;
