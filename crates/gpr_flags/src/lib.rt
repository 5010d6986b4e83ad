//! The general registers and the flags, as values, the numbers that they hold, and the faults of instructions.
#![tactic(auto)]

mod flags;
mod gprs;
mod kinds;
mod numbers;
mod products;
mod registers;
mod shifts;

pub use gprs::Gprs;
pub use kinds::{Fault, Flags};
pub use numbers::{has_bit, is_negative, leading_zeros, low, low_signed, power, signed};
pub use products::{halves, join, signed_halves, signed_product};
pub use registers::{R11, RAX, RBP, RBX, RCX, RDI, RDX, RSI, RSP};
pub use shifts::{ones, rotated, rotated_number, sar_value};

#[cfg(test)]
mod tests;
