//! Lanes of a list of bytes, the numbers in them, the state components that XSAVE saves, and what a register file with these
//! components offers.
#![tactic(auto)]

mod components;
mod lanes;
mod laws;
mod parts;
mod ranges;

pub use components::{Components, Record};
pub use lanes::{Vec64, get_lane, set_lane};
pub use laws::lanes_law;
pub use parts::Parts;
pub use ranges::{add_signed, clamp_signed, clamp_unsigned, ones_where, sign, subtract_signed};

#[cfg(test)]
mod tests;
