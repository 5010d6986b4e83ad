//! What a vector instruction gives: a register, with mask, zeroing and upper bits, or a mask of bits.
#![tactic(auto)]

mod bit_masks;
mod computing;
mod forms;
mod masked;
mod results;

pub use bit_masks::fed;
pub use forms::{Form, chooses, form_for, is_expanded, memory_width};
pub use masked::{packed, taken};
pub use results::{bits, mask_result, result, signs, vector};

#[cfg(test)]
mod tests;
