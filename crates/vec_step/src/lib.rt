//! Vector instructions: their operands, what they access, and what they leave.
#![tactic(auto)]

mod clearing;
mod kinds;
mod performing;
mod places;
mod planning;
mod spreading;

pub use clearing::clear;
pub use kinds::{Clearing, Places, Source, Span, Spots, Target, VectorPlan};
pub use performing::{perform, walk};
pub use planning::plan;

#[cfg(test)]
mod tests;
