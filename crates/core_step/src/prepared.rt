//! Instructions of which is worked out what their bytes say.
use crate::forms::{Alignment, PlanForm};
use gpr_flags::Fault;
use row_table::Decoded;

/// An instruction of which is worked out what its bytes say, so that only what the state says is left.
#[derive(Clone, Copy)]
pub struct Prepared {
    /// The way in which it is performed, with its operands.
    pub form: PlanForm,
    /// Where its operand in memory may stand, if there is a rule.
    pub alignment: Option<Alignment>,
    /// How many bytes it has.
    pub len: u8,
    pub decoded: Decoded,
}

/// How a fetch ends, with an instruction prepared.
#[derive(Clone, Copy)]
pub enum Kept {
    Instr(Prepared),
    Trap(Fault),
    /// The page in this slot has to be brought into a frame first.
    Need(u32),
}
