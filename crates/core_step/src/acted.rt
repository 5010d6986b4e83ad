//! How a step ends.

use gpr_flags::Fault;

/// How a step ends.
#[derive(Clone, Copy, Debug, PartialEq, Eq)]
pub enum Acted {
    /// The instruction is completed, and counted as a step.
    Done,
    /// SYSCALL: rip, rcx and r11 are set, and the caller answers the call and counts the step.
    Call,
    /// The instruction faulted.
    Trap(Fault),
    /// The page in this slot has to be brought into a frame first. Then the same step is taken again.
    Need(u32),
}
