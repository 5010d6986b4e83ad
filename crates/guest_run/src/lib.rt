//! A guest and its run: whole steps, each an instruction with its system call's answer or the fault's signal, over pages that
//! come and go.
#![tactic(auto)]

mod bytes;
mod ends;
mod guest;
mod laws;
mod running;
mod starting;

pub use bytes::byte;
pub use core_step::Machine;
pub use ends::RunEnd;
pub use guest::Guest;
pub use host_edge::HostCall;
pub use laws::{rising_runs_law, run_parts_law, run_trail_law};
pub use running::run;
pub use start_stack::TooLong;
pub use starting::{Limits, PrepareFault, prepare};

#[cfg(test)]
mod tests;
