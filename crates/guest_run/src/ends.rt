//! How a run ends.

use host_edge::HostCall;

/// How a run ended.
#[derive(Clone, Copy, Debug, PartialEq, Eq)]
pub enum RunEnd {
    /// The guest exited with this status.
    Exit(u8),
    /// The guest was killed by this signal.
    Killed(u8),
    /// The guest hasn't ended after the steps that it was to run.
    Budget,
    /// A call on the outside failed.
    Host(HostCall),
}
