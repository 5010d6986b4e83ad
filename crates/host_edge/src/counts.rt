// Calls and faults are counted, each up to the last value of a `u64`.
ghost use Rattle.std.specs.Prelude.{◌≡◌};
ghost use Rattle.host_edge.specs.Causes.{is_listed, raised};

use crate::Failed;

/// How often each call of a host has failed.
#[derive(Clone, Copy, Default)]
pub struct Faults {
    pub load: u64,
    pub store: u64,
    pub swap_open: u64,
    pub swap_get: u64,
    pub swap_put: u64,
}

/// Counts a failure, and answers it.
pub fn fault(count: &mut u64) -> Failed
    ensures { count.new ≡ raised count.old }
{
    *count = count.saturating_add(1);
    Failed
}

/// Counts a call, and answers whether its number is listed to fail.
pub fn next_fails(calls: &mut u64, fail: &[u64]) -> bool
    ensures calls { calls.new ≡ raised calls.old }
    ensures listed { result ≡ is_listed fail.now (raised calls.old) }
{
    *calls = calls.saturating_add(1);
    fail.contains(calls)
}
