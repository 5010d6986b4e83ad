//! Values of state components.
ghost use Rattle.std.specs.Prelude.{◌≡◌, ◌≤◌, nat_eq, replicate, slice_range, if◌then◌else◌};
ghost use Rattle.std.specs.Cmp.Lexicographic.{pointwise};
ghost use Rattle.std.specs.List.{list_all};
ghost use Rattle.machine_state.specs.State.{initial_x87};
ghost use Rattle.num_lanes.specs.Setters.{cleared_from};

use num_lanes::{Components, Vec64};

/// The x87 state of a new process: FCW is 037FH, and every other field 0 (SDM volume 1, 13.6).
#[tactic(auto, unfolding(machine_state::specs::State::initial_x87))]
pub(crate) fn initial_fields() -> [u8; 104]
    ensures { result ≡ initial_x87 }
{
    let mut x87 = [0; 104];
    x87[0] = 0x7F;
    x87[1] = 0x03;
    x87
}

/// Vector registers of zeros.
pub(crate) fn initial_registers() -> [Vec64; 32]
    ensures { result ≡ replicate 32 (replicate 64 0) }
{
    [[0; 64]; 32]
}

/// Whether registers are initial in the bytes from one place to another.
pub(crate) fn are_initial(registers: &[Vec64], from: usize, to: usize) -> bool
    requires order { from ≤ to }
    requires most { to ≤ 64 }
    ensures { result ≡ list_all (λ register. pointwise nat_eq (slice_range register from to) (slice_range (replicate 64 0) from to))
        registers.now }
{
    registers
        .iter()
        .all(|register| register[from..to] == [0; 64][from..to])
}

/// The bit of a component that isn't the same as it was.
pub(crate) fn bit_unless(same: bool, component: Components) -> u8
    ensures value { result ≡ (if same then 0 else component.0) }
    ensures most { result ≤ component.0 }
{
    if same { 0 } else { component.0 }
}

/// A register with 0 in the bytes from `from` on.
pub(crate) fn cleared(v: &Vec64, from: usize) -> Vec64
    requires { from ≤ 64 }
    ensures { result ≡ cleared_from from v.now }
{
    let mut out = [0; 64];
    out[..from].copy_from_slice(&v[..from]);
    out
}
