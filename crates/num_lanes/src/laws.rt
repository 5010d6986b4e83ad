//! Laws of lanes.
ghost use Rattle.std.specs.Prelude.{ℕ, List, ◌≡◌, ◌<◌, ◌*◌, ◌/◌, IsTrue, length};
ghost use Rattle.gpr_flags.specs.Registers.{is_size};
ghost use Rattle.machine_state.specs.Memory.{AreBytes};
ghost use Rattle.num_lanes.specs.Lane.{lane_of, joined};

/// The lanes of bytes, one after the other, are these bytes, and a register has whole lanes of each width.
pub fn lanes_law()
    ensures joined { (w n : ℕ) (bytes : List ℕ) → length bytes ≡ n * w → AreBytes bytes → joined w n (lane_of w bytes) ≡ bytes }
    ensures whole { (w : ℕ) → IsTrue (is_size w) → 64 / w * w ≡ 64 }
{}
