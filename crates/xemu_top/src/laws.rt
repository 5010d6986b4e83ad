//! What the written command says of itself.
ghost use Rattle.std.specs.Prelude.{ℕ, List};
ghost use Rattle.guest_run.specs.Outside.{Outside};
ghost use Rattle.guest_run.specs.Trail.{HangTogether};
ghost use Rattle.xemu_top.specs.Command.{command, trail};

/// The pieces of a command's trail hang together, and lead from what stands at its start to what its outcome says.
#[tactic(auto, using(crate::proofs::TrailLemmas::trail_hangs))]
pub fn trail_law()
    ensures { (words : List (List ℕ)) (on : Outside) → HangTogether on (trail words on) (command words on).outside }
{}
