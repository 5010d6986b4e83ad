//! What the written run says of itself, and what runs, one after the other, are.
ghost use Rattle.std.specs.Prelude.{◌≡◌, ◌≤◌, ◌+◌, ◌-◌, ◌++◌, ℕ, false, Option};
ghost use Rattle.machine_state.specs.declared.kinds.GuestEnd.{GuestEnd};
ghost use Rattle.machine_state.specs.World.{World};
ghost use Rattle.guest_run.specs.declared.ends.RunEnd.{RunEnd};
ghost use Rattle.guest_run.specs.declared.guest.Guest.{Guest};
ghost use Rattle.guest_run.specs.Outside.{Files, outside};
ghost use Rattle.guest_run.specs.Trail.{HangTogether, trail_on};
ghost use Rattle.guest_run.specs.Run.{run_on};
ghost use Rattle.guest_run.specs.Loads.{units_on};
ghost use Rattle.guest_run.specs.Guests.{Around};
ghost use Rattle.guest_run.specs.Following.{Runs, is_stopped};

/// The pieces of a run's trail hang together, and lead from what stands beside its world to what stands beside the world that it leaves.
#[tactic(auto, using(crate::proofs::TrailLemmas::run_on_hangs))]
pub fn run_trail_law()
    ensures { (files : Files) (w : World) (end : Option GuestEnd) (steps : ℕ)
        → HangTogether (outside files w) (trail_on files w end steps) (outside files (run_on w end steps).world) }
{}

/// So many steps and then more from where they come to are as many in one run, with the same pieces and as many units of work.
#[tactic(auto, using(crate::proofs::PartLemmas::run_on_more, crate::proofs::PartLemmas::trail_on_more, crate::proofs::PartLemmas::units_on_more))]
pub fn run_parts_law()
    ensures world { (w : World) (end : Option GuestEnd) (first more : ℕ)
        → (let mid = run_on w end first in run_on mid.world mid.end more) ≡ run_on w end (first + more) }
    ensures trail { (files : Files) (w : World) (end : Option GuestEnd) (first more : ℕ) → trail_on files w end (first + more)
        ≡ (trail_on files w end first ++ (let mid = run_on w end first in trail_on files mid.world mid.end more)) }
    ensures units { (w : World) (end : Option GuestEnd) (first more : ℕ) → units_on w end (first + more)
        ≡ units_on w end first + (let mid = run_on w end first in units_on mid.world mid.end more) }
{}

/// A run to one number of steps and then one to another that isn't lower are one run to that.
pub fn rising_runs_law()
    ensures { (old mid new : Guest) (before between after : Around) (first last : ℕ) (one two : RunEnd)
        → old.machine.steps ≤ first → first ≤ last → is_stopped one ≡ false
        → Runs (first - old.machine.steps) old mid before between one
        → Runs (last - mid.machine.steps) mid new between after two
        → Runs (last - old.machine.steps) old new before after two }
{}
