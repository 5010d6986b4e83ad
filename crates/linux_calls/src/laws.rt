//! What holds of what is left of a call.
ghost use Rattle.machine_state.specs.World.{World};
ghost use Rattle.linux_calls.specs.Outside.{Grown, standing_in};
ghost use Rattle.linux_calls.specs.Rest.{ProgressValue, rest_of};

/// What is left of a call puts more to the outputs behind what stands there, and takes input from the front.
pub fn growth_law()
    ensures { (progress : ProgressValue) (w : World) → Grown (standing_in w) (standing_in (rest_of progress w).world) }
{}
