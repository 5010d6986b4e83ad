//! Laws of the definitions.
ghost use Rattle.machine_state.specs.State.{initial_extended, IsExtended};

/// The initial extended state is one that can be.
#[tactic(auto, using(crate::proofs::StateLemmas::initial_is))]
pub fn initial_law()
    ensures { IsExtended initial_extended }
{}
