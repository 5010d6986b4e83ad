//! Where an instruction's operand in memory may stand.
ghost use Rattle.std.specs.Prelude.{◌≡◌};
ghost use Rattle.machine_state.specs.Memory.{Swap};
ghost use Rattle.core_step.specs.Plan.{next_of};
ghost use Rattle.core_step.specs.Alignment.{breaks as breaks_rule};
ghost use Rattle.core_step.specs.Forms.{address_in_state, is_misaligned_by, AddressFits, AlignmentFits};
ghost use Rattle.core_step.specs.Machine.{state_of};

use crate::forms::Alignment;
use crate::machine::Machine;
use crate::prepared::Prepared;
use row_table::{Align, vector_bytes};

// Whether an address isn't the multiple that a rule wants.
fn breaks(align: Align, l: u8, addr: u64) -> bool
    ensures { result ≡ breaks_rule align l addr }
{
    match align {
        Align::Free => false,
        Align::Sixteen => addr % 16 != 0,
        Align::Size => addr % u64::from(vector_bytes(l)) != 0,
    }
}

impl Machine {
    // Whether an operand stands where the rule doesn't let it.
    fn is_broken(&self, a: &Alignment, len: u8) -> bool
        requires { AddressFits a.now.address }
        ensures { (w : Swap) → let s = state_of self.now w in
            result ≡ breaks_rule a.now.rule a.now.length (address_in_state a.now.address (next_of len s) s) }
    {
        let addr = self.address_in(&a.address, self.rip.wrapping_add(len as u64));
        breaks(a.rule, a.length, addr)
    }

    /// Whether the operand in memory stands where its row's rule doesn't let it.
    #[tactic(auto, unfolding(crate::specs::Forms::is_misaligned_by))]
    pub(crate) fn is_misaligned(&self, p: &Prepared) -> bool
        requires { AlignmentFits p.now.alignment }
        ensures { (w : Swap) → let s = state_of self.now w in
            result ≡ is_misaligned_by p.now.alignment (next_of p.now.len s) s }
    {
        match &p.alignment {
            None => false,
            Some(alignment) => self.is_broken(alignment, p.len),
        }
    }
}
