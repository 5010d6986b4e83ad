//! The access list of an instruction, and why its accesses can't be made, where they can't.
ghost use Rattle.std.specs.Prelude.{◌≡◌, Some, None, MatchResult};
ghost use Rattle.guest_pages.specs.Pages.{table_of};
ghost use Rattle.guest_pages.specs.Walk.{walk as walk_along};
ghost use Rattle.core_step.specs.Access.{operand_access, access_fault, acted_by};
ghost use Rattle.core_step.specs.Strings.{strings_access};
ghost use Rattle.core_step.specs.Pair.{pair_access};

use crate::acted::Acted;
use crate::kinds::Operand;
use crate::machine::Machine;
use crate::pair::PairPlan;
use crate::sizes::Size;
use crate::strings::StringPlan;
use arrayvec::ArrayVec;
use gpr_flags::{Fault, Gprs};
use machine_state::{Access, Kind, Miss, Stop};
use string_unit::{accesses as iteration_accesses, destination_place, source_place};

/// The accesses of an instruction on strings.
#[tactic(auto, unfolding(crate::specs::Strings::strings_access))]
fn string_accesses(i: &StringPlan, gprs: &Gprs) -> ArrayVec<Access, 2>
    ensures { result.items ≡ strings_access i.now gprs.now }
{
    if i.is_over(gprs) {
        return ArrayVec::new();
    }
    let source = source_place(i.wrap32, i.base, gprs);
    let destination = destination_place(i.wrap32, gprs);
    iteration_accesses(i.op, i.size.bytes(), source, destination)
}

/// The access of CMPXCHG8B or CMPXCHG16B.
fn pair_accesses(i: &PairPlan) -> ArrayVec<Access, 2>
    ensures { result.items ≡ pair_access i.now }
{
    let mut list = ArrayVec::new();
    list.push(Access {
        kind: Kind::Write,
        addr: i.addr,
        len: i.bytes() as u64,
    });
    list
}

impl Machine {
    /// Walks along the access of an operand, if it is in memory.
    #[inline(always)]
    #[tactic(auto, unfolding(guest_pages::specs::Walk::walk))]
    pub(crate) fn walk_operand(&self, kind: Kind, operand: Operand, size: Size) -> Result<(), Stop>
        ensures { MatchResult result
            (λ _. walk_along (table_of self.now.pages) (operand_access kind operand size) ≡ None)
            (λ stop. walk_along (table_of self.now.pages) (operand_access kind operand size) ≡ Some stop) }
    {
        match operand {
            Operand::Memory(addr) => self.pages.walk(&[Access {
                kind,
                addr,
                len: u64::from(size.bytes()),
            }]),
            Operand::Absent
            | Operand::Register(_)
            | Operand::HighByte(_)
            | Operand::Number(_)
            | Operand::Mxcsr
            | Operand::Opmask(_) => Ok(()),
        }
    }

    /// Walks along the accesses of an instruction on strings.
    pub(crate) fn walk_strings(&self, i: &StringPlan) -> Result<(), Stop>
        ensures { MatchResult result
            (λ _. walk_along (table_of self.now.pages) (strings_access i.now self.now.gprs) ≡ None)
            (λ stop. walk_along (table_of self.now.pages) (strings_access i.now self.now.gprs) ≡ Some stop) }
    {
        self.pages.walk(&string_accesses(i, &self.gprs))
    }

    /// Walks along the access of CMPXCHG8B or CMPXCHG16B.
    pub(crate) fn walk_pair(&self, i: &PairPlan) -> Result<(), Stop>
        ensures { MatchResult result
            (λ _. walk_along (table_of self.now.pages) (pair_access i.now) ≡ None)
            (λ stop. walk_along (table_of self.now.pages) (pair_access i.now) ≡ Some stop) }
    {
        self.pages.walk(&pair_accesses(i))
    }
}

/// The fault of an access.
fn fault(kind: Kind, miss: Miss) -> Fault
    ensures { result ≡ access_fault kind miss }
{
    let write = kind == Kind::Write;
    match miss {
        Miss::Unmapped(addr) => Fault::Page {
            addr,
            write,
            fetch: false,
            mapped: false,
        },
        Miss::Denied(addr) => Fault::Page {
            addr,
            write,
            fetch: false,
            mapped: true,
        },
        Miss::NonCanonical(_) | Miss::Away(_) => Fault::General,
    }
}

/// The answer of an instruction whose accesses can't be made now.
pub(crate) fn answer(stop: Stop) -> Acted
    ensures { result ≡ acted_by stop }
{
    match stop.miss {
        Miss::Away(slot) => Acted::Need(slot),
        miss => Acted::Trap(fault(stop.kind, miss)),
    }
}
