//! Where a row's operands stand.
ghost use Rattle.std.specs.Prelude.{◌≡◌, ◌<◌};
ghost use Rattle.vec_step.specs.Plan.{has_two_sources as has_two_sources_by, spots_of, number_in, vector_in, general_in, opmask_in};

use crate::kinds::{Places, Spots};
use row_table::{Layout, Spot};

/// Whether a list has two sources beside the destination.
pub(crate) fn has_two_sources(layout: &Layout) -> bool
    ensures { result ≡ has_two_sources_by layout.now }
{
    matches!(layout.first.spot, Spot::VectorVvvv)
        || !matches!(
            layout.third.spot,
            Spot::Absent | Spot::Immediate | Spot::Xmm0
        )
}

/// The destination and the two sources.
#[tactic(auto, unfolding(crate::specs::Plan::spots_of))]
pub(crate) fn spots(layout: &Layout) -> Spots
    ensures { result ≡ spots_of layout.now }
{
    if has_two_sources(layout) {
        Spots {
            destination: layout.first.spot,
            first: layout.second.spot,
            second: layout.third.spot,
        }
    } else {
        Spots {
            destination: layout.first.spot,
            first: layout.first.spot,
            second: layout.second.spot,
        }
    }
}

/// The number of the register in a place.
#[tactic(auto, unfolding(crate::specs::Plan::number_in))]
fn number(spot: Spot, p: &Places) -> u8
    ensures { result ≡ number_in spot p.now }
{
    match spot {
        Spot::Reg | Spot::VectorReg | Spot::OpmaskReg => p.reg,
        Spot::Vvvv | Spot::VectorVvvv | Spot::OpmaskVvvv => p.vvvv,
        Spot::Rm | Spot::VectorRm | Spot::OpmaskRm => p.rm,
        Spot::Absent
        | Spot::OpcodeReg
        | Spot::Rax
        | Spot::Cl
        | Spot::Memory
        | Spot::VectorMemory
        | Spot::Offset
        | Spot::Immediate
        | Spot::Relative
        | Spot::One
        | Spot::VectorImmediate
        | Spot::Xmm0 => 0,
    }
}

/// The number of a vector register.
pub(crate) fn vector(spot: Spot, p: &Places) -> u8
    ensures value { result ≡ vector_in spot p.now }
    ensures fits { result < 32 }
{
    number(spot, p) % 32
}

/// The number of a general register.
pub(crate) fn general(spot: Spot, p: &Places) -> u8
    ensures value { result ≡ general_in spot p.now }
    ensures fits { result < 16 }
{
    number(spot, p) % 16
}

/// The number of an opmask.
pub(crate) fn opmask(spot: Spot, p: &Places) -> u8
    ensures value { result ≡ opmask_in spot p.now }
    ensures fits { result < 8 }
{
    number(spot, p) % 8
}
