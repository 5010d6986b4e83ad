//! What CPUID tells (SDM volume 2, CPUID).
ghost use Rattle.std.specs.Prelude.{◌≡◌};
ghost use Rattle.core_step.specs.Cpuid.{name, last_leaf, told_of, structured_told, save_told, told, with_told, identified};

use crate::features::{
    EXTENDED_ECX, EXTENDED_EDX, FEATURES_1_ECX, FEATURES_1_EDX, FEATURES_7_EBX, FEATURES_7_ECX,
    SAVE_FEATURES,
};
use crate::save_area::{
    AREA_BYTES, AVX_AREA, Area, HI16_ZMM_AREA, OPMASK_AREA, XCR0, ZMM_HI256_AREA,
};
use crate::sizes::Size;
use byteorder::{ByteOrder, LittleEndian};
use gpr_flags::{Gprs, RAX, RBX, RCX, RDX};

/// The last leaf.
const LAST_LEAF: u32 = 0xD;

/// The last leaf of those from 80000000H up.
const LAST_EXTENDED: u32 = 0x8000_0001;

/// What a leaf and a subleaf tell, by the registers that it goes to.
#[derive(Clone, Copy, Debug, PartialEq, Eq)]
pub struct Told {
    pub eax: u32,
    pub ebx: u32,
    pub ecx: u32,
    pub edx: u32,
}

const NOTHING: Told = Told {
    eax: 0,
    ebx: 0,
    ecx: 0,
    edx: 0,
};

/// The name of the processor, four letters of it.
fn short_name() -> u32
    ensures { result ≡ name }
{
    LittleEndian::read_u32(b"Xemu")
}

impl Told {
    /// Of the first leaf.
    fn of_name() -> Told
        ensures { result ≡ record { eax = last_leaf; ebx = name; ecx = name; edx = name } }
    {
        let name = short_name();
        Told {
            eax: LAST_LEAF,
            ebx: name,
            ecx: name,
            edx: name,
        }
    }

    /// Of leaf 7: more features.
    #[tactic(auto, unfolding(crate::specs::Features::bit_of))]
    fn of_structured(subleaf: u32) -> Told
        ensures { result ≡ structured_told subleaf }
    {
        if subleaf == 0 {
            Told {
                ebx: FEATURES_7_EBX,
                ecx: FEATURES_7_ECX,
                ..NOTHING
            }
        } else {
            NOTHING
        }
    }

    /// Of a state component.
    fn of_area(area: Area) -> Told
        ensures { result ≡ told_of area }
    {
        Told {
            eax: area.size,
            ebx: area.offset,
            ..NOTHING
        }
    }

    /// Of save areas.
    #[tactic(auto, unfolding(crate::specs::Cpuid::save_told, crate::specs::Features::bit_of, num_lanes::specs::Components::component_set))]
    fn of_save(subleaf: u32) -> Told
        ensures { result ≡ save_told subleaf }
    {
        match subleaf {
            0 => Told {
                eax: u32::from(XCR0),
                ebx: AREA_BYTES,
                ecx: AREA_BYTES,
                edx: 0,
            },
            1 => Told {
                eax: SAVE_FEATURES,
                ..NOTHING
            },
            2 => Told::of_area(AVX_AREA),
            5 => Told::of_area(OPMASK_AREA),
            6 => Told::of_area(ZMM_HI256_AREA),
            7 => Told::of_area(HI16_ZMM_AREA),
            _ => NOTHING,
        }
    }

    /// Of a leaf and a subleaf, which only some leaves look at.
    #[tactic(auto, unfolding(crate::specs::Cpuid::told, crate::specs::Features::bit_of))]
    pub(crate) fn of(leaf: u32, subleaf: u32) -> Told
        ensures { result ≡ told leaf subleaf }
    {
        match leaf {
            0 => Told::of_name(),
            1 => Told {
                ecx: FEATURES_1_ECX,
                edx: FEATURES_1_EDX,
                ..NOTHING
            },
            7 => Told::of_structured(subleaf),
            0xD => Told::of_save(subleaf),
            0x8000_0000 => Told {
                eax: LAST_EXTENDED,
                ..NOTHING
            },
            0x8000_0001 => Told {
                ecx: EXTENDED_ECX,
                edx: EXTENDED_EDX,
                ..NOTHING
            },
            _ => NOTHING,
        }
    }

    /// Puts it into four registers, whose upper halves are cleared.
    fn put(&self, gprs: &mut Gprs)
        ensures { gprs.new ≡ with_told self.now gprs.old }
    {
        gprs.write(RAX, 4, u64::from(self.eax));
        gprs.write(RBX, 4, u64::from(self.ebx));
        gprs.write(RCX, 4, u64::from(self.ecx));
        gprs.write(RDX, 4, u64::from(self.edx));
    }
}

/// Performs CPUID on the general registers.
#[tactic(auto, unfolding(crate::specs::Cpuid::identified))]
pub(crate) fn identify(gprs: &mut Gprs)
    ensures { gprs.new ≡ identified gprs.old }
{
    let leaf = Size::Double.cut(gprs.get(RAX)) as u32;
    let subleaf = Size::Double.cut(gprs.get(RCX)) as u32;
    Told::of(leaf, subleaf).put(gprs);
}
