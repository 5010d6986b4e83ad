//! State components, and what is remembered of the last XRSTOR.
ghost use Rattle.std.specs.Prelude.{⊤, ◌≡◌, ◌∷◌, [], codes};

use bitflags::{Flag, Flags, bitflag_items};

/// The state components that XSAVE saves, as a set: bit i for component i (SDM volume 1, 13.1).
#[derive(Clone, Copy, Debug, PartialEq, Eq)]
pub struct Components(pub u8);

bitflag_items! {
    impl Components: u8 {
        const X87 = 0x01;
        const SSE = 0x02;
        const AVX = 0x04;
        const OPMASK = 0x20;
        const ZMM_HI256 = 0x40;
        const HI16_ZMM = 0x80;
    }
}

impl Flags for Components {
    type Bits = u8;

    ghost exact = { ⊤ };

    ghost table = { (codes "X87", 1) ∷ (codes "SSE", 2) ∷ (codes "AVX", 4) ∷ (codes "OPMASK", 32)
        ∷ (codes "ZMM_HI256", 64) ∷ (codes "HI16_ZMM", 128) ∷ [] };

    ghost set_of = { λ p. p.0 };

    fn flags<'a>() -> &'a [Flag<Components>] {
        Components::FLAGS
    }

    fn bits(&self) -> u8 {
        self.0
    }

    fn from_bits_retain(bits: u8) -> Components {
        Components(bits)
    }
}

/// What is remembered of the last XRSTOR: the area's address, whether that area was compact, and the components that
/// weren't modified since, without component 0 (SDM volume 1, 13.6).
#[derive(Clone, Copy, Debug, PartialEq, Eq)]
pub struct Record {
    pub at: Option<u64>,
    pub compact: bool,
    pub kept: Components,
}
