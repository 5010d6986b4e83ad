//! The permissions of a page.
ghost use Rattle.std.specs.Prelude.{⊤, ◌≡◌, [], ◌∷◌, codes};
ghost use Rattle.machine_state.specs.Memory.{permits as permits_of};

use crate::Kind;
use bitflags::{Flag, Flags, bitflag_items};

/// The permissions of a page, as a set: read 1, write 2, execute 4; by default none.
#[derive(Clone, Copy, Debug, Default, PartialEq, Eq)]
pub struct Perms(pub u8);

bitflag_items! {
    impl Perms: u8 {
        const READ = 1;
        const WRITE = 2;
        const EXECUTE = 4;
    }
}

impl Flags for Perms {
    type Bits = u8;

    ghost exact = { ⊤ };

    ghost table = { (codes "READ", 1) ∷ (codes "WRITE", 2) ∷ (codes "EXECUTE", 4) ∷ [] };

    ghost set_of = { λ p. p.0 };

    fn flags<'a>() -> &'a [Flag<Perms>] {
        Perms::FLAGS
    }

    fn bits(&self) -> u8 {
        self.0
    }

    fn from_bits_retain(bits: u8) -> Perms {
        Perms(bits)
    }
}

impl Perms {
    /// Whether a page with these permissions allows an access of this kind.
    pub fn permits(self, kind: Kind) -> bool
        ensures { result ≡ permits_of kind self.0 }
    {
        match kind {
            Kind::Read => {
                self.contains(Perms::READ)
                    || self.contains(Perms::WRITE)
                    || self.contains(Perms::EXECUTE)
            }
            Kind::Write => self.contains(Perms::WRITE),
            Kind::Execute => self.contains(Perms::EXECUTE),
        }
    }
}
