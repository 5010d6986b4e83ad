//! What the flags of `open` ask for, and which descriptor it gives.
ghost use Rattle.std.specs.Prelude.{⊤, ◌≡◌, ◌≢◌, ◌<◌, ◌==◌, [], ◌∷◌, codes, IfSome, length, vec_capacity};
ghost use Rattle.std.specs.Result.{result_err};
ghost use Rattle.guest_files.specs.Checks.{first_failing};
ghost use Rattle.guest_files.specs.Entries.{guest_file};
ghost use Rattle.guest_files.specs.Open.{access_of, asks_to_read, asks_to_write, file_checks, has_flag, lowest_free as lowest_in, opened_file, opened_place};

use crate::entries::Entry;
use crate::errno::Errno;
use bitflags::{Flag, Flags, bitflag_items};
use machine_state::Place;

/// The flags of `open` (open(2), x86-64); the low two bits are the access.
#[derive(Clone, Copy)]
pub struct OpenFlags(pub u32);

bitflag_items! {
    impl OpenFlags: u32 {
        const CREATE = 0x40;
        const EXCLUSIVE = 0x80;
        const TRUNCATE = 0x200;
        const APPEND = 0x400;
    }
}

impl Flags for OpenFlags {
    type Bits = u32;

    ghost exact = { ⊤ };

    ghost table = { (codes "CREATE", 0x40)
        ∷ (codes "EXCLUSIVE", 0x80)
        ∷ (codes "TRUNCATE", 0x200)
        ∷ (codes "APPEND", 0x400)
        ∷ [] };

    ghost set_of = { λ flags. flags.0 };

    fn flags<'a>() -> &'a [Flag<OpenFlags>] {
        OpenFlags::FLAGS
    }

    fn bits(&self) -> u32 {
        self.0
    }

    fn from_bits_retain(bits: u32) -> OpenFlags {
        OpenFlags(bits)
    }
}

impl OpenFlags {
    /// Whether the access is none of the three that there are.
    pub fn is_bad(self) -> bool
        ensures { result ≡ (access_of self.0 == 3) }
    {
        self.0 % 4 == 3
    }

    pub fn reads(self) -> bool
        ensures { result ≡ asks_to_read self.0 }
    {
        self.0 % 4 == 0 || self.0 % 4 == 2
    }

    pub fn writes(self) -> bool
        ensures { result ≡ asks_to_write self.0 }
    {
        self.0 % 4 == 1 || self.0 % 4 == 2
    }

    /// Whether a flag is among these.
    pub fn has(self, flag: OpenFlags) -> bool
        ensures { result ≡ has_flag self.0 flag.0 }
    {
        self.contains(flag)
    }

    /// What a descriptor stands for that is opened for the file of this number.
    pub fn place(self, number: usize) -> Place
        requires { number < 256 }
        ensures { result ≡ opened_place (Some number) self.0 }
    {
        Place {
            file: Some(number as u8),
            at: 0,
            reads: self.reads(),
            writes: self.writes(),
            append: self.has(OpenFlags::APPEND),
        }
    }

    /// Checks a file that is to be opened, whose access is one of the three.
    pub fn check(self, entry: &Entry) -> Result<(), Errno>
        requires { access_of self.0 ≢ 3 }
        ensures { result_err result
            ≡ first_failing (file_checks entry.now.exists entry.now.writable self.0) }
    {
        let creates = self.has(OpenFlags::CREATE);
        if !entry.exists && !creates {
            return Err(Errno::ENOENT);
        }
        if !entry.exists && !entry.writable {
            return Err(Errno::EACCES);
        }
        if entry.exists && creates && self.has(OpenFlags::EXCLUSIVE) {
            return Err(Errno::EEXIST);
        }
        if self.writes() && !entry.writable {
            return Err(Errno::EROFS);
        }
        Ok(())
    }

    /// Makes a file, and empties it where that is asked for.
    pub fn apply(self, entry: &mut Entry)
        ensures file { guest_file entry.new ≡ opened_file (guest_file entry.old) self.0 }
        ensures capacity { vec_capacity entry.new.bytes ≡ vec_capacity entry.old.bytes }
    {
        entry.exists = true;
        if self.writes() && self.has(OpenFlags::TRUNCATE) {
            entry.bytes.clear();
        }
    }
}

/// The lowest number of a descriptor that isn't open.
#[tactic(auto, unfolding(crate::specs::Open::lowest_free))]
pub fn lowest_free(places: &[Option<Place>]) -> Option<usize>
    ensures number { result ≡ lowest_in places.now }
    ensures within { IfSome result (λ fd. fd < length places.now) }
{
    places.iter().position(|place| place.is_none())
}
