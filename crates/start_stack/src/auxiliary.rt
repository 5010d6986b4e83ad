//! The auxiliary vector (System V ABI, AMD64, 3.4.3, and Linux, uapi/linux/auxvec.h).
ghost use Rattle.std.specs.Prelude.{◌≡◌};
ghost use Rattle.start_stack.specs.Stack.{auxiliary_vector as auxiliary_vector_of};

use crate::kinds::{Auxiliary, Places};
use elf_image::{HEADER_SIZE, Image};
use machine_state::PAGE_SIZE;

const AT_PHDR: u64 = 3;

const AT_PHENT: u64 = 4;

const AT_PHNUM: u64 = 5;

const AT_PAGESZ: u64 = 6;

const AT_BASE: u64 = 7;

const AT_FLAGS: u64 = 8;

const AT_ENTRY: u64 = 9;

const AT_UID: u64 = 11;

const AT_EUID: u64 = 12;

const AT_GID: u64 = 13;

const AT_EGID: u64 = 14;

const AT_PLATFORM: u64 = 15;

const AT_HWCAP: u64 = 16;

const AT_CLKTCK: u64 = 17;

const AT_SECURE: u64 = 23;

const AT_RANDOM: u64 = 25;

const AT_HWCAP2: u64 = 26;

const AT_EXECFN: u64 = 31;

const AT_MINSIGSTKSZ: u64 = 51;

const AT_NULL: u64 = 0;

/// How many entries there are.
pub(crate) const ENTRIES: usize = 20;

/// The user and the group.
const USER: u64 = 1000;

/// The processor's features, as CPUID tells them in edx.
const FEATURES: u64 = 0x0600_8111;

/// Ticks in a second.
const TICKS: u64 = 100;

/// The least size of a signal stack.
const LEAST_SIGNAL_STACK: u64 = 4096;

fn entry(kind: u64, value: u64) -> Auxiliary
    ensures { result ≡ record { kind = kind; value = value } }
{
    Auxiliary { kind, value }
}

/// The auxiliary vector of a program whose strings are at these places.
#[tactic(auto, unfolding(crate::specs::Stack::auxiliary_vector))]
pub(crate) fn auxiliary_vector(image: &Image, places: &Places) -> [Auxiliary; ENTRIES]
    ensures { result ≡ auxiliary_vector_of image.now places.now }
{
    [
        entry(AT_PHDR, image.phdr),
        entry(AT_PHENT, HEADER_SIZE as u64),
        entry(AT_PHNUM, u64::from(image.phnum)),
        entry(AT_PAGESZ, PAGE_SIZE),
        entry(AT_BASE, 0),
        entry(AT_FLAGS, 0),
        entry(AT_ENTRY, image.entry),
        entry(AT_UID, USER),
        entry(AT_EUID, USER),
        entry(AT_GID, USER),
        entry(AT_EGID, USER),
        entry(AT_PLATFORM, places.platform),
        entry(AT_HWCAP, FEATURES),
        entry(AT_CLKTCK, TICKS),
        entry(AT_SECURE, 0),
        entry(AT_RANDOM, places.random),
        entry(AT_HWCAP2, 0),
        entry(AT_EXECFN, places.path),
        entry(AT_MINSIGSTKSZ, LEAST_SIGNAL_STACK),
        entry(AT_NULL, 0),
    ]
}
