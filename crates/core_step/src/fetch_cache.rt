//! A cache of what was fetched before, known by its bytes.
ghost use Rattle.std.specs.Prelude.{◌≡◌, ◌<◌, ℕ, length, vec_len, slice_index_or, IfOk, IsTrue};
ghost use Rattle.form_scan.specs.Shaped.{most_bytes};
ghost use Rattle.core_step.specs.Fetch.{IsFetchFit};
ghost use Rattle.core_step.specs.Kept.{IsKeptOf, IsSighting};

use crate::fetching::{Fetched, fetch_outcome};
use crate::prepared::Kept;
use crate::preparing::keep;
use gpr_flags::Fault;
use std::alloc::{AllocError, Global};
use std::marker::Model;
use x_decode::{LIMIT, decode};

/// How many byte strings are kept.
const ROOM: usize = 4096;

/// Fifteen bytes, and what comes of their fetch.
#[derive(Clone, Copy)]
struct Sighting {
    bytes: [u8; LIMIT],
    kept: Kept,
}

impl Sighting {
    fn of(bytes: &[u8; LIMIT]) -> Sighting
        ensures bytes { result.bytes ≡ bytes.now }
        ensures kept { IsSighting result.bytes result.kept }
    {
        let fetched = fetch_outcome(decode(bytes), None);
        Sighting {
            bytes: *bytes,
            kept: keep(&fetched),
        }
    }

    /// Whether it is one of these bytes.
    fn is_of(&self, bytes: &[u8; LIMIT]) -> bool
        ensures { IsTrue result → self.now.bytes ≡ bytes.now }
    {
        self.bytes == *bytes
    }

    /// Makes it one of these bytes, unless it is one already.
    fn renew(&mut self, bytes: &[u8; LIMIT])
        requires kept { IsSighting self.old.bytes self.old.kept }
        ensures bytes { self.new.bytes ≡ bytes.now }
        ensures kept { IsSighting self.new.bytes self.new.kept }
    {
        if !self.is_of(bytes) {
            *self = Sighting::of(bytes);
        }
    }
}

/// A cache of what came of fetches, by their bytes, so that an instruction that comes again is only compared. Since it is known by
/// its bytes, one that was changed in memory is decoded anew. A contract sees how many byte strings are kept.
#[derive(Drop)]
pub struct FetchCache {
    kept: Vec<Sighting>,
    /// What came of the last fetch of fewer than fifteen bytes.
    other: Kept,
}

impl Model for FetchCache {
    ghost use Rattle.std.specs.Prelude.{ℕ, vec_len};
    ghost use Rattle.core_step.specs.Kept.{AreKept};

    ghost Value = { ℕ };

    ghost view = { λ f. vec_len f.kept };

    ghost invariant = { λ f. AreKept f.kept.items };
}

/// A vector of so many copies.
fn copies(alloc: Global, count: usize, one: Sighting) -> Result<Vec<Sighting>, AllocError>
    ensures count { IfOk result (λ v. vec_len v ≡ count) }
    ensures same { IfOk result (λ v. (k : ℕ) (other : _) → k < count → slice_index_or v.items k other ≡ one) }
{
    vec![in alloc; one; count]
}

impl FetchCache {
    /// Takes all the memory that it will ever have.
    pub fn new(alloc: Global) -> Result<FetchCache, AllocError>
        ensures { IfOk result (λ cache. cache ≡ ROOM) }
    {
        let kept = copies(alloc, ROOM, Sighting::of(&[0; LIMIT]))?;
        Ok(FetchCache {
            kept,
            other: Kept::Trap(Fault::General),
        })
    }

    /// What comes of fifteen bytes that can be executed and stand at the address `at`. The address says where to look for what
    /// came of them before, and nothing more.
    pub(crate) fn recall(&mut self, at: u64, bytes: &[u8; LIMIT]) -> &Kept
        ensures { IsSighting bytes.now result.now }
    {
        let sighting = &mut self.kept[(at % ROOM as u64) as usize];
        sighting.renew(bytes);
        &sighting.kept
    }

    /// Holds what comes of fewer bytes.
    pub(crate) fn hold(&mut self, fetched: &Fetched) -> &Kept
        requires { IsFetchFit fetched.now }
        ensures { IsKeptOf fetched.now result.now }
    {
        self.other = keep(fetched);
        &self.other
    }
}
