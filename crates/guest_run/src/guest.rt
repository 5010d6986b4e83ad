//! A guest.
ghost use Rattle.std.specs.Prelude.{◌≡◌};

use core_step::{FetchCache, Machine};
use guest_files::Files;
use linux_calls::Progress;
use machine_state::GuestEnd;
use region_map::Regions;
use row_table::Decoded;
use swap_pager::Pager;

/// Where a step stands.
#[derive(Clone, Copy)]
pub(crate) enum Phase {
    /// Before it: its instruction is fetched.
    Fetch,
    /// This instruction of so many bytes is performed.
    Perform(Decoded, u8),
    /// The system call is answered.
    Answer,
}

/// A guest, which stands between two steps, or within one.
#[derive(Drop)]
pub struct Guest {
    pub(crate) machine: Machine,
    pub(crate) regions: Regions,
    pub(crate) files: Files,
    /// The number of the random stream.
    pub(crate) random: u64,
    /// How far the system call came that is answered.
    pub(crate) progress: Progress,
    pub(crate) pager: Pager,
    pub(crate) cache: FetchCache,
    pub(crate) phase: Phase,
    /// How it ended, once it did.
    pub(crate) end: Option<GuestEnd>,
    /// A call on the outside failed in its run.
    pub(crate) failed: bool,
}

impl Guest {
    ghost use Rattle.std.specs.Prelude.{◌≡◌};

    /// The guest's machine.
    pub fn machine(&self) -> &Machine
        ensures { result.now ≡ self.now.machine }
    {
        &self.machine
    }

    /// The machine alone.
    pub fn into_machine(self) -> Machine
        ensures { result ≡ self.machine }
    {
        self.machine
    }

    /// The guest's files.
    pub fn files(&self) -> &Files
        ensures { result.now ≡ self.now.files }
    {
        &self.files
    }

    /// How many pages were brought into frames, up to 2^64 - 1.
    pub fn loads(&self) -> u64
        ensures { result ≡ self.now.pager.loads }
    {
        self.pager.loads()
    }

    /// Whether a call on the outside failed in its run. Then it isn't run any more.
    pub fn failed(&self) -> bool
        ensures { result ≡ self.now.failed }
    {
        self.failed
    }

    /// How the guest ended, if it did.
    pub fn end(&self) -> Option<GuestEnd>
        ensures { result ≡ self.now.end }
    {
        self.end
    }

    /// How many steps it completed.
    pub fn steps(&self) -> u64
        ensures { result ≡ self.now.machine.steps }
    {
        self.machine.steps
    }
}
