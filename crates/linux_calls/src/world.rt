//! What a call sees of a guest.
ghost use Rattle.std.specs.Prelude.{◌≡◌, ◌%◌, ◌^◌};

use crate::kinds::Progress;
use gpr_flags::{Gprs, RAX, RDI, RDX, RSI};
use guest_files::Files;
use guest_pages::Pages;
use region_map::Regions;

/// The registers of the later arguments (System V ABI for AMD64, A.2.1).
pub(crate) const R8: u8 = 8;

pub(crate) const R9: u8 = 9;

pub(crate) const R10: u8 = 10;

/// The parts of a guest that a system call sees.
#[derive(Drop)]
pub struct World<'a> {
    pub gprs: &'a mut Gprs,
    pub fs: &'a mut u64,
    pub gs: &'a mut u64,
    pub pages: &'a mut Pages,
    pub regions: &'a mut Regions,
    pub files: &'a mut Files,
    /// The number of the random stream.
    pub random: &'a mut u64,
    pub progress: &'a mut Progress,
    /// How many steps are completed.
    pub steps: u64,
}

/// The low 32 bits of an argument.
pub(crate) fn low(argument: u64) -> u32
    ensures { result ≡ argument % 2 ^ 32 }
{
    (argument % 0x1_0000_0000) as u32
}

impl World<'_> {
    ghost use Rattle.std.specs.Prelude.{◌≡◌};
    ghost use Rattle.linux_calls.specs.Call.{rax as rax_of, rdi as rdi_of, rsi as rsi_of, rdx as rdx_of};

    pub(crate) fn rax(&self) -> u64
        ensures { result ≡ rax_of self.now.gprs.now }
    {
        self.gprs.get(RAX)
    }

    pub(crate) fn rdi(&self) -> u64
        ensures { result ≡ rdi_of self.now.gprs.now }
    {
        self.gprs.get(RDI)
    }

    pub(crate) fn rsi(&self) -> u64
        ensures { result ≡ rsi_of self.now.gprs.now }
    {
        self.gprs.get(RSI)
    }

    pub(crate) fn rdx(&self) -> u64
        ensures { result ≡ rdx_of self.now.gprs.now }
    {
        self.gprs.get(RDX)
    }
}
