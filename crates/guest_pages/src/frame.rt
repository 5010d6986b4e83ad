//! A page's bytes.
ghost use Rattle.std.specs.Prelude.{◌≡◌, ◌≤◌, ◌+◌, length, slice_range, IfOk};
ghost use Rattle.std.specs.Borrow.{sem};
ghost use Rattle.machine_state.specs.Memory.{page_size};
ghost use Rattle.guest_pages.specs.FrameLends.{LendsFrame};

use machine_state::PAGE_SIZE;
use std::alloc::{AllocError, Global};
use std::marker::Model;

/// Room for one page: 4,096 bytes.
#[derive(Drop)]
pub struct Frame {
    bytes: Vec<u8>,
}

impl Model for Frame {
    ghost use Rattle.std.specs.Prelude.{◌≡◌, ℕ, List, length};
    ghost use Rattle.machine_state.specs.Memory.{page_size};

    ghost Value = { List ℕ };

    ghost view = { λ frame. frame.bytes.items };

    ghost invariant = { λ frame. length frame.bytes.items ≡ page_size };
}

impl Frame {
    pub(crate) fn new(alloc: Global) -> Result<Frame, AllocError>
        ensures { IfOk result (λ frame. length frame ≡ page_size) }
    {
        let bytes = vec![in alloc; 0u8; PAGE_SIZE as usize]?;
        Ok(Frame { bytes })
    }

    /// The bytes from `at` on.
    pub(crate) fn part(&self, at: usize, len: usize) -> &[u8]
        requires { at + len ≤ page_size }
        ensures bytes { result.now ≡ slice_range self.now at (at + len) }
        ensures whole { length self.now ≡ page_size }
    {
        &self.bytes[at..at + len]
    }

    /// Lends the bytes from `at` on.
    pub(crate) fn lend(&mut self, at: usize, len: usize) -> &mut [u8]
        requires { at + len ≤ page_size }
        ensures* writes_back { sem 𝓛 (LendsFrame self.entry at result) }
        ensures bytes { result.now ≡ slice_range self.old at (at + len) }
        ensures len { length result.now ≡ len }
        ensures whole { length self.old ≡ page_size }
    {
        self.bytes.slice_mut(at..at + len)
    }

    /// All bytes.
    pub(crate) fn all(&self) -> &[u8]
        ensures bytes { result.now ≡ self.now }
        ensures whole { length self.now ≡ page_size }
    {
        &self.bytes
    }

    /// The frame with these bytes.
    pub(crate) fn filled(mut self, bytes: &[u8]) -> Frame
        requires { length bytes.now ≡ page_size }
        ensures { result ≡ bytes.now }
    {
        self.bytes.as_mut_slice().copy_from_slice(bytes);
        self
    }
}
