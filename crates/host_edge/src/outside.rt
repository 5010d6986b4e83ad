// What a program reads and writes.
ghost use Rattle.std.specs.Prelude.{◌≡◌, ◌<◌, ℕ, List, Option, OnOk, length};
ghost use Rattle.host_edge.specs.Causes.{HasCause, Counts};
ghost use Rattle.host_edge.specs.Streams.{Puts, Takes};
ghost use Rattle.host_edge.specs.Files.{Held, page_len, LoadMeets, StoreMeets, OpenMeets, GetMeets, PutMeets};

/// The length of a page of the swap, in bytes.
pub const PAGE_LEN: usize = 4096;

/// A call of the outside that failed. The object counts it.
#[derive(Clone, Copy, Debug, PartialEq, Eq)]
pub struct Failed;

/// A call of the outside, as an end names it where that call failed. The number in `Load` and `Store` is the index of
/// the command line's word that holds the path.
#[derive(Clone, Copy, Debug, PartialEq, Eq)]
pub enum HostCall {
    Load(u32),
    Store(u32),
    SwapOpen,
    SwapGet,
    SwapPut,
    Take,
    PutOut,
    PutErr,
}

/// Bytes that come in.
pub trait Source {
    /// The bytes that are left, where they are told.
    ghost left: { Self → Option (List ℕ) };

    /// How often `take` has failed, up to 2^64 - 1.
    ghost faults: { Self → ℕ };

    /// Moves the first bytes that are left to the front of `into` and answers how many, at least one where any is left.
    fn take(&mut self, into: &mut [u8]) -> Result<usize, Failed>
        requires { 0 < length into.old }
        ensures bytes { Takes (left self.old) (left self.new) into.old into.new result }
        ensures cause { HasCause (faults self.old) (faults self.new) result };
}

/// Bytes that go out.
pub trait Sink {
    /// The bytes that were put, where they are told.
    ghost taken: { Self → Option (List ℕ) };

    /// How often `put` has failed, up to 2^64 - 1.
    ghost faults: { Self → ℕ };

    /// Appends all the bytes, or fails after a prefix of them.
    fn put(&mut self, bytes: &[u8]) -> Result<(), Failed>
        ensures bytes { Puts (taken self.old) (taken self.new) bytes.now result }
        ensures cause { HasCause (faults self.old) (faults self.new) result };
}

/// Files by path, and a swap of numbered pages.
pub trait Host {
    /// The files and the swap's pages, where they are told.
    ghost holds: { Self → Option Held };

    /// The number of pages of the open swap, 0 where none is open. Every host tells it.
    ghost opened: { Self → ℕ };

    /// How often each call has failed, each up to 2^64 - 1.
    ghost faults: { Self → Counts };

    /// Copies the file's first bytes to the front of `into`, as many as fit, and answers the file's length, or one more
    /// than the buffer's where the file is longer. Where it fails, `into` may hold anything.
    fn load(&mut self, path: &str, into: &mut [u8]) -> Result<u64, Failed>
        ensures files { LoadMeets (holds self.old) (holds self.new) path.now into.old into.new result }
        ensures opened { opened self.new ≡ opened self.old }
        ensures cause { HasCause (faults self.old).load (faults self.new).load result }
        ensures others { faults self.new ≡ record (faults self.old) { load = (faults self.new).load } };

    /// Makes the file hold exactly these bytes. Where it fails, that file may hold anything.
    fn store(&mut self, path: &str, bytes: &[u8]) -> Result<(), Failed>
        ensures files { StoreMeets (holds self.old) (holds self.new) path.now bytes.now result }
        ensures opened { opened self.new ≡ opened self.old }
        ensures cause { HasCause (faults self.old).store (faults self.new).store result }
        ensures others { faults self.new ≡ record (faults self.old) { store = (faults self.new).store } };

    /// Opens a swap of so many pages, whose bytes are left open.
    fn swap_open(&mut self, path: &str, pages: u32) -> Result<(), Failed>
        requires { 0 < pages }
        ensures files { OpenMeets (holds self.old) (holds self.new) }
        ensures opened { OnOk result (opened self.new ≡ pages) }
        ensures cause { HasCause (faults self.old).swap_open (faults self.new).swap_open result }
        ensures others { faults self.new
            ≡ record (faults self.old) { swap_open = (faults self.new).swap_open } };

    /// Copies a page of the swap into `into`, whose length is a page's.
    fn swap_get(&mut self, page: u32, into: &mut [u8]) -> Result<(), Failed>
        requires is_opened { page < opened self.old }
        requires is_page { length into.old ≡ page_len }
        ensures files { GetMeets (holds self.old) (holds self.new) page into.new result }
        ensures opened { opened self.new ≡ opened self.old }
        ensures cause { HasCause (faults self.old).swap_get (faults self.new).swap_get result }
        ensures others { faults self.new
            ≡ record (faults self.old) { swap_get = (faults self.new).swap_get } };

    /// Makes a page of the swap these bytes, whose length is a page's. Where it fails, that page may be anything.
    fn swap_put(&mut self, page: u32, from: &[u8]) -> Result<(), Failed>
        requires is_opened { page < opened self.old }
        requires is_page { length from.now ≡ page_len }
        ensures files { PutMeets (holds self.old) (holds self.new) page from.now result }
        ensures opened { opened self.new ≡ opened self.old }
        ensures cause { HasCause (faults self.old).swap_put (faults self.new).swap_put result }
        ensures others { faults self.new
            ≡ record (faults self.old) { swap_put = (faults self.new).swap_put } };
}
