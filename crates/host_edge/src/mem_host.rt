// A host in memory.
ghost use Rattle.std.specs.Prelude.{◌≡◌, ◌<◌, IfOk, IsTrue, OnErr, OnOk, is_err, length, map};
ghost use Rattle.host_edge.specs.Causes.{HasCause, raised};
ghost use Rattle.host_edge.specs.Files.{GetMeets, LoadMeets, OpenMeets, PutMeets, StoreMeets, page_len};
ghost use Rattle.host_edge.specs.MemHost.{after_call, held_by, load_fails, new_host, next_is_listed, open_fails, store_fails, with_page};
ghost use Rattle.host_edge.specs.NamedFiles.{fits_in, named, stored};

use crate::bytes::{copy_front, read_at, write_at, zeros};
use crate::counts::{Faults, fault, next_fails};
use crate::mem_files::MemFiles;
use crate::{Failed, Host, PAGE_LEN};
use std::alloc::{AllocError, Global};
use std::marker::Model;

/// A host that keeps its files and its swap in memory, and fails at chosen calls.
#[derive(Drop)]
pub struct MemHost {
    files: MemFiles,
    swap: Vec<u8>,
    pages: u32,
    opened: u32,
    fail: Vec<u64>,
    calls: u64,
    faults: Faults,
}

impl Model for MemHost {
    ghost use Rattle.std.specs.Prelude.{◌≡◌, ◌*◌, ◌≤◌, vec_len};
    ghost use Rattle.host_edge.specs.Files.{page_len};
    ghost use Rattle.host_edge.specs.MemHost.{HostState};

    ghost Value = { HostState };

    ghost use Rattle.host_edge.specs.Faults.{counts_of};

    ghost view = { λ h. record {
      files = h.files.files;
      room = h.files.room;
      pages = h.pages;
      opened = h.opened;
      swap = h.swap.items;
      fail = h.fail.items;
      calls = h.calls;
      faults = counts_of h.faults;
    } };

    ghost invariant = { λ h. (vec_len h.swap ≡ h.pages * page_len) × (h.opened ≤ h.pages) };
}

impl MemHost {
    /// A host of these files, whose paths and contents may have `room` bytes, and of a swap of at most `pages` pages, all
    /// of it taken now. The calls are counted from 1, the five together, and those whose numbers are in `fail` fail.
    /// Where a path stands twice, the first file counts.
    pub fn new(
        alloc: Global,
        files: Vec<(String, Vec<u8>)>,
        room: usize,
        pages: u32,
        fail: &[u64],
    ) -> Result<MemHost, AllocError>
        requires { IsTrue (fits_in room (map named files.items)) }
        ensures { IfOk result (λ h. h ≡ new_host (map named files.items) room pages fail.now h.swap) }
    {
        let mut held = MemFiles::new(alloc, room)?;
        held.fill(&files);
        Ok(MemHost {
            files: held,
            swap: zeros(alloc, pages as usize * PAGE_LEN)?,
            pages,
            opened: 0,
            fail: Vec::from_slice(alloc, fail)?,
            calls: 0,
            faults: Faults::default(),
        })
    }
}

impl Host for MemHost {
    ghost use Rattle.std.specs.Prelude.{Some};
    ghost use Rattle.host_edge.specs.MemHost.{held_by};

    ghost holds = { λ h. Some (held_by h) };

    ghost opened = { λ h. h.opened };

    ghost faults = { λ h. h.faults };

    fn load(&mut self, path: &str, into: &mut [u8]) -> Result<u64, Failed>
        ensures files { LoadMeets (Some (held_by self.old)) (Some (held_by self.new))
            path.now into.old into.new result }
        ensures opened { self.new.opened ≡ self.old.opened }
        ensures cause { HasCause self.old.faults.load self.new.faults.load result }
        ensures others { self.new.faults ≡ record self.old.faults { load = self.new.faults.load } }

        // It fails exactly where the call's number is listed or the path isn't held.
        ensures fails { is_err result ≡ load_fails self.old path.now }
        ensures ok { OnOk result (self.new ≡ after_call self.old) }
        ensures failed { OnErr result (self.new ≡ record (after_call self.old) {
          faults = record self.old.faults { load = raised self.old.faults.load };
        }) }
        ensures into_kept { OnErr result (into.new ≡ into.old) }
    {
        if next_fails(&mut self.calls, &self.fail) {
            return Err(fault(&mut self.faults.load));
        }
        match self.files.find(path) {
            Some(bytes) => Ok(copy_front(bytes, into)),
            None => Err(fault(&mut self.faults.load)),
        }
    }

    fn store(&mut self, path: &str, bytes: &[u8]) -> Result<(), Failed>
        ensures files { StoreMeets (Some (held_by self.old)) (Some (held_by self.new))
            path.now bytes.now result }
        ensures opened { self.new.opened ≡ self.old.opened }
        ensures cause { HasCause self.old.faults.store self.new.faults.store result }
        ensures others { self.new.faults ≡ record self.old.faults { store = self.new.faults.store } }

        // It fails exactly where the call's number is listed, the files would pass the room, or there would be a 65th.
        ensures fails { is_err result ≡ store_fails self.old path.now bytes.now }
        ensures ok { OnOk result (self.new ≡ record (after_call self.old) {
          files = stored self.old.files path.now bytes.now;
        }) }
        ensures failed { OnErr result (self.new ≡ record (after_call self.old) {
          faults = record self.old.faults { store = raised self.old.faults.store };
        }) }
    {
        if next_fails(&mut self.calls, &self.fail) || !self.files.can_put(path, bytes) {
            return Err(fault(&mut self.faults.store));
        }
        self.files.put(path, bytes);
        Ok(())
    }

    fn swap_open(&mut self, path: &str, pages: u32) -> Result<(), Failed>
        requires { 0 < pages }
        ensures files { OpenMeets (Some (held_by self.old)) (Some (held_by self.new)) }
        ensures opened { OnOk result (self.new.opened ≡ pages) }
        ensures cause { HasCause self.old.faults.swap_open self.new.faults.swap_open result }
        ensures others { self.new.faults
            ≡ record self.old.faults { swap_open = self.new.faults.swap_open } }

        // It fails exactly where the call's number is listed or more pages are asked for than there are.
        ensures fails { is_err result ≡ open_fails self.old pages }
        ensures ok { OnOk result (self.new ≡ record (after_call self.old) { opened = pages }) }
        ensures failed { OnErr result (self.new ≡ record (after_call self.old) {
          faults = record self.old.faults { swap_open = raised self.old.faults.swap_open };
        }) }
    {
        if next_fails(&mut self.calls, &self.fail) || self.pages < pages {
            return Err(fault(&mut self.faults.swap_open));
        }
        self.opened = pages;
        Ok(())
    }

    fn swap_get(&mut self, page: u32, into: &mut [u8]) -> Result<(), Failed>
        requires is_opened { page < self.old.opened }
        requires is_page { length into.old ≡ page_len }
        ensures files { GetMeets (Some (held_by self.old)) (Some (held_by self.new))
            page into.new result }
        ensures opened { self.new.opened ≡ self.old.opened }
        ensures cause { HasCause self.old.faults.swap_get self.new.faults.swap_get result }
        ensures others { self.new.faults
            ≡ record self.old.faults { swap_get = self.new.faults.swap_get } }

        // It fails exactly where the call's number is listed.
        ensures fails { is_err result ≡ next_is_listed self.old }
        ensures ok { OnOk result (self.new ≡ after_call self.old) }
        ensures failed { OnErr result (self.new ≡ record (after_call self.old) {
          faults = record self.old.faults { swap_get = raised self.old.faults.swap_get };
        }) }
        ensures into_kept { OnErr result (into.new ≡ into.old) }
    {
        if next_fails(&mut self.calls, &self.fail) {
            return Err(fault(&mut self.faults.swap_get));
        }
        read_at(&self.swap, page as usize * PAGE_LEN, into);
        Ok(())
    }

    fn swap_put(&mut self, page: u32, from: &[u8]) -> Result<(), Failed>
        requires is_opened { page < self.old.opened }
        requires is_page { length from.now ≡ page_len }
        ensures files { PutMeets (Some (held_by self.old)) (Some (held_by self.new))
            page from.now result }
        ensures opened { self.new.opened ≡ self.old.opened }
        ensures cause { HasCause self.old.faults.swap_put self.new.faults.swap_put result }
        ensures others { self.new.faults
            ≡ record self.old.faults { swap_put = self.new.faults.swap_put } }

        // It fails exactly where the call's number is listed.
        ensures fails { is_err result ≡ next_is_listed self.old }
        ensures ok { OnOk result (self.new ≡ record (after_call self.old) {
          swap = with_page self.old.swap page from.now;
        }) }
        ensures failed { OnErr result (self.new ≡ record (after_call self.old) {
          faults = record self.old.faults { swap_put = raised self.old.faults.swap_put };
        }) }
    {
        if next_fails(&mut self.calls, &self.fail) {
            return Err(fault(&mut self.faults.swap_put));
        }
        write_at(&mut self.swap, page as usize * PAGE_LEN, from);
        Ok(())
    }
}
