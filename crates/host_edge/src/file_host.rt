// A host over the files of a runtime.
ghost use Rattle.std.specs.Prelude.{◌≡◌, ◌+◌, ◌<◌, ◌≤◌, IfOk, IsSome, None, OnErr, OnOk, drop, length};
ghost use Rattle.host_edge.specs.Causes.{HasCause, no_faults};
ghost use Rattle.host_edge.specs.Files.{GetMeets, LoadMeets, OpenMeets, PutMeets, StoreMeets, page_len};
ghost use Rattle.host_edge.specs.Faults.{IsCounted};
ghost use Rattle.host_edge.specs.Moves.{LoadsFile, SwapReads, SwapWrites, WritesFile};

use crate::counts::{Faults, fault};
use crate::transfers::{read_file, read_page, write_page, write_whole};
use crate::{Failed, Host, PAGE_LEN};
use std::fs::{File, OpenFile, OpenOptions};
use std::io;
use std::rt::Files;

/// A host over the files of a runtime, whose swap is a file with one page behind the other. It tells no bytes, and each
/// error of std is a failure.
#[derive(Drop)]
pub struct FileHost<R: Files> {
    rt: R,
    swap: Option<R::File>,
    opened: u32,
    faults: Faults,
    ghost counted: { IsCounted faults },
}

impl<R: Files> FileHost<R> {
    /// A host with no open swap, of which no call has failed.
    pub fn new(rt: R) -> FileHost<R>
        ensures files { result.rt ≡ rt }
        ensures swap { result.swap ≡ None }
        ensures opened { ⟦<FileHost<R> as Host>⟧.opened result ≡ 0 }
        ensures faults { ⟦<FileHost<R> as Host>⟧.faults result ≡ no_faults }
    {
        FileHost {
            rt,
            swap: None,
            opened: 0,
            faults: Faults::default(),
        }
    }
}

fn load_file<R: Files>(rt: &R, path: &str, into: &mut [u8]) -> io::Result<u64>
    ensures fits { IfOk result (λ len. len ≤ length into.old + 1) }
    ensures rest { IfOk result (λ len. drop len into.new ≡ drop len into.old) }
    ensures loads { IfOk result (LoadsFile R.File.remaining into.old into.new) }
{
    let mut file = File::open(rt, path)?;
    read_file(&mut file, into)
}

fn store_file<R: Files>(rt: &R, path: &str, bytes: &[u8]) -> io::Result<()>
    ensures { OnOk result (WritesFile R.File.contents bytes.now) }
{
    let mut file = File::create(rt, path)?;
    write_whole(&mut file, bytes)
}

// Makes an empty file of so many pages.
fn open_swap<R: Files>(rt: &R, path: &str, pages: u32) -> io::Result<R::File> {
    let file = OpenOptions::new()
        .read(true)
        .write(true)
        .create(true)
        .truncate(true)
        .open(rt, path)?;
    file.set_len(u64::from(pages) * PAGE_LEN as u64)?;
    Ok(file)
}

impl<R: Files> Host for FileHost<R> {
    ghost use Rattle.std.specs.Prelude.{None};
    ghost use Rattle.host_edge.specs.Faults.{counts_of};

    ghost holds = { λ _. None };

    ghost opened = { λ h. h.opened };

    ghost faults = { λ h. counts_of h.faults };

    fn load(&mut self, path: &str, into: &mut [u8]) -> Result<u64, Failed>
        ensures files { LoadMeets None None path.now into.old into.new result }
        ensures opened { self.new.opened ≡ self.old.opened }
        ensures cause { HasCause self.old.faults.load self.new.faults.load result }
        ensures others { counts_of self.new.faults
            ≡ record (counts_of self.old.faults) { load = self.new.faults.load } }
        ensures swap { self.new.swap ≡ self.old.swap }
        ensures loads { IfOk result (LoadsFile R.File.remaining into.old into.new) }
    {
        match load_file(&self.rt, path, into) {
            Ok(len) => Ok(len),
            Err(_) => Err(fault(&mut self.faults.load)),
        }
    }

    fn store(&mut self, path: &str, bytes: &[u8]) -> Result<(), Failed>
        ensures files { StoreMeets None None path.now bytes.now result }
        ensures opened { self.new.opened ≡ self.old.opened }
        ensures cause { HasCause self.old.faults.store self.new.faults.store result }
        ensures others { counts_of self.new.faults
            ≡ record (counts_of self.old.faults) { store = self.new.faults.store } }
        ensures swap { self.new.swap ≡ self.old.swap }
        ensures writes { OnOk result (WritesFile R.File.contents bytes.now) }
    {
        match store_file(&self.rt, path, bytes) {
            Ok(()) => Ok(()),
            Err(_) => Err(fault(&mut self.faults.store)),
        }
    }

    /// Makes the file anew, in place of what was there. Where that fails, no swap is open.
    fn swap_open(&mut self, path: &str, pages: u32) -> Result<(), Failed>
        requires { 0 < pages }
        ensures files { OpenMeets None None }
        ensures opened { OnOk result (self.new.opened ≡ pages) }
        ensures cause { HasCause self.old.faults.swap_open self.new.faults.swap_open result }
        ensures others { counts_of self.new.faults
            ≡ record (counts_of self.old.faults) { swap_open = self.new.faults.swap_open } }
        ensures file { OnOk result (IsSome self.new.swap) }
        ensures failed { OnErr result (self.new.opened ≡ 0) }
        ensures closed { OnErr result (self.new.swap ≡ None) }
    {
        self.swap = None;
        self.opened = 0;
        match open_swap(&self.rt, path, pages) {
            Ok(file) => {
                self.swap = Some(file);
                self.opened = pages;
                Ok(())
            }
            Err(_) => Err(fault(&mut self.faults.swap_open)),
        }
    }

    fn swap_get(&mut self, page: u32, into: &mut [u8]) -> Result<(), Failed>
        requires is_opened { page < self.old.opened }
        requires is_page { length into.old ≡ page_len }
        ensures files { GetMeets None None page into.new result }
        ensures opened { self.new.opened ≡ self.old.opened }
        ensures cause { HasCause self.old.faults.swap_get self.new.faults.swap_get result }
        ensures others { counts_of self.new.faults
            ≡ record (counts_of self.old.faults) { swap_get = self.new.faults.swap_get } }

        // What is handed back was read at the page's place in the swap's file.
        ensures reads { OnOk result (SwapReads R.File.stream_position R.File.stream_bytes R.File.remaining
            self.old.swap self.new.swap page into.new) }
    {
        let Some(file) = &mut self.swap else {
            return Err(fault(&mut self.faults.swap_get));
        };
        match read_page(file, page, into) {
            Ok(()) => Ok(()),
            Err(_) => Err(fault(&mut self.faults.swap_get)),
        }
    }

    fn swap_put(&mut self, page: u32, from: &[u8]) -> Result<(), Failed>
        requires is_opened { page < self.old.opened }
        requires is_page { length from.now ≡ page_len }
        ensures files { PutMeets None None page from.now result }
        ensures opened { self.new.opened ≡ self.old.opened }
        ensures cause { HasCause self.old.faults.swap_put self.new.faults.swap_put result }
        ensures others { counts_of self.new.faults
            ≡ record (counts_of self.old.faults) { swap_put = self.new.faults.swap_put } }

        // What was handed over is written at the page's place in the swap's file.
        ensures writes { OnOk result (SwapWrites R.File.stream_position R.File.stream_bytes R.File.contents
            self.old.swap self.new.swap page from.now) }
    {
        let Some(file) = &mut self.swap else {
            return Err(fault(&mut self.faults.swap_put));
        };
        match write_page(file, page, from) {
            Ok(()) => Ok(()),
            Err(_) => Err(fault(&mut self.faults.swap_put)),
        }
    }
}
