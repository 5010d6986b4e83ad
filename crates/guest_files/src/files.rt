//! The calls on files.
ghost use Rattle.std.specs.Prelude.{◌≡◌};
ghost use Rattle.machine_state.specs.World.{first_descriptors};

use crate::content;
use crate::entries::{Entry, number_of, reserve_all};
use crate::errno::Errno;
use crate::offsets::{OFFSET_END, base, count_below, offset_from};
use crate::opening::{OpenFlags, lowest_free};
use machine_state::Place;
use std::alloc::{AllocError, Global};
use std::marker::Model;

// How many descriptors a guest has.
const DESCRIPTORS: usize = 64;

const INPUT: Place = Place {
    file: None,
    at: 0,
    reads: true,
    writes: false,
    append: false,
};

const OUTPUT: Place = Place {
    file: None,
    at: 0,
    reads: false,
    writes: true,
    append: false,
};

/// The files and the descriptors of a guest.
#[derive(Drop)]
pub struct Files {
    entries: Vec<Entry>,
    places: [Option<Place>; DESCRIPTORS],
    cap: u32,
}

impl Model for Files {
    ghost use Rattle.guest_files.specs.Files.{FilesValue};

    ghost Value = { FilesValue };

    ghost use Rattle.guest_files.specs.Kept.{AreKept, value_of};

    ghost view = { λ files. value_of files.entries.items files.places files.cap };

    ghost invariant = { λ files. AreKept files.entries.items files.places files.cap };
}

// The descriptors that are open at the start.
#[tactic(auto, unfolding(machine_state::specs::World::first_descriptors))]
fn first_places() -> [Option<Place>; DESCRIPTORS]
    ensures { result ≡ first_descriptors }
{
    let mut places = [None; DESCRIPTORS];
    places[0] = Some(INPUT);
    places[1] = Some(OUTPUT);
    places[2] = Some(OUTPUT);
    places
}

impl Files {
    ghost use Rattle.std.specs.Prelude.{◌≡◌, ◌≤◌, ◌<◌, ℕ, length, map, IfOk, IfSome, OnOk, OnErr, Some};
    ghost use Rattle.std.specs.Result.{result_err};
    ghost use Rattle.machine_state.specs.World.{IsPlace, first_descriptors, place_at};
    ghost use Rattle.guest_files.specs.Checks.{answer_of, file_number, first_failing};
    ghost use Rattle.guest_files.specs.Content.{count_below as count_under, filled};
    ghost use Rattle.guest_files.specs.Entries.{guest_file};
    ghost use Rattle.guest_files.specs.Files.{AreEntries, AreFiles, file_of};
    ghost use Rattle.guest_files.specs.Open.{close_refusal, closed, name_checks, number_of as number_in, open_refusal, opened, opened_number};
    ghost use Rattle.guest_files.specs.Moves.{moved_to, offset_after, read_piece, read_refusal, seek_refusal, size_at, write_refusal, written_at};

    /// Takes all the memory that the files will ever have: a file that the guest may write gets room for `cap` bytes. The
    /// descriptors 0, 1 and 2 are open, as input, output and error output.
    pub fn new(_alloc: Global, mut entries: Vec<Entry>, cap: u32) -> Result<Files, AllocError>
        requires { AreEntries cap (map guest_file entries.items) }
        ensures { IfOk result (λ files. files ≡ record {
          files = map guest_file entries.items;
          places = first_descriptors;
          cap = cap;
        }) }
    {
        reserve_all(&mut entries, cap as usize)?;
        Ok(Files {
            entries,
            places: first_places(),
            cap,
        })
    }

    /// The files, in the order in which they were given. The other clause holds of files at any time; a caller that needs
    /// it calls this.
    pub fn entries(&self) -> &[Entry]
        ensures files { map guest_file result.now ≡ self.now.files }
        ensures kept { AreFiles self.now }
    {
        &self.entries
    }

    /// The most bytes that a file may have. The other clause holds of files at any time, as in `entries`.
    pub fn cap(&self) -> u32
        ensures value { result ≡ self.now.cap }
        ensures kept { AreFiles self.now }
    {
        self.cap
    }

    /// What a descriptor stands for, if it is open.
    pub fn place(&self, fd: u32) -> Option<Place>
        ensures value { result ≡ place_at self.now.places fd }
        ensures is { IfSome result (IsPlace (length self.now.files) fd) }
    {
        if (fd as usize) < DESCRIPTORS {
            self.places[fd as usize]
        } else {
            None
        }
    }

    // The number of a descriptor's file.
    fn file(&self, fd: u32) -> Option<usize>
        ensures number { result ≡ file_number (place_at self.now.places fd) }
        ensures within { IfSome result (λ number. number < length self.now.files) }
    {
        match self.place(fd) {
            Some(place) => place.file.map(usize::from),
            None => None,
        }
    }

    /// The length of the file that a descriptor is open for, in bytes.
    pub fn size(&self, fd: u32) -> Option<u64>
        ensures { result ≡ size_at self.now fd }
    {
        match self.file(fd) {
            Some(number) => Some(self.entries[number].bytes.len() as u64),
            None => None,
        }
    }

    // The number of the file that is to be opened.
    fn find(&self, name: &[u8], flags: OpenFlags) -> Result<usize, Errno>
        ensures ok { IfOk result (λ number. number_in self.now.files name.now ≡ Some number) }
        ensures err { result_err result
            ≡ first_failing (name_checks self.now.files name.now flags.0) }
        ensures within { IfOk result (λ number. number < length self.now.files) }
    {
        if flags.is_bad() {
            return Err(Errno::EINVAL);
        }
        match number_of(&self.entries, name) {
            Some(number) => match flags.check(&self.entries[number]) {
                Ok(()) => Ok(number),
                Err(errno) => Err(errno),
            },
            None if flags.has(OpenFlags::CREATE) => Err(Errno::EACCES),
            None => Err(Errno::ENOENT),
        }
    }

    /// Opens a file by its name (open(2)): the low two bits of `flags` are the access, 40H makes the file, 80H wants it
    /// made, 200H empties it, 400H appends, and no other bit counts. It answers the lowest free descriptor.
    pub fn open(&mut self, name: &[u8], flags: u32) -> Result<u32, Errno>
        ensures answer { result
            ≡ answer_of (open_refusal self.old name.now flags) (opened_number self.old) }
        ensures ok { OnOk result (self.new ≡ opened self.old name.now flags) }
        ensures err { OnErr result (self.new ≡ self.old) }
    {
        let flags = OpenFlags(flags);
        let number = match self.find(name, flags) {
            Ok(number) => number,
            Err(errno) => return Err(errno),
        };
        let fd = match lowest_free(&self.places) {
            Some(fd) => fd,
            None => return Err(Errno::EMFILE),
        };
        flags.apply(&mut self.entries[number]);
        self.places[fd] = Some(flags.place(number));
        Ok(fd as u32)
    }

    /// Closes a descriptor (close(2)).
    #[tactic(auto, unfolding(crate::specs::Open::close_refusal))]
    pub fn close(&mut self, fd: u32) -> Result<(), Errno>
        ensures answer { result ≡ answer_of (close_refusal self.old fd) tt }
        ensures ok { OnOk result (self.new ≡ closed self.old fd) }
        ensures err { OnErr result (self.new ≡ self.old) }
    {
        if self.place(fd).is_none() {
            return Err(Errno::EBADF);
        }
        self.places[fd as usize] = None;
        Ok(())
    }

    /// Reads the bytes of a file from an offset on (pread(2)), as many as fit, and answers how many. The descriptor's own
    /// offset stays. An offset from 2^63 up counts as a negative one, which is EINVAL.
    #[tactic(auto, unfolding(crate::specs::Moves::read_refusal))]
    pub fn read_at(&self, fd: u32, at: u64, into: &mut [u8]) -> Result<usize, Errno>
        ensures answer { result ≡ answer_of (read_refusal self.now fd at)
            (length (read_piece self.now fd at (length into.old))) }
        ensures ok { OnOk result
            (into.new ≡ filled (read_piece self.now fd at (length into.old)) into.old) }
        ensures err { OnErr result (into.new ≡ into.old) }
    {
        match self.place(fd) {
            Some(place) if place.reads => {}
            _ => return Err(Errno::EBADF),
        }
        let number = match self.file(fd) {
            Some(number) => number,
            None => return Err(Errno::ESPIPE),
        };
        if at >= OFFSET_END {
            return Err(Errno::EINVAL);
        }
        Ok(content::read(&self.entries[number].bytes, at, into))
    }

    /// Writes bytes to a file from an offset on (pwrite(2)), as many as lie below the cap, and answers how many. A gap
    /// between the file's end and the offset becomes zeros. The descriptor's own offset stays, and it doesn't count whether
    /// the descriptor appends: the caller gives the end as the offset then.
    #[tactic(auto, unfolding(crate::specs::Moves::write_refusal))]
    pub fn write_at(&mut self, fd: u32, at: u64, bytes: &[u8]) -> Result<usize, Errno>
        ensures answer { result ≡ answer_of (write_refusal self.old fd at (length bytes.now))
            (count_under self.old.cap at (length bytes.now)) }
        ensures ok { OnOk result (self.new ≡ written_at self.old fd at bytes.now) }
        ensures err { OnErr result (self.new ≡ self.old) }
    {
        match self.place(fd) {
            Some(place) if place.writes => {}
            _ => return Err(Errno::EBADF),
        }
        let number = match self.file(fd) {
            Some(number) => number,
            None => return Err(Errno::ESPIPE),
        };
        if at >= OFFSET_END {
            return Err(Errno::EINVAL);
        }
        let count = count_below(self.cap, at, bytes.len());
        if count == 0 && !bytes.is_empty() {
            return Err(Errno::ENOSPC);
        }
        content::write(
            &mut self.entries[number].bytes,
            at as usize,
            &bytes[..count],
        );
        Ok(count)
    }

    /// Moves the offset of a descriptor (lseek(2)), from the start (`whence` 0), from where it is (1) or from the file's
    /// end (2), and answers it.
    #[tactic(auto, unfolding(crate::specs::Moves::seek_refusal))]
    pub fn seek(&mut self, fd: u32, to: i64, whence: u32) -> Result<u64, Errno>
        ensures answer { result ≡ answer_of (seek_refusal self.old fd to whence)
            (offset_after self.old fd to whence) }
        ensures ok { IfOk result (λ at. self.new ≡ moved_to self.old fd at) }
        ensures err { OnErr result (self.new ≡ self.old) }
    {
        let place = match self.place(fd) {
            Some(place) => place,
            None => return Err(Errno::EBADF),
        };
        let number = match self.file(fd) {
            Some(number) => number,
            None => return Err(Errno::ESPIPE),
        };
        let size = self.entries[number].bytes.len() as u64;
        let base = match base(whence, place.at, size) {
            Some(base) => base,
            None => return Err(Errno::EINVAL),
        };
        match offset_from(base, to) {
            Some(at) => {
                self.places[fd as usize] = Some(Place { at, ..place });
                Ok(at)
            }
            None => Err(Errno::EINVAL),
        }
    }
}
