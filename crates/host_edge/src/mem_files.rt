// The files of a host in memory, whose bytes lie in a buffer that is filled from its end down to its start.
ghost use Rattle.std.specs.Prelude.{◌≡◌, ◌+◌, ◌≤◌, ◌∷◌, ◌++◌, [], IfNone, IfOk, IfSome, IsTrue, MatchOption, drop, length, map, nat_le, sum_by, vec_len};
ghost use Rattle.host_edge.specs.Layout.{IsPlaced, entry_size, files_at};
ghost use Rattle.host_edge.specs.NamedFiles.{file_in, fits_in, named, stored, without};

use crate::bytes::{close_gap, write_at, zeros};
use arrayvec::ArrayVec;
use std::alloc::{AllocError, Global};
use std::marker::Model;

/// The number of files that a host in memory may have.
pub const FILES: usize = 64;

// How many bytes of the buffer a file's path and its content take.
#[derive(Clone, Copy, Default)]
struct Entry {
    path: usize,
    content: usize,
}

// Where a file lies: the index of its entry, and how many bytes of the files lie in front of it.
#[derive(Clone, Copy)]
struct Place {
    index: usize,
    at: usize,
    entry: Entry,
}

/// The files, each as its path and then its content, from `start` on.
#[derive(Drop)]
pub struct MemFiles {
    buffer: Vec<u8>,
    start: usize,
    entries: ArrayVec<Entry, FILES>,
}

impl Model for MemFiles {
    ghost use Rattle.std.specs.Prelude.{◌≡◌, ◌+◌, drop, sum_by, vec_len};
    ghost use Rattle.host_edge.specs.MemFiles.{FilesState};

    ghost Value = { FilesState };

    ghost use Rattle.host_edge.specs.Layout.{entry_size, files_at};

    ghost view = { λ f. record {
      files = files_at f.entries.items (drop f.start f.buffer.items);
      room = vec_len f.buffer;
    } };

    ghost invariant = { λ f. f.start + sum_by entry_size f.entries.items ≡ vec_len f.buffer };
}

// The place of the first file with this path.
fn place_of(entries: &[Entry], buffer: &[u8], path: &[u8]) -> Option<Place>
    requires { sum_by entry_size entries.now ≤ length buffer.now }
    ensures none { IfNone result (file_in (files_at entries.now buffer.now) path.now ≡ None) }
    ensures some { IfSome result (IsPlaced entries.now buffer.now path.now) }
{
    match entries {
        [] => None,
        [entry, rest @ ..] => {
            let (file, others) = buffer.split_at(entry.path + entry.content);
            if &file[..entry.path] == path {
                return Some(Place {
                    index: 0,
                    at: 0,
                    entry: *entry,
                });
            }
            match place_of(rest, others, path) {
                Some(place) => Some(Place {
                    index: place.index + 1,
                    at: entry.path + entry.content + place.at,
                    entry: place.entry,
                }),
                None => None,
            }
        }
    }
}

// Whether a path and a content fit into free bytes.
fn has_room(free: usize, path: &[u8], content: &[u8]) -> bool
    ensures { result ≡ nat_le (length path.now + length content.now) free }
{
    path.len() <= free && content.len() <= free - path.len()
}

// Writes a path and a content in front of what lies from `start` on, and answers where they start.
fn write_front(buffer: &mut Vec<u8>, start: usize, path: &[u8], content: &[u8]) -> usize
    requires room { length path.now + length content.now ≤ start }
    requires within { start ≤ vec_len buffer.old }
    ensures start { result + length path.now + length content.now ≡ start }
    ensures held { drop result buffer.new.items
        ≡ (path.now ++ content.now) ++ drop start buffer.old.items }
    ensures len { vec_len buffer.new ≡ vec_len buffer.old }
{
    let middle = start - content.len();
    write_at(buffer, middle, content);
    let front = middle - path.len();
    write_at(buffer, front, path);
    front
}

impl MemFiles {
    /// No files, and room for so many bytes of paths and contents, all of it taken now.
    pub fn new(alloc: Global, room: usize) -> Result<MemFiles, AllocError>
        ensures { IfOk result (λ f. f ≡ record { files = []; room = room }) }
    {
        Ok(MemFiles {
            buffer: zeros(alloc, room)?,
            start: room,
            entries: ArrayVec::new(),
        })
    }

    /// The bytes of the first file with this path.
    pub fn find(&self, path: &str) -> Option<&[u8]>
        ensures { MatchOption result (file_in self.now.files path.now ≡ None)
            (λ bytes. file_in self.now.files path.now ≡ Some bytes.now) }
    {
        let held = &self.buffer[self.start..];
        match place_of(&self.entries, held, path.as_bytes()) {
            Some(place) => {
                let from = place.at + place.entry.path;
                Some(&held[from..from + place.entry.content])
            }
            None => None,
        }
    }

    /// Whether there is room for a file once the first of its path is taken away.
    pub fn can_put(&self, path: &str, bytes: &[u8]) -> bool
        ensures { result ≡ fits_in self.now.room (stored self.now.files path.now bytes.now) }
    {
        let path = path.as_bytes();
        match place_of(&self.entries, &self.buffer[self.start..], path) {
            Some(place) => {
                let free = self.start + place.entry.path + place.entry.content;
                has_room(free, path, bytes)
            }
            None => self.entries.len() < FILES && has_room(self.start, path, bytes),
        }
    }

    // Takes the first file with this path away.
    fn remove(&mut self, path: &str)
        ensures { self.new ≡ record self.old { files = without path.now self.old.files } }
    {
        let held = &self.buffer[self.start..];
        if let Some(place) = place_of(&self.entries, held, path.as_bytes()) {
            let size = place.entry.path + place.entry.content;
            close_gap(&mut self.buffer, self.start, place.at, size);
            self.start += size;
            self.entries.remove(place.index);
        }
    }

    // Puts a file in front of the others.
    fn add(&mut self, path: &str, bytes: &[u8])
        requires { IsTrue (fits_in self.old.room
            (record { path = path.now; bytes = bytes.now } ∷ self.old.files)) }
        ensures { self.new ≡ record self.old {
          files = record { path = path.now; bytes = bytes.now } ∷ self.old.files;
        } }
    {
        let path = path.as_bytes();
        self.start = write_front(&mut self.buffer, self.start, path, bytes);
        self.entries.insert(
            0,
            Entry {
                path: path.len(),
                content: bytes.len(),
            },
        );
    }

    /// Stores a file, in place of the first with its path.
    pub fn put(&mut self, path: &str, bytes: &[u8])
        requires { IsTrue (fits_in self.old.room (stored self.old.files path.now bytes.now)) }
        ensures { self.new ≡ record self.old { files = stored self.old.files path.now bytes.now } }
    {
        self.remove(path);
        self.add(path, bytes);
    }

    /// Puts files in front of the others, in this order.
    pub fn fill(&mut self, files: &[(String, Vec<u8>)])
        requires { IsTrue (fits_in self.old.room (map named files.now ++ self.old.files)) }
        ensures { self.new ≡ record self.old { files = map named files.now ++ self.old.files } }
    {
        if let [(path, bytes), rest @ ..] = files {
            self.fill(rest);
            self.add(path, bytes);
        }
    }
}
