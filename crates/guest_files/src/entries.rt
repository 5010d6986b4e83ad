//! Files by their names.
ghost use Rattle.std.specs.Prelude.{◌≡◌, ◌<◌, ◌≤◌, All, IfSome, OnOk, length, map, string_bytes, vec_len};
ghost use Rattle.std.specs.Str.{bytes_eq};
ghost use Rattle.machine_state.specs.Memory.{AreBytes};
ghost use Rattle.guest_files.specs.Entries.{guest_file};
ghost use Rattle.guest_files.specs.Files.{IsFit};
ghost use Rattle.guest_files.specs.Kept.{HasBytes, HasRoom};
ghost use Rattle.guest_files.specs.Open.{number_of as number_in};

use std::alloc::AllocError;

/// A file that the guest can open by its name.
#[derive(Debug, Drop)]
pub struct Entry {
    pub name: String,
    pub bytes: Vec<u8>,
    /// Whether the name can be opened without being made.
    pub exists: bool,
    /// Whether the guest may write the file, and make it.
    pub writable: bool,
}

// How many bytes there are; that each is below 256, as their type says, is the other clause.
fn count(bytes: &[u8]) -> usize
    ensures value { result ≡ length bytes.now }
    ensures fit { AreBytes bytes.now }
{
    bytes.len()
}

impl Entry {
    // The lengths of the name and of the content.
    fn lengths(&self) -> (usize, usize)
        ensures content { result.1 ≡ vec_len self.now.bytes }
        ensures bytes { HasBytes (guest_file self.now) }
    {
        (count(self.name.as_bytes()), count(&self.bytes))
    }

    // Whether this is its name.
    fn is_named(&self, name: &[u8]) -> bool
        ensures { result ≡ bytes_eq (string_bytes self.now.name) name.now }
    {
        self.name.as_bytes() == name
    }
}

/// The number of the first file with a name.
pub fn number_of(entries: &[Entry], name: &[u8]) -> Option<usize>
    ensures number { result ≡ number_in (map guest_file entries.now) name.now }
    ensures within { IfSome result (λ number. number < length entries.now) }
{
    for (number, entry) in entries.iter().enumerate() {
        if entry.is_named(name) {
            return Some(number);
        }
    }
    None
}

// Takes the memory that a file may need, where it can be written.
fn reserve(entry: &mut Entry, cap: usize) -> Result<(), AllocError>
    requires { vec_len entry.old.bytes ≤ cap }
    ensures file { guest_file entry.new ≡ guest_file entry.old }
    ensures room { OnOk result (HasRoom cap entry.new) }
    ensures bytes { HasBytes (guest_file entry.old) }
{
    let (_, len) = entry.lengths();
    let more = cap - len;
    if entry.writable {
        entry.bytes.reserve_exact(more)?;
    }
    Ok(())
}

/// Takes the memory that files may need, where they can be written.
pub fn reserve_all(entries: &mut Vec<Entry>, cap: usize) -> Result<(), AllocError>
    requires { All (IsFit cap) (map guest_file entries.old.items) }
    ensures files { map guest_file entries.new.items ≡ map guest_file entries.old.items }
    ensures room { OnOk result (All (HasRoom cap) entries.new.items) }
    ensures bytes { OnOk result (All HasBytes (map guest_file entries.old.items)) }
{
    for entry in entries.iter_mut() {
        reserve(entry, cap)?;
    }
    Ok(())
}
