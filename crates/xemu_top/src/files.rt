//! The guest's files before its first step.
ghost use Rattle.std.specs.Prelude.{◌≡◌, ◌<◌, ◌∷◌, [], ◌++◌, IfOk, length, map, string_bytes};
ghost use Rattle.machine_state.specs.World.{first_descriptors};
ghost use Rattle.guest_files.specs.Entries.{guest_file};
ghost use Rattle.command_words.specs.Command.{IsCommand};
ghost use Rattle.xemu_top.specs.Files.{in_file, out_file, out_files};
ghost use Rattle.xemu_top.specs.Loading.{HaveNames, InsCaused, LoadsIn, LoadsIns};

use crate::ends::End;
use crate::loading::{Loaded, load_file};
use crate::words::text_at;
use command_words::{Command, WordFault, pair_name, pair_path, place_naming};
use guest_files::{Entry, Files};
use host_edge::{Host, HostCall};
use std::alloc::{AllocError, Global};

/// The kind of the refusal of a file that is too long.
const LONG_FILE: u8 = 10;

/// The file of a pair of `--in` with these bytes.
fn in_entry(
    alloc: Global,
    words: &[String],
    command: &Command,
    place: u32,
    bytes: Vec<u8>,
) -> Result<Entry, AllocError>
    requires { place < length words.now }
    ensures { IfOk result (λ entry. guest_file entry ≡ in_file (map string_bytes words.now) command.now place bytes.items) }
{
    let name = pair_name(text_at(words, place));
    Ok(Entry {
        name: String::from_str(alloc, name)?,
        bytes,
        exists: true,
        writable: place_naming(words, name, command.outs.as_slice()).is_some(),
    })
}

/// Loads the file of a pair of `--in`.
fn load_in<H: Host>(
    alloc: Global,
    words: &[String],
    command: &Command,
    place: u32,
    host: &mut H,
) -> Result<Entry, End>
    requires { place < length words.now }
    ensures file { LoadsIn (map string_bytes words.now) command.now place (H.holds host.old) result }
    ensures holds { H.holds host.new ≡ H.holds host.old }
    ensures opened { H.opened host.new ≡ H.opened host.old }
    ensures cause { InsCaused (place ∷ []) result (H.faults host.old) (H.faults host.new) }
{
    match load_file(alloc, pair_path(text_at(words, place)), command.cap, host) {
        Loaded::Whole(bytes) => match in_entry(alloc, words, command, place, bytes) {
            Ok(entry) => Ok(entry),
            Err(_) => Err(End::Memory),
        },
        Loaded::Long => Err(End::Words(WordFault {
            word: place,
            kind: LONG_FILE,
        })),
        Loaded::Failed => Err(End::Host(HostCall::Load(place))),
        Loaded::Memory => Err(End::Memory),
    }
}

/// Loads the files of the pairs of `--in` at some places, in their order.
pub(crate) fn load_ins<H: Host>(
    alloc: Global,
    words: &[String],
    command: &Command,
    host: &mut H,
) -> Result<Vec<Entry>, End>
    requires { IsCommand (map string_bytes words.now) command.now }
    ensures files { LoadsIns (map string_bytes words.now) command.now command.now.ins.items (H.holds host.old) result }
    ensures holds { H.holds host.new ≡ H.holds host.old }
    ensures opened { H.opened host.new ≡ H.opened host.old }
    ensures cause { InsCaused command.now.ins.items result (H.faults host.old) (H.faults host.new) }
{
    let mut ins = Vec::new(alloc);
    for place in command.ins.as_slice() {
        let entry = match load_in(alloc, words, command, *place, host) {
            Ok(entry) => entry,
            Err(end) => return Err(end),
        };
        match ins.push(entry) {
            Ok(()) => {}
            Err(_) => return Err(End::Memory),
        }
    }
    Ok(ins)
}

/// The file of a pair of `--out`, which isn't there yet.
fn out_entry(alloc: Global, words: &[String], place: u32) -> Result<Entry, AllocError>
    requires { place < length words.now }
    ensures { IfOk result (λ entry. guest_file entry ≡ out_file (map string_bytes words.now) place) }
{
    Ok(Entry {
        name: String::from_str(alloc, pair_name(text_at(words, place)))?,
        bytes: Vec::new(alloc),
        exists: false,
        writable: true,
    })
}

/// The files of the pairs of `--out` alone, behind those of `--in`.
fn with_outs(
    alloc: Global,
    words: &[String],
    command: &Command,
    ins: Vec<Entry>,
) -> Result<Vec<Entry>, AllocError>
    requires { IsCommand (map string_bytes words.now) command.now }
    ensures { IfOk result (λ entries. map guest_file entries.items ≡ map guest_file ins.items ++ out_files (map string_bytes words.now) command.now) }
{
    let mut entries = ins;
    for place in command.outs.as_slice() {
        let name = pair_name(text_at(words, *place));
        if place_naming(words, name, command.ins.as_slice()).is_none() {
            entries.push(out_entry(alloc, words, *place)?)?;
        }
    }
    Ok(entries)
}

/// The guest's files, once those of `--in` are loaded.
pub(crate) fn guest_files(
    alloc: Global,
    words: &[String],
    command: &Command,
    ins: Vec<Entry>,
) -> Result<Files, AllocError>
    requires command { IsCommand (map string_bytes words.now) command.now }
    requires ins { HaveNames (map string_bytes words.now) command.now command.now.ins.items (map guest_file ins.items) }
    ensures { IfOk result (λ files. files ≡ record {
      files = map guest_file ins.items ++ out_files (map string_bytes words.now) command.now;
      places = first_descriptors;
      cap = command.now.cap;
    }) }
{
    let entries = with_outs(alloc, words, command, ins)?;
    Files::new(alloc, entries, command.cap)
}
