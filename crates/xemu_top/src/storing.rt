//! The stores of the guest's files after its last step.
ghost use Rattle.std.specs.Prelude.{◌≡◌, ◌<◌, All, IfSome, length, map, string_bytes};
ghost use Rattle.guest_files.specs.Entries.{guest_file};
ghost use Rattle.guest_files.specs.Open.{number_of};
ghost use Rattle.guest_run.specs.Guests.{Around};
ghost use Rattle.command_words.specs.Pairs.{name_at};
ghost use Rattle.xemu_top.specs.Files.{file_named, path_at};
ghost use Rattle.xemu_top.specs.Parts.{StoresFile, StoresFiles, with_host};

use crate::words::text_at;
use command_words::{pair_name, pair_path};
use guest_files::Entry;
use host_edge::{Host, HostCall};

/// The number of the first file with a name.
fn find(entries: &[Entry], name: &str) -> Option<usize>
    ensures number { result ≡ number_of (map guest_file entries.now) name.now }
    ensures within { IfSome result (λ number. number < length entries.now) }
{
    for (number, entry) in entries.iter().enumerate() {
        if entry.name.as_str() == name {
            return Some(number);
        }
    }
    None
}

/// Stores a file under the path that the word at a place names, if the file exists.
fn store_entry<H: Host>(place: u32, path: &str, entry: &Entry, host: &mut H) -> Result<(), HostCall>
    ensures { (a : Around) → StoresFile place path.now (guest_file entry.now)
        (with_host a (H.holds host.old) (H.opened host.old) (H.faults host.old)) (with_host a (H.holds host.new) (H.opened host.new) (H.faults host.new)) result }
{
    if !entry.exists {
        return Ok(());
    }
    match host.store(path, &entry.bytes) {
        Ok(()) => Ok(()),
        Err(_) => Err(HostCall::Store(place)),
    }
}

/// Stores the file of a pair of `--out`, if it exists.
fn store_file<H: Host>(
    words: &[String],
    place: u32,
    entries: &[Entry],
    host: &mut H,
) -> Result<(), HostCall>
    requires { place < length words.now }
    ensures { (a : Around) → StoresFile place (path_at (map string_bytes words.now) place)
        (file_named (map guest_file entries.now) (name_at (map string_bytes words.now) place))
        (with_host a (H.holds host.old) (H.opened host.old) (H.faults host.old)) (with_host a (H.holds host.new) (H.opened host.new) (H.faults host.new)) result }
{
    let word = text_at(words, place);
    match find(entries, pair_name(word)) {
        Some(number) => store_entry(place, pair_path(word), &entries[number], host),
        None => Ok(()),
    }
}

/// Stores the files of the pairs of `--out` at some places that exist, in their order.
pub(crate) fn store_files<H: Host>(
    words: &[String],
    places: &[u32],
    entries: &[Entry],
    host: &mut H,
) -> Result<(), HostCall>
    requires { All (λ place. place < length words.now) places.now }
    ensures { (a : Around) → StoresFiles (map string_bytes words.now) (map guest_file entries.now) places.now
        (with_host a (H.holds host.old) (H.opened host.old) (H.faults host.old)) (with_host a (H.holds host.new) (H.opened host.new) (H.faults host.new)) result }
{
    for place in places {
        match store_file(words, *place, entries, host) {
            Ok(()) => {}
            Err(call) => return Err(call),
        }
    }
    Ok(())
}
