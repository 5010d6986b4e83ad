//! Paths in memory.
ghost use Rattle.std.specs.Prelude.{◌≡◌, ◌≤◌, ◌<◌, ◌+◌, ◌-◌, ◌%◌, ◌++◌, length, min};
ghost use Rattle.machine_state.specs.Memory.{page_size};
ghost use Rattle.guest_transfers.specs.Moves.{ReadsPath};
ghost use Rattle.guest_transfers.specs.Paths.{end_of, path_max};

use crate::kinds::PathRead;
use crate::pieces::away;
use arrayvec::ArrayVec;
use guest_pages::{Kind, Pages};
use machine_state::PAGE_SIZE;

const PATH_MAX: usize = 256;

type PathBytes = ArrayVec<u8, PATH_MAX>;

// The place of the first 0.
fn end(bytes: &[u8]) -> Option<usize>
    ensures { result ≡ end_of bytes.now }
{
    bytes.iter().position(|byte| *byte == 0)
}

fn put(text: &mut PathBytes, bytes: &[u8])
    requires { length text.old.items + length bytes.now ≤ path_max }
    ensures { text.new.items ≡ text.old.items ++ bytes.now }
{
    match text.try_extend_from_slice(bytes) {
        Ok(()) => {}
        Err(_) => unreachable!(),
    }
}

/// Reads a path, part by part, up to its first 0 and no further than 256 bytes.
pub fn read_path(pages: &Pages, addr: u64) -> PathRead
    ensures { ReadsPath pages.now addr result }
{
    let mut text = PathBytes::new();
    while text.len() < PATH_MAX {
        let at = addr + text.len() as u64;
        let len = (PATH_MAX - text.len()).min((PAGE_SIZE - at % PAGE_SIZE) as usize);
        match pages.view(at, len, Kind::Read) {
            Ok(bytes) => match end(bytes) {
                Some(end) => {
                    put(&mut text, &bytes[..end]);
                    return PathRead::Text(text);
                }
                None => put(&mut text, bytes),
            },
            Err(miss) => match away(miss) {
                Some(slot) => return PathRead::Away(slot),
                None => return PathRead::Fault,
            },
        }
    }
    PathRead::TooLong
}
