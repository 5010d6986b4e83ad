//! The load of a file.
ghost use Rattle.std.specs.Prelude.{◌≡◌, ◌<◌, IfOk, Some, vec_len};
ghost use Rattle.host_edge.specs.Files.{Held};
ghost use Rattle.xemu_top.specs.Loading.{HasAtMost, IsLoaded, LoadCaused};

use host_edge::Host;
use std::alloc::{AllocError, Global};

/// What came of the load of a file.
#[derive(Drop)]
pub(crate) enum Loaded {
    Whole(Vec<u8>),
    /// The file is longer than may be.
    Long,
    /// The host's call failed.
    Failed,
    /// Memory was wanting.
    Memory,
}

fn zeros(alloc: Global, count: usize) -> Result<Vec<u8>, AllocError>
    ensures { IfOk result (λ v. vec_len v ≡ count) }
{
    vec![in alloc; 0u8; count]
}

/// How many bytes are taken for a file at first. Only a longer one takes more.
const FIRST_ROOMS: [u32; 3] = [0x1_0000, 0x10_0000, 0x80_0000];

/// Loads a file into a buffer of at most so many bytes.
fn load_within<H: Host>(alloc: Global, path: &str, most: u32, host: &mut H) -> Loaded
    ensures holds { H.holds host.new ≡ H.holds host.old }
    ensures opened { H.opened host.new ≡ H.opened host.old }
    ensures file { (held : Held) → H.holds host.old ≡ Some held → IsLoaded most result (held.file path.now) }
    ensures short { HasAtMost most result }
    ensures cause { LoadCaused result (H.faults host.old) (H.faults host.new) }
{
    let mut buffer = match zeros(alloc, most as usize) {
        Ok(buffer) => buffer,
        Err(_) => return Loaded::Memory,
    };
    match host.load(path, buffer.as_mut_slice()) {
        Ok(len) => {
            if len > u64::from(most) {
                Loaded::Long
            } else {
                buffer.truncate(len as usize);
                buffer.shrink_to_fit();
                Loaded::Whole(buffer)
            }
        }
        Err(_) => Loaded::Failed,
    }
}

/// Loads a file of at most so many bytes.
pub(crate) fn load_file<H: Host>(alloc: Global, path: &str, most: u32, host: &mut H) -> Loaded
    ensures holds { H.holds host.new ≡ H.holds host.old }
    ensures opened { H.opened host.new ≡ H.opened host.old }
    ensures file { (held : Held) → H.holds host.old ≡ Some held → IsLoaded most result (held.file path.now) }
    ensures short { HasAtMost most result }
    ensures cause { LoadCaused result (H.faults host.old) (H.faults host.new) }
{
    for room in &FIRST_ROOMS {
        if *room < most {
            match load_within(alloc, path, *room, host) {
                Loaded::Long => {}
                loaded => return loaded,
            }
        }
    }
    load_within(alloc, path, most, host)
}
