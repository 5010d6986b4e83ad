//! Operands in memory.
ghost use Rattle.std.specs.Prelude.{◌≡◌, None, IsTrue};
ghost use Rattle.gpr_flags.specs.Registers.{is_size};
ghost use Rattle.machine_state.specs.Memory.{Swap, bytes_at, written};
ghost use Rattle.guest_pages.specs.Table.{blocked};
ghost use Rattle.guest_pages.specs.Pages.{table_of, byte_of};
ghost use Rattle.guest_pages.specs.Changes.{KeepsTable};

use guest_pages::{Kind, Pages};

/// Puts bytes that can be read to a place that can be written. All of them are read first.
pub(crate) fn copy(pages: &mut Pages, source: u64, destination: u64, size: u8)
    requires size { IsTrue (is_size size) }
    requires source { blocked (table_of pages.old) Kind.Read source size ≡ None }
    requires destination { blocked (table_of pages.old) Kind.Write destination size ≡ None }
    ensures byte { (w : Swap) → byte_of pages.new w
        ≡ written (byte_of pages.old w) destination (bytes_at (byte_of pages.old w) source size) }
    ensures table { KeepsTable pages.old pages.new }
{
    let mut bytes = [0; 8];
    let len = size as usize;
    match pages.read(source, &mut bytes[..len], Kind::Read) {
        Ok(()) => match pages.write(destination, &bytes[..len]) {
            Ok(()) => {}
            Err(_) => unreachable!(),
        },
        Err(_) => unreachable!(),
    }
}
