//! A guest's memory, byte by byte, for one who looks at it from outside.
ghost use Rattle.std.specs.Prelude.{◌≡◌, ℕ, List, Option, Some, false};
ghost use Rattle.machine_state.specs.declared.kinds.Kind.{Kind as AnyKind};
ghost use Rattle.machine_state.specs.declared.kinds.Miss.{Miss as AnyMiss};
ghost use Rattle.guest_pages.specs.Table.{blocked};
ghost use Rattle.guest_pages.specs.Pages.{table_of};
ghost use Rattle.swap_pager.specs.Paging.{CanPage};
ghost use Rattle.guest_run.specs.Guests.{around};
ghost use Rattle.guest_run.specs.Bytes.{IsRead, Tells};

use crate::guest::Guest;
use crate::running::bring;
use guest_pages::Pages;
use host_edge::{Host, HostCall};
use machine_state::{Kind, Miss};

/// The byte at an address, if it can be read now.
fn byte_here(pages: &Pages, addr: u64) -> Result<u8, Miss>
    ensures { IsRead pages.now addr result }
{
    match pages.view(addr, 1, Kind::Read) {
        Ok(bytes) => Ok(bytes[0]),
        Err(miss) => Err(miss),
    }
}

/// The same, once its page, which is away, is brought.
fn byte_brought<H: Host>(
    guest: &mut Guest,
    addr: u64,
    slot: u32,
    host: &mut H,
) -> Result<Option<u8>, HostCall>
    requires works { guest.old.failed ≡ false }
    requires pages { CanPage guest.old.machine.pages (H.holds host.old) (H.opened host.old) }
    requires away { blocked (table_of guest.old.machine.pages) AnyKind.Read addr 1 ≡ Some (AnyMiss.Away slot) }
    ensures { (left out err : Option (List ℕ)) (take puts err_puts : ℕ) → Tells addr guest.old guest.new
        (around (H.holds host.old) (H.opened host.old) (H.faults host.old) left take out puts err err_puts)
        (around (H.holds host.new) (H.opened host.new) (H.faults host.new) left take out puts err err_puts) result }
{
    match bring(guest, slot, host) {
        Ok(_) => Ok(byte_here(&guest.machine.pages, addr).ok()),
        Err(call) => {
            guest.failed = true;
            Err(call)
        }
    }
}

/// The byte at an address of a guest's memory, or none exactly where it can't be read. It changes only which pages are in frames, and
/// how many were brought. Where a call on the swap fails the guest has failed.
pub fn byte<H: Host>(guest: &mut Guest, addr: u64, host: &mut H) -> Result<Option<u8>, HostCall>
    requires works { guest.old.failed ≡ false }
    requires pages { CanPage guest.old.machine.pages (H.holds host.old) (H.opened host.old) }
    ensures { (left out err : Option (List ℕ)) (take puts err_puts : ℕ) → Tells addr guest.old guest.new
        (around (H.holds host.old) (H.opened host.old) (H.faults host.old) left take out puts err err_puts)
        (around (H.holds host.new) (H.opened host.new) (H.faults host.new) left take out puts err err_puts) result }
{
    match byte_here(&guest.machine.pages, addr) {
        Ok(byte) => Ok(Some(byte)),
        Err(Miss::Away(slot)) => byte_brought(guest, addr, slot, host),
        Err(Miss::Unmapped(_)) => Ok(None),
        Err(Miss::Denied(_)) => Ok(None),
        Err(Miss::NonCanonical(_)) => Ok(None),
    }
}
