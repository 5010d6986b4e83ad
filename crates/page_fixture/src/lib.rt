//! Pages in frames, for the tests of other crates.
#![tactic(auto)]

ghost use Rattle.std.specs.Prelude.{◌≡◌, ◌<◌, ◌/◌, ◌%◌, IsSome, OnOk};
ghost use Rattle.machine_state.specs.Memory.{page_size};
ghost use Rattle.guest_pages.specs.Table.{perms_in};
ghost use Rattle.guest_pages.specs.Pages.{table_of, mapped_count};
ghost use Rattle.guest_pages.specs.Order.{IsAwayIn};

use guest_pages::{Full, Pages};
use machine_state::{Kind, Miss, Perms};

/// Maps the page at the address `addr` with these permissions, in a frame of zeros where one is free.
pub fn map_in_frame(pages: &mut Pages, addr: u64, perms: Perms) -> Result<(), Full>
    requires page { addr % page_size ≡ 0 }
    requires low { addr < 0x800000000000 }
    ensures { OnOk result (IsSome (table_of pages.new (addr / page_size))) }
{
    pages.map_page(addr, Perms::READ)?;
    enter_at(pages, addr);
    pages.set_perms(addr, perms);
    Ok(())
}

/// Gives the page at an address, where a read of it waits, a frame of zeros where one is free.
pub fn enter_at(pages: &mut Pages, addr: u64)
    ensures perms { perms_in (table_of pages.new) ≡ perms_in (table_of pages.old) }
    ensures count { mapped_count pages.new ≡ mapped_count pages.old }
{
    match pages.ready(addr, 1, Kind::Read) {
        Err(Miss::Away(slot)) => enter_zeros(pages, slot),
        Ok(()) | Err(Miss::Unmapped(_)) | Err(Miss::Denied(_)) | Err(Miss::NonCanonical(_)) => {}
    }
}

/// Gives the page in this slot, which is away, a frame of zeros where one is free.
pub fn enter_zeros(pages: &mut Pages, slot: u32)
    requires away { IsAwayIn pages.old slot }
    ensures perms { perms_in (table_of pages.new) ≡ perms_in (table_of pages.old) }
    ensures count { mapped_count pages.new ≡ mapped_count pages.old }
{
    if pages.has_free() {
        pages.enter(slot, &[0; 4096]);
    }
}
