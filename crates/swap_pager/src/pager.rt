//! The pager.
ghost use Rattle.std.specs.Prelude.{◌≡◌, ◌<◌, ◌≤◌, ℕ, List, Some, None, length, OnOk, OnErr};
ghost use Rattle.machine_state.specs.Memory.{page_size};
ghost use Rattle.host_edge.specs.Causes.{raised};
ghost use Rattle.host_edge.specs.Files.{Held, Becomes, KeepsFiles};
ghost use Rattle.guest_pages.specs.Table.{Mapped};
ghost use Rattle.guest_pages.specs.Pages.{mark_of};
ghost use Rattle.guest_pages.specs.Changes.{is_unsaved};
ghost use Rattle.guest_pages.specs.Laws.{AreCounted};
ghost use Rattle.guest_pages.specs.Order.{IsSlotOf, IsResidentIn, IsAwayIn};
ghost use Rattle.guest_pages.specs.Together.{AreClean};
ghost use Rattle.swap_pager.specs.Bringing.{IsBrought, KeepsMemory, IsSaved, LetsGo, IsOnSwap, MustPut, NeedsSwap, IsCaused};
ghost use Rattle.swap_pager.specs.Paging.{CanPage};
ghost use Rattle.swap_pager.specs.Stages.{IsUnsaved, HasRoom, AreAwayBytes};

use guest_pages::Pages;
use host_edge::{Host, HostCall, PAGE_LEN};
use std::alloc::{AllocError, Global};
use std::marker::Model;

/// What brings pages: room for the bytes of one page, and how many pages were brought.
#[derive(Drop)]
pub struct Pager {
    buffer: Vec<u8>,
    loads: u64,
}

impl Model for Pager {
    ghost use Rattle.std.specs.Prelude.{◌≡◌, length};
    ghost use Rattle.machine_state.specs.Memory.{page_size};
    ghost use Rattle.swap_pager.specs.Bringing.{PagerValue};

    ghost Value = { PagerValue };

    ghost view = { λ pager. record { loads = pager.loads } };

    ghost invariant = { λ pager. length pager.buffer.items ≡ page_size };
}

impl Pager {
    ghost use Rattle.std.specs.Prelude.{◌≡◌, ◌≤◌, ◌<◌, ℕ, List, Some, length, IfOk, OnOk, OnErr};

    /// Takes the memory for one page.
    pub fn new(alloc: Global) -> Result<Pager, AllocError>
        ensures { IfOk result (λ new. new.loads ≡ 0) }
    {
        let buffer = vec![in alloc; 0u8; PAGE_LEN]?;
        Ok(Pager { buffer, loads: 0 })
    }

    /// How many pages were brought, up to 2^64 - 1.
    pub fn loads(&self) -> u64
        ensures { result ≡ self.now.loads }
    {
        self.loads
    }

    /// Brings the page in this slot, which is away, into a frame. It is the page brought last then. Where no frame is free
    /// the page brought first gives its frame up, and is put to the swap if it has unsaved bytes.
    ///
    /// Where it fails, the pages and the pager are of no use any more.
    pub fn bring<H: Host>(
        &mut self,
        pages: &mut Pages,
        slot: u32,
        host: &mut H,
    ) -> Result<(), HostCall>
        requires away { IsAwayIn pages.old slot }
        requires open { NeedsSwap pages.old slot → length pages.old.slots ≤ H.opened host.old }
        requires clean { (held : Held) → H.holds host.old ≡ Some held → AreClean pages.old held.page }
        ensures brought { OnOk result (IsBrought pages.old pages.new slot) }
        ensures memory { OnOk result (Becomes (KeepsMemory pages.old pages.new) (H.holds host.old) (H.holds host.new)) }
        ensures swap { OnOk result (LetsGo pages.old (H.holds host.old) (H.holds host.new)) }
        ensures can_page { OnOk result (CanPage pages.old (H.holds host.old) (H.opened host.old)
            → CanPage pages.new (H.holds host.new) (H.opened host.new)) }
        ensures loads { OnOk result (self.new.loads ≡ raised self.old.loads) }
        ensures err { OnErr result (self.new ≡ self.old) }
        ensures files { Becomes KeepsFiles (H.holds host.old) (H.holds host.new) }
        ensures opened { H.opened host.new ≡ H.opened host.old }
        ensures cause { IsCaused (IsOnSwap pages.old slot) (MustPut pages.old) result (H.faults host.old) (H.faults host.new) }
    {
        make_room(pages, host)?;
        fetch(pages, slot, &mut self.buffer, host)?;
        pages.enter(slot, &self.buffer);
        self.loads = self.loads.saturating_add(1);
        Ok(())
    }
}

// Puts the bytes of a page in a frame to the swap, if it was written since it was put or mapped.
fn save<H: Host>(pages: &Pages, slot: u32, host: &mut H) -> Result<(), HostCall>
    requires resident { IsResidentIn pages.now slot }
    requires open { slot < H.opened host.old }
    ensures saved { OnOk result ((page : ℕ) (mapped : Mapped) → IsSlotOf pages.now slot page mapped
        → IsSaved (is_unsaved (mark_of pages.now page)) pages.now slot page (H.holds host.old) (H.holds host.new)) }
    ensures files { Becomes KeepsFiles (H.holds host.old) (H.holds host.new) }
    ensures opened { H.opened host.new ≡ H.opened host.old }
    ensures cause { IsCaused ⊥ (IsUnsaved pages.now slot) result (H.faults host.old) (H.faults host.new) }
{
    match pages.unsaved(slot) {
        Some(bytes) => match host.swap_put(slot, bytes) {
            Ok(()) => Ok(()),
            Err(_) => Err(HostCall::SwapPut),
        },
        None => Ok(()),
    }
}

// Makes a frame free, where none is, by letting the page brought first go.
fn make_room<H: Host>(pages: &mut Pages, host: &mut H) -> Result<(), HostCall>
    requires open { pages.old.frames ≤ length pages.old.recent → length pages.old.slots ≤ H.opened host.old }
    ensures room { OnOk result (HasRoom pages.old pages.new (H.holds host.old) (H.holds host.new)) }
    ensures counts { AreCounted pages.old }
    ensures files { Becomes KeepsFiles (H.holds host.old) (H.holds host.new) }
    ensures opened { H.opened host.new ≡ H.opened host.old }
    ensures cause { IsCaused ⊥ (MustPut pages.old) result (H.faults host.old) (H.faults host.new) }
{
    if pages.has_free() {
        return Ok(());
    }
    let first = pages.first_brought();
    save(pages, first, host)?;
    pages.leave(first);
    Ok(())
}

// Gets the bytes of a page that is away.
fn fetch<H: Host>(pages: &Pages, slot: u32, into: &mut [u8], host: &mut H) -> Result<(), HostCall>
    requires away { IsAwayIn pages.now slot }
    requires open { IsOnSwap pages.now slot → slot < H.opened host.old }
    requires page { length into.old ≡ page_size }
    ensures bytes { OnOk result ((held : Held) → H.holds host.old ≡ Some held → AreAwayBytes pages.now slot held into.new) }
    ensures len { length into.new ≡ page_size }
    ensures holds { H.holds host.new ≡ H.holds host.old }
    ensures opened { H.opened host.new ≡ H.opened host.old }
    ensures cause { IsCaused (IsOnSwap pages.now slot) ⊥ result (H.faults host.old) (H.faults host.new) }
{
    if !pages.on_swap(slot) {
        into.fill(0);
        return Ok(());
    }
    match host.swap_get(slot, into) {
        Ok(()) => Ok(()),
        Err(_) => Err(HostCall::SwapGet),
    }
}
