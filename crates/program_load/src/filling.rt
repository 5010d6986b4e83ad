//! Pages that are filled while a program is loaded.
ghost use Rattle.std.specs.Prelude.{◌≡◌, ℕ};
ghost use Rattle.machine_state.specs.declared.kinds.Miss.TheVariants.{Away};

use crate::load::Loaded;
use host_edge::{Host, HostCall};
use machine_state::{Kind, Miss, PAGE_SIZE};

/// The slot of the page that is away.
fn away_slot(miss: Miss) -> u32
    requires { (slot : ℕ) × (miss ≡ Away slot) }
    ensures { miss ≡ Away result }
{
    match miss {
        Miss::Away(slot) => slot,
        Miss::Unmapped(_) | Miss::Denied(_) | Miss::NonCanonical(_) => unreachable!(),
    }
}

impl Loaded {
    ghost use Rattle.std.specs.Prelude.{◌≡◌, ◌≤◌, ◌<◌, ◌+◌, ◌%◌, ◌^◌, None, OnOk, length};
    ghost use Rattle.machine_state.specs.Memory.{page_size, first_miss, written};
    ghost use Rattle.machine_state.specs.declared.kinds.Kind.TheVariants.{Write};
    ghost use Rattle.host_edge.specs.Files.{Becomes};
    ghost use Rattle.guest_pages.specs.Table.{perms_in, blocked};
    ghost use Rattle.guest_pages.specs.Pages.{table_of};
    ghost use Rattle.swap_pager.specs.Paging.{CanPage};
    ghost use Rattle.program_load.specs.Faults.{IsSwapCaused};
    ghost use Rattle.program_load.specs.Loading.{KeepsPerms, HaveBytes, KeepsHost};

    /// Brings the page on which bytes lie, if it is away.
    fn bring<H: Host>(&mut self, addr: u64, len: u64, host: &mut H) -> Result<(), HostCall>
        requires some { 0 < len }
        requires one_page { addr % page_size + len ≤ page_size }
        requires allowed { first_miss (perms_in (table_of self.old.pages)) Write addr len ≡ None }
        requires can { CanPage self.old.pages (H.holds host.old) (H.opened host.old) }
        ensures ready { OnOk result (blocked (table_of self.new.pages) Write addr len ≡ None) }
        ensures perms { OnOk result (KeepsPerms self.old.pages self.new.pages) }
        ensures bytes { OnOk result (Becomes (HaveBytes (λ byte. byte) self.old.pages self.new.pages) (H.holds host.old) (H.holds host.new)) }
        ensures can { OnOk result (CanPage self.new.pages (H.holds host.new) (H.opened host.new)) }
        ensures regions { self.new.regions ≡ self.old.regions }
        ensures host { KeepsHost (H.holds host.old) (H.holds host.new) (H.opened host.old) (H.opened host.new) }
        ensures cause { IsSwapCaused result (H.faults host.old) (H.faults host.new) }
    {
        let _ = self.pages.limit();
        match self.pages.ready(addr, len, Kind::Write) {
            Ok(()) => Ok(()),
            Err(miss) => self.pager.bring(&mut self.pages, away_slot(miss), host),
        }
    }

    /// Writes bytes that lie on one page.
    fn write_part<H: Host>(&mut self, addr: u64, bytes: &[u8], host: &mut H) -> Result<(), HostCall>
        requires some { 0 < length bytes.now }
        requires one_page { addr % page_size + length bytes.now ≤ page_size }
        requires allowed { first_miss (perms_in (table_of self.old.pages)) Write addr (length bytes.now) ≡ None }
        requires can { CanPage self.old.pages (H.holds host.old) (H.opened host.old) }
        ensures perms { OnOk result (KeepsPerms self.old.pages self.new.pages) }
        ensures bytes { OnOk result (Becomes (HaveBytes (λ byte. written byte addr bytes.now) self.old.pages self.new.pages)
            (H.holds host.old) (H.holds host.new)) }
        ensures can { OnOk result (CanPage self.new.pages (H.holds host.new) (H.opened host.new)) }
        ensures regions { self.new.regions ≡ self.old.regions }
        ensures host { KeepsHost (H.holds host.old) (H.holds host.new) (H.opened host.old) (H.opened host.new) }
        ensures cause { IsSwapCaused result (H.faults host.old) (H.faults host.new) }
    {
        match self.bring(addr, bytes.len() as u64, host) {
            Ok(()) => {}
            Err(call) => return Err(call),
        }
        match self.pages.write(addr, bytes) {
            Ok(()) => Ok(()),
            Err(_) => unreachable!(),
        }
    }

    /// Writes bytes from an address on, the part on one page after the other.
    pub(crate) fn write<H: Host>(
        &mut self,
        addr: u64,
        bytes: &[u8],
        host: &mut H,
    ) -> Result<(), HostCall>
        requires low { addr + length bytes.now < 2 ^ 64 }
        requires allowed { first_miss (perms_in (table_of self.old.pages)) Write addr (length bytes.now) ≡ None }
        requires can { CanPage self.old.pages (H.holds host.old) (H.opened host.old) }
        ensures perms { OnOk result (KeepsPerms self.old.pages self.new.pages) }
        ensures bytes { OnOk result (Becomes (HaveBytes (λ byte. written byte addr bytes.now) self.old.pages self.new.pages)
            (H.holds host.old) (H.holds host.new)) }
        ensures can { OnOk result (CanPage self.new.pages (H.holds host.new) (H.opened host.new)) }
        ensures regions { self.new.regions ≡ self.old.regions }
        ensures host { KeepsHost (H.holds host.old) (H.holds host.new) (H.opened host.old) (H.opened host.new) }
        ensures cause { IsSwapCaused result (H.faults host.old) (H.faults host.new) }
    {
        let mut done = 0;
        while done < bytes.len() {
            let at = addr + done as u64;
            let end = bytes
                .len()
                .min(done + (PAGE_SIZE - at % PAGE_SIZE) as usize);
            match self.write_part(at, &bytes[done..end], host) {
                Ok(()) => {}
                Err(call) => return Err(call),
            }
            done = end;
        }
        Ok(())
    }
}
