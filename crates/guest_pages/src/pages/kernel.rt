//! What the kernel writes, which looks at no permissions.
ghost use Rattle.std.specs.Prelude.{◌≡◌, ◌≤◌, ◌<◌, ◌+◌, ◌/◌, ◌%◌, length, IsSome, OnOk, OnErr};
ghost use Rattle.machine_state.specs.Memory.{page_size};

use super::Pages;
use crate::entry::lend;
use machine_state::{Miss, PAGE_SIZE};

impl Pages {
    ghost use Rattle.std.specs.Prelude.{◌≡◌, ◌≤◌, ◌<◌, ◌+◌, ◌/◌, ◌%◌, length, IsSome, OnOk, OnErr};
    ghost use Rattle.machine_state.specs.Memory.{page_size};
    ghost use Rattle.guest_pages.specs.Table.{answer_of, away_at};
    ghost use Rattle.guest_pages.specs.Pages.{table_of};
    ghost use Rattle.guest_pages.specs.Changes.{IsWritten};

    /// Writes bytes within one mapped page, whatever its permissions. The page counts as written.
    pub fn put(&mut self, addr: u64, bytes: &[u8]) -> Result<(), Miss>
        requires some { 0 < length bytes.now }
        requires one_page { addr % page_size + length bytes.now ≤ page_size }
        requires mapped { IsSome (table_of self.old (addr / page_size)) }
        ensures answer { result ≡ answer_of (away_at (table_of self.old (addr / page_size))) }
        ensures ok { OnOk result (IsWritten self.old self.new addr bytes.now) }
        ensures err { OnErr result (self.new ≡ self.old) }
    {
        match self.seat(addr / PAGE_SIZE) {
            Some(k) => match self.away_slot(k) {
                Some(slot) => Err(Miss::Away(slot)),
                None => {
                    let slot = &mut self.slots[k as usize];
                    lend(slot, (addr % PAGE_SIZE) as usize, bytes.len()).copy_from_slice(bytes);
                    Ok(())
                }
            },
            None => unreachable!(),
        }
    }
}
