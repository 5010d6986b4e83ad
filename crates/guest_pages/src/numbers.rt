//! Numbers in memory, the lowest byte first.
ghost use Rattle.std.specs.Prelude.{◌≡◌, ◌+◌, ◌*◌, ◌%◌, ◌^◌, ◌<◌, ◌≤◌, None, IsTrue, length};
ghost use Rattle.byteorder.specs.Endian.{little_number};
ghost use Rattle.gpr_flags.specs.Registers.{is_size};
ghost use Rattle.machine_state.specs.Memory.{page_size, Swap, number_at, number_bytes};
ghost use Rattle.guest_pages.specs.Table.{blocked};
ghost use Rattle.guest_pages.specs.Pages.{table_of, byte_of};
ghost use Rattle.guest_pages.specs.Changes.{IsWritten};

use crate::pages::Pages;
use byteorder::{ByteOrder, LittleEndian};
use gpr_flags::low;
use machine_state::{Kind, PAGE_SIZE};

// The number in the first bytes.
fn number(bytes: &[u8], size: u8) -> u64
    requires size { IsTrue (is_size size) }
    requires len { size ≤ length bytes.now }
    ensures value { result ≡ little_number size bytes.now }
    ensures fits { result < 2 ^ (8 * size) }
{
    match size {
        1 => u64::from(bytes[0]),
        2 => u64::from(LittleEndian::read_u16(bytes)),
        4 => u64::from(LittleEndian::read_u32(bytes)),
        _ => LittleEndian::read_u64(bytes),
    }
}

impl Pages {
    // The number in bytes of one page.
    fn load_within(&self, addr: u64, size: u8, kind: Kind) -> u64
        requires size { IsTrue (is_size size) }
        requires one_page { addr % page_size + size ≤ page_size }
        requires ready { blocked (table_of self.now) kind addr size ≡ None }
        ensures value { (w : Swap) → result ≡ number_at (byte_of self.now w) addr size }
        ensures fits { result < 2 ^ (8 * size) }
    {
        match self.view(addr, size as usize, kind) {
            Ok(bytes) => number(bytes, size),
            Err(_) => unreachable!(),
        }
    }

    // The number in bytes of two pages.
    fn load_across(&self, addr: u64, size: u8, kind: Kind) -> u64
        requires size { IsTrue (is_size size) }
        requires ready { blocked (table_of self.now) kind addr size ≡ None }
        ensures value { (w : Swap) → result ≡ number_at (byte_of self.now w) addr size }
        ensures fits { result < 2 ^ (8 * size) }
    {
        let mut bytes = [0; 8];
        match self.read(addr, &mut bytes[..size as usize], kind) {
            Ok(()) => number(&bytes, size),
            Err(_) => unreachable!(),
        }
    }

    /// The number in `size` bytes from `addr` on, which can be accessed so now.
    pub fn load(&self, addr: u64, size: u8, kind: Kind) -> u64
        requires size { IsTrue (is_size size) }
        requires ready { blocked (table_of self.now) kind addr size ≡ None }
        ensures value { (w : Swap) → result ≡ number_at (byte_of self.now w) addr size }
        ensures fits { result < 2 ^ (8 * size) }
    {
        if addr % PAGE_SIZE + u64::from(size) <= PAGE_SIZE {
            self.load_within(addr, size, kind)
        } else {
            self.load_across(addr, size, kind)
        }
    }

    // Writes bytes of one page.
    fn store_within(&mut self, addr: u64, bytes: &[u8])
        requires some { 0 < length bytes.now }
        requires one_page { addr % page_size + length bytes.now ≤ page_size }
        requires ready { blocked (table_of self.old) Kind.Write addr (length bytes.now) ≡ None }
        ensures { IsWritten self.old self.new addr bytes.now }
    {
        self.lend_ready(addr, bytes.len()).copy_from_slice(bytes);
    }

    // Writes bytes of two pages.
    fn store_across(&mut self, addr: u64, bytes: &[u8])
        requires ready { blocked (table_of self.old) Kind.Write addr (length bytes.now) ≡ None }
        ensures { IsWritten self.old self.new addr bytes.now }
    {
        match self.write(addr, bytes) {
            Ok(()) => {}
            Err(_) => unreachable!(),
        }
    }

    /// Writes the low `size` bytes of a number from `addr` on, where they can be written now.
    pub fn store(&mut self, addr: u64, size: u8, number: u64)
        requires size { IsTrue (is_size size) }
        requires ready { blocked (table_of self.old) Kind.Write addr size ≡ None }
        ensures { IsWritten self.old self.new addr (number_bytes size number) }
    {
        let mut bytes = [0; 8];
        let len = size as usize;
        LittleEndian::write_uint(
            &mut bytes,
            low(8 * u32::from(size), u128::from(number)),
            len,
        );
        if addr % PAGE_SIZE + u64::from(size) <= PAGE_SIZE {
            self.store_within(addr, &bytes[..len]);
        } else {
            self.store_across(addr, &bytes[..len]);
        }
    }
}
