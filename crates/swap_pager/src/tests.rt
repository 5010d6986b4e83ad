//! Pages that come and go over a host in memory.
ghost use Rattle.std.specs.Prelude.{◌≡◌, ◌≤◌, ◌<◌, ◌*◌, ◌%◌, length, OnOk, IfOk};
ghost use Rattle.machine_state.specs.Memory.{Swap};
ghost use Rattle.host_edge.specs.MemHost.{held_by};
ghost use Rattle.guest_pages.specs.Together.{AreClean};

use crate::{Pager, Pages};
use guest_pages::{Full, clean_law};
use host_edge::{Host, HostCall, MemHost};
use machine_state::{Kind, Miss, Perms};
use std::alloc::{AllocError, Global};
use std::process::Abort;
use std::test::Fail;

const BOTH: Perms = Perms(3);

const BASE: u64 = 0x40_0000;

const PAGES: u64 = 64;

// The pages of a guest, and what brings them over a host in memory.
#[derive(Drop)]
struct Guest {
    pager: Pager,
    pages: Pages,
    host: MemHost,
}

// A guest without pages, over an open swap; the calls of the host with these numbers fail, the opening being the first.
fn new_guest(rt: &impl Abort, alloc: Global, pages: u32, fail: &[u64]) -> Result<Guest, AllocError>
    requires some { 8 ≤ pages }
    ensures open { IfOk result (λ guest. length guest.pages.slots ≤ guest.host.opened) }
    ensures clean { IfOk result (λ guest. AreClean guest.pages (held_by guest.host).page) }
{
    let mut host = MemHost::new(alloc, Vec::new(alloc), 0, pages, fail)?;
    match host.swap_open("swap", pages) {
        Ok(()) => {}
        Err(_) => panic!(rt; "the swap isn't opened"),
    }
    let guest = Guest {
        pager: Pager::new(alloc)?,
        pages: Pages::new(alloc, 8, pages)?,
        host,
    };
    clean_law();
    Ok(guest)
}

// Brings the first page of an access that is away, if there is one.
fn reach_page(guest: &mut Guest, addr: u64, len: u64, kind: Kind) -> Result<(), HostCall>
    requires open { length guest.old.pages.slots ≤ guest.old.host.opened }
    requires clean { AreClean guest.old.pages (held_by guest.old.host).page }
    ensures open { OnOk result (length guest.new.pages.slots ≤ guest.new.host.opened) }
    ensures clean { OnOk result (AreClean guest.new.pages (held_by guest.new.host).page) }
{
    match guest.pages.ready(addr, len, kind) {
        Err(Miss::Away(slot)) => guest.pager.bring(&mut guest.pages, slot, &mut guest.host),
        Ok(()) | Err(Miss::Unmapped(_)) | Err(Miss::Denied(_)) | Err(Miss::NonCanonical(_)) => Ok(
            (),
        ),
    }
}

// Brings the pages of an access, of which there are at most two.
fn reach(guest: &mut Guest, addr: u64, len: u64, kind: Kind) -> Result<(), HostCall>
    requires open { length guest.old.pages.slots ≤ guest.old.host.opened }
    requires clean { AreClean guest.old.pages (held_by guest.old.host).page }
    ensures open { OnOk result (length guest.new.pages.slots ≤ guest.new.host.opened) }
    ensures clean { OnOk result (AreClean guest.new.pages (held_by guest.new.host).page) }
{
    reach_page(guest, addr, len, kind)?;
    reach_page(guest, addr, len, kind)
}

// A change of a guest's pages.
#[derive(Clone, Copy)]
enum Change {
    Map,
    Unmap,
    Zero,
}

// Changes the page at an address, whose number is below 64. A page that isn't mapped isn't filled with zeros.
fn make_change(pages: &mut Pages, addr: u64, change: Change) -> Result<(), Full>
    requires page { addr % 4096 ≡ 0 }
    requires low { addr < 0x800000000000 }
    ensures clean { (swap : Swap) → AreClean pages.old swap → AreClean pages.new swap }
    ensures slots { length pages.new.slots ≡ length pages.old.slots }
{
    clean_law();
    match change {
        Change::Map => pages.map_page(addr, BOTH)?,
        Change::Unmap => pages.unmap_page(addr),
        Change::Zero => match pages.allowed(addr, 1, Kind::Read) {
            Ok(()) => pages.zero_page(addr),
            Err(_) => {}
        },
    }
    Ok(())
}

// Writes bytes, or answers that it can't.
fn write(pages: &mut Pages, addr: u64, bytes: &[u8]) -> bool
    ensures clean { (swap : Swap) → AreClean pages.old swap → AreClean pages.new swap }
    ensures slots { length pages.new.slots ≡ length pages.old.slots }
{
    clean_law();
    pages.write(addr, bytes).is_ok()
}

// Numbers that are drawn by a linear congruence.
#[derive(Drop)]
struct Draws(u64);

impl Draws {
    // The next number below this one.
    fn next(&mut self, below: u64) -> u64
        requires { 0 < below }
        ensures { result < below }
    {
        self.0 = self
            .0
            .wrapping_mul(0x5851_F42D_4C95_7F2D)
            .wrapping_add(0x1405_7B7E_F767_814F);
        (self.0 >> 33) % below
    }
}

// A plain memory of 64 pages from `BASE` on, and which of them are mapped.
#[derive(Drop)]
struct Plain {
    bytes: Vec<u8>,
    mapped: Vec<bool>,
}

impl Plain {
    fn new(alloc: Global) -> Result<Plain, AllocError> {
        Ok(Plain {
            bytes: vec![in alloc; 0u8; 0x4_0000]?,
            mapped: vec![in alloc; false; 64]?,
        })
    }

    // Whether the page of this number is mapped.
    fn has(&self, page: u64) -> bool {
        matches!(self.mapped.get(page as usize), Some(true))
    }

    // The byte at an offset.
    fn byte(&self, at: u64) -> u8 {
        match self.bytes.get(at as usize) {
            Some(byte) => *byte,
            None => 0,
        }
    }

    fn put(&mut self, at: u64, byte: u8) {
        if (at as usize) < self.bytes.len() {
            self.bytes[at as usize] = byte;
        }
    }

    // Makes a page zeros.
    fn clear(&mut self, page: u64)
        requires { page < 64 }
    {
        for i in 0..4096u64 {
            self.put(page * 4096 + i, 0);
        }
    }

    fn set_mapped(&mut self, page: u64, mapped: bool) {
        if (page as usize) < self.mapped.len() {
            self.mapped[page as usize] = mapped;
        }
    }

    // Writes bytes from an offset on.
    fn write(&mut self, at: u64, bytes: &[u8])
        requires { at < 0x4_0000 }
    {
        for (i, byte) in bytes.iter().enumerate() {
            self.put(at.saturating_add(i as u64), *byte);
        }
    }
}

// Changes a page of the guest, and of the plain memory.
fn change_both(rt: &impl Abort, guest: &mut Guest, plain: &mut Plain, page: u64, change: Change)
    requires page { page < 64 }
    requires open { length guest.old.pages.slots ≤ guest.old.host.opened }
    requires clean { AreClean guest.old.pages (held_by guest.old.host).page }
    ensures open { length guest.new.pages.slots ≤ guest.new.host.opened }
    ensures clean { AreClean guest.new.pages (held_by guest.new.host).page }
{
    let made = make_change(&mut guest.pages, BASE + page * 4096, change);
    assert_eq!(rt; made, Ok(()), "page {page}");
    match change {
        Change::Map => plain.set_mapped(page, true),
        Change::Unmap => plain.set_mapped(page, false),
        Change::Zero => {}
    }
    plain.clear(page);
}

// Brings the pages of an access, and expects that no call of the host fails.
fn reach_both(rt: &impl Abort, guest: &mut Guest, at: u64, len: u64, kind: Kind)
    requires page { at < 0x4_0000 }
    requires open { length guest.old.pages.slots ≤ guest.old.host.opened }
    requires clean { AreClean guest.old.pages (held_by guest.old.host).page }
    ensures open { length guest.new.pages.slots ≤ guest.new.host.opened }
    ensures clean { AreClean guest.new.pages (held_by guest.new.host).page }
{
    match reach(guest, BASE + at, len, kind) {
        Ok(()) => {}
        Err(call) => panic!(rt; "{call:?} at {at:#x}"),
    }
}

// Writes bytes to the guest, and to the plain memory if the pages are mapped.
fn write_both(rt: &impl Abort, guest: &mut Guest, plain: &mut Plain, at: u64, bytes: &[u8; 8])
    requires page { at < 0x4_0000 }
    requires open { length guest.old.pages.slots ≤ guest.old.host.opened }
    requires clean { AreClean guest.old.pages (held_by guest.old.host).page }
    ensures open { length guest.new.pages.slots ≤ guest.new.host.opened }
    ensures clean { AreClean guest.new.pages (held_by guest.new.host).page }
{
    reach_both(rt, guest, at, 8, Kind::Write);
    let wrote = write(&mut guest.pages, BASE + at, bytes);
    let want = plain.has(at / 4096) && plain.has((at + 7) / 4096);
    assert_eq!(rt; wrote, want, "at {at:#x}");
    if wrote {
        plain.write(at, bytes);
    }
}

// Reads bytes of the guest, and expects those of the plain memory if the pages are mapped.
fn read_both(rt: &impl Abort, guest: &mut Guest, plain: &Plain, at: u64)
    requires page { at < 0x4_0000 }
    requires open { length guest.old.pages.slots ≤ guest.old.host.opened }
    requires clean { AreClean guest.old.pages (held_by guest.old.host).page }
    ensures open { length guest.new.pages.slots ≤ guest.new.host.opened }
    ensures clean { AreClean guest.new.pages (held_by guest.new.host).page }
{
    reach_both(rt, guest, at, 16, Kind::Read);
    let mut shown = [0u8; 16];
    let read = guest.pages.read(BASE + at, &mut shown, Kind::Read).is_ok();
    let want = plain.has(at / 4096) && plain.has((at + 15) / 4096);
    assert_eq!(rt; read, want, "at {at:#x}");
    if read {
        expect_shown(rt, plain, at, &shown);
    }
}

// Expects that bytes are those of the plain memory from an offset on.
fn expect_shown(rt: &impl Abort, plain: &Plain, at: u64, shown: &[u8; 16]) {
    for (i, byte) in shown.iter().enumerate() {
        let at = at.saturating_add(i as u64);
        assert_eq!(rt; *byte, plain.byte(at), "at {at:#x}");
    }
}

// Makes a drawn step: of sixteen, two map a page, one unmaps one, one fills one with zeros, nine write and three bring.
fn make_step(rt: &impl Abort, guest: &mut Guest, plain: &mut Plain, draws: &mut Draws)
    requires open { length guest.old.pages.slots ≤ guest.old.host.opened }
    requires clean { AreClean guest.old.pages (held_by guest.old.host).page }
    ensures open { length guest.new.pages.slots ≤ guest.new.host.opened }
    ensures clean { AreClean guest.new.pages (held_by guest.new.host).page }
{
    let at = draws.next(0x4_0000);
    match draws.next(16) {
        0 | 1 => change_both(rt, guest, plain, at / 4096, Change::Map),
        2 => change_both(rt, guest, plain, at / 4096, Change::Unmap),
        3 => change_both(rt, guest, plain, at / 4096, Change::Zero),
        4..=12 => {
            let bytes = draws.next(u64::MAX).to_le_bytes();
            write_both(rt, guest, plain, at, &bytes);
        }
        _ => reach_both(rt, guest, at, 1, Kind::Read),
    }
}

// Makes so many drawn steps, and reads something after each.
fn make_steps(rt: &impl Abort, guest: &mut Guest, plain: &mut Plain, draws: &mut Draws, count: u64)
    requires open { length guest.old.pages.slots ≤ guest.old.host.opened }
    requires clean { AreClean guest.old.pages (held_by guest.old.host).page }
    ensures open { length guest.new.pages.slots ≤ guest.new.host.opened }
    ensures clean { AreClean guest.new.pages (held_by guest.new.host).page }
{
    for _ in 0..count {
        make_step(rt, guest, plain, draws);
        let at = draws.next(0x4_0000);
        read_both(rt, guest, plain, at);
    }
}

// Reads all pages.
fn read_all(rt: &impl Abort, guest: &mut Guest, plain: &Plain)
    requires open { length guest.old.pages.slots ≤ guest.old.host.opened }
    requires clean { AreClean guest.old.pages (held_by guest.old.host).page }
{
    for i in 0..0x4000u64 {
        read_both(rt, guest, plain, i * 16);
    }
}

#[test]
fn drawn_steps_leave_what_a_plain_memory_has(rt: HostRuntime) -> Result<(), Fail> {
    let mut guest = new_guest(&rt, rt.alloc(), 64, &[])?;
    let mut plain = Plain::new(rt.alloc())?;
    make_steps(&rt, &mut guest, &mut plain, &mut Draws(1), 10_000);
    read_all(&rt, &mut guest, &plain);
    assert!(rt; guest.pager.loads() > 5_000);
    Ok(())
}

// Brings a page for a write or a read of its first byte.
fn use_page(guest: &mut Guest, page: u64, kind: Kind) -> Result<(), HostCall>
    requires page { page < 64 }
    requires open { length guest.old.pages.slots ≤ guest.old.host.opened }
    requires clean { AreClean guest.old.pages (held_by guest.old.host).page }
    ensures open { OnOk result (length guest.new.pages.slots ≤ guest.new.host.opened) }
    ensures clean { OnOk result (AreClean guest.new.pages (held_by guest.new.host).page) }
{
    reach_page(guest, BASE + page * 4096, 1, kind)?;
    match kind {
        Kind::Write => {
            write(&mut guest.pages, BASE + page * 4096, &[page as u8 + 1]);
        }
        Kind::Read | Kind::Execute => {}
    }
    Ok(())
}

// Brings so many pages, the lowest first.
fn use_pages(guest: &mut Guest, count: u64, kind: Kind) -> Result<(), HostCall>
    requires page { count ≤ 64 }
    requires open { length guest.old.pages.slots ≤ guest.old.host.opened }
    requires clean { AreClean guest.old.pages (held_by guest.old.host).page }
    ensures open { OnOk result (length guest.new.pages.slots ≤ guest.new.host.opened) }
    ensures clean { OnOk result (AreClean guest.new.pages (held_by guest.new.host).page) }
{
    for page in 0..count {
        use_page(guest, page, kind)?;
    }
    Ok(())
}

// Maps the ten pages.
fn map_pages(guest: &mut Guest) -> Result<(), Full>
    requires open { length guest.old.pages.slots ≤ guest.old.host.opened }
    requires clean { AreClean guest.old.pages (held_by guest.old.host).page }
    ensures open { OnOk result (length guest.new.pages.slots ≤ guest.new.host.opened) }
    ensures clean { OnOk result (AreClean guest.new.pages (held_by guest.new.host).page) }
{
    for page in 0..10u64 {
        make_change(&mut guest.pages, BASE + page * 4096, Change::Map)?;
    }
    Ok(())
}

// Writes ten pages and reads them, and answers the first call of the host that fails.
fn write_and_read(guest: &mut Guest) -> Result<(), HostCall>
    requires open { length guest.old.pages.slots ≤ guest.old.host.opened }
    requires clean { AreClean guest.old.pages (held_by guest.old.host).page }
{
    use_pages(guest, 10, Kind::Write)?;
    use_pages(guest, 10, Kind::Read)
}

// Which call is the one with this number, the opening of the swap being the first: two pages are put as the last two are
// written; then each of eight pages is got where one that was written is put, and two where one that was only read leaves.
fn expected_call(number: u64) -> Option<HostCall> {
    match number {
        2 | 3 => Some(HostCall::SwapPut),
        20 | 21 => Some(HostCall::SwapGet),
        4..=19 => {
            if number % 2 == 0 {
                Some(HostCall::SwapPut)
            } else {
                Some(HostCall::SwapGet)
            }
        }
        _ => None,
    }
}

#[test]
fn each_get_and_put_fails_in_turn(rt: HostRuntime) -> Result<(), Fail> {
    for number in 2..=23u64 {
        let mut guest = new_guest(&rt, rt.alloc(), 10, &[number])?;
        map_pages(&mut guest)?;
        let call = write_and_read(&mut guest).err();
        assert_eq!(rt; call, expected_call(number), "call {number}");
        if call.is_none() {
            assert_eq!(rt; guest.pager.loads(), 20);
        }
    }
    Ok(())
}
