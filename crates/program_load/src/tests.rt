//! Loaded programs: which bytes and permissions stand where. What is expected is ELF-64's, and this program's own choice of the
//! stack's place and of the zeros around a file's bytes.
ghost use Rattle.std.specs.Prelude.{◌≡◌, ◌≤◌, ◌<◌, length, IfOk, OnOk};
ghost use Rattle.host_edge.specs.MemHost.{held_by};
ghost use Rattle.guest_pages.specs.Together.{AreClean};

mod rows;

use crate::*;
use elf_image::read_image;
use host_edge::{Host, HostCall, MemHost};
use machine_state::{Kind, Miss, Perms};
use rows::*;
use start_stack::{STACK_TOP, stack_bytes};
use std::alloc::{AllocError, Global};
use std::process::Abort;
use std::test::Fail;

/// How many pages the guests of these tests may map.
const PAGES: u32 = 512;

/// Writes the bytes of a number from a place on, as far as they fit.
fn put(bytes: &mut [u8], place: usize, number: u64) {
    for (i, byte) in number.to_le_bytes().iter().enumerate() {
        if place < bytes.len() && i < bytes.len() - place {
            bytes[place + i] = *byte;
        }
    }
}

/// The file of a row.
fn file(alloc: Global, row: &Row) -> Result<Vec<u8>, AllocError> {
    let mut bytes = Vec::new(alloc);
    for place in 0..row.len {
        bytes.push((place % 251) as u8 + 1)?;
    }
    for (place, byte) in HELLO[..64].iter().enumerate() {
        if place < bytes.len() {
            bytes[place] = *byte;
        }
    }
    put(
        bytes.as_mut_slice(),
        16,
        u64::from(row.kind) | 62 << 16 | 1 << 32,
    );
    put(bytes.as_mut_slice(), 56, row.segments.len() as u64);
    for (i, (flags, offset, addr, file_len, mem_len)) in row.segments.iter().enumerate() {
        if i < 64 {
            let place = 64 + 56 * i;
            put(bytes.as_mut_slice(), place, (flags & 7) << 32 | 1);
            put(bytes.as_mut_slice(), place + 8, *offset);
            put(bytes.as_mut_slice(), place + 16, *addr);
            put(bytes.as_mut_slice(), place + 32, *file_len);
            put(bytes.as_mut_slice(), place + 40, *mem_len);
        }
    }
    Ok(bytes)
}

/// A loaded program, over a host in memory.
#[derive(Drop)]
struct Trial {
    loaded: Loaded,
    host: MemHost,
}

/// A host with an open swap, on which the calls with these numbers fail, the opening being the first.
fn host(rt: &impl Abort, alloc: Global, fail: &[u64]) -> Result<MemHost, AllocError>
    ensures { IfOk result (λ host. host.opened ≡ PAGES) }
{
    let mut host = MemHost::new(alloc, Vec::new(alloc), 0, PAGES, fail)?;
    match host.swap_open("swap", PAGES) {
        Ok(()) => {}
        Err(_) => panic!(rt; "the swap isn't opened"),
    }
    Ok(host)
}

/// What a file is loaded as in so many frames, for a program `hello` without further arguments and environment.
fn load(
    rt: &impl Abort,
    alloc: Global,
    bytes: &[u8],
    frames: u32,
    fail: &[u64],
) -> Result<Result<Trial, LoadFault>, Fail>
    requires least { 8 ≤ frames }
    requires most { frames ≤ PAGES }
    ensures { IfOk result (λ answer. IfOk answer (λ trial. length trial.loaded.pages.slots ≤ trial.host.opened
        × AreClean trial.loaded.pages (held_by trial.host).page)) }
{
    let mut host = host(rt, alloc, fail)?;
    let args = vec![in alloc; String::from_str(alloc, "hello")?]?;
    let env = Vec::new(alloc);
    let image = match read_image(bytes, PAGES) {
        Ok(image) => image,
        Err(_) => panic!(rt; "no image"),
    };
    let stack = stack_bytes(alloc, &image, &args, &env, 0)?;
    match load_pages(alloc, bytes, &image, &stack, PAGES, frames, &mut host) {
        Ok(loaded) => Ok(Ok(Trial { loaded, host })),
        Err(fault) => Ok(Err(fault)),
    }
}

/// Brings the page of a byte that is read, if it is away.
fn reach(trial: &mut Trial, addr: u64) -> Result<(), HostCall>
    requires open { length trial.old.loaded.pages.slots ≤ trial.old.host.opened }
    requires clean { AreClean trial.old.loaded.pages (held_by trial.old.host).page }
    ensures open { OnOk result (length trial.new.loaded.pages.slots ≤ trial.new.host.opened) }
    ensures clean { OnOk result (AreClean trial.new.loaded.pages (held_by trial.new.host).page) }
{
    let loaded = &mut trial.loaded;
    match loaded.pages.ready(addr, 1, Kind::Read) {
        Err(Miss::Away(slot)) => loaded.pager.bring(&mut loaded.pages, slot, &mut trial.host),
        Ok(()) | Err(Miss::Unmapped(_)) | Err(Miss::Denied(_)) | Err(Miss::NonCanonical(_)) => Ok(
            (),
        ),
    }
}

/// The byte at an address, whose page is brought if it is away; none where it isn't readable.
fn read_byte(trial: &mut Trial, addr: u64) -> Result<Option<u8>, HostCall>
    requires open { length trial.old.loaded.pages.slots ≤ trial.old.host.opened }
    requires clean { AreClean trial.old.loaded.pages (held_by trial.old.host).page }
    ensures open { OnOk result (length trial.new.loaded.pages.slots ≤ trial.new.host.opened) }
    ensures clean { OnOk result (AreClean trial.new.loaded.pages (held_by trial.new.host).page) }
{
    reach(trial, addr)?;
    let mut read = [0];
    match trial.loaded.pages.read(addr, &mut read, Kind::Read) {
        Ok(()) => Ok(Some(read[0])),
        Err(_) => Ok(None),
    }
}

/// The bytes from an address on are these.
fn expect_bytes(rt: &impl Abort, trial: &mut Trial, addr: u64, bytes: &[u8])
    requires open { length trial.old.loaded.pages.slots ≤ trial.old.host.opened }
    requires clean { AreClean trial.old.loaded.pages (held_by trial.old.host).page }
    ensures open { length trial.new.loaded.pages.slots ≤ trial.new.host.opened }
    ensures clean { AreClean trial.new.loaded.pages (held_by trial.new.host).page }
{
    for (i, byte) in bytes.iter().enumerate() {
        match read_byte(trial, addr.wrapping_add(i as u64)) {
            Ok(read) => assert_eq!(rt; read, Some(*byte), "{addr} + {i}"),
            Err(_) => panic!(rt; "a page isn't brought"),
        }
    }
}

/// The bytes from some addresses on are these.
fn expect_parts(rt: &impl Abort, trial: &mut Trial, parts: &[(u64, &[u8])])
    requires open { length trial.old.loaded.pages.slots ≤ trial.old.host.opened }
    requires clean { AreClean trial.old.loaded.pages (held_by trial.old.host).page }
{
    for (addr, bytes) in parts {
        expect_bytes(rt, trial, *addr, bytes);
    }
}

/// Whether the page at an address has these permissions, and is of a file or not.
fn has_page(loaded: &Loaded, addr: u64, perms: u8, file: bool) -> bool {
    for kind in [Kind::Read, Kind::Write, Kind::Execute] {
        if loaded.pages.allowed(addr, 1, kind).is_ok() != Perms(perms).permits(kind) {
            return false;
        }
    }
    loaded.regions.origin(addr) == Some(file)
}

fn is_unmapped(loaded: &Loaded, addr: u64) -> bool {
    loaded.pages.allowed(addr, 1, Kind::Read) == Err(Miss::Unmapped(addr))
        && loaded.regions.origin(addr).is_none()
}

fn expect_row(rt: &impl Abort, trial: &mut Trial, row: &Row)
    requires open { length trial.old.loaded.pages.slots ≤ trial.old.host.opened }
    requires clean { AreClean trial.old.loaded.pages (held_by trial.old.host).page }
{
    for (addr, perms) in row.perms {
        assert!(rt; has_page(&trial.loaded, *addr, *perms, true), "{addr}");
    }
    for addr in row.unmapped {
        assert!(rt; is_unmapped(&trial.loaded, *addr), "{addr}");
    }
    expect_parts(rt, trial, row.bytes);
}

/// Each file of the rows is loaded, in so many frames.
fn expect_rows(rt: &impl Abort, alloc: Global, frames: u32) -> Result<(), Fail>
    requires least { 8 ≤ frames }
    requires most { frames ≤ PAGES }
{
    for row in &ROWS {
        match load(rt, alloc, &file(alloc, row)?, frames, &[])? {
            Ok(mut trial) => expect_row(rt, &mut trial, row),
            Err(fault) => panic!(rt; "{fault}"),
        }
    }
    Ok(())
}

#[test]
fn segments_stand_in_their_pages(rt: HostRuntime) -> Result<(), Fail> {
    expect_rows(&rt, rt.alloc(), PAGES)
}

#[test]
fn segments_stand_in_their_pages_over_few_frames(rt: HostRuntime) -> Result<(), Fail> {
    expect_rows(&rt, rt.alloc(), 8)
}

#[test]
fn hello_stands_with_its_stack(rt: HostRuntime) -> Result<(), Fail> {
    let mut trial = match load(&rt, rt.alloc(), &HELLO, 8, &[])? {
        Ok(trial) => trial,
        Err(fault) => panic!(rt; "{fault}"),
    };
    for (addr, perms, file) in HELLO_PAGES {
        assert!(rt; has_page(&trial.loaded, addr, perms, file), "{addr}");
    }
    for addr in [0x3F_FFFF, 0x40_1000, 0x7FFF_FFEF_EFFF, STACK_TOP] {
        assert!(rt; is_unmapped(&trial.loaded, addr), "{addr}");
    }
    assert_eq!(rt; trial.loaded.regions.heap_start(), 0x40_1000);
    assert_eq!(rt; trial.loaded.regions.break_at(), 0x40_1000);
    expect_bytes(&rt, &mut trial, 0x40_0000, &HELLO);
    expect_parts(&rt, &mut trial, &HELLO_BYTES);
    Ok(())
}

/// The last row has eleven pages from its file, and the stack has one: in eight frames four of them are put to the swap.
#[test]
fn a_failed_put_is_told(rt: HostRuntime) -> Result<(), Fail> {
    let bytes = file(rt.alloc(), &ROWS[5])?;
    for call in 2..6 {
        match load(&rt, rt.alloc(), &bytes, 8, &[call])? {
            Ok(_) => panic!(rt; "call {call}"),
            Err(fault) => assert!(rt; fault == LoadFault::Host(HostCall::SwapPut), "call {call}"),
        }
    }
    assert!(rt; load(&rt, rt.alloc(), &bytes, 8, &[6])?.is_ok());
    assert!(rt; load(&rt, rt.alloc(), &bytes, PAGES, &[2])?.is_ok());
    Ok(())
}
