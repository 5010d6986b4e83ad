//! Calls at work, one after the other in one guest: each table has the calls with their arguments and what they answer.
ghost use Rattle.std.specs.Prelude.{◌≡◌, IfOk, OnSome};
ghost use Rattle.region_map.specs.Calls.{FitPages};
ghost use Rattle.linux_calls.specs.View.{view_of, FitParts, SameParts};
ghost use Rattle.linux_calls.specs.Waiting.{Begins, CanGoOn, NeedsAt};
ghost use Rattle.linux_calls.specs.declared.kinds.Stage.TheVariants.{Start};

mod cases;

use crate::kinds::{CallEnd, Progress};
use crate::world::{R8, R9, R10};
use crate::{World, answer};
use cases::{
    Step, buffers, drawn, files as file_calls, full, lists, mapping, others, random, records,
    streams,
};
use gpr_flags::{Gprs, RAX, RDI, RDX, RSI};
use guest_files::{Entry, Files};
use guest_pages::Pages;
use host_edge::{HostCall, MemSink, MemSource};
use page_fixture::enter_zeros;
use region_map::Regions;
use std::alloc::{AllocError, Global};
use std::test::Fail;

/// More pages than a call of the tables needs.
const MOST_ENTERED: u32 = 8;

/// A guest's parts, before a call.
#[derive(Drop)]
struct Guest {
    gprs: Gprs,
    fs: u64,
    gs: u64,
    pages: Pages,
    regions: Regions,
    files: Files,
    random: u64,
    progress: Progress,
    steps: u64,
}

// Answers a call, in which so many pages that it waits for are entered.
fn answer_with(
    w: &mut World,
    most: u32,
    input: &mut MemSource,
    out: &mut MemSink,
    err: &mut MemSink,
) -> CallEnd
    requires can_go_on { CanGoOn (view_of w.old) }
    requires fit { FitParts (view_of w.old) }
    ensures parts { SameParts w.old w.new }
    ensures fit { FitParts (view_of w.new) }
    ensures needs { NeedsAt (view_of w.new) result }
{
    for _ in 0..most {
        match answer(w, input, out, err) {
            CallEnd::Need(slot) => enter_zeros(w.pages, slot),
            CallEnd::Value(value) => return CallEnd::Value(value),
            CallEnd::Exit(code) => return CallEnd::Exit(code),
            CallEnd::Host(call) => return CallEnd::Host(call),
        }
    }
    answer(w, input, out, err)
}

// Makes a call, in which so many pages are entered.
fn call(
    guest: &mut Guest,
    step: &Step,
    most: u32,
    input: &mut MemSource,
    out: &mut MemSink,
    err: &mut MemSink,
) -> CallEnd
    requires fit { FitPages guest.old.pages guest.old.regions.regions }
    requires begins { guest.old.progress.stage ≡ Start }
    ensures fit { FitPages guest.new.pages guest.new.regions.regions }
    ensures begins { Begins result guest.new.progress.stage }
{
    guest.gprs.set(RAX, step.0);
    guest.gprs.set(RDI, step.1[0]);
    guest.gprs.set(RSI, step.1[1]);
    guest.gprs.set(RDX, step.1[2]);
    guest.gprs.set(R10, step.1[3]);
    guest.gprs.set(R8, step.1[4]);
    guest.gprs.set(R9, step.1[5]);
    let steps = guest.steps;
    let mut w = World {
        gprs: &mut guest.gprs,
        fs: &mut guest.fs,
        gs: &mut guest.gs,
        pages: &mut guest.pages,
        regions: &mut guest.regions,
        files: &mut guest.files,
        random: &mut guest.random,
        progress: &mut guest.progress,
        steps,
    };
    answer_with(&mut w, most, input, out, err)
}

// How many calls of a table answer as it says, up to the first that doesn't.
fn play(
    guest: &mut Guest,
    steps: &[Step],
    input: &mut MemSource,
    out: &mut MemSink,
    err: &mut MemSink,
) -> usize
    requires fit { FitPages guest.old.pages guest.old.regions.regions }
    requires begins { guest.old.progress.stage ≡ Start }
    ensures fit { FitPages guest.new.pages guest.new.regions.regions }
{
    for (index, step) in steps.iter().enumerate() {
        match call(guest, step, MOST_ENTERED, input, out, err) {
            CallEnd::Value(value) => {
                if value != step.2 {
                    return index;
                }
            }
            CallEnd::Exit(_) | CallEnd::Need(_) | CallEnd::Host(_) => return index,
        }
    }
    steps.len()
}

// A guest with so many frames and pages, of which none is mapped, a file `a` to read and a file `o` to write.
fn make_guest(alloc: Global, frames: u32, pages: u32) -> Result<Guest, Fail>
    ensures fit { IfOk result (λ guest. FitPages guest.pages guest.regions.regions) }
    ensures begins { IfOk result (λ guest. guest.progress.stage ≡ Start) }
{
    if frames < 8 || frames > pages {
        return Err(Fail::from("too few frames"));
    }
    Ok(Guest {
        gprs: Gprs::new(),
        fs: 0,
        gs: 0,
        pages: Pages::new(alloc, frames, pages)?,
        regions: Regions::new(0x20000, 0x20000),
        files: files(alloc)?,
        random: 0,
        progress: Progress::new(),
        steps: 3_000_000_007,
    })
}

// The files of a guest.
fn files(alloc: Global) -> Result<Files, AllocError> {
    let mut text = Vec::new(alloc);
    text.push(b'x')?;
    text.push(b'y')?;
    let entries = vec![in alloc;
        Entry {
            name: String::from_str(alloc, "a")?,
            bytes: text,
            exists: true,
            writable: false,
        },
        Entry {
            name: String::from_str(alloc, "o")?,
            bytes: Vec::new(alloc),
            exists: false,
            writable: true,
        },
    ]?;
    Files::new(alloc, entries, 6)
}

// Whether a table's calls answer as it says, with this input, and put this output.
fn answers(alloc: Global, steps: &[Step], given: &[u8], put: &[u8]) -> Result<bool, Fail> {
    answers_in(alloc, 64, steps, given, put)
}

// The same, in a guest with so many pages.
fn answers_in(
    alloc: Global,
    pages: u32,
    steps: &[Step],
    given: &[u8],
    put: &[u8],
) -> Result<bool, Fail> {
    let mut input = MemSource::new(alloc, given, 100, &[])?;
    let mut out = MemSink::new(alloc, 4096, &[])?;
    let mut err = MemSink::new(alloc, 4096, &[])?;
    let mut guest = make_guest(alloc, 64, pages)?;
    let done = play(&mut guest, steps, &mut input, &mut out, &mut err);
    Ok(done == steps.len() && out.bytes() == put)
}

#[test]
fn pages_are_mapped_and_unmapped(rt: HostRuntime) -> Result<(), Fail> {
    assert!(rt; answers(rt.alloc(), mapping(), b"", b"")?);
    Ok(())
}

#[test]
fn files_are_opened_and_moved(rt: HostRuntime) -> Result<(), Fail> {
    let mut given = [b'n'; 272];
    given[..16].copy_from_slice(b"a\0b\0o\0/a\0\0\0\0\0\0\0\0");
    assert!(rt; answers(rt.alloc(), file_calls(), &given, b"xy")?);
    Ok(())
}

// Sets some bytes, at most six, of what the records should be.
fn lay(put: &mut [u8; 566], at: usize, bytes: &[u8]) {
    if at < 560 && bytes.len() <= 6 {
        put[at..at + bytes.len()].copy_from_slice(bytes);
    }
}

// What uname, clock_gettime, fstat of the output, and arch_prctl write.
fn record_bytes() -> [u8; 566] {
    let mut put = [0; 566];
    lay(&mut put, 0, b"Linux");
    lay(&mut put, 65, b"xemu");
    lay(&mut put, 130, b"6.1.0");
    lay(&mut put, 195, b"#1");
    lay(&mut put, 260, b"x86_64");
    lay(&mut put, 325, b"(none)");
    lay(&mut put, 390, &[3]);
    lay(&mut put, 398, &[7]);
    lay(&mut put, 422, &[1]);
    lay(&mut put, 430, &[0x80, 0x11]);
    lay(&mut put, 463, &[0x10]);
    lay(&mut put, 550, &[0x34, 0x12]);
    lay(&mut put, 558, &[0x21, 0x43]);
    put
}

#[test]
fn records_are_written(rt: HostRuntime) -> Result<(), Fail> {
    assert!(rt; answers(rt.alloc(), records(), b"", &record_bytes())?);
    Ok(())
}

#[test]
fn streams_are_read_to_their_end_and_nothing_moves_at_a_fault(rt: HostRuntime) -> Result<(), Fail> {
    assert!(rt; answers(rt.alloc(), streams(), b"abc", b"abc")?);
    Ok(())
}

#[test]
fn lists_of_buffers_are_one_transfer(rt: HostRuntime) -> Result<(), Fail> {
    assert!(rt; answers(rt.alloc(), lists(), buffers(), b"hehello")?);
    Ok(())
}

#[test]
fn random_bytes_are_successive_draws(rt: HostRuntime) -> Result<(), Fail> {
    assert!(rt; answers(rt.alloc(), random(), b"", drawn())?);
    Ok(())
}

#[test]
fn other_numbers_are_no_calls(rt: HostRuntime) -> Result<(), Fail> {
    assert!(rt; answers(rt.alloc(), others(), b"", b"")?);
    Ok(())
}

#[test]
fn descriptors_run_out(rt: HostRuntime) -> Result<(), Fail> {
    let mut steps = Vec::new(rt.alloc());
    steps.push((9, [0x10000, 0x1000, 3, 0x32, 0, 0], 0x10000))?;
    steps.push((0, [0, 0x10000, 2, 0, 0, 0], 2))?;
    for number in 3..64 {
        steps.push((2, [0x10000, 0, 0, 0, 0, 0], number))?;
    }
    steps.push((2, [0x10000, 0, 0, 0, 0, 0], -24))?;
    assert!(rt; answers(rt.alloc(), &steps, b"a\0", b"")?);
    Ok(())
}

#[test]
fn pages_run_out(rt: HostRuntime) -> Result<(), Fail> {
    assert!(rt; answers_in(rt.alloc(), 512, full(), b"", b"")?);
    Ok(())
}

// 1,100 pages of which every second one is made one to read, up to 1,023 regions; the last of them is long.
#[test]
fn regions_run_out(rt: HostRuntime) -> Result<(), Fail> {
    let mut steps = Vec::new(rt.alloc());
    steps.push((9, [0x100000, 0x44C000, 3, 0x32, 0, 0], 0x100000))?;
    for place in 0..511 {
        steps.push((10, [0x101000 + place * 0x2000, 0x1000, 1, 0, 0, 0], 0))?;
    }
    steps.push((10, [0x501000, 0x1000, 1, 0, 0, 0], -12))?;
    steps.push((11, [0x501000, 0x1000, 0, 0, 0, 0], 0))?;
    steps.push((11, [0x503000, 0x1000, 0, 0, 0, 0], -12))?;
    steps.push((9, [0, 0x1000, 1, 0x22, 0, 0], -12))?;
    steps.push((12, [0x21000, 0, 0, 0, 0, 0], 0x20000))?;
    assert!(rt; answers_in(rt.alloc(), 2000, &steps, b"", b"")?);
    Ok(())
}

// How a call in which so many pages are entered ends behind another that is answered.
fn second(
    alloc: Global,
    most: u32,
    first: &Step,
    then: &Step,
    out: &mut MemSink,
) -> Result<CallEnd, Fail> {
    let mut input = MemSource::new(alloc, b"", 1, &[])?;
    let mut err = MemSink::new(alloc, 100, &[])?;
    let mut guest = make_guest(alloc, 64, 64)?;
    match call(&mut guest, first, 0, &mut input, out, &mut err) {
        CallEnd::Value(_) => Ok(call(&mut guest, then, most, &mut input, out, &mut err)),
        CallEnd::Exit(_) | CallEnd::Need(_) | CallEnd::Host(_) => Err(Fail::from("no answer")),
    }
}

#[test]
fn calls_end_the_guest_wait_and_fail(rt: HostRuntime) -> Result<(), Fail> {
    let alloc = rt.alloc();
    let mut out = MemSink::new(alloc, 100, &[(1, 2)])?;
    let pages = (9, [0x10000, 0x9000, 3, 0x32, 0, 0], 0x10000);
    let exit = (60, [0x1FF, 0, 0, 0, 0, 0], 0);
    assert_eq!(rt;
        second(alloc, 0, &pages, &exit, &mut out)?,
        CallEnd::Exit(0xFF)
    );
    let exit_group = (231, [3, 0, 0, 0, 0, 0], 0);
    assert_eq!(rt;
        second(alloc, 0, &pages, &exit_group, &mut out)?,
        CallEnd::Exit(3)
    );
    let away = (63, [0x18000, 0, 0, 0, 0, 0], 0);
    assert_eq!(rt;
        second(alloc, 0, &pages, &away, &mut out)?,
        CallEnd::Need(55)
    );
    let write = (1, [1, 0x10000, 4, 0, 0, 0], 4);
    assert_eq!(rt;
        second(alloc, 1, &pages, &write, &mut out)?,
        CallEnd::Host(HostCall::PutOut)
    );
    assert!(rt; out.bytes() == b"\0\0".as_slice());
    Ok(())
}
