//! Guests over any number of frames: that the same comes of them, and what comes of swap calls that fail.
ghost use Rattle.std.specs.Prelude.{◌≡◌, ◌≤◌, ◌<◌, List, ℕ, Option, Some, IsSome, IfOk, false};
ghost use Rattle.host_edge.specs.MemHost.{held_by};
ghost use Rattle.guest_run.specs.Guests.{around};
ghost use Rattle.guest_run.specs.Following.{IsGuest, is_stopped};

use crate::*;
use elf_image::read_image;
use guest_files::Files;
use host_edge::{MemHost, MemSink, MemSource};
use std::alloc::Global;
use std::process::Abort;
use std::test::Fail;

mod starting;

/// A program in one segment, whose pages may be read, written and executed: a file header, a program header, code, and 32 pages of
/// zeros behind the first. Numbers are put to these pages, one a page, and added. Then 8 bytes from the end of the first of them on are
/// written to the output, 6 bytes are read over the end of the fourth, and as many as came are written to the error output. The status
/// is the sum's low byte.
static SUM: [u8; 234] = [
    0x7F, 0x45, 0x4C, 0x46, 2, 1, 1, 0, 0, 0, 0, 0, 0, 0, 0, 0, 2, 0, 62, 0, 1, 0, 0, 0, 120, 0,
    0x40, 0, 0, 0, 0, 0, 64, 0, 0, 0, 0, 0, 0, 0, 0, 0, 0, 0, 0, 0, 0, 0, 0, 0, 0, 0, 64, 0, 56, 0,
    1, 0, 0, 0, 0, 0, 0, 0, 1, 0, 0, 0, 7, 0, 0, 0, 0, 0, 0, 0, 0, 0, 0, 0, 0, 0, 0x40, 0, 0, 0, 0,
    0, 0, 0, 0x40, 0, 0, 0, 0, 0, 234, 0, 0, 0, 0, 0, 0, 0, 0, 0x10, 2, 0, 0, 0, 0, 0, 0, 0x10, 0,
    0, 0, 0, 0, 0, 0xB9, 32, 0, 0, 0, 0xBB, 0, 0x10, 0x40, 0, 0x89, 0x0B, 0x81, 0xC3, 0, 0x10, 0,
    0, 0xFF, 0xC9, 0x75, 0xF4, 0xB9, 32, 0, 0, 0, 0xBB, 0, 0x10, 0x40, 0, 0x31, 0xD2, 0x03, 0x13,
    0x81, 0xC3, 0, 0x10, 0, 0, 0xFF, 0xC9, 0x75, 0xF4, 0x89, 0xD5, 0xB8, 1, 0, 0, 0, 0xBF, 1, 0, 0,
    0, 0xBE, 0xFC, 0x1F, 0x40, 0, 0xBA, 8, 0, 0, 0, 0x0F, 0x05, 0x31, 0xC0, 0x31, 0xFF, 0xBE, 0xFE,
    0x4F, 0x40, 0, 0xBA, 6, 0, 0, 0, 0x0F, 0x05, 0x89, 0xC2, 0xB8, 1, 0, 0, 0, 0xBF, 2, 0, 0, 0,
    0xBE, 0xFE, 0x4F, 0x40, 0, 0x0F, 0x05, 0x89, 0xEF, 0xB8, 60, 0, 0, 0, 0x0F, 0x05,
];

const CODE: u64 = 0x40_0000;

/// The first page of zeros.
const DATA: u64 = CODE + 0x1000;

/// How many steps the program makes.
const STEPS: u64 = 280;

/// The end of its run.
const END: RunEnd = RunEnd::Exit(16);

/// How many pages the guests of these tests may map.
const PAGES: u32 = 512;

/// A guest, with the host that it was prepared with.
#[derive(Drop)]
struct Prepared {
    guest: Guest,
    host: MemHost,
}

/// What is prepared of a file with so many frames and one argument, where the calls of the host with these numbers fail.
fn prepare_guest(
    rt: &impl Abort,
    alloc: Global,
    bytes: &[u8],
    arg: &str,
    resident: u32,
    swap: Option<&str>,
    fail: &[u64],
) -> Result<Result<Prepared, PrepareFault>, Fail>
    requires least { 8 ≤ resident }
    requires most { resident ≤ PAGES }
    requires swap { resident < PAGES → IsSome swap }
    ensures guest { IfOk result (λ answer. IfOk answer (λ made. (left out err : Option (List ℕ)) (take puts err_puts : ℕ)
        → IsGuest made.guest (around (Some (held_by made.host)) made.host.opened made.host.faults left take out puts err err_puts))) }
    ensures steps { IfOk result (λ answer. IfOk answer (λ made. made.guest.machine.steps ≡ 0)) }
{
    let mut host = MemHost::new(alloc, Vec::new(alloc), 0, PAGES, fail)?;
    let image = match read_image(bytes, PAGES) {
        Ok(image) => image,
        Err(_) => panic!(rt; "no image"),
    };
    let args = vec![in alloc; String::from_str(alloc, arg)?]?;
    let env = Vec::new(alloc);
    let files = Files::new(alloc, Vec::new(alloc), 100)?;
    let limits = Limits {
        pages: PAGES,
        resident,
        cap: 100,
        budget: 0,
        seed: 0,
    };
    match prepare(
        alloc, &image, bytes, &args, &env, files, &limits, swap, &mut host,
    ) {
        Ok(guest) => Ok(Ok(Prepared { guest, host })),
        Err(fault) => Ok(Err(fault)),
    }
}

/// A guest with what stands around it.
#[derive(Drop)]
struct Seat {
    guest: Guest,
    host: MemHost,
    input: MemSource,
    out: MemSink,
    err: MemSink,
}

/// A guest of the program beside a host, whose calls with these numbers fail. The first opens the swap.
fn new_seat(rt: &impl Abort, alloc: Global, frames: u32, fail: &[u64]) -> Result<Seat, Fail>
    requires least { 8 ≤ frames }
    requires most { frames ≤ PAGES }
    ensures guest { IfOk result (λ seat. IsGuest seat.guest (around (Some (held_by seat.host)) seat.host.opened seat.host.faults
        (Some seat.input.left) seat.input.faults (Some seat.out.taken) seat.out.faults (Some seat.err.taken) seat.err.faults)) }
    ensures steps { IfOk result (λ seat. seat.guest.machine.steps ≡ 0) }
{
    let Prepared { guest, host } = match prepare_guest(
        rt,
        alloc,
        &SUM,
        "sum",
        frames,
        Some("swap"),
        fail,
    )? {
        Ok(made) => made,
        Err(_) => panic!(rt; "no guest"),
    };
    Ok(Seat {
        guest,
        host,
        input: MemSource::new(alloc, b"abcdefgh", 4, &[])?,
        out: MemSink::new(alloc, 100, &[])?,
        err: MemSink::new(alloc, 100, &[])?,
    })
}

/// Runs a guest, which is to end so.
fn expect_end(rt: &impl Abort, seat: &mut Seat, upto: u64, end: RunEnd)
    requires guest { IsGuest seat.old.guest (around (Some (held_by seat.old.host)) seat.old.host.opened seat.old.host.faults
        (Some seat.old.input.left) seat.old.input.faults (Some seat.old.out.taken) seat.old.out.faults (Some seat.old.err.taken) seat.old.err.faults) }
    requires steps { seat.old.guest.machine.steps ≤ upto }
    requires own { is_stopped end ≡ false }
    ensures guest { IsGuest seat.new.guest (around (Some (held_by seat.new.host)) seat.new.host.opened seat.new.host.faults
        (Some seat.new.input.left) seat.new.input.faults (Some seat.new.out.taken) seat.new.out.faults (Some seat.new.err.taken) seat.new.err.faults) }
    ensures steps { seat.new.guest.machine.steps ≤ upto }
{
    let is = run(
        &mut seat.guest,
        upto,
        &mut seat.host,
        &mut seat.input,
        &mut seat.out,
        &mut seat.err,
    );
    assert_eq!(rt; is, end);
}

/// Runs a guest over so many frames to its end.
fn run_whole(rt: &impl Abort, alloc: Global, frames: u32) -> Result<(), Fail>
    requires least { 8 ≤ frames }
    requires most { frames ≤ PAGES }
{
    let mut seat = new_seat(rt, alloc, frames, &[])?;
    expect_end(rt, &mut seat, STEPS - 1, RunEnd::Budget);
    expect_end(rt, &mut seat, STEPS, END);
    expect_end(rt, &mut seat, STEPS + 5, END);
    assert_eq!(rt; seat.guest.steps(), STEPS);
    assert_eq!(rt; seat.out.bytes(), &[0, 0, 0, 0, 31, 0, 0, 0][..]);
    assert_eq!(rt; seat.err.bytes(), &b"abcdef"[..]);
    // The page of the code, one of the stack and those of the numbers are brought, and each but once where there are enough frames.
    assert_eq!(rt; seat.guest.loads() == 34, frames >= 34);
    assert!(rt; seat.guest.loads() >= 34);
    assert!(rt; !seat.guest.failed());
    Ok(())
}

#[test]
fn the_same_comes_of_any_number_of_frames(rt: HostRuntime) -> Result<(), Fail> {
    run_whole(&rt, rt.alloc(), 8)?;
    run_whole(&rt, rt.alloc(), 9)?;
    run_whole(&rt, rt.alloc(), 33)?;
    run_whole(&rt, rt.alloc(), 34)?;
    run_whole(&rt, rt.alloc(), PAGES)?;
    Ok(())
}

#[test]
fn a_run_in_parts_is_one_run(rt: HostRuntime) -> Result<(), Fail> {
    let mut seat = new_seat(&rt, rt.alloc(), 8, &[])?;
    for upto in 0..STEPS {
        expect_end(&rt, &mut seat, upto, RunEnd::Budget);
        assert_eq!(rt; seat.guest.steps(), upto);
    }
    expect_end(&rt, &mut seat, STEPS, END);
    assert_eq!(rt; seat.err.bytes(), &b"abcdef"[..]);
    Ok(())
}

/// What comes of a run over 8 frames in which the call of the host with this number fails.
fn run_failing(rt: &impl Abort, alloc: Global, call: u64) -> Result<Seat, Fail>
    ensures { IfOk result (λ seat. (seat.guest.failed ≡ false) → IsGuest seat.guest (around (Some (held_by seat.host)) seat.host.opened seat.host.faults
        (Some seat.input.left) seat.input.faults (Some seat.out.taken) seat.out.faults (Some seat.err.taken) seat.err.faults)) }
{
    let mut seat = new_seat(rt, alloc, 8, &[call])?;
    let end = run(
        &mut seat.guest,
        STEPS,
        &mut seat.host,
        &mut seat.input,
        &mut seat.out,
        &mut seat.err,
    );
    match end {
        RunEnd::Host(HostCall::SwapGet) | RunEnd::Host(HostCall::SwapPut) => {
            assert!(rt; seat.guest.failed());
            assert!(rt; seat.guest.steps() < STEPS);
        }
        RunEnd::Exit(_) => assert_eq!(rt; seat.guest.steps(), STEPS),
        RunEnd::Killed(_) | RunEnd::Budget | RunEnd::Host(_) => panic!(rt; "another end"),
    }
    assert!(rt; b"abcdef".starts_with(seat.err.bytes()));
    Ok(seat)
}

#[test]
fn a_swap_call_that_fails_ends_the_run(rt: HostRuntime) -> Result<(), Fail> {
    let mut fails = 0u64;
    for call in 2..400u64 {
        let seat = run_failing(&rt, rt.alloc(), call)?;
        if !seat.guest.failed() {
            break;
        }
        fails = call;
    }
    assert!(rt; fails > 2 && fails < 399);
    Ok(())
}

/// A byte of a guest's memory, for which a page may be brought.
fn look(rt: &impl Abort, seat: &mut Seat, addr: u64) -> Option<u8>
    requires guest { IsGuest seat.old.guest (around (Some (held_by seat.old.host)) seat.old.host.opened seat.old.host.faults
        (Some seat.old.input.left) seat.old.input.faults (Some seat.old.out.taken) seat.old.out.faults (Some seat.old.err.taken) seat.old.err.faults) }
    ensures guest { IsGuest seat.new.guest (around (Some (held_by seat.new.host)) seat.new.host.opened seat.new.host.faults
        (Some seat.new.input.left) seat.new.input.faults (Some seat.new.out.taken) seat.new.out.faults (Some seat.new.err.taken) seat.new.err.faults) }
    ensures steps { seat.new.guest.machine.steps ≡ seat.old.guest.machine.steps }
{
    match byte(&mut seat.guest, addr, &mut seat.host) {
        Ok(byte) => byte,
        Err(_) => panic!(rt; "the byte isn't told"),
    }
}

#[test]
fn bytes_are_told_between_steps(rt: HostRuntime) -> Result<(), Fail> {
    let mut seat = new_seat(&rt, rt.alloc(), 8, &[])?;
    expect_end(&rt, &mut seat, STEPS - 1, RunEnd::Budget);
    let loads = seat.guest.loads();
    assert_eq!(rt; look(&rt, &mut seat, DATA), Some(32));
    assert_eq!(rt; look(&rt, &mut seat, DATA + 0x1000), Some(31));
    assert_eq!(rt; look(&rt, &mut seat, DATA + 0x4000), Some(b'c'));
    assert_eq!(rt; look(&rt, &mut seat, DATA + 0x1_F000), Some(1));
    assert_eq!(rt; look(&rt, &mut seat, DATA + 0x1_0000), Some(16));
    assert_eq!(rt; look(&rt, &mut seat, CODE), Some(0x7F));
    assert_eq!(rt; look(&rt, &mut seat, DATA + 0x2_0000), None);
    assert_eq!(rt; look(&rt, &mut seat, 0x8000_0000_0000), None);
    assert!(rt; seat.guest.loads() > loads);
    expect_end(&rt, &mut seat, STEPS, END);
    Ok(())
}

/// Looks at the bytes of the data, page by page, until one isn't told.
fn look_through(rt: &impl Abort, mut seat: Seat) -> bool
    requires guest { IsGuest seat.guest (around (Some (held_by seat.host)) seat.host.opened seat.host.faults
        (Some seat.input.left) seat.input.faults (Some seat.out.taken) seat.out.faults (Some seat.err.taken) seat.err.faults) }
{
    for page in 0..32u64 {
        match byte(&mut seat.guest, DATA + 0x1000 * page, &mut seat.host) {
            Ok(byte) => assert!(rt; byte.is_some()),
            Err(_) => return seat.guest.failed(),
        }
    }
    false
}

#[test]
fn a_byte_that_isnt_told_fails_the_guest(rt: HostRuntime) -> Result<(), Fail> {
    for call in 2..400u64 {
        let seat = run_failing(&rt, rt.alloc(), call)?;
        if !seat.guest.failed() {
            assert!(rt; look_through(&rt, seat));
            break;
        }
    }
    Ok(())
}
