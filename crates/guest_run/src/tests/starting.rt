//! Guests before their first step. What is expected is the System V ABI's (AMD64, 3.4.1), and this program's own choice of the
//! stack's place.
ghost use Rattle.std.specs.Prelude.{◌≤◌, ◌<◌, IsSome, IfOk, None, Some};
ghost use Rattle.host_edge.specs.MemHost.{held_by};
ghost use Rattle.guest_run.specs.Guests.{around};
ghost use Rattle.guest_run.specs.Following.{IsGuest};

use super::*;
use gpr_flags::RSP;
use std::alloc::{AllocError, Global};
use std::process::Abort;
use std::test::Fail;

/// A program that writes `hello` and exits, in one segment: a file header, a program header, code and data.
static HELLO: [u8; 159] = [
    0x7F, 0x45, 0x4C, 0x46, 0x02, 0x01, 0x01, 0x00, 0x00, 0x00, 0x00, 0x00, 0x00, 0x00, 0x00, 0x00,
    0x02, 0x00, 0x3E, 0x00, 0x01, 0x00, 0x00, 0x00, 0x78, 0x00, 0x40, 0x00, 0x00, 0x00, 0x00, 0x00,
    0x40, 0x00, 0x00, 0x00, 0x00, 0x00, 0x00, 0x00, 0x00, 0x00, 0x00, 0x00, 0x00, 0x00, 0x00, 0x00,
    0x00, 0x00, 0x00, 0x00, 0x40, 0x00, 0x38, 0x00, 0x01, 0x00, 0x00, 0x00, 0x00, 0x00, 0x00, 0x00,
    0x01, 0x00, 0x00, 0x00, 0x05, 0x00, 0x00, 0x00, 0x00, 0x00, 0x00, 0x00, 0x00, 0x00, 0x00, 0x00,
    0x00, 0x00, 0x40, 0x00, 0x00, 0x00, 0x00, 0x00, 0x00, 0x00, 0x40, 0x00, 0x00, 0x00, 0x00, 0x00,
    0x9F, 0x00, 0x00, 0x00, 0x00, 0x00, 0x00, 0x00, 0x9F, 0x00, 0x00, 0x00, 0x00, 0x00, 0x00, 0x00,
    0x00, 0x10, 0x00, 0x00, 0x00, 0x00, 0x00, 0x00, 0xB8, 0x01, 0x00, 0x00, 0x00, 0xBF, 0x01, 0x00,
    0x00, 0x00, 0x48, 0x8D, 0x35, 0x10, 0x00, 0x00, 0x00, 0xBA, 0x06, 0x00, 0x00, 0x00, 0x0F, 0x05,
    0xB8, 0x3C, 0x00, 0x00, 0x00, 0x31, 0xFF, 0x0F, 0x05, 0x68, 0x65, 0x6C, 0x6C, 0x6F, 0x0A,
];

/// The stack pointer of a program `hello` without further arguments and environment, and where its name stands.
const STACK: u64 = 0x7_FFFF_FFFE_E70;

const NAME: u64 = 0x7_FFFF_FFFE_FD5;

/// The least frames.
const FEWEST: u32 = 8;

/// The bytes of eleven pages.
const LONG: u16 = 0xB000;

/// The same program with so many bytes in its segment, which ends in zeros.
fn long_hello(alloc: Global, len: u16) -> Result<Vec<u8>, AllocError> {
    let mut bytes = Vec::from_slice(alloc, &HELLO)?;
    for _ in HELLO.len()..usize::from(len) {
        bytes.push(0)?;
    }
    // The segment's sizes in the file and in memory.
    let [low, high] = len.to_le_bytes();
    if bytes.len() > 105 {
        bytes[96] = low;
        bytes[97] = high;
        bytes[104] = low;
        bytes[105] = high;
    }
    Ok(bytes)
}

/// The bytes from an address on are these.
fn expect_bytes(rt: &impl Abort, made: &mut Prepared, addr: u64, bytes: &[u8])
    requires { IsGuest made.old.guest (around (Some (held_by made.old.host)) made.old.host.opened made.old.host.faults None 0 None 0 None 0) }
    ensures { IsGuest made.new.guest (around (Some (held_by made.new.host)) made.new.host.opened made.new.host.faults None 0 None 0 None 0) }
{
    for (i, expected) in bytes.iter().enumerate() {
        let at = addr.wrapping_add(i as u64);
        match byte(&mut made.guest, at, &mut made.host) {
            Ok(byte) => assert_eq!(rt; byte, Some(*expected), "{at}"),
            Err(_) => panic!(rt; "a page isn't brought"),
        }
    }
}

/// The guest of `hello` stands before its first step, with the bytes of its file in its memory.
fn expect_hello(rt: &impl Abort, made: &mut Prepared, bytes: &[u8])
    requires { IsGuest made.old.guest (around (Some (held_by made.old.host)) made.old.host.opened made.old.host.faults None 0 None 0 None 0) }
{
    assert_eq!(rt; made.guest.steps(), 0);
    assert!(rt; made.guest.end().is_none());
    assert_eq!(rt; made.guest.machine().rip, CODE + 0x78);
    for register in 0..16u8 {
        let value = if register == RSP { STACK } else { 0 };
        assert_eq!(rt; made.guest.machine().gprs.get(register), value);
    }
    expect_bytes(rt, made, CODE, bytes);
    expect_bytes(rt, made, STACK, &[1, 0, 0, 0, 0, 0, 0, 0]);
    expect_bytes(rt, made, STACK + 8, &NAME.to_le_bytes());
    expect_bytes(rt, made, NAME, b"hello\0");
}

fn expect_prepared(
    rt: &impl Abort,
    alloc: Global,
    bytes: &[u8],
    resident: u32,
    swap: Option<&str>,
    fail: &[u64],
) -> Result<(), Fail>
    requires least { 8 ≤ resident }
    requires most { resident ≤ PAGES }
    requires swap { resident < PAGES → IsSome swap }
{
    match prepare_guest(rt, alloc, bytes, "hello", resident, swap, fail)? {
        Ok(mut made) => expect_hello(rt, &mut made, bytes),
        Err(fault) => panic!(rt; "{fault}"),
    }
    Ok(())
}

#[test]
fn hello_stands_before_its_first_step(rt: HostRuntime) -> Result<(), Fail> {
    let alloc = rt.alloc();
    expect_prepared(&rt, alloc, &HELLO, PAGES, None, &[1])?;
    expect_prepared(&rt, alloc, &HELLO, PAGES, Some("swap"), &[2])?;
    expect_prepared(&rt, alloc, &HELLO, FEWEST, Some("swap"), &[])?;
    expect_prepared(
        &rt,
        alloc,
        &long_hello(alloc, LONG)?,
        FEWEST,
        Some("swap"),
        &[],
    )
}

/// In eight frames so many pages of a file are put to the swap, and the failure of each call is told.
fn expect_calls(rt: &impl Abort, alloc: Global, bytes: &[u8], puts: u64) -> Result<(), Fail>
    requires { puts < 16 }
{
    for call in 1..puts + 2 {
        match prepare_guest(rt, alloc, bytes, "hello", FEWEST, Some("swap"), &[call])? {
            Ok(_) => panic!(rt; "call {call}"),
            Err(fault) => {
                let expected = if call == 1 {
                    HostCall::SwapOpen
                } else {
                    HostCall::SwapPut
                };
                assert!(rt; fault == PrepareFault::Host(expected), "call {call}");
            }
        }
    }
    let last = prepare_guest(rt, alloc, bytes, "hello", FEWEST, Some("swap"), &[puts + 2])?;
    assert!(rt; last.is_ok());
    Ok(())
}

#[test]
fn a_swap_call_that_fails_is_told(rt: HostRuntime) -> Result<(), Fail> {
    expect_calls(&rt, rt.alloc(), &HELLO, 0)?;
    expect_calls(&rt, rt.alloc(), &long_hello(rt.alloc(), LONG)?, 4)
}

#[test]
fn a_stack_that_is_too_long_is_told_before_a_call(rt: HostRuntime) -> Result<(), Fail> {
    let mut long = String::new(rt.alloc());
    for _ in 0..131_072 {
        long.push('a')?;
    }
    match prepare_guest(&rt, rt.alloc(), &HELLO, &long, FEWEST, Some("swap"), &[1])? {
        Ok(_) => panic!(&rt; "it fits"),
        Err(fault) => {
            assert!(rt; fault == PrepareFault::TooLong(TooLong { size: 262_544 }));
        }
    }
    Ok(())
}
