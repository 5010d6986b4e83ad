// Instructions on vectors through a whole step.
use super::{CODE, DATA, data, machine, page_fault, step};
use crate::{Acted, Fault, Machine};
use machine_state::Kind;
use std::alloc::Global;
use std::process::Abort;
use std::test::Fail;

// Four lanes of 32 bits: 1, -1, 2 and -2^31.
const LANES: [u8; 16] = [
    1, 0, 0, 0, 0xFF, 0xFF, 0xFF, 0xFF, 2, 0, 0, 0, 0, 0, 0, 0x80,
];

// Their sums with the lanes at DATA + 0x100, which are 160F0801, 322B241D, 4E474039 and 6A635C55.
const SUMS: [u8; 16] = [
    0x02, 0x08, 0x0F, 0x16, 0x1C, 0x24, 0x2B, 0x32, 0x3B, 0x40, 0x47, 0x4E, 0x55, 0x5C, 0x63, 0xEA,
];

// The code, which register has the result, and what its bytes from 16 up are then: legacy instructions leave them, and those of
// VEX clear them (SDM volume 1, 14.1.3).
#[rattlefmt::skip]
static ADDITIONS: [(&[u8], u8, u8); 4] = [
    // paddd xmm1, [rbx]; paddd xmm9, [rbx]; vpaddd xmm1, xmm2, [rbx]; vpaddd xmm3, xmm15, [rbx]
    (&[0x66, 0x0F, 0xFE, 0x0B], 1, 0x77),
    (&[0x66, 0x44, 0x0F, 0xFE, 0x0B], 9, 0x77),
    (&[0xC5, 0xE9, 0xFE, 0x0B], 1, 0),
    (&[0xC5, 0x81, 0xFE, 0x1B], 3, 0),
];

fn additions() -> &'static [(&'static [u8], u8, u8)] {
    &ADDITIONS
}

// Each of these at an address that is no multiple of 16: movdqa, paddd and pand fault, and movdqu, lddqu and vpaddd don't (SDM
// volume 1, 14.9).
#[rattlefmt::skip]
static UNALIGNED: [(&[u8], Acted); 6] = [
    (&[0x66, 0x0F, 0x6F, 0x4B, 8], Acted::Trap(Fault::General)),
    (&[0x66, 0x0F, 0xFE, 0x4B, 8], Acted::Trap(Fault::General)),
    (&[0x66, 0x0F, 0xDB, 0x4B, 8], Acted::Trap(Fault::General)),
    (&[0xF3, 0x0F, 0x6F, 0x4B, 8], Acted::Done),
    (&[0xF2, 0x0F, 0xF0, 0x4B, 8], Acted::Done),
    (&[0xC5, 0xE9, 0xFE, 0x4B, 8], Acted::Done),
];

fn unaligned() -> &'static [(&'static [u8], Acted)] {
    &UNALIGNED
}

// movdqu xmm1, [0x500ff8]; vmovdqu ymm1, [0x500ff8]; movdqu [0x500ff8], xmm1; vmovdqu [0x500ff8], ymm1; and whether they write
#[rattlefmt::skip]
static ACROSS: [(&[u8], bool); 4] = [
    (&[0xF3, 0x0F, 0x6F, 0x0C, 0x25, 0xF8, 0x0F, 0x50, 0], false),
    (&[0xC5, 0xFE, 0x6F, 0x0C, 0x25, 0xF8, 0x0F, 0x50, 0], false),
    (&[0xF3, 0x0F, 0x7F, 0x0C, 0x25, 0xF8, 0x0F, 0x50, 0], true),
    (&[0xC5, 0xFE, 0x7F, 0x0C, 0x25, 0xF8, 0x0F, 0x50, 0], true),
];

fn across() -> &'static [(&'static [u8], bool)] {
    &ACROSS
}

// A machine whose vector registers all have these lanes, and 77H in each byte from 16 up.
fn with_lanes(rt: &impl Abort, alloc: Global, code: &[u8]) -> Result<Machine, Fail> {
    let mut m = machine(rt, alloc, code)?;
    let mut value = [0x77; 64];
    value[..16].copy_from_slice(&LANES);
    for n in 0..32 {
        m.vec.set_zmm(n, &value);
    }
    Ok(m)
}

#[test]
fn lanes_in_memory_are_added(rt: HostRuntime) -> Result<(), Fail> {
    for (code, n, above) in additions() {
        let mut m = with_lanes(&rt, rt.alloc(), code)?;
        assert_eq!(rt; step(&rt, &mut m), Acted::Done, "at {code:?}");
        assert!(rt; *n < 32);
        let mut expected = [*above; 64];
        expected[..16].copy_from_slice(&SUMS);
        assert!(rt; *m.vec.zmm(*n) == expected, "at {code:?}");
        assert_eq!(rt; m.rip, CODE + 0x100 + code.len() as u64, "at {code:?}");
        assert_eq!(rt; m.steps, 1);
        assert_eq!(rt; m.flags.word(), 0x203);
    }
    Ok(())
}

#[test]
fn alignment_counts_where_the_instruction_says(rt: HostRuntime) -> Result<(), Fail> {
    for (code, acted) in unaligned() {
        let mut m = with_lanes(&rt, rt.alloc(), code)?;
        assert_eq!(rt; step(&rt, &mut m), *acted, "at {code:?}");
    }
    Ok(())
}

// The fault names the first byte of the page that is missing, and nothing is changed.
#[test]
fn a_page_that_is_missing_is_named(rt: HostRuntime) -> Result<(), Fail> {
    for (code, write) in across() {
        let mut m = with_lanes(&rt, rt.alloc(), code)?;
        let fault = page_fault(0x50_1000, *write, false, false);
        assert_eq!(rt; step(&rt, &mut m), Acted::Trap(fault), "at {code:?}");
        assert!(rt; m.vec.zmm(1)[..16] == LANES[..], "at {code:?}");
        let mut bytes = [0; 8];
        assert_eq!(rt; m.pages.read(DATA + 0xFF8, &mut bytes, Kind::Read), Ok(()));
        let page = data();
        assert!(rt; bytes[..] == page[0xFF8..], "at {code:?}");
        assert_eq!(rt; m.rip, CODE + 0x100);
        assert_eq!(rt; m.steps, 0);
    }
    Ok(())
}

// VZEROUPPER and VZEROALL, and how many bytes of a register they leave.
#[rattlefmt::skip]
static CLEARINGS: [(&[u8], usize); 2] = [
    (&[0xC5, 0xF8, 0x77], 16),
    (&[0xC5, 0xFC, 0x77], 0),
];

fn clearings() -> &'static [(&'static [u8], usize)] {
    &CLEARINGS
}

// Registers 16 to 31 stay (SDM volume 2, VZEROUPPER and VZEROALL).
#[test]
fn sixteen_registers_are_cleared(rt: HostRuntime) -> Result<(), Fail> {
    for (code, left) in clearings() {
        let mut m = with_lanes(&rt, rt.alloc(), code)?;
        let whole = *m.vec.zmm(31);
        let mut cleared = whole;
        assert!(rt; *left <= 16);
        for byte in &mut cleared[*left..] {
            *byte = 0;
        }
        assert_eq!(rt; step(&rt, &mut m), Acted::Done, "at {code:?}");
        for n in 0..16 {
            assert!(rt; *m.vec.zmm(n) == cleared, "register {n} at {code:?}");
            assert!(rt;
                *m.vec.zmm(n + 16) == whole,
                "register {n} and 16 at {code:?}"
            );
        }
        assert_eq!(rt; m.rip, CODE + 0x103);
        assert_eq!(rt; m.steps, 1);
    }
    Ok(())
}

// vmovss xmm1, xmm2, xmm3, whose bit L is ignored (SDM volume 2, MOVSS).
#[test]
fn a_length_that_is_ignored_is_the_least(rt: HostRuntime) -> Result<(), Fail> {
    for code in [[0xC5, 0xEA, 0x10, 0xCB], [0xC5, 0xEE, 0x10, 0xCB]] {
        let mut m = with_lanes(&rt, rt.alloc(), &code)?;
        let mut expected = [0; 64];
        expected[..16].copy_from_slice(&LANES);
        assert_eq!(rt; step(&rt, &mut m), Acted::Done, "at {code:?}");
        assert!(rt; *m.vec.zmm(1) == expected, "at {code:?}");
    }
    Ok(())
}
