//! Which lanes of memory are accessed, and where an instruction stops.
ghost use Rattle.std.specs.Prelude.{◌<◌, ◌≤◌};

use super::fixture::{
    FROM_15_UP, LAST, MISSING, READABLE, Seat, at, fields, make_seat, masked, step, unmapped,
};
use crate::Places;
use machine_state::{Kind, Miss, Stop};
use num_lanes::Vec64;
use row_table::{Class, Fields};
use std::process::Abort;
use std::test::Fail;

/// Where operands of 64 bytes stand, of which 30 are there.
const START: u64 = MISSING - 30;
/// Where operands stand of which 8 bytes are there.
const EIGHT: u64 = MISSING - 8;

const LOAD: u8 = 0x6F;

const STORE: u8 = 0x7F;

/// VMOVDQU8, 16, 32 or 64 of EVEX.
fn moved(opcode: u8, width: u8) -> Fields {
    let pp = if width < 32 { 3 } else { 2 };
    masked(
        (Class::Evex, pp, 1, opcode, 0x0B),
        width == 16 || width == 64,
    )
}

/// The first byte that is missing of the lanes from an address up.
fn missing_from(there: u64) -> u64 {
    if there < MISSING { MISSING } else { there }
}

/// The 64 bytes before the page that is missing.
fn end_of_page(rt: &impl Abort, s: &Seat) -> Vec64 {
    let mut bytes = [0; 64];
    assert_eq!(rt; s.pages.read(MISSING - 64, &mut bytes, Kind::Read), Ok(()));
    bytes
}

/// A lane is accessed where it is masked in, by itself or with those above it; where it can't be, nothing is written.
fn assert_lane(rt: &impl Abort, s: &mut Seat, kind: Kind, fields: &Fields, bytes: u64, lane: u32)
    requires bytes { bytes ≤ 8 }
    requires lane { lane < 64 }
{
    let there = START + bytes * u64::from(lane);
    let before = end_of_page(rt, s);
    s.vec.set_k(1, u64::MAX << lane);
    let above = step(s, fields, &at(START));
    assert_eq!(rt;
        above,
        unmapped(kind, missing_from(there)),
        "from lane {lane} up"
    );
    assert!(rt; end_of_page(rt, s) == before, "from lane {lane} up");
    s.vec.set_k(1, 1 << lane);
    let alone = step(s, fields, &at(START));
    if there + bytes <= MISSING {
        assert_eq!(rt; alone, Some(Ok(())), "lane {lane}");
    } else {
        assert_eq!(rt; alone, unmapped(kind, missing_from(there)), "lane {lane}");
    }
}

fn assert_lanes(rt: &impl Abort, s: &mut Seat, width: u8, bytes: u64, lanes: u32)
    requires bytes { bytes ≤ 8 }
    requires lanes { lanes ≤ 64 }
{
    for lane in 0..lanes {
        assert_lane(rt, s, Kind::Read, &moved(LOAD, width), bytes, lane);
        assert_lane(rt, s, Kind::Write, &moved(STORE, width), bytes, lane);
    }
}

#[test]
fn lanes_are_accessed_where_they_are_masked_in(rt: HostRuntime) -> Result<(), Fail> {
    let mut s = make_seat(&rt, rt.alloc())?;
    assert_lanes(&rt, &mut s, 8, 1, 64);
    assert_lanes(&rt, &mut s, 16, 2, 32);
    assert_lanes(&rt, &mut s, 32, 4, 16);
    assert_lanes(&rt, &mut s, 64, 8, 8);
    Ok(())
}

/// VMOVDQU8 zmm0{k1}{z}, [rax] with rax eight bytes before the page that is missing.
#[test]
fn a_load_reads_no_lane_that_is_masked_out(rt: HostRuntime) -> Result<(), Fail> {
    let mut s = make_seat(&rt, rt.alloc())?;
    let load = Fields {
        z: true,
        ..moved(LOAD, 8)
    };
    let places = Places {
        reg: 0,
        ..at(EIGHT)
    };
    s.vec.set_k(1, 0x1FF);
    let ninth = step(&mut s, &load, &places);
    assert_eq!(rt; ninth, unmapped(Kind::Read, MISSING));
    assert_eq!(rt; *s.vec.zmm(0), [1; 64]);
    s.vec.set_k(1, 0xFF);
    let eight = step(&mut s, &load, &places);
    assert_eq!(rt; eight, Some(Ok(())));
    let mut want = [0; 64];
    want[..8].copy_from_slice(&FROM_15_UP[8..]);
    assert_eq!(rt; *s.vec.zmm(0), want);
    Ok(())
}

/// VMOVDQU32 [rax]{k1}, zmm0 with rax eight bytes before a page that can't be written.
#[test]
fn a_store_that_stops_writes_nothing(rt: HostRuntime) -> Result<(), Fail> {
    let mut s = make_seat(&rt, rt.alloc())?;
    let store = moved(STORE, 32);
    let places = Places {
        reg: 0,
        ..at(READABLE - 8)
    };
    let mut left = [7; 16];
    s.vec.set_k(1, 7);
    let three = step(&mut s, &store, &places);
    let denied = Stop {
        kind: Kind::Write,
        miss: Miss::Denied(READABLE),
    };
    assert_eq!(rt; three, Some(Err(denied)));
    assert_eq!(rt; s.pages.read(READABLE - 8, &mut left, Kind::Read), Ok(()));
    assert_eq!(rt; left, [0; 16]);
    s.vec.set_k(1, 3);
    let two = step(&mut s, &store, &places);
    assert_eq!(rt; two, Some(Ok(())));
    assert_eq!(rt; s.pages.read(READABLE - 8, &mut left, Kind::Read), Ok(()));
    assert_eq!(rt; left, [1, 1, 1, 1, 1, 1, 1, 1, 0, 0, 0, 0, 0, 0, 0, 0]);
    Ok(())
}

/// VPMASKMOVD of YMM registers with the mask in ymm2.
#[test]
fn signs_mask_loads_and_stores(rt: HostRuntime) -> Result<(), Fail> {
    let mut s = make_seat(&rt, rt.alloc())?;
    let load = fields((Class::Vex, 1, 2, 0x8C, 0x0B), 1, 0);
    let store = fields((Class::Vex, 1, 2, 0x8E, 0x0B), 1, 0);
    let mut signs = [0x7F; 64];
    signs[7] = 0x80;
    s.vec.set_zmm(2, &signs);
    assert_eq!(rt; step(&mut s, &store, &at(EIGHT)), Some(Ok(())));
    assert_eq!(rt; step(&mut s, &load, &at(EIGHT)), Some(Ok(())));
    let mut want = [0; 64];
    want[4..8].fill(0x11);
    assert_eq!(rt; *s.vec.zmm(1), want);
    assert_eq!(rt; &end_of_page(&rt, &s)[56..60], &FROM_15_UP[8..12]);
    signs[11] = 0x80;
    s.vec.set_zmm(2, &signs);
    let stored = step(&mut s, &store, &at(EIGHT));
    assert_eq!(rt; stored, unmapped(Kind::Write, MISSING));
    let loaded = step(&mut s, &load, &at(EIGHT));
    assert_eq!(rt; loaded, unmapped(Kind::Read, MISSING));
    assert_eq!(rt; *s.vec.zmm(1), want);
    Ok(())
}

/// VPADDD and VPADDQ, and VPUNPCKLDQ, whose operand is read whole, of one element for all lanes, with opmask 1.
fn spread(opcode: u8, w: bool, l: u8) -> Fields {
    Fields {
        l,
        bc: true,
        ..masked((Class::Evex, 1, 1, opcode, 0x0B), w)
    }
}

/// VPADDD and VPADDQ zmm1{k1}, zmm2, [rax]{1to16} and {1to8}, and VPADDD xmm1{k1}, xmm2, [rax]{1to4}.
#[test]
fn an_element_for_all_lanes_is_read_for_those_masked_in(rt: HostRuntime) -> Result<(), Fail> {
    let mut s = make_seat(&rt, rt.alloc())?;
    let doubles = spread(0xFE, false, 2);
    for (mask, l) in [(0, 2), (1 << 16, 2), (1 << 4, 0)] {
        s.vec.set_k(1, mask);
        let none = step(&mut s, &spread(0xFE, false, l), &at(MISSING));
        assert_eq!(rt; none, Some(Ok(())));
    }
    assert_eq!(rt; &s.vec.zmm(1)[..16], [0x11; 16].as_slice());
    s.vec.set_k(1, 1 << 15);
    let one = step(&mut s, &doubles, &at(MISSING));
    assert_eq!(rt; one, unmapped(Kind::Read, MISSING));
    s.vec.set_k(1, 1);
    let wide = step(&mut s, &spread(0xD4, true, 2), &at(MISSING - 4));
    assert_eq!(rt; wide, unmapped(Kind::Read, MISSING));
    let narrow = step(&mut s, &doubles, &at(MISSING - 4));
    assert_eq!(rt; narrow, Some(Ok(())));
    Ok(())
}

/// VPSRLD zmm1{k1}, zmm2, [rax], VPSHUFB of the same, and VPUNPCKLDQ zmm1{k1}, zmm2, [rax]{1to16} with no lane masked in.
#[test]
fn a_whole_operand_is_read_whatever_the_mask(rt: HostRuntime) -> Result<(), Fail> {
    let mut s = make_seat(&rt, rt.alloc())?;
    let counts = masked((Class::Evex, 1, 1, 0xD2, 0x0B), false);
    let shuffle = masked((Class::Evex, 1, 2, 0x00, 0x0B), false);
    for fields in [counts, shuffle] {
        let stopped = step(&mut s, &fields, &at(EIGHT));
        assert_eq!(rt; stopped, unmapped(Kind::Read, MISSING));
    }
    let element = step(&mut s, &spread(0x62, false, 2), &at(MISSING - 2));
    assert_eq!(rt; element, unmapped(Kind::Read, MISSING));
    Ok(())
}

/// 0 to 63.
fn counted() -> Vec64 {
    let mut out = [0; 64];
    for i in 0..64 {
        out[i] = i as u8;
    }
    out
}

/// VPCOMPRESSD [rax]{k1}, zmm1 with rax eight bytes before the page that is missing.
#[test]
fn lanes_that_are_closed_up_take_the_memory_that_they_need(rt: HostRuntime) -> Result<(), Fail> {
    let mut s = make_seat(&rt, rt.alloc())?;
    let store = masked((Class::Evex, 1, 2, 0x8B, 0x0B), false);
    let before = end_of_page(&rt, &s);
    s.vec.set_zmm(1, &counted());
    s.vec.set_k(1, 0x8003);
    let three = step(&mut s, &store, &at(EIGHT));
    assert_eq!(rt; three, unmapped(Kind::Write, MISSING));
    assert_eq!(rt; end_of_page(&rt, &s), before);
    s.vec.set_k(1, 0x8001);
    assert_eq!(rt; step(&mut s, &store, &at(EIGHT)), Some(Ok(())));
    let mut want = [0; 64];
    want[48..56].copy_from_slice(&FROM_15_UP[..8]);
    want[56..60].copy_from_slice(&[0, 1, 2, 3]);
    want[60..].copy_from_slice(&[60, 61, 62, 63]);
    assert_eq!(rt; end_of_page(&rt, &s), want);
    Ok(())
}

/// VPEXPANDD zmm1{k1}, [rax] with rax eight bytes before the page that is missing.
#[test]
fn lanes_that_are_spread_out_take_the_memory_that_they_need(rt: HostRuntime) -> Result<(), Fail> {
    let mut s = make_seat(&rt, rt.alloc())?;
    let load = masked((Class::Evex, 1, 2, 0x89, 0x0B), false);
    s.vec.set_k(1, 0x8003);
    let three = step(&mut s, &load, &at(EIGHT));
    assert_eq!(rt; three, unmapped(Kind::Read, MISSING));
    assert_eq!(rt; *s.vec.zmm(1), [0x11; 64]);
    s.vec.set_k(1, 0x8001);
    assert_eq!(rt; step(&mut s, &load, &at(EIGHT)), Some(Ok(())));
    let mut want = [0x11; 64];
    want[..4].copy_from_slice(&FROM_15_UP[8..12]);
    want[60..].copy_from_slice(&FROM_15_UP[12..]);
    assert_eq!(rt; *s.vec.zmm(1), want);
    Ok(())
}

/// Kind of access; mandatory prefix, map and opcode of EVEX, and W; how many bytes of the operand are there, k1, and where the first
/// byte stands that is missed, if one is, from the start of the page that is missing.
type Partial = (Kind, (u8, u8, u8), bool, u64, u64, Option<u64>);

#[rattlefmt::skip]
static PARTIAL: [Partial; 20] = [
    // VPMOVDB [rax]{k1}, zmm1 and VPMOVSQD.
    (Kind::Write, (2, 2, 0x31), false, 8, 0x00FF, None),
    (Kind::Write, (2, 2, 0x31), false, 8, 0x01FF, Some(0)),
    (Kind::Write, (2, 2, 0x31), false, 8, 0x0200, Some(1)),
    (Kind::Write, (2, 2, 0x25), false, 8, 0x0103, None),
    (Kind::Write, (2, 2, 0x25), false, 8, 0x0080, Some(20)),
    // VPMOVZXBD zmm1{k1}, [rax] and VPMOVSXWQ.
    (Kind::Read, (1, 2, 0x31), false, 8, 0x00FF, None),
    (Kind::Read, (1, 2, 0x31), false, 8, 0x8000, Some(7)),
    (Kind::Read, (1, 2, 0x24), false, 8, 0xFF0F, None),
    (Kind::Read, (1, 2, 0x24), false, 8, 0x0010, Some(0)),
    // VBROADCASTI32X4 zmm1{k1}, [rax] and VBROADCASTI64X2, of which an element feeds every fourth and every second lane.
    (Kind::Read, (1, 2, 0x5A), false, 8, 0x3333, None),
    (Kind::Read, (1, 2, 0x5A), false, 8, 0x4000, Some(0)),
    (Kind::Read, (1, 2, 0x5A), false, 8, 0x0008, Some(4)),
    (Kind::Read, (1, 2, 0x5A), true, 8, 0x0155, None),
    (Kind::Read, (1, 2, 0x5A), true, 8, 0x0080, Some(0)),
    // VBROADCASTI32X2 zmm1{k1}, [rax].
    (Kind::Read, (1, 2, 0x59), false, 8, 0xFFFF, None),
    (Kind::Read, (1, 2, 0x59), false, 4, 0x0800, Some(0)),
    // VPBROADCASTD zmm1{k1}, [rax].
    (Kind::Read, (1, 2, 0x58), false, 0, 0x0000, None),
    (Kind::Read, (1, 2, 0x58), false, 0, 0x1_0000, None),
    (Kind::Read, (1, 2, 0x58), false, 0, 0x8000, Some(0)),
    (Kind::Read, (1, 2, 0x58), false, 2, 0x0001, Some(0)),
];

fn partial() -> &'static [Partial] {
    &PARTIAL
}

#[test]
fn elements_are_accessed_for_lanes_that_are_masked_in(rt: HostRuntime) -> Result<(), Fail> {
    let mut s = make_seat(&rt, rt.alloc())?;
    for (index, case) in partial().iter().enumerate() {
        let (kind, (pp, map, opcode), w, there, mask, missed) = *case;
        let want = match missed {
            None => Some(Ok(())),
            Some(at) => unmapped(kind, MISSING.wrapping_add(at)),
        };
        s.vec.set_k(1, mask);
        let fields = masked((Class::Evex, pp, map, opcode, 0x0B), w);
        let stepped = step(&mut s, &fields, &at(MISSING.wrapping_sub(there)));
        assert_eq!(rt; stepped, want, "at row {index}");
    }
    Ok(())
}

/// PBLENDVB xmm1, [rax], xmm0 and BLENDVPD of the same, and VPBLENDVB xmm1, xmm2, [rax], xmm7, whose signs are all 0.
#[test]
fn a_blend_by_signs_reads_its_whole_operand(rt: HostRuntime) -> Result<(), Fail> {
    let mut s = make_seat(&rt, rt.alloc())?;
    let bytes = fields((Class::Legacy, 1, 2, 0x10, 0x0B), 0, 0);
    let doubles = fields((Class::Legacy, 1, 2, 0x15, 0x0B), 0, 0);
    let vex = fields((Class::Vex, 1, 3, 0x4C, 0x0B), 0, 0x70);
    assert_eq!(rt;
        step(&mut s, &vex, &at(EIGHT)),
        unmapped(Kind::Read, MISSING)
    );
    for fields in [bytes, doubles] {
        let stopped = step(&mut s, &fields, &at(MISSING));
        assert_eq!(rt; stopped, unmapped(Kind::Read, MISSING));
        assert_eq!(rt; step(&mut s, &fields, &at(LAST)), Some(Ok(())));
    }
    assert_eq!(rt; *s.vec.zmm(1), [0x11; 64]);
    Ok(())
}
