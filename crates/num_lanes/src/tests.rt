//! Lanes, signs and clamps at each width. What is expected is the SDM's (volume 1, 4.1, 4.2.1.2 and 9.3.2).
ghost use Rattle.std.specs.Prelude.{◌<◌, ◌≤◌};

use crate::*;
use bitflags::Flags;

static BYTES: [u8; 16] = [
    0x00, 0x11, 0x22, 0x33, 0x44, 0x55, 0x66, 0x77, 0x88, 0x99, 0xAA, 0xBB, 0xCC, 0xDD, 0xEE, 0xFF,
];

/// The first row whose number isn't that of its lane of `BYTES`.
fn wrong_lane<const W: usize>(rows: &[(usize, u64)]) -> Option<usize>
    requires some { 0 < W }
    requires most { W ≤ 8 }
{
    for (i, (lane, number)) in rows.iter().enumerate() {
        if *lane >= 16 || *lane * W + W > 16 || get_lane::<W>(&BYTES, *lane) != *number {
            return Some(i);
        }
    }
    None
}

#[test]
fn lane_is_the_number_in_its_bytes(rt: HostRuntime) {
    assert_eq!(rt; wrong_lane::<1>(&[(0, 0x00), (1, 0x11), (15, 0xFF)]), None);
    assert_eq!(rt;
        wrong_lane::<2>(&[(0, 0x1100), (1, 0x3322), (7, 0xFFEE)]),
        None
    );
    assert_eq!(rt;
        wrong_lane::<4>(&[(0, 0x3322_1100), (3, 0xFFEE_DDCC)]),
        None
    );
    assert_eq!(rt;
        wrong_lane::<8>(&[(0, 0x7766_5544_3322_1100), (1, 0xFFEE_DDCC_BBAA_9988)]),
        None
    );
}

#[test]
fn lane_takes_the_low_bytes_and_leaves_the_others(rt: HostRuntime) {
    let mut bytes = BYTES;
    set_lane::<1>(&mut bytes, 0, 0x0102_0304_0506_0708);
    set_lane::<2>(&mut bytes, 1, 0x0102_0304_0506_0708);
    set_lane::<4>(&mut bytes, 3, 0x0102_0304_0506_0708);
    assert_eq!(rt;
        bytes,
        [
            0x08, 0x11, 0x08, 0x07, 0x44, 0x55, 0x66, 0x77, 0x88, 0x99, 0xAA, 0xBB, 0x08, 0x07,
            0x06, 0x05,
        ]
    );
    set_lane::<8>(&mut bytes, 1, 0x0102_0304_0506_0708);
    set_lane::<2>(&mut bytes, 7, 0xFFFF_8000);
    set_lane::<1>(&mut bytes, 15, 0x17F);
    assert_eq!(rt;
        bytes,
        [
            0x08, 0x11, 0x08, 0x07, 0x44, 0x55, 0x66, 0x77, 0x08, 0x07, 0x06, 0x05, 0x04, 0x03,
            0x00, 0x7F,
        ]
    );
}

/// The first row whose signed number isn't that of its bits.
fn wrong_sign<const W: usize>(rows: &[(u64, i64)]) -> Option<usize>
    requires some { 0 < W }
    requires most { W ≤ 8 }
{
    for (i, (value, signed)) in rows.iter().enumerate() {
        if sign::<W>(*value) != *signed {
            return Some(i);
        }
    }
    None
}

#[test]
fn sign_is_that_of_the_low_bytes(rt: HostRuntime) {
    assert_eq!(rt;
        wrong_sign::<1>(&[
            (0x7F, 127),
            (0x80, -128),
            (0xFF, -1),
            (0xFF00, 0),
            (0x8001, 1)
        ]),
        None
    );
    assert_eq!(rt;
        wrong_sign::<2>(&[
            (0x80, 128),
            (0x7FFF, 32767),
            (0x8000, -32768),
            (0xA_FFFF, -1)
        ]),
        None
    );
    assert_eq!(rt;
        wrong_sign::<4>(&[
            (0x7FFF_FFFF, 2_147_483_647),
            (0x8000_0000, -2_147_483_648),
            (0x1_FFFF_FFFF, -1),
        ]),
        None
    );
    assert_eq!(rt;
        wrong_sign::<8>(&[
            (0x8000_0000, 0x8000_0000),
            (0x7FFF_FFFF_FFFF_FFFF, i64::MAX),
            (0x8000_0000_0000_0000, i64::MIN),
            (0xFFFF_FFFF_FFFF_FFFF, -1),
        ]),
        None
    );
}

/// A number, and the nearest numbers of so many bits with and without a sign.
struct Clamped {
    bits: u32,
    value: i128,
    signed: u64,
    unsigned: u64,
}

static CLAMPED: [Clamped; 26] = [
    Clamped {
        bits: 8,
        value: 0,
        signed: 0,
        unsigned: 0,
    },
    Clamped {
        bits: 8,
        value: -1,
        signed: 0xFF,
        unsigned: 0,
    },
    Clamped {
        bits: 8,
        value: 127,
        signed: 0x7F,
        unsigned: 0x7F,
    },
    Clamped {
        bits: 8,
        value: 128,
        signed: 0x7F,
        unsigned: 0x80,
    },
    Clamped {
        bits: 8,
        value: -128,
        signed: 0x80,
        unsigned: 0,
    },
    Clamped {
        bits: 8,
        value: -129,
        signed: 0x80,
        unsigned: 0,
    },
    Clamped {
        bits: 8,
        value: 255,
        signed: 0x7F,
        unsigned: 0xFF,
    },
    Clamped {
        bits: 8,
        value: 256,
        signed: 0x7F,
        unsigned: 0xFF,
    },
    Clamped {
        bits: 16,
        value: 0x7FFF,
        signed: 0x7FFF,
        unsigned: 0x7FFF,
    },
    Clamped {
        bits: 16,
        value: 0x8000,
        signed: 0x7FFF,
        unsigned: 0x8000,
    },
    Clamped {
        bits: 16,
        value: -0x8000,
        signed: 0x8000,
        unsigned: 0,
    },
    Clamped {
        bits: 16,
        value: -0x8001,
        signed: 0x8000,
        unsigned: 0,
    },
    Clamped {
        bits: 16,
        value: 0xFFFF,
        signed: 0x7FFF,
        unsigned: 0xFFFF,
    },
    Clamped {
        bits: 16,
        value: 0x1_0000,
        signed: 0x7FFF,
        unsigned: 0xFFFF,
    },
    Clamped {
        bits: 32,
        value: 0x7FFF_FFFF,
        signed: 0x7FFF_FFFF,
        unsigned: 0x7FFF_FFFF,
    },
    Clamped {
        bits: 32,
        value: 0x8000_0000,
        signed: 0x7FFF_FFFF,
        unsigned: 0x8000_0000,
    },
    Clamped {
        bits: 32,
        value: -0x8000_0000,
        signed: 0x8000_0000,
        unsigned: 0,
    },
    Clamped {
        bits: 32,
        value: -0x8000_0001,
        signed: 0x8000_0000,
        unsigned: 0,
    },
    Clamped {
        bits: 32,
        value: 0xFFFF_FFFF,
        signed: 0x7FFF_FFFF,
        unsigned: 0xFFFF_FFFF,
    },
    Clamped {
        bits: 32,
        value: 0x1_0000_0000,
        signed: 0x7FFF_FFFF,
        unsigned: 0xFFFF_FFFF,
    },
    Clamped {
        bits: 64,
        value: 0x7FFF_FFFF_FFFF_FFFF,
        signed: 0x7FFF_FFFF_FFFF_FFFF,
        unsigned: 0x7FFF_FFFF_FFFF_FFFF,
    },
    Clamped {
        bits: 64,
        value: 0x8000_0000_0000_0000,
        signed: 0x7FFF_FFFF_FFFF_FFFF,
        unsigned: 0x8000_0000_0000_0000,
    },
    Clamped {
        bits: 64,
        value: -0x8000_0000_0000_0000,
        signed: 0x8000_0000_0000_0000,
        unsigned: 0,
    },
    Clamped {
        bits: 64,
        value: -0x8000_0000_0000_0001,
        signed: 0x8000_0000_0000_0000,
        unsigned: 0,
    },
    Clamped {
        bits: 64,
        value: 0xFFFF_FFFF_FFFF_FFFF,
        signed: 0x7FFF_FFFF_FFFF_FFFF,
        unsigned: 0xFFFF_FFFF_FFFF_FFFF,
    },
    Clamped {
        bits: 64,
        value: 0x1_0000_0000_0000_0000,
        signed: 0x7FFF_FFFF_FFFF_FFFF,
        unsigned: 0xFFFF_FFFF_FFFF_FFFF,
    },
];

fn wrong_clamp(rows: &[Clamped]) -> Option<usize> {
    for (i, row) in rows.iter().enumerate() {
        if row.bits == 0 || row.bits > 64 {
            return Some(i);
        }
        if clamp_signed(row.value, row.bits) != row.signed
            || clamp_unsigned(row.value, row.bits) != row.unsigned
        {
            return Some(i);
        }
    }
    None
}

#[test]
fn numbers_out_of_a_range_go_to_its_ends(rt: HostRuntime) {
    assert_eq!(rt; wrong_clamp(&CLAMPED), None);
}

#[test]
fn components_have_their_bits(rt: HostRuntime) {
    assert_eq!(rt; Components::all().bits(), 0xE7);
    assert_eq!(rt; (Components::SSE | Components::AVX).bits(), 0x06);
    assert!(rt; Components(0x60).contains(Components::OPMASK));
    assert!(rt; !Components(0x60).contains(Components::HI16_ZMM));
}
