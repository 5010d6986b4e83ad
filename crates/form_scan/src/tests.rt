//! Known byte lists. What is expected is the SDM's.
use crate::*;
use row_table::Class;

/// What the test looks at.
#[derive(Clone, Copy, Debug, PartialEq, Eq)]
struct Seen {
    len: u8,
    rex: bool,
    w: bool,
    b: u8,
    rep: u8,
    segment: u8,
    disp: i64,
    imm: u64,
}

fn told_of(bytes: &[u8]) -> Option<Seen> {
    match scan(bytes) {
        Scan::Whole(f, len) => Some(Seen {
            len,
            rex: f.rex,
            w: f.w,
            b: f.b,
            rep: f.rep,
            segment: f.segment,
            disp: f.disp,
            imm: f.imm,
        }),
        Scan::Short | Scan::Dead => None,
    }
}

/// An instruction of which only the length is not 0 or false.
fn plain(len: u8) -> Seen {
    Seen {
        len,
        rex: false,
        w: false,
        b: 0,
        rep: 0,
        segment: 0,
        disp: 0,
        imm: 0,
    }
}

/// One with F2 or F3.
fn repeated(rep: u8, len: u8) -> Seen {
    Seen { rep, ..plain(len) }
}

/// One in a segment.
fn in_segment(segment: u8, len: u8) -> Seen {
    Seen {
        segment,
        ..plain(len)
    }
}

/// One with a displacement.
fn displaced(disp: i64, len: u8) -> Seen {
    Seen { disp, ..plain(len) }
}

/// One with an immediate.
fn immediate(imm: u64, len: u8) -> Seen {
    Seen { imm, ..plain(len) }
}

/// The same with REX.
fn rex(seen: Seen) -> Seen {
    Seen { rex: true, ..seen }
}

/// The same with REX.W.
fn wide(seen: Seen) -> Seen {
    Seen {
        w: true,
        ..rex(seen)
    }
}

/// The same with REX.B.
fn high(seen: Seen) -> Seen {
    Seen { b: 1, ..rex(seen) }
}

#[test]
fn known_instructions_are_whole(rt: HostRuntime) {
    let none = plain(0);
    let mut longest = [0x66; 15];
    longest[14] = 0x90;
    let rows: [(&[u8], Seen); 28] = [
        (&[0x31, 0xff], plain(2)),
        (&[0xf3, 0xc3], repeated(0xf3, 2)),
        // Of F2 and F3, and of 64 and 65, the last counts.
        (&[0xf3, 0xf2, 0xc3], repeated(0xf2, 3)),
        (&[0x65, 0x64, 0x8b, 0x00], in_segment(0x64, 4)),
        (&[0x66, 0x2e, 0x0f, 0x1f, 0x84, 0, 0, 0, 0, 0], plain(10)),
        (&[0xf3, 0x0f, 0x1e, 0xfa], repeated(0xf3, 4)),
        (
            &[0x48, 0xb8, 1, 2, 3, 4, 5, 6, 7, 8],
            wide(immediate(0x0807_0605_0403_0201, 10)),
        ),
        (&[0xb8, 1, 0, 0, 0], immediate(1, 5)),
        (&[0x66, 0xb8, 0x34, 0x12, 0, 0], immediate(0x1234, 4)),
        (&[0xb4, 0x05], immediate(5, 2)),
        (&[0x40, 0xb4, 0x05], rex(immediate(5, 3))),
        // A REX byte before a prefix does not count, and of two the second does.
        (&[0x48, 0x66, 0xb8, 0x34, 0x12], immediate(0x1234, 5)),
        (&[0x48, 0x41, 0xb8, 1, 0, 0, 0], high(immediate(1, 7))),
        // A SIB byte without a base, and an address relative to rip.
        (&[0x8b, 0x04, 0x25, 0, 0x10, 0, 0], displaced(0x1000, 7)),
        (&[0x48, 0x8d, 0x35, 0x10, 0, 0, 0], wide(displaced(0x10, 7))),
        (&[0x8b, 0x45, 0xf8], displaced(-8, 3)),
        (&[0x8b, 0x85, 0xf8, 0xff, 0xff, 0xff], displaced(-8, 6)),
        // An address of 8 bytes, and with 67 of 4.
        (&[0xa1, 0, 0, 1, 0, 0, 0, 0, 0], immediate(0x1_0000, 9)),
        (&[0x67, 0xa1, 0, 0, 1, 0, 0], immediate(0x1_0000, 6)),
        // TEST, of F6 and F7 the only one with an immediate; NEG.
        (&[0xf6, 0xc0, 0x05], immediate(5, 3)),
        (&[0x66, 0xf7, 0xc0, 0x34, 0x12], immediate(0x1234, 5)),
        (&[0xf7, 0xd8], plain(2)),
        // The map of 0F38.
        (&[0x0f, 0x38, 0xf0, 0x45, 0xf8], displaced(-8, 5)),
        (&[0x0f, 0x38, 0xf6, 0xc1], plain(4)),
        // CPUID and XGETBV; what is no row of an opcode that has one has a shape, too.
        (&[0x0f, 0xa2], plain(2)),
        (&[0x0f, 0x01, 0xd0], plain(3)),
        (&[0x0f, 0x01, 0x50, 0xf8], displaced(-8, 4)),
        (&longest, plain(15)),
    ];
    for (bytes, want) in rows {
        assert_eq!(rt; told_of(bytes).unwrap_or(none), want, "at {bytes:?}");
    }
}

#[test]
fn cut_and_unknown_bytes_are_told_apart(rt: HostRuntime) {
    let cut: [&[u8]; 10] = [
        &[],
        &[0x66, 0x66, 0x66],
        &[0x66; 16],
        &[0x0f],
        &[0x0f, 0x38],
        &[0x0f, 0x3a],
        &[0xf6, 0xc0],
        &[0x8b, 0x04],
        &[0x8b, 0x04, 0x25, 0, 0x10, 0],
        &[0x48, 0xb8, 1, 2, 3, 4, 5, 6, 7],
    ];
    for bytes in cut {
        assert!(rt; matches!(scan(bytes), Scan::Short), "at {bytes:?}");
    }
    let unknown: [&[u8]; 6] = [
        &[0x06],
        &[0x0f, 0x0b],
        &[0x0f, 0x58, 0xc1],
        &[0x0f, 0x38, 0xdc],
        &[0x0f, 0x3a, 0x08],
        &[0x66, 0x48, 0x27],
    ];
    for bytes in unknown {
        assert!(rt; matches!(scan(bytes), Scan::Dead), "at {bytes:?}");
    }
}

/// What VEX says: the map, pp, W, L, the bits R, X and B, vvvv and the immediate.
type Said = (u8, u8, bool, u8, (u8, u8, u8), u8, u64);

fn said_of(bytes: &[u8]) -> Option<Said> {
    match scan(bytes) {
        Scan::Whole(f, _) => match f.class {
            Class::Vex => Some((f.map, f.pp, f.w, f.l, (f.r, f.x, f.b), f.v, f.imm)),
            Class::Legacy | Class::Evex => None,
        },
        Scan::Short | Scan::Dead => None,
    }
}

#[test]
fn fields_of_vex_are_told(rt: HostRuntime) {
    let rows: [(&[u8], Said); 9] = [
        // andn %ecx, %ebx, %eax and the same of %rcx, %r15, %rax.
        (
            &[0xc4, 0xe2, 0x60, 0xf2, 0xc1],
            (2, 0, false, 0, (0, 0, 0), 3, 0),
        ),
        (
            &[0xc4, 0xe2, 0x80, 0xf2, 0xc1],
            (2, 0, true, 0, (0, 0, 0), 15, 0),
        ),
        // pext (%r8,%r9), %r10, %r11; pdep %rcx, %r15, %r8.
        (
            &[0xc4, 0x02, 0xaa, 0xf5, 0x1c, 0x08],
            (2, 2, true, 0, (1, 1, 1), 10, 0),
        ),
        (
            &[0xc4, 0x62, 0x83, 0xf5, 0xc1],
            (2, 3, true, 0, (1, 0, 0), 15, 0),
        ),
        // shlx %r9, %r10, %r11; rorx $63, (%r8), %r9.
        (
            &[0xc4, 0x42, 0xb1, 0xf7, 0xda],
            (2, 1, true, 0, (1, 0, 1), 9, 0),
        ),
        (
            &[0xc4, 0x43, 0xfb, 0xf0, 0x08, 0x3f],
            (3, 3, true, 0, (1, 0, 1), 0, 63),
        ),
        // vldmxcsr (%rax), and two bytes with R, vvvv, L and pp.
        (&[0xc5, 0xf8, 0xae, 0x10], (1, 0, false, 0, (0, 0, 0), 0, 0)),
        (&[0xc5, 0x7d, 0xae, 0x10], (1, 1, false, 1, (1, 0, 0), 0, 0)),
        (
            &[0xc5, 0x96, 0xae, 0x10],
            (1, 2, false, 1, (0, 0, 0), 13, 0),
        ),
    ];
    for (bytes, want) in rows {
        assert_eq!(rt; said_of(bytes), Some(want), "at {bytes:?}");
    }
}

#[test]
fn cut_and_unknown_bytes_of_vex_are_told_apart(rt: HostRuntime) {
    let cut: [&[u8]; 6] = [
        &[0xc5],
        &[0x48, 0xc4],
        &[0xc4, 0xe2],
        &[0xc4, 0xe3, 0x7b],
        &[0xc4, 0xe3, 0x7b, 0xf0, 0xc1],
        &[0xc5, 0xf8, 0xae, 0x5c],
    ];
    for bytes in cut {
        assert!(rt; matches!(scan(bytes), Scan::Short), "at {bytes:?}");
    }
    // Maps 0 and 4 have no row, and in the others 58 and F1 have none.
    let unknown: [&[u8]; 6] = [
        &[0xc4, 0xe0],
        &[0xc4, 0xe4],
        &[0xc4, 0xe1, 0x60, 0x58],
        &[0xc4, 0xe3, 0x60, 0xf1],
        &[0xc5, 0xf8, 0x58],
        &[0xc4, 0xe1, 0x60, 0x0f],
    ];
    for bytes in unknown {
        assert!(rt; matches!(scan(bytes), Scan::Dead), "at {bytes:?}");
    }
}

/// What EVEX says: the map, pp, W and L'L; R with R', X and B; vvvv with V'; z, b and aaa; and the displacement as it stands.
type EvexSaid = ((u8, u8, bool, u8), (u8, u8, u8), u8, (bool, bool, u8), i64);

fn evex_said_of(bytes: &[u8]) -> Option<EvexSaid> {
    match scan(bytes) {
        Scan::Whole(f, _) => match f.class {
            Class::Evex => Some((
                (f.map, f.pp, f.w, f.l),
                (f.r, f.x, f.b),
                f.v,
                (f.z, f.bc, f.aaa),
                f.disp,
            )),
            Class::Legacy | Class::Vex => None,
        },
        Scan::Short | Scan::Dead => None,
    }
}

#[test]
fn fields_of_evex_are_told(rt: HostRuntime) {
    let none = (false, false, 0);
    let rows: [(&[u8], EvexSaid); 6] = [
        // vpaddd %zmm1,%zmm0,%zmm0 and the same of %zmm29, %zmm30, %zmm31.
        (
            &[0x62, 0xf1, 0x7d, 0x48, 0xfe, 0xc1],
            ((1, 1, false, 2), (0, 0, 0), 0, none, 0),
        ),
        (
            &[0x62, 0x01, 0x0d, 0x40, 0xfe, 0xfd],
            ((1, 1, false, 2), (3, 1, 1), 30, none, 0),
        ),
        // vpaddd %xmm3,%xmm17,%xmm1{%k7}; vpaddd %ymm3,%ymm2,%ymm1{%k1}{z}.
        (
            &[0x62, 0xf1, 0x75, 0x07, 0xfe, 0xcb],
            ((1, 1, false, 0), (0, 0, 0), 17, (false, false, 7), 0),
        ),
        (
            &[0x62, 0xf1, 0x6d, 0xa9, 0xfe, 0xcb],
            ((1, 1, false, 1), (0, 0, 0), 2, (true, false, 1), 0),
        ),
        // vpaddd 4(%rsp){1to16},%zmm0,%zmm0, whose displacement stands as 1.
        (
            &[0x62, 0xf1, 0x7d, 0x58, 0xfe, 0x44, 0x24, 0x01],
            ((1, 1, false, 2), (0, 0, 0), 0, (false, true, 0), 1),
        ),
        // No row has W here, F3 and a length of 3: that is not looked at.
        (
            &[0x62, 0xf1, 0xfe, 0x68, 0xfe, 0xc1],
            ((1, 2, true, 3), (0, 0, 0), 0, none, 0),
        ),
    ];
    for (bytes, want) in rows {
        assert_eq!(rt; evex_said_of(bytes), Some(want), "at {bytes:?}");
    }
}

#[test]
fn cut_and_unknown_bytes_of_evex_are_told_apart(rt: HostRuntime) {
    let cut: [&[u8]; 7] = [
        &[0x62],
        &[0x48, 0x62],
        &[0x62, 0xf1],
        &[0x62, 0xf1, 0x7d],
        &[0x62, 0xf1, 0x7d, 0x48],
        &[0x62, 0xf1, 0x7d, 0x48, 0xfe],
        &[0x62, 0xf1, 0x7d, 0x48, 0xfe, 0x44, 0x24],
    ];
    for bytes in cut {
        assert!(rt; matches!(scan(bytes), Scan::Short), "at {bytes:?}");
    }
    // Maps 0 and 4 have no row, nor has 58 in the first; then the bit that is 0, and the bit that is 1.
    let unknown: [&[u8]; 5] = [
        &[0x62, 0xf0],
        &[0x62, 0xf4],
        &[0x62, 0xf1, 0x7c, 0x48, 0x58],
        &[0x62, 0xf9],
        &[0x62, 0xf1, 0x79],
    ];
    for bytes in unknown {
        assert!(rt; matches!(scan(bytes), Scan::Dead), "at {bytes:?}");
    }
}
