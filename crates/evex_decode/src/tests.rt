//! The rules beyond the table's. What is expected is the SDM's, and for a register number out of range this machine's.
use crate::masking::{does_broadcast_fit, does_mask_fit, does_zeroing_fit};
use crate::naming::are_registers_allowed;
use crate::scaling::scale;
use crate::*;
use row_table::{Class, Fields, LaneOp, MaskKind, Op, Operands, Row, Tuple, find, row};
use std::process::Abort;

/// VPADDD ZMM0, ZMM0, ZMM1, with another ModRM byte.
fn sum(modrm: u8) -> Fields {
    Fields {
        class: Class::Evex,
        segment: 0,
        lock: false,
        rep: 0,
        p66: false,
        p67: false,
        rex: false,
        w: false,
        r: 0,
        x: 0,
        b: 0,
        v: 0,
        l: 2,
        pp: 1,
        map: 1,
        opcode: 0xfe,
        modrm: Some(modrm),
        sib: None,
        disp: 0,
        disp_len: 0,
        imm: 0,
        imm_len: 0,
        z: false,
        bc: false,
        aaa: 0,
    }
}

/// VPADDD of registers.
fn of_registers() -> Fields {
    sum(0xc1)
}

/// VPADDD with memory at RAX and a displacement of one byte.
fn at(disp: i64) -> Fields {
    Fields {
        disp,
        disp_len: 1,
        ..sum(0x40)
    }
}

/// The same with broadcast.
fn broadcast(disp: i64) -> Fields {
    Fields {
        bc: true,
        ..at(disp)
    }
}

/// The name of the operation, of those that the test meets, the width and the displacement.
fn matched(fields: &Fields) -> Option<(&'static str, u8, i64)> {
    let decoded = match fields.class {
        Class::Evex => match_evex(fields)?,
        Class::Legacy | Class::Vex => return None,
    };
    let row = row(decoded.row);
    let name = match row.op {
        Op::Lane(LaneOp::Padd) => "padd",
        _ => "another",
    };
    Some((name, row.width, decoded.disp))
}

#[test]
fn rows_are_spelled_by_their_fields(rt: HostRuntime) {
    let high = Fields {
        r: 3,
        x: 1,
        b: 1,
        v: 31,
        ..of_registers()
    };
    let zeroing = Fields {
        z: true,
        aaa: 7,
        ..of_registers()
    };
    let of_128 = Fields { l: 0, ..at(-128) };
    let far = Fields {
        disp: 128,
        disp_len: 4,
        ..sum(0x80)
    };
    let masked = Fields {
        aaa: 1,
        z: true,
        ..broadcast(127)
    };
    for (bytes, fields, want) in [
        ("62 f1 7d 48 fe c1", of_registers(), 0),
        ("62 01 05 40 fe c1", high, 0),
        ("62 f1 7d cf fe c1", zeroing, 0),
        ("62 f1 7d 48 fe 40 01", at(1), 64),
        ("62 f1 7d 48 fe 40 7f", at(127), 8128),
        ("62 f1 7d 48 fe 40 80", at(-128), -8192),
        ("62 f1 7d 08 fe 40 80", of_128, -2048),
        ("62 f1 7d 48 fe 80 80 00 00 00", far, 128),
        ("62 f1 7d 58 fe 40 01", broadcast(1), 4),
        ("62 f1 7d 58 fe 40 80", broadcast(-128), -512),
        ("62 f1 7d d9 fe 40 7f", masked, 508),
    ] {
        assert_eq!(rt; matched(&fields), Some(("padd", 32, want)), "at {bytes}");
    }
}

/// What differs from VPADDD of registers, and how.
fn unlike_registers() -> [(&'static str, Fields); 28] {
    let it = of_registers();
    [
        ("lock before", Fields { lock: true, ..it }),
        ("66 before", Fields { p66: true, ..it }),
        ("f2 before", Fields { rep: 0xf2, ..it }),
        ("f3 before", Fields { rep: 0xf3, ..it }),
        ("rex before", Fields { rex: true, ..it }),
        ("r of three bits", Fields { r: 4, ..it }),
        ("x of two bits", Fields { x: 2, ..it }),
        ("b of two bits", Fields { b: 2, ..it }),
        ("v of six bits", Fields { v: 32, ..it }),
        ("a length of 3", Fields { l: 3, ..it }),
        ("pp of three bits", Fields { pp: 5, ..it }),
        ("aaa of four bits", Fields { aaa: 8, ..it }),
        ("pp 0", Fields { pp: 0, ..it }),
        ("pp 2", Fields { pp: 2, ..it }),
        ("pp 3", Fields { pp: 3, ..it }),
        ("w", Fields { w: true, ..it }),
        ("map 0", Fields { map: 0, ..it }),
        ("map 2", Fields { map: 2, ..it }),
        ("another opcode", Fields { opcode: 0xff, ..it }),
        ("without ModRM", Fields { modrm: None, ..it }),
        (
            "with SIB",
            Fields {
                sib: Some(0x24),
                ..it
            },
        ),
        (
            "without SIB",
            Fields {
                modrm: Some(0x04),
                ..it
            },
        ),
        ("zeroing without a mask", Fields { z: true, ..it }),
        ("broadcast of a register", Fields { bc: true, ..it }),
        (
            "broadcast of a register with a mask",
            Fields {
                bc: true,
                aaa: 1,
                ..it
            },
        ),
        ("128 in one byte", at(128)),
        ("-129 in one byte", at(-129)),
        (
            "zeroing without a mask from memory",
            Fields { z: true, ..at(1) },
        ),
    ]
}

#[test]
fn fields_that_no_instruction_of_evex_has_spell_nothing(rt: HostRuntime) {
    assert!(rt; matched(&of_registers()).is_some() && matched(&at(127)).is_some());
    for (what, fields) in unlike_registers() {
        assert_eq!(rt; matched(&fields), None, "{what}");
    }
}

/// The row of VPADDD with other operands, kind of mask and tuple.
fn like(rt: &impl Abort, operands: Operands, mask: MaskKind, tuple: Tuple) -> Row {
    let index = find(&of_registers()).expect(rt, "VPADDD has a row");
    Row {
        operands,
        mask,
        tuple,
        ..row(index)
    }
}

#[test]
fn registers_are_in_range_and_unused_bits_are_0(rt: HostRuntime) {
    let it = of_registers();
    for (what, operands, fields, want) in [
        (
            "vectors",
            Operands::VxHxWx,
            Fields {
                r: 3,
                x: 1,
                b: 1,
                v: 31,
                ..it
            },
            true,
        ),
        ("unused vvvv", Operands::VxWx, Fields { v: 1, ..it }, false),
        ("unused v", Operands::VxWx, Fields { v: 16, ..it }, false),
        ("neither", Operands::VxWx, it, true),
        // An index that is a vector register has V', and vvvv has no use beside it.
        ("an index", Operands::VxVm, Fields { v: 16, ..it }, true),
        (
            "vvvv with an index",
            Operands::VxVm,
            Fields { v: 17, ..it },
            false,
        ),
        // General registers: in ModRM.reg, in ModRM.r/m, and an address that has X.
        (
            "general reg 15",
            Operands::GvUx,
            Fields { r: 1, ..it },
            true,
        ),
        (
            "general reg 16",
            Operands::GvUx,
            Fields { r: 2, ..it },
            false,
        ),
        ("general rm 15", Operands::VxRv, Fields { b: 1, ..it }, true),
        (
            "general rm 16",
            Operands::VxRv,
            Fields { x: 1, ..it },
            false,
        ),
        (
            "an address",
            Operands::VxEv,
            Fields { x: 1, ..sum(0x00) },
            true,
        ),
        // Opmask registers: in ModRM.reg, in ModRM.r/m, and beside vectors.
        (
            "opmask reg 7",
            Operands::KxHxWx,
            Fields {
                x: 1,
                b: 1,
                v: 31,
                ..sum(0xf9)
            },
            true,
        ),
        (
            "opmask reg 8",
            Operands::KxHxWx,
            Fields { r: 1, ..it },
            false,
        ),
        (
            "opmask reg 16",
            Operands::KxHxWx,
            Fields { r: 2, ..it },
            false,
        ),
        ("opmask rm 7", Operands::VxKx, Fields { r: 3, ..it }, true),
        ("opmask rm 8", Operands::VxKx, Fields { b: 1, ..it }, false),
        ("opmask rm 16", Operands::VxKx, Fields { x: 1, ..it }, false),
    ] {
        let row = like(&rt, operands, MaskKind::MergeZero, Tuple::Full);
        assert_eq!(rt; are_registers_allowed(&row, &fields), want, "{what}");
    }
}

/// Whether a row of that kind takes no mask, a mask, a mask with zeroing, and this in memory.
fn masks(rt: &impl Abort, operands: Operands, mask: MaskKind) -> [bool; 4] {
    let row = like(rt, operands, mask, Tuple::FullMem);
    let masked = Fields {
        aaa: 1,
        ..of_registers()
    };
    let zeroing = Fields { z: true, ..masked };
    let in_memory = Fields {
        modrm: Some(0x00),
        ..zeroing
    };
    [
        does_mask_fit(&row, &of_registers()),
        does_mask_fit(&row, &masked),
        does_zeroing_fit(&row, &zeroing),
        does_zeroing_fit(&row, &in_memory),
    ]
}

#[test]
fn rows_take_the_masks_of_their_kind(rt: HostRuntime) {
    for (what, operands, mask, want) in [
        (
            "no mask",
            Operands::VxWx,
            MaskKind::NoMask,
            [true, false, false, false],
        ),
        (
            "from memory",
            Operands::VxWx,
            MaskKind::MergeZero,
            [true, true, true, true],
        ),
        (
            "to memory",
            Operands::WxVx,
            MaskKind::MergeZero,
            [true, true, true, false],
        ),
        (
            "to an opmask",
            Operands::KxHxWx,
            MaskKind::ToMask,
            [true, true, false, false],
        ),
        (
            "a choice",
            Operands::VxHxWx,
            MaskKind::Blend,
            [true, true, true, true],
        ),
        (
            "compress",
            Operands::WxVx,
            MaskKind::Compress,
            [true, true, true, false],
        ),
        (
            "gather",
            Operands::VxVm,
            MaskKind::Required,
            [false, true, false, false],
        ),
    ] {
        assert_eq!(rt; masks(&rt, operands, mask), want, "{what}");
    }
}

/// A tuple, and N for vectors of 128, 256 and 512 bits and with broadcast, by rows of 32 bits. 0 is no broadcast.
static SCALES: [(Tuple, [u8; 4]); 11] = [
    (Tuple::Full, [16, 32, 64, 4]),
    (Tuple::Half, [8, 16, 32, 4]),
    (Tuple::FullMem, [16, 32, 64, 0]),
    (Tuple::HalfMem, [8, 16, 32, 0]),
    (Tuple::QuarterMem, [4, 8, 16, 0]),
    (Tuple::EighthMem, [2, 4, 8, 0]),
    (Tuple::Mem128, [16, 16, 16, 0]),
    (Tuple::T1S, [4, 4, 4, 0]),
    (Tuple::T2, [8, 8, 8, 0]),
    (Tuple::T4, [16, 16, 16, 0]),
    (Tuple::T8, [32, 32, 32, 0]),
];

fn scales() -> &'static [(Tuple, [u8; 4])] {
    &SCALES
}

#[test]
fn displacements_of_one_byte_are_multiplied_by_tuple_and_length(rt: HostRuntime) {
    for (number, (tuple, want)) in scales().iter().enumerate() {
        let row = like(&rt, Operands::VxHxWx, MaskKind::MergeZero, *tuple);
        for l in 0..3 {
            let fields = Fields { l, ..at(1) };
            assert_eq!(rt;
                scale(&row, &fields),
                want[l as usize],
                "tuple {number}, length {l}"
            );
        }
        let is_known = does_broadcast_fit(&row, &broadcast(1));
        assert_eq!(rt; is_known, want[3] != 0, "broadcast of tuple {number}");
        if is_known {
            assert_eq!(rt;
                scale(&row, &broadcast(1)),
                want[3],
                "broadcast of tuple {number}"
            );
        }
    }
}

#[test]
fn elements_have_the_width_of_the_row_and_broadcast_that_of_w(rt: HostRuntime) {
    let full = like(&rt, Operands::VxHxWx, MaskKind::MergeZero, Tuple::Full);
    let with_w = Fields {
        w: true,
        ..broadcast(1)
    };
    assert_eq!(rt; scale(&full, &with_w), 8);
    for (tuple, width, want) in [
        (Tuple::T1S, 8, 1),
        (Tuple::T1S, 16, 2),
        (Tuple::T1S, 64, 8),
        (Tuple::T2, 64, 16),
        (Tuple::T4, 64, 32),
    ] {
        let row = like(&rt, Operands::VxWx, MaskKind::MergeZero, tuple);
        assert_eq!(rt; scale(&Row { width, ..row }, &at(1)), want, "width {width}");
    }
}
