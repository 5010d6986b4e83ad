//! The rules beyond the table's. What is expected is the SDM's.
use crate::*;
use row_table::{BitOp, Class, CoreOp, Fields, GprOp, Op, row};

/// The fields of a VEX instruction with map, pp, opcode and ModRM byte; W, L and vvvv are 0.
fn plain(map: u8, pp: u8, opcode: u8, modrm: Option<u8>) -> Fields {
    Fields {
        class: Class::Vex,
        segment: 0,
        lock: false,
        rep: 0,
        p66: false,
        p67: false,
        rex: false,
        w: false,
        r: 0,
        x: 0,
        b: 0,
        v: 0,
        l: 0,
        pp,
        map,
        opcode,
        modrm,
        sib: None,
        disp: 0,
        disp_len: 0,
        imm: 0,
        imm_len: 0,
        z: false,
        bc: false,
        aaa: 0,
    }
}

/// ANDN EAX, EBX, ECX.
fn andn() -> Fields {
    Fields {
        v: 3,
        ..plain(2, 0, 0xf2, Some(0xc1))
    }
}

/// RORX EAX, ECX, 5.
fn rorx() -> Fields {
    Fields {
        imm: 5,
        imm_len: 1,
        ..plain(3, 3, 0xf0, Some(0xc1))
    }
}

/// The name of the operation, of those that the test meets, the width and the displacement.
fn matched(fields: &Fields) -> Option<(&'static str, u8, i64)> {
    let decoded = match fields.class {
        Class::Vex => match_vex(fields)?,
        Class::Legacy | Class::Evex => return None,
    };
    let row = row(decoded.row);
    let name = match row.op {
        Op::Core(CoreOp::Ldmxcsr) => "ldmxcsr",
        Op::Bit(BitOp::Andn) => "andn",
        Op::Bit(BitOp::Blsi) => "blsi",
        Op::Bit(BitOp::Sarx) => "sarx",
        Op::Bit(BitOp::Rorx) => "rorx",
        Op::Gpr(GprOp::Mulx) => "mulx",
        _ => "another",
    };
    Some((name, row.width, decoded.disp))
}

#[test]
fn rows_are_spelled_by_their_fields(rt: HostRuntime) {
    let w1 = Fields { w: true, ..andn() };
    let high = Fields {
        r: 1,
        b: 1,
        v: 15,
        ..andn()
    };
    let below = Fields {
        disp: -8,
        disp_len: 1,
        ..plain(2, 0, 0xf3, Some(0x5d))
    };
    let from_sib = Fields {
        sib: Some(0x08),
        x: 1,
        ..plain(2, 2, 0xf7, Some(0x04))
    };
    let in_segment = Fields {
        segment: 0x64,
        p67: true,
        ..plain(1, 0, 0xae, Some(0x10))
    };
    for (bytes, fields, want) in [
        ("c4 e2 60 f2 c1", andn(), ("andn", 32, 0)),
        ("c4 e2 e0 f2 c1", w1, ("andn", 64, 0)),
        ("c4 42 00 f2 c1", high, ("andn", 32, 0)),
        ("c4 e2 78 f3 5d f8", below, ("blsi", 32, -8)),
        ("c4 a2 7a f7 04 08", from_sib, ("sarx", 32, 0)),
        ("64 67 c5 f8 ae 10", in_segment, ("ldmxcsr", 32, 0)),
        ("c4 e3 7b f0 c1 05", rorx(), ("rorx", 32, 0)),
        (
            "c4 e2 7b f6 c1",
            plain(2, 3, 0xf6, Some(0xc1)),
            ("mulx", 32, 0),
        ),
    ] {
        assert_eq!(rt; matched(&fields), Some(want), "at {bytes}");
    }
}

#[test]
fn fields_that_no_instruction_of_vex_has_spell_nothing(rt: HostRuntime) {
    assert!(rt; matched(&andn()).is_some() && matched(&rorx()).is_some());
    for (what, fields) in [
        (
            "lock before",
            Fields {
                lock: true,
                ..andn()
            },
        ),
        (
            "66 before",
            Fields {
                p66: true,
                ..andn()
            },
        ),
        (
            "f2 before",
            Fields {
                rep: 0xf2,
                ..andn()
            },
        ),
        (
            "f3 before",
            Fields {
                rep: 0xf3,
                ..andn()
            },
        ),
        (
            "rex before",
            Fields {
                rex: true,
                ..andn()
            },
        ),
        ("256 bits", Fields { l: 1, ..andn() }),
        ("pp 1", Fields { pp: 1, ..andn() }),
        (
            "another opcode",
            Fields {
                opcode: 0xf4,
                ..andn()
            },
        ),
        ("the map of 0f", Fields { map: 1, ..andn() }),
        ("register 16", Fields { v: 16, ..andn() }),
        ("register 16 in r", Fields { r: 2, ..andn() }),
        ("register 16 in b", Fields { b: 2, ..andn() }),
        ("x of two bits", Fields { x: 2, ..andn() }),
        ("vvvv without an operand", Fields { v: 1, ..rorx() }),
        ("pp of three bits", Fields { pp: 4, ..rorx() }),
        (
            "without ModRM",
            Fields {
                modrm: None,
                ..andn()
            },
        ),
        (
            "with SIB",
            Fields {
                sib: Some(0x24),
                ..andn()
            },
        ),
        ("a mask", Fields { aaa: 1, ..andn() }),
        ("zeroing", Fields { z: true, ..andn() }),
        ("broadcast", Fields { bc: true, ..andn() }),
    ] {
        assert_eq!(rt; matched(&fields), None, "{what}");
    }
}
