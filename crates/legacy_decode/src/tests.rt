//! The rules beyond the table's. What is expected is the SDM's.
use crate::*;
use row_table::{BitOp, Class, CoreOp, Fields, GprOp, Op, row};

/// The fields of a legacy instruction of the one-byte map with this opcode and ModRM byte, without prefixes.
fn plain(opcode: u8, modrm: Option<u8>) -> Fields {
    Fields {
        class: Class::Legacy,
        segment: 0,
        lock: false,
        rep: 0,
        p66: false,
        p67: false,
        rex: false,
        w: false,
        r: 0,
        x: 0,
        b: 0,
        v: 0,
        l: 0,
        pp: 0,
        map: 0,
        opcode,
        modrm,
        sib: None,
        disp: 0,
        disp_len: 0,
        imm: 0,
        imm_len: 0,
        z: false,
        bc: false,
        aaa: 0,
    }
}

/// The same with LOCK.
fn locked(opcode: u8, modrm: Option<u8>) -> Fields {
    Fields {
        lock: true,
        ..plain(opcode, modrm)
    }
}

/// The same in the map of 0F.
fn locked_two_byte(opcode: u8, modrm: Option<u8>) -> Fields {
    Fields {
        map: 1,
        ..locked(opcode, modrm)
    }
}

/// Fields of an instruction of the map of 0F, without LOCK.
fn two_byte(opcode: u8, modrm: Option<u8>) -> Fields {
    Fields {
        map: 1,
        ..plain(opcode, modrm)
    }
}

/// The name of the operation, of those that the test meets, and the displacement.
fn matched(fields: &Fields) -> Option<(&'static str, i64)> {
    let decoded = match fields.class {
        Class::Legacy => match_legacy(fields)?,
        Class::Vex | Class::Evex => return None,
    };
    let name = match row(decoded.row).op {
        Op::Core(CoreOp::Mov) => "mov",
        Op::Core(CoreOp::Ret) => "ret",
        Op::Core(CoreOp::Xchg) => "xchg",
        Op::Core(CoreOp::Cmpxchg8b) => "cmpxchg8b",
        Op::Core(CoreOp::Cpuid) => "cpuid",
        Op::Core(CoreOp::Xgetbv) => "xgetbv",
        Op::Gpr(GprOp::Add) => "add",
        Op::Gpr(GprOp::Neg) => "neg",
        Op::Gpr(GprOp::Xor) => "xor",
        Op::Bit(BitOp::Bts) => "bts",
        _ => "another",
    };
    Some((name, decoded.disp))
}

#[test]
fn rows_are_spelled_by_the_rules_on_prefixes_and_registers(rt: HostRuntime) {
    let f3 = Fields {
        rep: 0xf3,
        ..plain(0xc3, None)
    };
    let below = Fields {
        disp: -8,
        disp_len: 1,
        ..plain(0x8b, Some(0x45))
    };
    let r15 = Fields {
        rex: true,
        r: 1,
        b: 1,
        ..plain(0x31, Some(0xff))
    };
    let register_23 = Fields { b: 2, ..r15 };
    for (bytes, fields, want) in [
        ("f3 c3", f3, Some(("ret", 0))),
        ("8b 45 f8", below, Some(("mov", -8))),
        ("45 31 ff, xor r15d, r15d", r15, Some(("xor", 0))),
        ("a register 23", register_23, None),
        ("f0 31 00", locked(0x31, Some(0x00)), Some(("xor", 0))),
        ("f0 83 30 01", locked(0x83, Some(0x30)), Some(("xor", 0))),
        ("f0 86 00", locked(0x86, Some(0x00)), Some(("xchg", 0))),
        ("f0 31 c0, to a register", locked(0x31, Some(0xc0)), None),
        ("f0 33 00, from memory", locked(0x33, Some(0x00)), None),
        ("f0 91, of registers", locked(0x91, None), None),
        ("f0 89 00, mov", locked(0x89, Some(0x00)), None),
        ("f0 c3", locked(0xc3, None), None),
        ("f0 01 08", locked(0x01, Some(0x08)), Some(("add", 0))),
        ("f0 f6 18", locked(0xf6, Some(0x18)), Some(("neg", 0))),
        ("f0 03 08, from memory", locked(0x03, Some(0x08)), None),
        ("f0 04 05, to al", locked(0x04, None), None),
        ("f0 39 08, cmp", locked(0x39, Some(0x08)), None),
        ("f0 f6 20, mul", locked(0xf6, Some(0x20)), None),
        (
            "f0 0f ab 08",
            locked_two_byte(0xab, Some(0x08)),
            Some(("bts", 0)),
        ),
        (
            "f0 0f c7 08",
            locked_two_byte(0xc7, Some(0x08)),
            Some(("cmpxchg8b", 0)),
        ),
        (
            "f0 0f ab c8, to a register",
            locked_two_byte(0xab, Some(0xc8)),
            None,
        ),
        ("f0 0f a3 08, bt", locked_two_byte(0xa3, Some(0x08)), None),
    ] {
        assert_eq!(rt; matched(&fields), want, "at {bytes}");
    }
}

#[test]
fn cpuid_and_xgetbv_are_spelled_by_their_bytes_alone(rt: HostRuntime) {
    let xgetbv = two_byte(0x01, Some(0xd0));
    for (bytes, fields, want) in [
        ("0f a2", two_byte(0xa2, None), Some(("cpuid", 0))),
        ("f0 0f a2", locked_two_byte(0xa2, None), None),
        ("0f 01 d0", xgetbv, Some(("xgetbv", 0))),
        (
            "48 0f 01 d0",
            Fields {
                rex: true,
                w: true,
                ..xgetbv
            },
            Some(("xgetbv", 0)),
        ),
        (
            "66 0f 01 d0",
            Fields {
                p66: true,
                ..xgetbv
            },
            None,
        ),
        (
            "f3 0f 01 d0",
            Fields {
                rep: 0xf3,
                ..xgetbv
            },
            None,
        ),
        (
            "f0 0f 01 d0",
            Fields {
                lock: true,
                ..xgetbv
            },
            None,
        ),
        ("0f 01 d1, xsetbv", two_byte(0x01, Some(0xd1)), None),
        ("0f 01 10, lgdt", two_byte(0x01, Some(0x10)), None),
    ] {
        assert_eq!(rt; matched(&fields), want, "at {bytes}");
    }
}

#[test]
fn fields_that_no_legacy_instruction_has_spell_nothing(rt: HostRuntime) {
    let xor = plain(0x31, Some(0xff));
    assert_eq!(rt; matched(&xor), Some(("xor", 0)));
    let from_sib = Fields {
        sib: Some(0x24),
        ..plain(0x31, Some(0x04))
    };
    assert_eq!(rt; matched(&from_sib), Some(("xor", 0)));
    for (what, fields) in [
        ("without ModRM", plain(0x31, None)),
        ("ret with ModRM", plain(0xc3, Some(0xc0))),
        ("without SIB", plain(0x31, Some(0x04))),
        (
            "with SIB",
            Fields {
                sib: Some(0x24),
                ..xor
            },
        ),
        ("vvvv", Fields { v: 1, ..xor }),
        ("a mask", Fields { aaa: 1, ..xor }),
        ("zeroing", Fields { z: true, ..xor }),
        ("broadcast", Fields { bc: true, ..xor }),
    ] {
        assert_eq!(rt; matched(&fields), None, "{what}");
    }
}
