//! The rows of known instructions. What is expected is the SDM's.
use crate::*;

/// The fields of an instruction with W, map, opcode and ModRM byte, and nothing else.
fn bare(class: Class, w: bool, map: u8, opcode: u8, modrm: Option<u8>) -> Fields {
    Fields {
        class,
        segment: 0,
        lock: false,
        rep: 0,
        p66: false,
        p67: false,
        rex: false,
        w,
        r: 0,
        x: 0,
        b: 0,
        v: 0,
        l: 0,
        pp: 0,
        map,
        opcode,
        modrm,
        sib: None,
        disp: 0,
        disp_len: 0,
        imm: 0,
        imm_len: 0,
        z: false,
        bc: false,
        aaa: 0,
    }
}

/// The row of a legacy instruction with the last F2 or F3, 66, W, map, opcode and ModRM byte.
fn found(rep: u8, p66: bool, w: bool, map: u8, opcode: u8, modrm: Option<u8>) -> Option<Row> {
    let fields = Fields {
        rep,
        p66,
        rex: w,
        ..bare(Class::Legacy, w, map, opcode, modrm)
    };
    Some(row(find(&fields)?))
}

/// The row of a VEX instruction with pp, W, L, map, opcode and ModRM byte.
fn vex_row(pp: u8, w: bool, l: u8, map: u8, opcode: u8, modrm: Option<u8>) -> Option<Row> {
    let fields = Fields {
        pp,
        l,
        ..bare(Class::Vex, w, map, opcode, modrm)
    };
    Some(row(find(&fields)?))
}

/// The operation and the width of that row.
fn vex_found(pp: u8, w: bool, l: u8, map: u8, opcode: u8, modrm: u8) -> (&'static str, u8) {
    match vex_row(pp, w, l, map, opcode, Some(modrm)) {
        None => ("none", 0),
        Some(row) => (name(row.op), row.width),
    }
}

/// The name of an operation that has rows of VEX.
fn name(op: Op) -> &'static str {
    match op {
        Op::Core(CoreOp::Ldmxcsr) => "ldmxcsr",
        Op::Core(CoreOp::Stmxcsr) => "stmxcsr",
        Op::Gpr(GprOp::Mulx) => "mulx",
        Op::Bit(BitOp::Andn) => "andn",
        Op::Bit(BitOp::Blsr) => "blsr",
        Op::Bit(BitOp::Blsmsk) => "blsmsk",
        Op::Bit(BitOp::Blsi) => "blsi",
        Op::Bit(BitOp::Bzhi) => "bzhi",
        Op::Bit(BitOp::Pext) => "pext",
        Op::Bit(BitOp::Pdep) => "pdep",
        Op::Bit(BitOp::Bextr) => "bextr",
        Op::Bit(BitOp::Shlx) => "shlx",
        Op::Bit(BitOp::Sarx) => "sarx",
        Op::Bit(BitOp::Shrx) => "shrx",
        Op::Bit(BitOp::Rorx) => "rorx",
        _ => "another",
    }
}

fn is_nop(row: Option<Row>) -> bool {
    match row {
        None => false,
        Some(row) => matches!(row.op, Op::Core(CoreOp::Nop)),
    }
}

fn is_movbe(row: Option<Row>) -> bool {
    match row {
        None => false,
        Some(row) => matches!(row.op, Op::Core(CoreOp::Movbe)),
    }
}

fn is_bsf(row: Option<Row>) -> bool {
    match row {
        None => false,
        Some(row) => matches!(row.op, Op::Bit(BitOp::Bsf)),
    }
}

fn is_tzcnt(row: Option<Row>) -> bool {
    match row {
        None => false,
        Some(row) => matches!(row.op, Op::Bit(BitOp::Tzcnt)) && row.width == 0,
    }
}

fn is_cmpxchg8b(row: Option<Row>, width: u8) -> bool {
    match row {
        None => false,
        Some(row) => matches!(row.op, Op::Core(CoreOp::Cmpxchg8b)) && row.width == width,
    }
}

fn is_bswap(row: Option<Row>, width: u8) -> bool {
    match row {
        None => false,
        Some(row) => matches!(row.op, Op::Core(CoreOp::Bswap)) && row.width == width,
    }
}

fn is_xgetbv(row: Option<Row>) -> bool {
    match row {
        None => false,
        Some(row) => matches!(row.op, Op::Core(CoreOp::Xgetbv)),
    }
}

fn is_cpuid(row: Option<Row>) -> bool {
    match row {
        None => false,
        Some(row) => matches!(row.op, Op::Core(CoreOp::Cpuid)),
    }
}

#[test]
fn known_instructions_have_their_rows(rt: HostRuntime) {
    // LFENCE is 0F AE E8, and with 66 or F3 another instruction.
    assert!(rt; is_nop(found(0, false, false, 1, 0xae, Some(0xe8))));
    assert!(rt; found(0, true, false, 1, 0xae, Some(0xe8)).is_none());
    assert!(rt; found(0xf3, false, false, 1, 0xae, Some(0xe8)).is_none());
    // ENDBR64 is F3 0F 1E FA, in a row that ignores F3.
    assert!(rt; is_nop(found(0xf3, false, false, 1, 0x1e, Some(0xfa))));
    assert!(rt; is_bswap(found(0, false, false, 1, 0xc8, None), 32));
    assert!(rt; is_bswap(found(0, false, true, 1, 0xc8, None), 64));
    // Of F3 0F BC and 0F BC, the first is marked; F2 has no meaning there.
    assert!(rt; is_tzcnt(found(0xf3, false, false, 1, 0xbc, Some(0xc1))));
    assert!(rt; is_tzcnt(found(0xf3, true, false, 1, 0xbc, Some(0xc1))));
    assert!(rt; is_bsf(found(0, true, false, 1, 0xbc, Some(0xc1))));
    assert!(rt; is_bsf(found(0xf2, false, false, 1, 0xbc, Some(0xc1))));
    assert!(rt; found(0, false, false, 1, 0xb8, Some(0xc1)).is_none());
    // MOVBE needs memory, and neither F2 nor F3.
    assert!(rt; is_movbe(found(0, false, false, 2, 0xf0, Some(0x00))));
    assert!(rt; is_movbe(found(0, true, false, 2, 0xf1, Some(0x00))));
    assert!(rt; found(0, false, false, 2, 0xf0, Some(0xc1)).is_none());
    assert!(rt; found(0xf2, false, false, 2, 0xf0, Some(0x00)).is_none());
    // CMPXCHG8B and CMPXCHG16B, which need memory.
    assert!(rt; is_cmpxchg8b(found(0, false, false, 1, 0xc7, Some(0x08)), 64));
    assert!(rt; is_cmpxchg8b(found(0, false, true, 1, 0xc7, Some(0x08)), 128));
    assert!(rt; found(0, false, false, 1, 0xc7, Some(0xc8)).is_none());
    // XGETBV is 0F 01 D0, with neither 66 nor F2 nor F3; 0F 01 D1 is XSETBV, and 0F 01 /2 in memory LGDT.
    assert!(rt; is_xgetbv(found(0, false, false, 1, 0x01, Some(0xd0))));
    assert!(rt; is_xgetbv(found(0, false, true, 1, 0x01, Some(0xd0))));
    assert!(rt; found(0, true, false, 1, 0x01, Some(0xd0)).is_none());
    assert!(rt; found(0xf3, false, false, 1, 0x01, Some(0xd0)).is_none());
    assert!(rt; found(0, false, false, 1, 0x01, Some(0xd1)).is_none());
    assert!(rt; found(0, false, false, 1, 0x01, Some(0x10)).is_none());
    // CPUID is 0F A2, whatever the prefixes.
    assert!(rt; is_cpuid(found(0, false, false, 1, 0xa2, None)));
    assert!(rt; is_cpuid(found(0xf3, true, true, 1, 0xa2, None)));
    // FF /3 is a far call, 8D needs memory, 0F 0B is UD2.
    assert!(rt; found(0, false, false, 0, 0xff, Some(0x18)).is_none());
    assert!(rt; found(0, false, true, 0, 0x8d, Some(0xf5)).is_none());
    assert!(rt; found(0, false, false, 1, 0x0b, None).is_none());
}

#[test]
fn known_instructions_of_vex_have_their_rows(rt: HostRuntime) {
    for (pp, w, l, map, opcode, modrm, want) in [
        (0, false, 0, 1, 0xae, 0x10, ("ldmxcsr", 32)),
        (0, true, 0, 1, 0xae, 0x18, ("stmxcsr", 32)),
        // With a register, with 66, and of 256 bits.
        (0, false, 0, 1, 0xae, 0xd0, ("none", 0)),
        (1, false, 0, 1, 0xae, 0x10, ("none", 0)),
        (0, false, 1, 1, 0xae, 0x10, ("none", 0)),
        (0, false, 0, 2, 0xf2, 0xc1, ("andn", 32)),
        (0, true, 0, 2, 0xf2, 0xc1, ("andn", 64)),
        (0, false, 1, 2, 0xf2, 0xc1, ("none", 0)),
        (0, false, 0, 2, 0xf3, 0xc8, ("blsr", 32)),
        (0, true, 0, 2, 0xf3, 0xd0, ("blsmsk", 64)),
        (0, false, 0, 2, 0xf3, 0x18, ("blsi", 32)),
        (0, false, 0, 2, 0xf3, 0xc0, ("none", 0)),
        (0, false, 0, 2, 0xf3, 0xe0, ("none", 0)),
        (0, false, 0, 2, 0xf5, 0xc1, ("bzhi", 32)),
        (1, false, 0, 2, 0xf5, 0xc1, ("none", 0)),
        (2, true, 0, 2, 0xf5, 0xc1, ("pext", 64)),
        (3, false, 0, 2, 0xf5, 0xc1, ("pdep", 32)),
        (3, true, 0, 2, 0xf6, 0xc1, ("mulx", 64)),
        (0, false, 0, 2, 0xf6, 0xc1, ("none", 0)),
        (0, false, 0, 2, 0xf7, 0xc1, ("bextr", 32)),
        (1, false, 0, 2, 0xf7, 0xc1, ("shlx", 32)),
        (2, false, 0, 2, 0xf7, 0xc1, ("sarx", 32)),
        (3, true, 0, 2, 0xf7, 0xc1, ("shrx", 64)),
        (3, false, 0, 3, 0xf0, 0xc1, ("rorx", 32)),
        (3, true, 0, 3, 0xf0, 0x01, ("rorx", 64)),
        (2, false, 0, 3, 0xf0, 0xc1, ("none", 0)),
    ] {
        let found = vex_found(pp, w, l, map, opcode, modrm);
        assert_eq!(rt; found, want, "at {opcode} of map {map} with {pp}");
    }
}

/// What a vector row says of its memory operand: its alignment, its tuple, and whether it is read whole.
type Memory = (&'static str, &'static str, bool);

fn memory_of(row: Row) -> Memory {
    let align = match row.align {
        Align::Free => "free",
        Align::Sixteen => "sixteen",
        Align::Size => "size",
    };
    let tuple = match row.tuple {
        Tuple::NoTuple => "vector",
        Tuple::Mem128 => "16 bytes",
        Tuple::T1S => "element",
        Tuple::HalfMem => "half",
        Tuple::QuarterMem => "quarter",
        Tuple::EighthMem => "eighth",
        _ => "another",
    };
    (align, tuple, row.whole)
}

/// The last F2 or F3 and 66 of a legacy instruction, pp and L of the same in VEX, then map and opcode, and what the two rows say
/// of their operand in memory.
#[rattlefmt::skip]
static VECTOR_MEMORY: [(u8, bool, u8, u8, u8, u8, Memory, Memory); 24] = [
    // PADDB, PAND, PABSB and PTEST.
    (0, true, 1, 1, 1, 0xfc, ("sixteen", "vector", false), ("free", "vector", false)),
    (0, true, 1, 0, 1, 0xdb, ("sixteen", "vector", false), ("free", "vector", false)),
    (0, true, 1, 1, 2, 0x1c, ("sixteen", "vector", false), ("free", "vector", false)),
    (0, true, 1, 1, 2, 0x17, ("sixteen", "vector", false), ("free", "vector", false)),
    // PSRLW by a count of 128 bits, at each length.
    (0, true, 1, 1, 1, 0xd1, ("sixteen", "16 bytes", true), ("free", "16 bytes", true)),
    // MOVDQA, MOVNTDQ and MOVAPS, which are aligned in both, and MOVDQU and MOVUPD, which are in none.
    (0, true, 1, 1, 1, 0x6f, ("size", "vector", false), ("size", "vector", false)),
    (0, true, 1, 1, 1, 0xe7, ("size", "vector", false), ("size", "vector", false)),
    (0, false, 0, 0, 1, 0x29, ("size", "vector", false), ("size", "vector", false)),
    (0xf3, false, 2, 1, 1, 0x7f, ("free", "vector", false), ("free", "vector", false)),
    (0, true, 1, 1, 1, 0x10, ("free", "vector", false), ("free", "vector", false)),
    // MOVSS and MOVHPS, and MOVDDUP, which has one element at 128 bits and a vector at 256.
    (0xf3, false, 2, 1, 1, 0x10, ("free", "element", false), ("free", "element", false)),
    (0, false, 0, 0, 1, 0x16, ("free", "element", false), ("free", "element", false)),
    (0xf2, false, 3, 0, 1, 0x12, ("free", "element", false), ("free", "element", false)),
    (0xf2, false, 3, 1, 1, 0x12, ("free", "element", false), ("free", "vector", false)),
    // PSHUFB, PALIGNR, SHUFPS and MPSADBW; PMADDWD and PSADBW, which read all of it.
    (0, true, 1, 1, 2, 0x00, ("sixteen", "vector", false), ("free", "vector", false)),
    (0, true, 1, 1, 3, 0x0f, ("sixteen", "vector", false), ("free", "vector", false)),
    (0, false, 0, 1, 1, 0xc6, ("sixteen", "vector", false), ("free", "vector", false)),
    (0, true, 1, 0, 3, 0x42, ("sixteen", "vector", false), ("free", "vector", false)),
    (0, true, 1, 1, 1, 0xf5, ("sixteen", "vector", true), ("free", "vector", true)),
    (0, true, 1, 1, 1, 0xf6, ("sixteen", "vector", true), ("free", "vector", true)),
    // PMOVSXBW, PMOVSXBD and PMOVZXBQ, which have a part of a vector; and PINSRB.
    (0, true, 1, 1, 2, 0x20, ("free", "half", false), ("free", "half", false)),
    (0, true, 1, 0, 2, 0x21, ("free", "quarter", false), ("free", "quarter", false)),
    (0, true, 1, 1, 2, 0x32, ("free", "eighth", false), ("free", "eighth", false)),
    (0, true, 1, 0, 3, 0x20, ("free", "element", false), ("free", "element", false)),
];

fn vector_memory() -> &'static [(u8, bool, u8, u8, u8, u8, Memory, Memory)] {
    &VECTOR_MEMORY
}

#[test]
fn vector_rows_say_what_stands_in_memory(rt: HostRuntime) {
    for (rep, p66, pp, l, map, opcode, legacy, vex) in vector_memory() {
        let found = found(*rep, *p66, false, *map, *opcode, Some(0x08)).map(memory_of);
        assert_eq!(rt;
            found,
            Some(*legacy),
            "at {opcode} of map {map} without VEX"
        );
        let found = vex_row(*pp, false, *l, *map, *opcode, Some(0x08)).map(memory_of);
        assert_eq!(rt; found, Some(*vex), "at {opcode} of map {map} with VEX");
    }
}

#[test]
fn opcodes_have_their_shapes(rt: HostRuntime) {
    for (map, opcode, want) in [
        (0, 0xb8, Some((false, 11))),
        (0, 0xa1, Some((false, 12))),
        (0, 0xc2, Some((false, 2))),
        (0, 0xe8, Some((false, 4))),
        (0, 0x81, Some((true, 10))),
        (0, 0x83, Some((true, 1))),
        (1, 0x01, Some((true, 0))),
        (1, 0xa2, Some((false, 0))),
        (1, 0x1f, Some((true, 0))),
        (1, 0x0b, None),
        // The immediate of TEST, by ModRM.reg.
        (0, 0xf6, Some((true, 13))),
        (0, 0xf7, Some((true, 14))),
        (2, 0xf6, Some((true, 0))),
        (0, 0x69, Some((true, 10))),
        (0, 0xa9, Some((false, 10))),
        (0, 0xc1, Some((true, 1))),
        (0, 0xd1, Some((true, 0))),
        (1, 0xa4, Some((true, 1))),
        (1, 0xa5, Some((true, 0))),
        // PSRLW by Ib, PADDB and PSIGNB.
        (1, 0x71, Some((true, 1))),
        (1, 0xfc, Some((true, 0))),
        (2, 0x08, Some((true, 0))),
        (1, 0x77, None),
        // PEXTRW and PALIGNR.
        (1, 0xc5, Some((true, 1))),
        (3, 0x0f, Some((true, 1))),
        (3, 0x08, None),
    ] {
        let found = shape(Class::Legacy, map, opcode).map(|s| (s.modrm, s.imm));
        assert!(rt; found == want, "at {opcode} of map {map}");
    }
    let vex = shape(Class::Vex, 3, 0xf0).map(|s| (s.modrm, s.imm));
    assert!(rt; vex == Some((true, 1)));
    // VZEROUPPER and VZEROALL.
    let zero = shape(Class::Vex, 1, 0x77).map(|s| (s.modrm, s.imm));
    assert!(rt; zero == Some((false, 0)));
    assert!(rt; is_used(Class::Legacy, 2) && is_used(Class::Legacy, 3) && !is_used(Class::Evex, 0));
    assert!(rt; !is_used(Class::Vex, 0) && is_used(Class::Vex, 1) && is_used(Class::Vex, 3));
    // KMOV, KSHIFTRB and VPADDD.
    let mask = shape(Class::Vex, 1, 0x90).map(|s| (s.modrm, s.imm));
    assert!(rt; mask == Some((true, 0)));
    let shifted = shape(Class::Vex, 3, 0x30).map(|s| (s.modrm, s.imm));
    assert!(rt; shifted == Some((true, 1)));
    let sum = shape(Class::Evex, 1, 0xfe).map(|s| (s.modrm, s.imm));
    assert!(rt; sum == Some((true, 0)) && is_used(Class::Evex, 1));
}
