//! Known byte lists. What is expected is the SDM's, and on want of an instruction this machine's.
use crate::*;
use row_table::{BitOp, CoreOp, GprOp, Op, row};
use std::process::Abort;

mod displacements;
mod evex;
mod opmasks;
mod products;
mod shuffles;
mod vectors;

/// The name of the operation, of those that the test meets.
fn name(op: Op) -> &'static str {
    match op {
        Op::Core(CoreOp::Lea) => "lea",
        Op::Core(CoreOp::Mov) => "mov",
        Op::Core(CoreOp::Movbe) => "movbe",
        Op::Core(CoreOp::Nop) => "nop",
        Op::Core(CoreOp::Ret) => "ret",
        Op::Core(CoreOp::Syscall) => "syscall",
        Op::Core(CoreOp::Xchg) => "xchg",
        Op::Core(CoreOp::Cmpxchg8b) => "cmpxchg8b",
        Op::Core(CoreOp::Cpuid) => "cpuid",
        Op::Core(CoreOp::Xgetbv) => "xgetbv",
        Op::Gpr(GprOp::Xor) => "xor",
        Op::Gpr(GprOp::Add) => "add",
        Op::Gpr(GprOp::Test) => "test",
        Op::Gpr(GprOp::Neg) => "neg",
        Op::Gpr(GprOp::Adcx) => "adcx",
        Op::Gpr(GprOp::Adox) => "adox",
        Op::Bit(BitOp::Bts) => "bts",
        Op::Bit(BitOp::Tzcnt) => "tzcnt",
        Op::Bit(BitOp::Bsf) => "bsf",
        Op::Core(CoreOp::Ldmxcsr) => "ldmxcsr",
        Op::Core(CoreOp::Stmxcsr) => "stmxcsr",
        Op::Gpr(GprOp::Mulx) => "mulx",
        Op::Bit(BitOp::Andn) => "andn",
        Op::Bit(BitOp::Blsr) => "blsr",
        Op::Bit(BitOp::Blsmsk) => "blsmsk",
        Op::Bit(BitOp::Blsi) => "blsi",
        Op::Bit(BitOp::Bzhi) => "bzhi",
        Op::Bit(BitOp::Pext) => "pext",
        Op::Bit(BitOp::Pdep) => "pdep",
        Op::Bit(BitOp::Bextr) => "bextr",
        Op::Bit(BitOp::Shlx) => "shlx",
        Op::Bit(BitOp::Sarx) => "sarx",
        Op::Bit(BitOp::Shrx) => "shrx",
        Op::Bit(BitOp::Rorx) => "rorx",
        Op::Core(CoreOp::Vzeroupper) => "vzeroupper",
        Op::Core(CoreOp::Vzeroall) => "vzeroall",
        Op::Lane(op) => vectors::lane_name(op),
        Op::Cross(op) => shuffles::cross_name(op),
        Op::Width(op) => products::width_name(op),
        Op::Mac(op) => products::mac_name(op),
        Op::Vector(op) => vectors::vector_name(op),
        Op::Mask(op) => opmasks::mask_name(op),
        _ => "another",
    }
}

/// What the test looks at: the answer or the operation's name, the length and the displacement.
type Told = (&'static str, u8, i64);

const BAD: Told = ("bad", 0, 0);

const SHORT: Told = ("short", 0, 0);

const TOO_LONG: Told = ("too long", 0, 0);

fn told_of(bytes: &[u8]) -> Told {
    match decode(bytes) {
        Seen::Instr(decoded, len) => (name(row(decoded.row).op), len, decoded.disp),
        Seen::Short => SHORT,
        Seen::TooLong => TOO_LONG,
        Seen::Bad => BAD,
    }
}

/// Bytes, and what is seen in them.
static SEEN_BYTES: [(&'static [u8], Told); 65] = [
    (&[0xf3, 0xc3], ("ret", 2, 0)),
    (&[0xc3, 0xc3], ("ret", 1, 0)),
    (&[0x0f, 0x05], ("syscall", 2, 0)),
    (
        &[0x66, 0x2e, 0x0f, 0x1f, 0x84, 0, 0, 0, 0, 0],
        ("nop", 10, 0),
    ),
    (&[0xf3, 0x0f, 0x1e, 0xfa], ("nop", 4, 0)),
    (&[0x48, 0xb8, 1, 2, 3, 4, 5, 6, 7, 8], ("mov", 10, 0)),
    (&[0x48, 0x8d, 0x35, 0x10, 0, 0, 0], ("lea", 7, 16)),
    (&[0x8b, 0x45, 0xf8], ("mov", 3, -8)),
    (&[0x8b, 0x85, 0xf8, 0xff, 0xff, 0xff], ("mov", 6, -8)),
    // LOCK before a destination in memory, and elsewhere.
    (&[0xf0, 0x31, 0x00], ("xor", 3, 0)),
    (&[0xf0, 0x48, 0x87, 0x40, 0xff], ("xchg", 5, -1)),
    (&[0xf0, 0x31, 0xc0], BAD),
    (&[0xf0, 0x33, 0x00], BAD),
    (&[0xf0, 0x89, 0x00], BAD),
    (&[0xf0, 0x01, 0x08], ("add", 3, 0)),
    (&[0xf0, 0x03, 0x08], BAD),
    (&[0xf0, 0x39, 0x08], BAD),
    (&[0xf0, 0x0f, 0xab, 0x08], ("bts", 4, 0)),
    (&[0xf0, 0x0f, 0xa3, 0x08], BAD),
    (&[0xf0, 0x0f, 0xab, 0xc8], BAD),
    // Rows by their mark: MOVBE with NP and 66, ADCX, ADOX, TZCNT and BSF.
    (&[0x0f, 0x38, 0xf0, 0x00], ("movbe", 4, 0)),
    (&[0x66, 0x0f, 0x38, 0xf0, 0x00], ("movbe", 5, 0)),
    (&[0x66, 0x0f, 0x38, 0xf6, 0xc1], ("adcx", 5, 0)),
    (&[0xf3, 0x0f, 0x38, 0xf6, 0xc1], ("adox", 5, 0)),
    (&[0x0f, 0x38, 0xf6, 0xc1], BAD),
    (&[0xf3, 0x0f, 0xbc, 0xc1], ("tzcnt", 4, 0)),
    (&[0x0f, 0xbc, 0xc1], ("bsf", 3, 0)),
    // TEST has an immediate, and NEG of the same opcode none.
    (&[0xf6, 0xc0, 0x05], ("test", 3, 0)),
    (&[0xf6, 0xd8], ("neg", 2, 0)),
    (&[0x66, 0xf7, 0xc0, 0x34, 0x12], ("test", 5, 0)),
    // No such digit, and CMPXCHG8B with a register.
    (&[0xc0, 0xf0, 0x01], BAD),
    (&[0xfe, 0xd0], BAD),
    (&[0x0f, 0xc7, 0x08], ("cmpxchg8b", 3, 0)),
    (&[0x0f, 0xc7, 0xc8], BAD),
    // ADDPS, AESENC and CRC32, and a LEA without memory.
    (&[0x0f, 0x58, 0xc1], BAD),
    (&[0x66, 0x0f, 0x38, 0xdc, 0xc1], BAD),
    (&[0xf2, 0x0f, 0x38, 0xf0, 0xc1], BAD),
    (&[0xf2, 0x0f, 0x38, 0xf0, 0x00], BAD),
    (&[0x8d, 0xc0], BAD),
    // CPUID, whatever the prefixes, but for LOCK.
    (&[0x0f, 0xa2], ("cpuid", 2, 0)),
    (&[0x66, 0x0f, 0xa2], ("cpuid", 3, 0)),
    (&[0xf3, 0x48, 0x0f, 0xa2], ("cpuid", 4, 0)),
    (&[0xf0, 0x0f, 0xa2], BAD),
    // XGETBV is one ModRM byte: others are XSETBV, VMCALL, RDTSCP and, in memory, LGDT.
    (&[0x0f, 0x01, 0xd0], ("xgetbv", 3, 0)),
    (&[0x67, 0x48, 0x0f, 0x01, 0xd0], ("xgetbv", 5, 0)),
    (&[0x0f, 0x01, 0xd1], BAD),
    (&[0x0f, 0x01, 0xc1], BAD),
    (&[0x0f, 0x01, 0xf9], BAD),
    (&[0x0f, 0x01, 0x10], BAD),
    (&[0x0f, 0x01, 0x50, 0x08], BAD),
    (&[0x66, 0x0f, 0x01, 0xd0], BAD),
    (&[0xf2, 0x0f, 0x01, 0xd0], BAD),
    (&[0xf3, 0x0f, 0x01, 0xd0], BAD),
    (&[0xf0, 0x0f, 0x01, 0xd0], BAD),
    (&[0x0f, 0x01], SHORT),
    (&[0x0f, 0x01, 0x50], SHORT),
    // VPADDD of 512 bits, and the same behind an address size prefix.
    (&[0x62, 0xf1, 0x7d, 0x48, 0xfe, 0xc1], ("padd", 6, 0)),
    (&[0x67, 0x62, 0xf1, 0x7d, 0x48, 0xfe, 0xc1], ("padd", 7, 0)),
    // Ends within an instruction.
    (&[], SHORT),
    (&[0x66, 0x66, 0x66], SHORT),
    (&[0x48, 0xb8, 1, 2, 3, 4, 5, 6, 7], SHORT),
    (&[0x66; 14], SHORT),
    // Fifteen bytes are an instruction's most.
    (&[0x66; 15], TOO_LONG),
    (&[0x66; 16], TOO_LONG),
    (
        &[
            0x66, 0x66, 0x66, 0x66, 0x66, 0x66, 0x66, 0x66, 0x66, 0x66, 0x66, 0x66, 0x66, 0x66,
            0xc3, 0xc3,
        ],
        ("ret", 15, 0),
    ),
];

fn seen_bytes() -> &'static [(&'static [u8], Told)] {
    &SEEN_BYTES
}

#[test]
fn known_bytes_are_seen_as_the_manual_says(rt: HostRuntime) {
    for (bytes, want) in seen_bytes() {
        assert_eq!(rt; told_of(bytes), *want, "at {bytes:?}");
    }
}

/// The operation's name, the row's width, the length, the displacement and the register in vvvv.
type VexTold = (&'static str, u8, u8, i64, u8);

fn vex_told_of(bytes: &[u8]) -> Option<VexTold> {
    match decode(bytes) {
        Seen::Instr(decoded, len) => {
            let row = row(decoded.row);
            Some((name(row.op), row.width, len, decoded.disp, decoded.fields.v))
        }
        Seen::Short | Seen::TooLong | Seen::Bad => None,
    }
}

/// Instructions of VEX, and MXCSR's without it, as GNU's assembler writes them.
static VEX_BYTES: [(&'static [u8], VexTold); 40] = [
    // andn   %ecx,%ebx,%eax
    (&[0xc4, 0xe2, 0x60, 0xf2, 0xc1], ("andn", 32, 5, 0, 3)),
    // andn   (%rcx),%r9d,%r10d
    (&[0xc4, 0x62, 0x30, 0xf2, 0x11], ("andn", 32, 5, 0, 9)),
    // andn   %rcx,%r15,%rax
    (&[0xc4, 0xe2, 0x80, 0xf2, 0xc1], ("andn", 64, 5, 0, 15)),
    // andn   0x8(%rcx),%r8,%rax
    (&[0xc4, 0xe2, 0xb8, 0xf2, 0x41, 0x08], ("andn", 64, 6, 8, 8)),
    // blsr   %ecx,%ebx
    (&[0xc4, 0xe2, 0x60, 0xf3, 0xc9], ("blsr", 32, 5, 0, 3)),
    // blsr   %r9,%r10
    (&[0xc4, 0xc2, 0xa8, 0xf3, 0xc9], ("blsr", 64, 5, 0, 10)),
    // blsmsk (%rax,%rbx,4),%edx
    (
        &[0xc4, 0xe2, 0x68, 0xf3, 0x14, 0x98],
        ("blsmsk", 32, 6, 0, 2),
    ),
    // blsmsk -0x8(%r12,%r13,8),%rdx
    (
        &[0xc4, 0x82, 0xe8, 0xf3, 0x54, 0xec, 0xf8],
        ("blsmsk", 64, 7, -8, 2),
    ),
    // blsi   0x12345678(%rip),%eax
    (
        &[0xc4, 0xe2, 0x78, 0xf3, 0x1d, 0x78, 0x56, 0x34, 0x12],
        ("blsi", 32, 9, 0x12345678, 0),
    ),
    // blsi   0x1000(,%r14,2),%rbx
    (
        &[0xc4, 0xa2, 0xe0, 0xf3, 0x1c, 0x75, 0x00, 0x10, 0x00, 0x00],
        ("blsi", 64, 10, 0x1000, 3),
    ),
    // bzhi   %ecx,%ebx,%eax
    (&[0xc4, 0xe2, 0x70, 0xf5, 0xc3], ("bzhi", 32, 5, 0, 1)),
    // bzhi   %r9,(%r10),%r11
    (&[0xc4, 0x42, 0xb0, 0xf5, 0x1a], ("bzhi", 64, 5, 0, 9)),
    // pext   %ecx,%ebx,%eax
    (&[0xc4, 0xe2, 0x62, 0xf5, 0xc1], ("pext", 32, 5, 0, 3)),
    // pext   (%r8,%r9,1),%r10,%r11
    (
        &[0xc4, 0x02, 0xaa, 0xf5, 0x1c, 0x08],
        ("pext", 64, 6, 0, 10),
    ),
    // pdep   %ecx,%ebx,%eax
    (&[0xc4, 0xe2, 0x63, 0xf5, 0xc1], ("pdep", 32, 5, 0, 3)),
    // pdep   %rcx,%r15,%r8
    (&[0xc4, 0x62, 0x83, 0xf5, 0xc1], ("pdep", 64, 5, 0, 15)),
    // mulx   %ecx,%ebx,%eax
    (&[0xc4, 0xe2, 0x63, 0xf6, 0xc1], ("mulx", 32, 5, 0, 3)),
    // mulx   (%rsi),%r9,%r10
    (&[0xc4, 0x62, 0xb3, 0xf6, 0x16], ("mulx", 64, 5, 0, 9)),
    // bextr  %ecx,%ebx,%eax
    (&[0xc4, 0xe2, 0x70, 0xf7, 0xc3], ("bextr", 32, 5, 0, 1)),
    // bextr  %r9,(%rsp),%rax
    (
        &[0xc4, 0xe2, 0xb0, 0xf7, 0x04, 0x24],
        ("bextr", 64, 6, 0, 9),
    ),
    // shlx   %ecx,%ebx,%eax
    (&[0xc4, 0xe2, 0x71, 0xf7, 0xc3], ("shlx", 32, 5, 0, 1)),
    // shlx   %r9,%r10,%r11
    (&[0xc4, 0x42, 0xb1, 0xf7, 0xda], ("shlx", 64, 5, 0, 9)),
    // sarx   %ecx,0x0(%rbp),%eax
    (&[0xc4, 0xe2, 0x72, 0xf7, 0x45, 0x00], ("sarx", 32, 6, 0, 1)),
    // sarx   %r9,0x100(%r13),%r11
    (
        &[0xc4, 0x42, 0xb2, 0xf7, 0x9d, 0x00, 0x01, 0x00, 0x00],
        ("sarx", 64, 9, 0x100, 9),
    ),
    // shrx   %ecx,%ebx,%eax
    (&[0xc4, 0xe2, 0x73, 0xf7, 0xc3], ("shrx", 32, 5, 0, 1)),
    // shrx   %r9,%r10,%r11
    (&[0xc4, 0x42, 0xb3, 0xf7, 0xda], ("shrx", 64, 5, 0, 9)),
    // rorx   $0x5,%ecx,%eax
    (&[0xc4, 0xe3, 0x7b, 0xf0, 0xc1, 0x05], ("rorx", 32, 6, 0, 0)),
    // rorx   $0x3f,(%r8),%r9
    (&[0xc4, 0x43, 0xfb, 0xf0, 0x08, 0x3f], ("rorx", 64, 6, 0, 0)),
    // rorx   $0x1,%fs:0x4(%rax),%eax
    (
        &[0x64, 0xc4, 0xe3, 0x7b, 0xf0, 0x40, 0x04, 0x01],
        ("rorx", 32, 8, 4, 0),
    ),
    // rorx   $0x1,0x4(%eax),%ecx
    (
        &[0x67, 0xc4, 0xe3, 0x7b, 0xf0, 0x48, 0x04, 0x01],
        ("rorx", 32, 8, 4, 0),
    ),
    // vldmxcsr (%rax)
    (&[0xc5, 0xf8, 0xae, 0x10], ("ldmxcsr", 32, 4, 0, 0)),
    // vldmxcsr 0x4(%r9,%r10,2)
    (
        &[0xc4, 0x81, 0x78, 0xae, 0x54, 0x51, 0x04],
        ("ldmxcsr", 32, 7, 4, 0),
    ),
    // vstmxcsr -0x4(%rsp)
    (
        &[0xc5, 0xf8, 0xae, 0x5c, 0x24, 0xfc],
        ("stmxcsr", 32, 6, -4, 0),
    ),
    // ldmxcsr (%rax)
    (&[0x0f, 0xae, 0x10], ("ldmxcsr", 32, 3, 0, 0)),
    // stmxcsr 0x10(%r11)
    (&[0x41, 0x0f, 0xae, 0x5b, 0x10], ("stmxcsr", 32, 5, 0x10, 0)),
    // The same of three bytes where two are enough, and with W, which has no meaning there.
    (&[0xc4, 0xe1, 0x78, 0xae, 0x10], ("ldmxcsr", 32, 5, 0, 0)),
    (&[0xc4, 0xe1, 0xf8, 0xae, 0x58, 8], ("stmxcsr", 32, 6, 8, 0)),
    // A REX byte that doesn't stand directly before VEX doesn't count.
    (
        &[0x48, 0x67, 0xc4, 0xe2, 0x60, 0xf2, 0xc1],
        ("andn", 32, 7, 0, 3),
    ),
    (
        &[0x48, 0x67, 0xc5, 0xf8, 0xae, 0x10],
        ("ldmxcsr", 32, 6, 0, 0),
    ),
    // Of ten prefixes, the fifteen bytes that an instruction may have.
    (
        &[
            0x67, 0x67, 0x67, 0x67, 0x67, 0x67, 0x67, 0x67, 0x67, 0x67, 0xc4, 0xe2, 0x60, 0xf2,
            0xc1,
        ],
        ("andn", 32, 15, 0, 3),
    ),
];

fn vex_bytes() -> &'static [(&'static [u8], VexTold)] {
    &VEX_BYTES
}

#[test]
fn instructions_of_vex_are_seen_as_the_assembler_writes_them(rt: HostRuntime) {
    for (bytes, want) in vex_bytes() {
        assert_eq!(rt; vex_told_of(bytes), Some(*want), "at {bytes:?}");
    }
}

/// What is no instruction, or none yet, and what is only the beginning of one.
static VEX_REFUSED: [(&'static [u8], Told); 31] = [
    // 66, F2, F3, LOCK or REX before VEX.
    (&[0x66, 0xc4, 0xe2, 0x60, 0xf2, 0xc1], BAD),
    (&[0xf2, 0xc4, 0xe2, 0x60, 0xf2, 0xc1], BAD),
    (&[0xf3, 0xc4, 0xe2, 0x60, 0xf2, 0xc1], BAD),
    (&[0xf0, 0xc4, 0xe2, 0x60, 0xf2, 0x01], BAD),
    (&[0x40, 0xc4, 0xe2, 0x60, 0xf2, 0xc1], BAD),
    (&[0x48, 0xc4, 0xe2, 0x60, 0xf2, 0xc1], BAD),
    (&[0x66, 0xc5, 0xf8, 0xae, 0x10], BAD),
    (&[0x48, 0xc5, 0xf8, 0xae, 0x10], BAD),
    // L of 256 bits.
    (&[0xc4, 0xe2, 0x64, 0xf2, 0xc1], BAD),
    (&[0xc5, 0xfc, 0xae, 0x10], BAD),
    // vvvv isn't 1111 where it has no use: RORX and VLDMXCSR.
    (&[0xc4, 0xe3, 0x73, 0xf0, 0xc1, 5], BAD),
    (&[0xc5, 0xf0, 0xae, 0x10], BAD),
    // Maps and opcodes without a row, and a pp that no row of the opcode has.
    (&[0xc4, 0xe0, 0x60, 0xf2, 0xc1], BAD),
    (&[0xc4, 0xe4, 0x60, 0xf2, 0xc1], BAD),
    (&[0xc4, 0xff, 0x60, 0xf2, 0xc1], BAD),
    (&[0xc4, 0xe1, 0x60, 0x58, 0xc1], BAD),
    (&[0xc4, 0xe2, 0x61, 0xf2, 0xc1], BAD),
    (&[0xc4, 0xe2, 0x60, 0xf3, 0xc1], BAD),
    (&[0xc5, 0xf9, 0xae, 0x10], BAD),
    // VLDMXCSR of a register.
    (&[0xc5, 0xf8, 0xae, 0xd0], BAD),
    // LES and LDS of 32-bit code are VEX, whatever follows.
    (&[0xc4, 0x00], BAD),
    (&[0xc5, 0x00, 0x00], BAD),
    // Ends within an instruction.
    (&[0xc4], SHORT),
    (&[0xc5], SHORT),
    (&[0x66, 0xc5], SHORT),
    (&[0xc4, 0xe2], SHORT),
    (&[0xc4, 0xe2, 0x60], SHORT),
    (&[0xc4, 0xe2, 0x60, 0xf2], SHORT),
    (&[0xc4, 0xe3, 0x7b, 0xf0, 0xc1], SHORT),
    (&[0xc5, 0xf8, 0xae, 0x5c, 0x24], SHORT),
    (
        &[
            0x67, 0x67, 0x67, 0x67, 0x67, 0x67, 0x67, 0x67, 0x67, 0x67, 0x67, 0xc4, 0xe2, 0x60,
            0xf2, 0xc1,
        ],
        TOO_LONG,
    ),
];

fn vex_refused() -> &'static [(&'static [u8], Told)] {
    &VEX_REFUSED
}

#[test]
fn no_instruction_of_vex_is_seen_in_other_bytes(rt: HostRuntime) {
    for (bytes, want) in vex_refused() {
        assert_eq!(rt; told_of(bytes), *want, "at {bytes:?}");
    }
}

/// The operation's name and the bits of its general operand: the row's, or the operand size.
fn sized(bytes: &[u8]) -> (&'static str, u8) {
    match decode(bytes) {
        Seen::Instr(decoded, _) => {
            let row = row(decoded.row);
            let bits = match (row.width, decoded.fields.w, decoded.fields.p66) {
                (0, true, _) => 64,
                (0, false, true) => 16,
                (0, false, false) => 32,
                (width, _, _) => width,
            };
            (name(row.op), bits)
        }
        Seen::Short | Seen::TooLong | Seen::Bad => ("none", 0),
    }
}

#[test]
fn operands_have_their_sizes(rt: HostRuntime) {
    let rows: [(&[u8], (&str, u8)); 8] = [
        (&[0xf3, 0x0f, 0xbc, 0xc1], ("tzcnt", 32)),
        (&[0x66, 0xf3, 0x0f, 0xbc, 0xc1], ("tzcnt", 16)),
        (&[0xf3, 0x66, 0x0f, 0xbc, 0xc1], ("tzcnt", 16)),
        (&[0x66, 0x0f, 0x38, 0xf0, 0x00], ("movbe", 16)),
        (&[0x66, 0x48, 0x0f, 0x38, 0xf0, 0x00], ("movbe", 64)),
        (&[0x66, 0x0f, 0x38, 0xf6, 0xc1], ("adcx", 32)),
        (&[0xf3, 0x48, 0x0f, 0x38, 0xf6, 0xc1], ("adox", 64)),
        (&[0x48, 0x0f, 0xc7, 0x08], ("cmpxchg8b", 128)),
    ];
    for (bytes, want) in rows {
        assert_eq!(rt; sized(bytes), want, "at {bytes:?}");
    }
}

#[test]
fn vector_instructions_are_seen_as_the_assembler_writes_them(rt: HostRuntime) {
    for (bytes, want) in vectors::arithmetic_bytes() {
        assert_eq!(rt; vex_told_of(bytes), Some(*want), "at {bytes:?}");
    }
    for (bytes, want) in vectors::shift_and_logic_bytes() {
        assert_eq!(rt; vex_told_of(bytes), Some(*want), "at {bytes:?}");
    }
    for (bytes, want) in vectors::whole_move_bytes() {
        assert_eq!(rt; vex_told_of(bytes), Some(*want), "at {bytes:?}");
    }
    for (bytes, want) in vectors::element_move_bytes() {
        assert_eq!(rt; vex_told_of(bytes), Some(*want), "at {bytes:?}");
    }
}

#[test]
fn what_no_vector_row_takes_is_refused(rt: HostRuntime) {
    for bytes in vectors::vector_refused() {
        assert_eq!(rt; told_of(bytes), BAD, "at {bytes:?}");
    }
}

#[test]
fn instructions_of_evex_are_seen_as_the_assembler_writes_them(rt: HostRuntime) {
    for (bytes, want) in evex::sum_bytes() {
        assert_eq!(rt; vex_told_of(bytes), Some(*want), "at {bytes:?}");
    }
    for (bytes, want) in evex::arithmetic_bytes() {
        assert_eq!(rt; vex_told_of(bytes), Some(*want), "at {bytes:?}");
    }
    for (bytes, want) in evex::comparison_bytes() {
        assert_eq!(rt; vex_told_of(bytes), Some(*want), "at {bytes:?}");
    }
    for (bytes, want) in evex::shift_bytes() {
        assert_eq!(rt; vex_told_of(bytes), Some(*want), "at {bytes:?}");
    }
    for (bytes, want) in evex::move_bytes() {
        assert_eq!(rt; vex_told_of(bytes), Some(*want), "at {bytes:?}");
    }
}

#[test]
fn displacements_of_evex_go_by_tuple_and_length(rt: HostRuntime) {
    for (bytes, want) in evex::displacement_bytes() {
        assert_eq!(rt; vex_told_of(bytes), Some(*want), "at {bytes:?}");
    }
}

fn displacement_of(bytes: &[u8]) -> Option<i64> {
    match decode(bytes) {
        Seen::Instr(decoded, _) => Some(decoded.disp),
        Seen::Short | Seen::TooLong | Seen::Bad => None,
    }
}

fn assert_displacements(rt: &impl Abort, table: &[(&[u8], i64)]) {
    for (bytes, want) in table {
        assert_eq!(rt; displacement_of(bytes), Some(*want), "at {bytes:?}");
    }
}

#[test]
fn displacements_of_one_byte_are_multiplied_by_each_tuple(rt: HostRuntime) {
    assert_displacements(&rt, displacements::of_widths());
    assert_displacements(&rt, displacements::of_broadcasts());
    assert_displacements(&rt, displacements::of_vectors());
}

#[test]
fn bits_of_evex_without_a_use_are_not_looked_at(rt: HostRuntime) {
    for (bytes, want) in evex::bytes_without_a_use() {
        assert_eq!(rt; vex_told_of(bytes), Some(*want), "at {bytes:?}");
    }
}

#[test]
fn what_no_row_of_evex_takes_is_refused(rt: HostRuntime) {
    for bytes in evex::rows_refused() {
        assert_eq!(rt; told_of(bytes), BAD, "at {bytes:?}");
    }
}

#[test]
fn no_instruction_of_evex_is_seen_in_other_bytes(rt: HostRuntime) {
    for (bytes, want) in evex::evex_refused() {
        assert_eq!(rt; told_of(bytes), *want, "at {bytes:?}");
    }
}

#[test]
fn instructions_on_opmasks_are_seen_as_the_assembler_writes_them(rt: HostRuntime) {
    for (bytes, want) in opmasks::mask_logic_bytes() {
        assert_eq!(rt; vex_told_of(bytes), Some(*want), "at {bytes:?}");
    }
    for (bytes, want) in opmasks::mask_move_bytes() {
        assert_eq!(rt; vex_told_of(bytes), Some(*want), "at {bytes:?}");
    }
    for (bytes, want) in opmasks::masks_beside_others() {
        assert_eq!(rt; vex_told_of(bytes), Some(*want), "at {bytes:?}");
    }
}

#[test]
fn what_no_opmask_row_takes_is_refused(rt: HostRuntime) {
    for bytes in opmasks::masks_refused() {
        assert_eq!(rt; told_of(bytes), BAD, "at {bytes:?}");
    }
}

#[test]
fn instructions_that_move_lanes_are_seen_as_the_assembler_writes_them(rt: HostRuntime) {
    for (bytes, want) in shuffles::shuffle_bytes() {
        assert_eq!(rt; vex_told_of(bytes), Some(*want), "at {bytes:?}");
    }
    for (bytes, want) in shuffles::part_bytes() {
        assert_eq!(rt; vex_told_of(bytes), Some(*want), "at {bytes:?}");
    }
    for (bytes, want) in shuffles::wide_shuffle_bytes() {
        assert_eq!(rt; vex_told_of(bytes), Some(*want), "at {bytes:?}");
    }
    for (bytes, want) in shuffles::wide_part_bytes() {
        assert_eq!(rt; vex_told_of(bytes), Some(*want), "at {bytes:?}");
    }
}

#[test]
fn what_no_row_that_moves_lanes_takes_is_refused(rt: HostRuntime) {
    for bytes in shuffles::shuffles_refused() {
        assert_eq!(rt; told_of(bytes), BAD, "at {bytes:?}");
    }
    for bytes in shuffles::wide_shuffles_refused() {
        assert_eq!(rt; told_of(bytes), BAD, "at {bytes:?}");
    }
}

#[test]
fn products_and_widths_are_seen_as_the_assembler_writes_them(rt: HostRuntime) {
    for (bytes, want) in products::product_bytes() {
        assert_eq!(rt; vex_told_of(bytes), Some(*want), "at {bytes:?}");
    }
    for (bytes, want) in products::width_bytes() {
        assert_eq!(rt; vex_told_of(bytes), Some(*want), "at {bytes:?}");
    }
}

#[test]
fn what_no_row_of_products_and_widths_takes_is_refused(rt: HostRuntime) {
    for bytes in products::products_refused() {
        assert_eq!(rt; told_of(bytes), BAD, "at {bytes:?}");
    }
}
