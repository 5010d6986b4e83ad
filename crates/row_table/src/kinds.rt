//! A row of the table, the fields of an instruction's bytes, and what they are made of.
use crate::operations::Op;

/// How an instruction's prefixes are encoded.
#[derive(Clone, Copy)]
pub enum Class {
    Legacy,
    Vex,
    Evex,
}

/// The prefix that a row is marked with. It is the last of F2 and F3 if one of them is there, else 66 if
/// it is there, else none.
#[derive(Clone, Copy, PartialEq, Eq)]
pub enum Prefix {
    /// Any prefix: F2 and F3 have no meaning, and 66 gives the operand size.
    Unmarked,
    /// None of 66, F2 and F3.
    Np,
    P66,
    PF3,
    PF2,
}

/// Where a row's operands are, in the order of the SDM's listing. The letters are those of its opcode
/// maps (Intel SDM volume 2, appendix A.2): E a general register or memory by ModRM.r/m, G a general
/// register by ModRM.reg, B one by vvvv, R one by ModRM.r/m; V a vector register by ModRM.reg, H one by
/// vvvv, U one by ModRM.r/m, W one or memory by ModRM.r/m, L one by the immediate; M memory; I an
/// immediate; J a place relative to the next instruction; O an address without ModRM. K is an opmask
/// register, of the row's width whatever letter follows it, and so is memory that it is moved to or from.
/// b, w, d are 1, 2 and 4 bytes, v the operand size, y 4 bytes or 8 with W, z 4 bytes or 2 with a 16-bit
/// operand size, x the vector's length, dq 16 bytes.
#[derive(Clone, Copy)]
pub enum Operands {
    // Without ModRM.
    /// Nothing beside the opcode.
    Implied,
    /// The register in the opcode.
    OpcodeReg,
    /// rAX and the register in the opcode.
    RaxOpcodeReg,
    OpcodeRegIb,
    /// An immediate of the whole operand size.
    OpcodeRegIv,
    Ib,
    Iw,
    Iz,
    Jb,
    /// Always 4 bytes.
    Jz,
    AlIb,
    RaxIz,
    AlOb,
    RaxOv,
    ObAl,
    OvRax,
    // General registers.
    Eb,
    Ev,
    EbGb,
    EvGv,
    GbEb,
    GvEv,
    GvEb,
    GvEw,
    GvEd,
    EbIb,
    EvIb,
    EvIz,
    EbOne,
    EvOne,
    EbCl,
    EvCl,
    GvEvIb,
    GvEvIz,
    EvGvIb,
    EvGvCl,
    GvM,
    MvGv,
    /// Memory of the operation's own size.
    M,
    /// A register form whose register is not used.
    R,
    /// The ModRM byte D0.
    ByteD0,
    GyByEy,
    GyEyBy,
    ByEy,
    GyEyIb,
    // Vector registers.
    VxHxWx,
    VxHxWxIb,
    VxHxWdq,
    VxHxWxLx,
    VxWx,
    VxWdq,
    VxWxIb,
    /// The third operand is XMM0.
    VxWxXmm0,
    WxVx,
    WxVxIb,
    HxWxIb,
    HxUxIb,
    UxIb,
    VxMx,
    VxMxIb,
    MxVx,
    VxHxMx,
    VxHxMxIb,
    MxHxVx,
    VxHxUx,
    VxHxUxIb,
    UxHxVx,
    VxUx,
    VxUxIb,
    UxVx,
    VxEv,
    EvVx,
    VxEvIb,
    VxHxEvIb,
    EvVxIb,
    VxRv,
    GvUx,
    GvUxIb,
    /// Memory with a vector index.
    VxVm,
    VxVmHx,
    VmVx,
    // Opmask registers: K by ModRM.reg, then by vvvv, then by ModRM.r/m.
    KxHxWx,
    KxHxWxIb,
    KxUx,
    VxKx,
    KxKx,
    KxKxKx,
    KxKxIb,
    /// The source is an opmask register or memory.
    KxKm,
    MxKx,
    KxRv,
    GvKx,
}

/// Where an operand stands.
#[derive(Clone, Copy)]
pub enum Spot {
    Absent,
    /// The general register in ModRM.reg.
    Reg,
    /// The general register or memory in ModRM.r/m.
    Rm,
    /// The general register in vvvv.
    Vvvv,
    /// The general register in the opcode.
    OpcodeReg,
    /// AL, AX, EAX or RAX.
    Rax,
    /// CL.
    Cl,
    /// Memory in ModRM.r/m.
    Memory,
    /// Memory in ModRM.r/m, whose index is a vector register.
    VectorMemory,
    /// Memory at the address that stands in the immediate.
    Offset,
    Immediate,
    /// The place in the code that is so far from the next instruction.
    Relative,
    /// The number 1.
    One,
    /// The vector register in ModRM.reg.
    VectorReg,
    /// The vector register or memory in ModRM.r/m.
    VectorRm,
    /// The vector register in vvvv.
    VectorVvvv,
    /// The vector register in bits 4 to 7 of the immediate.
    VectorImmediate,
    Xmm0,
    /// The opmask register in ModRM.reg.
    OpmaskReg,
    /// The opmask register or memory in ModRM.r/m.
    OpmaskRm,
    /// The opmask register in vvvv.
    OpmaskVvvv,
}

/// The size of an operand, as the small letter behind its place gives it (Intel SDM volume 2, appendix A.2.2).
#[derive(Clone, Copy)]
pub enum Extent {
    /// The row's, or none.
    Own,
    /// b: 1 byte.
    Byte,
    /// w: 2 bytes.
    Word,
    /// d: 4 bytes.
    Double,
    /// dq: 16 bytes.
    DoubleQuad,
    /// v: the operand size.
    Sized,
    /// y: 4 bytes, or 8 with W.
    Scalar,
    /// z: the operand size, but at most 4 bytes.
    Limited,
    /// x: the vector's length.
    Vector,
}

/// An operand in a list of operands.
#[derive(Clone, Copy)]
pub struct Place {
    pub spot: Spot,
    pub size: Extent,
}

/// Which kinds of operand a list of operands takes in ModRM.r/m.
#[derive(Clone, Copy)]
pub enum Form {
    Either,
    Memory,
    Register,
    /// One ModRM byte alone.
    Exactly(u8),
}

/// What a list of operands says: what stands where, in the list's order, and which bytes follow the opcode.
#[derive(Clone, Copy)]
pub struct Layout {
    pub first: Place,
    pub second: Place,
    pub third: Place,
    pub fourth: Place,
    /// Whether ModRM is there.
    pub modrm: bool,
    /// The size of the immediate as a code, as in `Shape`.
    pub immediate: u8,
    pub form: Form,
}

/// The size of a vector row's memory operand, by which EVEX scales a displacement of one byte (Intel SDM
/// volume 2, section 2.7.5).
#[derive(Clone, Copy)]
pub enum Tuple {
    NoTuple,
    Full,
    Half,
    FullMem,
    HalfMem,
    QuarterMem,
    EighthMem,
    Mem128,
    T1S,
    T2,
    T4,
    T8,
}

/// What a row makes of an opmask or of a mask in a vector register.
#[derive(Clone, Copy)]
pub enum MaskKind {
    /// No mask may be named.
    NoMask,
    /// A masked-out lane keeps its old value, or is 0 with z; memory is not zeroed.
    MergeZero,
    /// The destination is an opmask register; it has 0 for a masked-out lane.
    ToMask,
    /// A masked-out lane is the first source's, or 0 with z.
    Blend,
    /// The masked-in lanes stand one after the other from lane 0 up, in a register and in memory.
    Compress,
    /// A masked-out lane keeps its old value, or is 0 with z; memory holds the masked-in lanes one after the other.
    Expand,
    /// A mask has to be named, and z is refused: gathers and scatters.
    Required,
    /// By the signs of a vector register's elements, masked-out lanes stay.
    Signs,
    /// By the signs of a vector register's elements, masked-out lanes are 0.
    SignsZero,
    /// The signs of a vector register's elements choose between two sources, and no lane is masked out.
    Select,
}

/// The alignment that a row's memory operand must have.
#[derive(Clone, Copy)]
pub enum Align {
    Free,
    /// To 16 bytes.
    Sixteen,
    /// To its own size.
    Size,
}

/// The first processor that has a row: x86-64-v2, v3 or v4.
#[derive(Clone, Copy)]
pub enum Level {
    V2,
    V3,
    V4,
}

/// A row of the table.
#[derive(Clone, Copy)]
pub struct Row {
    pub class: Class,
    /// 0 the one-byte map, 1, 2 and 3 the maps of 0F, 0F38 and 0F3A.
    pub map: u8,
    pub prefix: Prefix,
    pub opcode: u8,
    /// ModRM.reg, where it extends the opcode.
    pub digit: Option<u8>,
    /// REX.W, VEX.W or EVEX.W, where the row needs one of its values.
    pub w: Option<bool>,
    /// The vector lengths that the row takes: 1 for 128 bits, 2 for 256, 4 for 512, added up. Legacy rows
    /// have 1, since their length field is 0. With 8 the bit L is ignored, and vectors have 128 bits.
    pub lengths: u8,
    pub operands: Operands,
    /// The width of lanes and masks, or of a general operand, in bits; 0 where it is the operand size,
    /// which 66 and W give.
    pub width: u8,
    pub tuple: Tuple,
    pub mask: MaskKind,
    /// The whole memory operand is read, whatever the mask.
    pub whole: bool,
    pub align: Align,
    pub level: Level,
    pub op: Op,
}

/// What the bytes of an instruction say.
#[derive(Clone, Copy)]
pub struct Fields {
    pub class: Class,
    /// The last of the prefixes 64 and 65, or 0.
    pub segment: u8,
    pub lock: bool,
    /// The last of the prefixes F2 and F3, or 0.
    pub rep: u8,
    pub p66: bool,
    pub p67: bool,
    /// A REX byte stands directly before the opcode or its escape.
    pub rex: bool,
    pub w: bool,
    /// The high bits of ModRM.reg: R, and for EVEX twice R'.
    pub r: u8,
    pub x: u8,
    pub b: u8,
    /// vvvv, and for EVEX 16 times V'.
    pub v: u8,
    /// The length: 0 for 128 bits, 1 for 256, 2 for 512.
    pub l: u8,
    /// The prefix that VEX and EVEX hold: 0 none, 1 66, 2 F3, 3 F2.
    pub pp: u8,
    pub map: u8,
    pub opcode: u8,
    pub modrm: Option<u8>,
    pub sib: Option<u8>,
    pub disp: i64,
    pub disp_len: u8,
    pub imm: u64,
    pub imm_len: u8,
    pub z: bool,
    /// EVEX.b.
    pub bc: bool,
    pub aaa: u8,
}

/// An instruction: its row, its fields and its displacement in bytes.
#[derive(Clone, Copy)]
pub struct Decoded {
    pub row: u16,
    pub fields: Fields,
    pub disp: i64,
}

/// Which bytes follow an opcode: whether ModRM is there, and the size of the immediate as a code. 0, 1, 2
/// and 8 bytes stand for themselves, and 4 always for four; 10 is 2 or 4 bytes by operand size, 11 is 2,
/// 4 or 8 bytes by operand size, 12 is 8 bytes, or 4 with the prefix 67. 13 and 14 are 1 byte, and 2 or 4
/// by operand size, where ModRM.reg is 0, and else none.
#[derive(Clone, Copy, Debug, PartialEq, Eq)]
pub struct Shape {
    pub modrm: bool,
    pub imm: u8,
}

/// How a row stands to the fields of an instruction.
#[derive(Clone, Copy)]
pub enum Standing {
    /// It fits them and is marked with the prefix that is there.
    Marked,
    /// It fits them and has no mark.
    Unmarked,
    Apart,
}
