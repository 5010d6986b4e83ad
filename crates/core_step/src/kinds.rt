//! An instruction with its operands found, and what comes of it.
use crate::acted::Acted;
use crate::pair::PairPlan;
use crate::sizes::Size;
use crate::strings::StringPlan;
use gpr_flags::Flags;
use row_table::Op;
use vec_step::{Clearing, VectorPlan};

/// Where an operation finds an operand: in its row's list, or at a place of its own.
#[derive(Clone, Copy)]
pub enum Part {
    Absent,
    First,
    Second,
    Third,
    /// The first, moved in memory by the bit's number in the second.
    Bit,
    /// The address of what is in ModRM.r/m, as a number.
    Address,
    /// Memory on the stack.
    Stack,
    Rax,
    Rcx,
    Rdx,
    Rbp,
    R11,
    Ah,
    /// rDX, or AH of bytes.
    UpperHalf,
    /// The control and status register of SSE.
    Mxcsr,
}

/// How wide an operation's destination is.
#[derive(Clone, Copy)]
pub enum Breadth {
    /// As its row says.
    OfRow,
    /// As what goes to the stack.
    OfStack,
    /// As an address.
    OfAddress,
    /// 4 bytes, or 8 with W.
    OfScalar,
}

/// How wide another operand is.
#[derive(Clone, Copy)]
pub enum PartBreadth {
    /// As the destination.
    Same,
    /// As the letter of its place says.
    Letter,
    Quad,
    /// Half as wide as the destination.
    Half,
    /// One byte.
    Count,
    /// As the row says.
    InRow,
}

/// What an operation does with the stack.
#[derive(Clone, Copy)]
pub enum StackUse {
    Aside,
    /// It goes to below rsp.
    Pushes,
    /// It takes from rsp.
    Pops,
    /// It takes from rbp.
    Leaves,
}

/// What an operation does with its operands.
#[derive(Clone, Copy)]
pub struct Roles {
    pub breadth: Breadth,
    pub destination: Part,
    pub usage: Use,
    pub source: Part,
    pub source_breadth: PartBreadth,
    /// What is read beside the destination and the source.
    pub beside: Part,
    pub beside_breadth: PartBreadth,
    /// What is written beside the destination.
    pub also: Part,
    pub stack: StackUse,
}

/// Where an operand is.
#[derive(Clone, Copy, Debug, PartialEq, Eq)]
pub enum Operand {
    Absent,
    /// The low part of a general register, as the operand's size says.
    Register(u8),
    /// Bits 8 to 15 of one of the first four general registers: AH, CH, DH, BH.
    HighByte(u8),
    /// Memory from this address on.
    Memory(u64),
    /// The number itself.
    Number(u64),
    /// The control and status register of SSE (SDM volume 1, 10.2.3).
    Mxcsr,
    /// The low part of an opmask, as the operand's size says.
    Opmask(u8),
}

/// What an instruction does with its destination.
#[derive(Clone, Copy, Debug, PartialEq, Eq)]
pub enum Use {
    Read,
    Write,
    /// It is read and then written, in one access of kind write.
    Update,
}

/// What addresses are made of beside the general registers.
#[derive(Clone, Copy, Debug, PartialEq, Eq)]
pub struct Bases {
    /// rsp, as the address has it.
    pub rsp: u64,
    /// Where the next instruction stands.
    pub next: u64,
    /// The base of the segment FS.
    pub fs: u64,
    /// The base of the segment GS.
    pub gs: u64,
}

/// An instruction with its operands found.
#[derive(Clone, Copy)]
pub struct Instruction {
    pub destination: Operand,
    pub source: Operand,
    /// What is read beside the two.
    pub beside: Operand,
    /// What is written beside the destination, with the same size.
    pub also: Operand,
    /// Where the stack's operand is.
    pub stack: u64,
    /// How many bytes RET frees beside its address.
    pub freed: u64,
    /// Where the instruction stands.
    pub rip: u64,
    /// Where the next one stands.
    pub next: u64,
    pub op: Op,
    /// The size of the destination.
    pub size: Size,
    /// The size of the source.
    pub source_size: Size,
    /// The size of what is read beside the two.
    pub beside_size: Size,
    /// What is done with the destination.
    pub usage: Use,
    /// The low four bits of the opcode.
    pub condition: u8,
}

/// VZEROUPPER or VZEROALL.
#[derive(Clone, Copy)]
pub struct ClearPlan {
    pub clearing: Clearing,
    /// Where the next instruction stands.
    pub next: u64,
}

/// CPUID.
#[derive(Clone, Copy)]
pub struct IdentifyPlan {
    /// Where the next instruction stands.
    pub next: u64,
}

/// An instruction with its operands found, by the way in which it is performed.
#[derive(Clone, Copy)]
pub enum Plan {
    /// Numbers are taken, and others put to their places.
    Plain(Instruction),
    /// One iteration on strings in memory.
    OnStrings(StringPlan),
    /// Two registers are compared with memory and exchanged.
    OnPair(PairPlan),
    /// Lanes of vectors are taken, and others put to their places.
    OnVectors(VectorPlan),
    /// Bytes of vector registers become 0.
    Clears(ClearPlan),
    /// Four registers tell what the processor has.
    Identifies(IdentifyPlan),
}

/// What comes of an instruction whose accesses can be made.
#[derive(Clone, Copy)]
pub struct Outcome {
    pub acted: Acted,
    /// The number that goes to the destination.
    pub destination: Option<u64>,
    /// The number that goes beside the destination.
    pub also: Option<u64>,
    /// The new rsp.
    pub stack: Option<u64>,
    pub flags: Flags,
    pub rip: u64,
}
