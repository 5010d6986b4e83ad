//! What the bytes of an instruction say of it, whatever the state: its operands, and the addresses that they have.
use crate::kinds::{Operand, StackUse, Use};
use crate::sizes::Size;
use crate::strings::Repeat;
use row_table::{Align, Op, Row, StringOp};
use vec_step::Clearing;

/// What an address counts from.
#[derive(Clone, Copy)]
pub enum Base {
    Nothing,
    /// The end of the instruction.
    Next,
    /// A general register.
    Register(u8),
}

/// What an address is made of.
#[derive(Clone, Copy)]
pub struct AddressForm {
    /// The displacement, modulo 2^64.
    pub disp: u64,
    /// What the index is multiplied by.
    pub scale: u64,
    pub base: Base,
    /// The register that is multiplied.
    pub index: Option<u8>,
    /// Whether the low 32 bits count, which prefix 67 says.
    pub wrap32: bool,
    /// The last of the prefixes 64 and 65, or 0.
    pub segment: u8,
}

/// The operand in memory that holds a bit whose number is in a register.
#[derive(Clone, Copy)]
pub struct BitForm {
    /// Where the bit 0 is.
    pub address: AddressForm,
    pub size: Size,
    /// The register that has the bit's number.
    pub register: u8,
}

/// Where an operand is, as far as the bytes of its instruction say.
#[derive(Clone, Copy)]
pub enum OperandForm {
    /// There, whatever the state.
    Fixed(Operand),
    /// A number, which is so far from the end of the instruction.
    Relative(u64),
    /// Memory.
    Memory(AddressForm),
    /// Memory that holds a bit.
    Bit(BitForm),
    /// The address within the segment, as a number.
    Address(AddressForm),
    /// Memory on the stack.
    Stack,
}

/// An instruction that takes numbers and puts others to their places.
#[derive(Clone, Copy)]
pub struct PlainForm {
    pub destination: OperandForm,
    pub source: OperandForm,
    /// What is read beside the two.
    pub beside: OperandForm,
    /// What is written beside the destination.
    pub also: OperandForm,
    /// How many bytes RET frees beside its address.
    pub freed: u64,
    pub op: Op,
    pub size: Size,
    pub source_size: Size,
    pub beside_size: Size,
    pub usage: Use,
    pub stack: StackUse,
    /// The low four bits of the opcode.
    pub condition: u8,
}

/// An instruction on strings.
#[derive(Clone, Copy)]
pub struct StringForm {
    pub op: StringOp,
    pub size: Size,
    pub wrap32: bool,
    /// The last of the prefixes 64 and 65, or 0.
    pub segment: u8,
    pub repeat: Repeat,
}

/// CMPXCHG8B or CMPXCHG16B.
#[derive(Clone, Copy)]
pub struct PairForm {
    pub half: Size,
    pub address: AddressForm,
}

/// An instruction on vectors.
#[derive(Clone, Copy)]
pub struct VectorForm {
    pub row: Row,
    pub reg: u8,
    pub vvvv: u8,
    pub rm: u8,
    /// Where its memory is, if ModRM names memory.
    pub memory: Option<AddressForm>,
}

/// An instruction by the way in which it is performed.
#[derive(Clone, Copy)]
pub enum PlanForm {
    Plain(PlainForm),
    OnStrings(StringForm),
    OnPair(PairForm),
    OnVectors(VectorForm),
    Clears(Clearing),
    Identifies,
}

/// Where an operand in memory may stand.
#[derive(Clone, Copy)]
pub struct Alignment {
    pub rule: Align,
    /// The length of vectors, as fields have it.
    pub length: u8,
    pub address: AddressForm,
}
