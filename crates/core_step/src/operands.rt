//! An instruction with its operands found.
ghost use Rattle.std.specs.Prelude.{◌≡◌, ◌<◌, ℕ, List};
ghost use Rattle.core_step.specs.declared.kinds.Bases.{Bases as AnyBases};
ghost use Rattle.core_step.specs.Operands.{general, opmask as opmask_of, immediate_of, operand_at, op_of, prefixed_size as prefixed_size_of, stack_size as stack_size_of, address_size as address_size_of, row_size as row_size_of, scalar_size as scalar_size_of, size_by, letter_size as letter_size_of, part_size as part_size_of, upper_half as upper_half_of, operands_away as operands_away_of, bit_offset_by, bit_operand as bit_operand_of, stack_at, rsp_for};
ghost use Rattle.core_step.specs.Size.{cut as cut_to, sign_extended as sign_extended_from};
ghost use Rattle.core_step.specs.Address.{address_of, in_segment};
ghost use Rattle.core_step.specs.Fits.{RegistersFit, OperandFits};
ghost use Rattle.core_step.specs.Forms.{operand_by, OperandFormFits};

use crate::addressing::{absolute_form, address_form, is_memory, opcode_reg, reg, rm};
use crate::forms::{BitForm, OperandForm};
use crate::kinds::{Breadth, Operand, PartBreadth, StackUse};
use crate::sizes::Size;
use gpr_flags::{Gprs, RAX, RBP, RCX, RDX, RSP, is_negative};
use row_table::{CoreOp, Extent, Fields, Layout, Op, Row, Spot};

/// A general register as an operand.
fn register(size: Size, fields: &Fields, number: u8) -> Operand
    requires { number < 16 }
    ensures operand { result ≡ general size fields.now number }
    ensures fits { OperandFits result }
{
    match size {
        Size::Byte if !fields.rex && number >= 4 && number < 8 => Operand::HighByte(number - 4),
        _ => Operand::Register(number),
    }
}

/// The low bits of a number at 64 bits, with their sign.
fn sign_extended(size: Size, number: u64) -> u64
    ensures { result ≡ sign_extended_from size (cut_to size number) }
{
    size.sign_extend(size.cut(number))
}

/// The immediate at 64 bits, with its sign.
fn immediate(fields: &Fields) -> u64
    ensures { result ≡ immediate_of fields.now }
{
    match fields.imm_len {
        1 => sign_extended(Size::Byte, fields.imm),
        2 => sign_extended(Size::Word, fields.imm),
        4 => sign_extended(Size::Double, fields.imm),
        _ => fields.imm,
    }
}

/// Memory in ModRM.r/m as an operand.
#[tactic(auto, unfolding(crate::specs::Forms::operand_by))]
fn memory(fields: &Fields, disp: i64) -> OperandForm
    requires x { fields.now.x < 2 }
    requires b { fields.now.b < 2 }
    ensures operand { (stack : ℕ) (gprs : List ℕ) (bases : AnyBases)
        → operand_by result stack gprs bases ≡ Operand.Memory (address_of fields.now disp gprs bases) }
    ensures fits { OperandFormFits result }
{
    OperandForm::Memory(address_form(fields, disp))
}

/// Memory at an address in the code as an operand.
#[tactic(auto, unfolding(crate::specs::Forms::operand_by))]
fn absolute(fields: &Fields) -> OperandForm
    ensures operand { (stack : ℕ) (gprs : List ℕ) (bases : AnyBases)
        → operand_by result stack gprs bases ≡ Operand.Memory (in_segment fields.now bases fields.now.imm) }
    ensures fits { OperandFormFits result }
{
    OperandForm::Memory(absolute_form(fields))
}

/// An opmask as an operand.
fn opmask(number: u8) -> Operand
    ensures operand { result ≡ opmask_of number }
    ensures fits { OperandFits result }
{
    Operand::Opmask(number % 8)
}

/// What stands at a place of a row's list of operands.
#[tactic(auto, unfolding(crate::specs::Operands::operand_at, crate::specs::Forms::operand_by))]
pub(crate) fn operand(spot: Spot, size: Size, fields: &Fields, disp: i64) -> OperandForm
    requires registers { RegistersFit fields.now }
    ensures operand { (stack : ℕ) (gprs : List ℕ) (bases : AnyBases)
        → operand_by result stack gprs bases ≡ operand_at spot size fields.now disp gprs bases }
    ensures fits { OperandFormFits result }
{
    match spot {
        Spot::Reg => OperandForm::Fixed(register(size, fields, reg(fields))),
        Spot::Rm => {
            if is_memory(fields) {
                memory(fields, disp)
            } else {
                OperandForm::Fixed(register(size, fields, rm(fields)))
            }
        }
        Spot::Vvvv => OperandForm::Fixed(register(size, fields, fields.v % 16)),
        Spot::OpcodeReg => OperandForm::Fixed(register(size, fields, opcode_reg(fields))),
        Spot::Rax => OperandForm::Fixed(Operand::Register(RAX)),
        Spot::Cl => OperandForm::Fixed(Operand::Register(RCX)),
        Spot::Memory => memory(fields, disp),
        Spot::Offset => absolute(fields),
        Spot::Immediate => OperandForm::Fixed(Operand::Number(immediate(fields))),
        Spot::Relative => OperandForm::Relative(immediate(fields)),
        Spot::One => OperandForm::Fixed(Operand::Number(1)),
        Spot::OpmaskReg => OperandForm::Fixed(opmask(reg(fields))),
        Spot::OpmaskRm => {
            if is_memory(fields) {
                memory(fields, disp)
            } else {
                OperandForm::Fixed(opmask(rm(fields)))
            }
        }
        Spot::OpmaskVvvv => OperandForm::Fixed(opmask(fields.v % 16)),
        Spot::Absent
        | Spot::VectorMemory
        | Spot::VectorReg
        | Spot::VectorRm
        | Spot::VectorVvvv
        | Spot::VectorImmediate
        | Spot::Xmm0 => OperandForm::Fixed(Operand::Absent),
    }
}

/// The operation: that of the row, but for XCHG of rAX with itself.
pub(crate) fn operation(row: &Row, layout: &Layout, fields: &Fields) -> Op
    requires { fields.now.b < 2 }
    ensures { result ≡ op_of row.now layout.now fields.now }
{
    match layout.second.spot {
        Spot::OpcodeReg if opcode_reg(fields) == 0 => Op::Core(CoreOp::Nop),
        _ => row.op,
    }
}

/// The operand size by prefixes.
fn prefixed_size(fields: &Fields) -> Size
    ensures { result ≡ prefixed_size_of fields.now }
{
    if fields.w {
        Size::Quad
    } else if fields.p66 {
        Size::Word
    } else {
        Size::Double
    }
}

/// The size of what goes to the stack or comes from there.
fn stack_size(fields: &Fields) -> Size
    ensures { result ≡ stack_size_of fields.now }
{
    if !fields.w && fields.p66 {
        Size::Word
    } else {
        Size::Quad
    }
}

/// The size of addresses.
fn address_size(fields: &Fields) -> Size
    ensures { result ≡ address_size_of fields.now }
{
    if fields.p67 { Size::Double } else { Size::Quad }
}

/// The size by the row, or by the prefixes.
pub(crate) fn row_size(row: &Row, fields: &Fields) -> Size
    ensures { result ≡ row_size_of row.now fields.now }
{
    match row.width {
        8 => Size::Byte,
        16 => Size::Word,
        32 => Size::Double,
        64 => Size::Quad,
        _ => prefixed_size(fields),
    }
}

/// The size of a general register beside vectors or opmasks.
fn scalar_size(fields: &Fields) -> Size
    ensures { result ≡ scalar_size_of fields.now }
{
    if fields.w { Size::Quad } else { Size::Double }
}

/// The size of the destination.
pub(crate) fn destination_size(breadth: Breadth, row: &Row, fields: &Fields) -> Size
    ensures { result ≡ size_by breadth row.now fields.now }
{
    match breadth {
        Breadth::OfRow => row_size(row, fields),
        Breadth::OfStack => stack_size(fields),
        Breadth::OfAddress => address_size(fields),
        Breadth::OfScalar => scalar_size(fields),
    }
}

/// The size by a letter, where the destination has this size.
fn letter_size(letter: Extent, size: Size) -> Size
    ensures { result ≡ letter_size_of letter size }
{
    match letter {
        Extent::Byte => Size::Byte,
        Extent::Word => Size::Word,
        Extent::Double => {
            if size == Size::Word {
                Size::Word
            } else {
                Size::Double
            }
        }
        Extent::Own
        | Extent::DoubleQuad
        | Extent::Sized
        | Extent::Scalar
        | Extent::Limited
        | Extent::Vector => size,
    }
}

/// The size of another operand than the destination, which has this size, where the row has its own.
pub(crate) fn part_size(breadth: PartBreadth, letter: Extent, own: Size, size: Size) -> Size
    ensures { result ≡ part_size_of breadth letter own size }
{
    match breadth {
        PartBreadth::Same => size,
        PartBreadth::Letter => letter_size(letter, size),
        PartBreadth::Quad => Size::Quad,
        PartBreadth::Half => size.half(),
        PartBreadth::Count => Size::Byte,
        PartBreadth::InRow => own,
    }
}

/// Where the upper half of a product or a remainder goes.
pub(crate) fn upper_half(size: Size) -> Operand
    ensures operand { result ≡ upper_half_of size }
    ensures fits { OperandFits result }
{
    match size {
        Size::Byte => Operand::HighByte(RAX),
        Size::Word | Size::Double | Size::Quad => Operand::Register(RDX),
    }
}

/// How far away the operand is that holds a bit, by the bit's number, modulo 2^64.
fn operands_away(size: Size, number: u64) -> u64
    ensures { result ≡ operands_away_of size number }
{
    let bytes = match size {
        Size::Byte => number / 8,
        Size::Word => number / 16 * 2,
        Size::Double => number / 32 * 4,
        Size::Quad => number / 64 * 8,
    };
    if is_negative(64, number) {
        bytes.wrapping_add(0xE000_0000_0000_0000)
    } else {
        bytes
    }
}

/// The same, by the register that has the bit's number.
pub(crate) fn bit_offset(size: Size, number: u8, gprs: &Gprs) -> u64
    requires { number < 16 }
    ensures { result ≡ bit_offset_by size number gprs.now }
{
    operands_away(size, sign_extended(size, gprs.get(number)))
}

/// The operand in memory that holds the bit whose number is in a register.
#[tactic(auto, unfolding(crate::specs::Operands::bit_operand, crate::specs::Forms::operand_by, crate::specs::Forms::bit_by))]
pub(crate) fn bit_operand(size: Size, fields: &Fields, disp: i64) -> OperandForm
    requires registers { RegistersFit fields.now }
    ensures operand { (stack : ℕ) (gprs : List ℕ) (bases : AnyBases)
        → operand_by result stack gprs bases ≡ bit_operand_of size fields.now disp gprs bases }
    ensures fits { OperandFormFits result }
{
    if is_memory(fields) {
        OperandForm::Bit(BitForm {
            address: address_form(fields, disp),
            size,
            register: reg(fields),
        })
    } else {
        OperandForm::Fixed(register(size, fields, rm(fields)))
    }
}

/// Where the stack's operand is.
pub(crate) fn stack_place(stack: StackUse, size: Size, gprs: &Gprs) -> u64
    ensures { result ≡ stack_at stack size gprs.now }
{
    match stack {
        StackUse::Pushes => gprs.get(RSP).wrapping_sub(size.bytes() as u64),
        StackUse::Aside | StackUse::Pops => gprs.get(RSP),
        StackUse::Leaves => gprs.get(RBP),
    }
}

/// rsp as addresses have it.
pub(crate) fn rsp_in_addresses(stack: StackUse, size: Size, gprs: &Gprs) -> u64
    ensures { result ≡ rsp_for stack size gprs.now }
{
    match stack {
        StackUse::Pops => gprs.get(RSP).wrapping_add(size.bytes() as u64),
        StackUse::Aside | StackUse::Pushes | StackUse::Leaves => gprs.get(RSP),
    }
}
