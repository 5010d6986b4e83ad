//! What an instruction's fields name: its registers, and what the address of its memory operand is made of.
ghost use Rattle.std.specs.Prelude.{◌≡◌, ◌<◌, ◌≤◌, ℕ, List};
ghost use Rattle.core_step.specs.declared.kinds.Bases.{Bases as AnyBases};
ghost use Rattle.core_step.specs.Address.{modrm_of, is_memory as names_memory, vector_reg as vector_reg_of, reg_number, rm_number, fifth_bit as fifth_bit_of, vector_rm as vector_rm_of, opcode_number, sib_of, has_sib as has_sib_byte, sib_index, scale_of, base_of, scaled_index, offset_of, in_segment, address_of};
ghost use Rattle.core_step.specs.Forms.{base_by, index_by, offset_by, address_by, BaseFits, IndexFits, AddressFits};

use crate::forms::{AddressForm, Base};
use row_table::{Class, Fields};

/// The ModRM byte, or 0.
pub(crate) fn modrm(fields: &Fields) -> u8
    ensures { result ≡ modrm_of fields.now }
{
    fields.modrm.unwrap_or(0)
}

/// Whether ModRM.r/m names memory.
pub(crate) fn is_memory(fields: &Fields) -> bool
    ensures { result ≡ names_memory fields.now }
{
    modrm(fields) / 64 < 3
}

/// The vector register in ModRM.reg.
pub(crate) fn vector_reg(fields: &Fields) -> u8
    requires { fields.now.r < 4 }
    ensures number { result ≡ vector_reg_of fields.now }
    ensures fits { result < 32 }
{
    8 * fields.r + modrm(fields) / 8 % 8
}

/// The general register in ModRM.reg.
pub(crate) fn reg(fields: &Fields) -> u8
    requires { fields.now.r < 4 }
    ensures number { result ≡ reg_number fields.now }
    ensures fits { result < 16 }
{
    vector_reg(fields) % 16
}

/// The general register in ModRM.r/m.
pub(crate) fn rm(fields: &Fields) -> u8
    requires { fields.now.b < 2 }
    ensures number { result ≡ rm_number fields.now }
    ensures fits { result < 16 }
{
    8 * fields.b + modrm(fields) % 8
}

/// The fifth bit of the register in ModRM.r/m.
fn fifth_bit(fields: &Fields) -> u8
    requires { fields.now.x < 2 }
    ensures value { result ≡ fifth_bit_of fields.now.class fields.now.x }
    ensures most { result ≤ 16 }
{
    match fields.class {
        Class::Evex => 16 * fields.x,
        Class::Legacy | Class::Vex => 0,
    }
}

/// The vector register in ModRM.r/m.
pub(crate) fn vector_rm(fields: &Fields) -> u8
    requires x { fields.now.x < 2 }
    requires b { fields.now.b < 2 }
    ensures { result ≡ vector_rm_of fields.now }
{
    fifth_bit(fields) + rm(fields)
}

/// The register in the opcode.
pub(crate) fn opcode_reg(fields: &Fields) -> u8
    requires { fields.now.b < 2 }
    ensures number { result ≡ opcode_number fields.now }
    ensures fits { result < 16 }
{
    8 * fields.b + fields.opcode % 8
}

/// The SIB byte, or 0.
fn sib(fields: &Fields) -> u8
    ensures { result ≡ sib_of fields.now }
{
    fields.sib.unwrap_or(0)
}

fn has_sib(fields: &Fields) -> bool
    ensures { result ≡ has_sib_byte fields.now }
{
    modrm(fields) % 8 == 4
}

/// The base.
#[tactic(auto, unfolding(crate::specs::Address::base_of))]
fn base(fields: &Fields) -> Base
    requires { fields.now.b < 2 }
    ensures base { (gprs : List ℕ) (bases : AnyBases) → base_by result gprs bases ≡ base_of fields.now gprs bases }
    ensures fits { BaseFits result }
{
    let without = modrm(fields) / 64 == 0;
    if has_sib(fields) {
        let low = sib(fields) % 8;
        if without && low == 5 {
            Base::Nothing
        } else {
            Base::Register(8 * fields.b + low)
        }
    } else if without && modrm(fields) % 8 == 5 {
        Base::Next
    } else {
        Base::Register(rm(fields))
    }
}

/// The number of the index, if there is one or not.
fn index_number(fields: &Fields) -> u8
    requires { fields.now.x < 2 }
    ensures number { result ≡ sib_index fields.now }
    ensures fits { result < 16 }
{
    8 * fields.x + sib(fields) / 8 % 8
}

/// The scale: 1, 2, 4 or 8.
fn scale(fields: &Fields) -> u64
    ensures { result ≡ scale_of fields.now }
{
    match sib(fields) / 64 {
        0 => 1,
        1 => 2,
        2 => 4,
        _ => 8,
    }
}

/// The index.
#[tactic(auto, unfolding(crate::specs::Address::scaled_index))]
fn index(fields: &Fields) -> Option<u8>
    requires { fields.now.x < 2 }
    ensures index { (gprs : List ℕ) (bases : AnyBases)
        → index_by result (scale_of fields.now) gprs bases ≡ scaled_index fields.now gprs bases }
    ensures fits { IndexFits result }
{
    if has_sib(fields) && index_number(fields) != 4 {
        Some(index_number(fields))
    } else {
        None
    }
}

/// What the address of the operand in memory is made of.
#[tactic(auto, unfolding(crate::specs::Address::offset_of, crate::specs::Address::address_of, crate::specs::Forms::offset_by, crate::specs::Forms::address_by))]
pub(crate) fn address_form(fields: &Fields, disp: i64) -> AddressForm
    requires b { fields.now.b < 2 }
    requires x { fields.now.x < 2 }
    ensures offset { (gprs : List ℕ) (bases : AnyBases) → offset_by result gprs bases ≡ offset_of fields.now disp gprs bases }
    ensures address { (gprs : List ℕ) (bases : AnyBases) → address_by result gprs bases ≡ address_of fields.now disp gprs bases }
    ensures wrap32 { result.wrap32 ≡ fields.now.p67 }
    ensures segment { result.segment ≡ fields.now.segment }
    ensures fits { AddressFits result }
{
    AddressForm {
        disp: disp.cast_unsigned(),
        scale: scale(fields),
        base: base(fields),
        index: index(fields),
        wrap32: fields.p67,
        segment: fields.segment,
    }
}

/// The same where the address is a number in the code.
#[tactic(auto, unfolding(crate::specs::Forms::offset_by, crate::specs::Forms::address_by))]
pub(crate) fn absolute_form(fields: &Fields) -> AddressForm
    ensures address { (gprs : List ℕ) (bases : AnyBases) → address_by result gprs bases ≡ in_segment fields.now bases fields.now.imm }
    ensures fits { AddressFits result }
{
    AddressForm {
        disp: fields.imm,
        scale: 1,
        base: Base::Nothing,
        index: None,
        wrap32: false,
        segment: fields.segment,
    }
}
