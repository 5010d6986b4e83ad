//! Rules on an instruction's fields that several classes of encoding have.
ghost use Rattle.std.specs.Prelude.{◌≡◌};
ghost use Rattle.row_table.specs.Shapes.{form_fits};
ghost use Rattle.row_table.specs.Spelling.{without_prefixes, registers_fit, bytes_fit, without_evex, is_in_vvvv, uses_vvvv, writes_rm, is_low_rm, opmask_fits, opmasks_fit};
ghost use Rattle.row_table.specs.declared.kinds.Form.TheVariants.{Memory};

use crate::finding::shape;
use crate::kinds::{Class, Fields, Operands, Row, Spot};
use crate::layouts::layout;
use crate::matching::wants_sib;

/// Whether none of the prefixes is there that may not stand before VEX and EVEX.
pub fn is_without_prefixes(fields: &Fields) -> bool
    ensures { result ≡ without_prefixes fields.now }
{
    !fields.lock && !fields.p66 && fields.rep == 0 && !fields.rex
}

/// Whether each register number with one high bit is one of a register.
pub fn do_registers_fit(fields: &Fields) -> bool
    ensures { result ≡ registers_fit fields.now }
{
    fields.r < 2 && fields.x < 2 && fields.b < 2
}

/// Whether ModRM is there where the rows of the opcode have it, and SIB where it follows ModRM.
pub fn are_bytes_there(fields: &Fields) -> bool
    ensures { result ≡ bytes_fit fields.now }
{
    let modrm_fits = match shape(fields.class, fields.map, fields.opcode) {
        None => false,
        Some(shape) => fields.modrm.is_some() == shape.modrm,
    };
    modrm_fits && fields.sib.is_some() == wants_sib(fields.modrm)
}

/// Whether there is nothing that EVEX alone has: no mask, no zeroing and no broadcast.
pub fn is_without_evex(fields: &Fields) -> bool
    ensures { result ≡ without_evex fields.now }
{
    fields.aaa == 0 && !fields.z && !fields.bc
}

fn is_in_vvvv(spot: Spot) -> bool
    ensures { result ≡ is_in_vvvv spot }
{
    match spot {
        Spot::Vvvv | Spot::VectorVvvv | Spot::OpmaskVvvv => true,
        Spot::Absent
        | Spot::Reg
        | Spot::Rm
        | Spot::OpcodeReg
        | Spot::Rax
        | Spot::Cl
        | Spot::Memory
        | Spot::VectorMemory
        | Spot::Offset
        | Spot::Immediate
        | Spot::Relative
        | Spot::One
        | Spot::VectorReg
        | Spot::VectorRm
        | Spot::VectorImmediate
        | Spot::Xmm0
        | Spot::OpmaskReg
        | Spot::OpmaskRm => false,
    }
}

/// Whether one of the operands is the register in vvvv.
#[tactic(auto, unfolding(crate::specs::Spelling::uses_vvvv))]
pub fn is_vvvv_used(operands: Operands) -> bool
    ensures { result ≡ uses_vvvv operands }
{
    let layout = layout(operands);
    is_in_vvvv(layout.first.spot)
        || is_in_vvvv(layout.second.spot)
        || is_in_vvvv(layout.third.spot)
        || is_in_vvvv(layout.fourth.spot)
}

/// Whether the first operand, the destination, is the one in ModRM.r/m.
#[tactic(auto, unfolding(crate::specs::Spelling::writes_rm))]
pub fn does_write_rm(operands: Operands) -> bool
    ensures { result ≡ writes_rm operands }
{
    match layout(operands).first.spot {
        Spot::Rm | Spot::Memory | Spot::VectorMemory | Spot::VectorRm | Spot::OpmaskRm => true,
        Spot::Absent
        | Spot::Reg
        | Spot::Vvvv
        | Spot::OpcodeReg
        | Spot::Rax
        | Spot::Cl
        | Spot::Offset
        | Spot::Immediate
        | Spot::Relative
        | Spot::One
        | Spot::VectorReg
        | Spot::VectorVvvv
        | Spot::VectorImmediate
        | Spot::Xmm0
        | Spot::OpmaskReg
        | Spot::OpmaskVvvv => false,
    }
}

/// Whether the ModRM byte names memory.
pub fn is_memory(modrm: Option<u8>) -> bool
    ensures { result ≡ form_fits Memory modrm }
{
    match modrm {
        None => false,
        Some(byte) => byte < 0xc0,
    }
}

/// Whether a register in ModRM.r/m has no bit above its three bits there.
fn is_low(fields: &Fields) -> bool
    ensures { result ≡ is_low_rm fields.now.class fields.now }
{
    match fields.class {
        Class::Legacy | Class::Vex => fields.b == 0,
        Class::Evex => fields.b == 0 && fields.x == 0,
    }
}

/// Whether an opmask register that stands there has a number below 8.
fn does_opmask_fit(spot: Spot, fields: &Fields) -> bool
    ensures { result ≡ opmask_fits spot fields.now }
{
    match spot {
        Spot::OpmaskReg => fields.r == 0,
        Spot::OpmaskRm => is_memory(fields.modrm) || is_low(fields),
        Spot::OpmaskVvvv => fields.v < 8,
        Spot::Absent
        | Spot::Reg
        | Spot::Rm
        | Spot::Vvvv
        | Spot::OpcodeReg
        | Spot::Rax
        | Spot::Cl
        | Spot::Memory
        | Spot::VectorMemory
        | Spot::Offset
        | Spot::Immediate
        | Spot::Relative
        | Spot::One
        | Spot::VectorReg
        | Spot::VectorRm
        | Spot::VectorVvvv
        | Spot::VectorImmediate
        | Spot::Xmm0 => true,
    }
}

/// Whether each opmask register among the operands has a number below 8.
#[tactic(auto, unfolding(crate::specs::Spelling::opmasks_fit))]
pub fn do_opmasks_fit(row: &Row, fields: &Fields) -> bool
    ensures { result ≡ opmasks_fit row.now fields.now }
{
    let layout = layout(row.operands);
    does_opmask_fit(layout.first.spot, fields)
        && does_opmask_fit(layout.second.spot, fields)
        && does_opmask_fit(layout.third.spot, fields)
        && does_opmask_fit(layout.fourth.spot, fields)
}
