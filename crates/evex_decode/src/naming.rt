//! Which registers an instruction of EVEX may name.
ghost use Rattle.std.specs.Prelude.{◌≡◌};
ghost use Rattle.evex_decode.specs.Spelling.{general_fits, generals_fit, vvvv_fits, has_v_high, uses_v_high, v_high_fits, registers_allowed};

use row_table::{Fields, Operands, Row, Spot, do_opmasks_fit, is_memory, is_vvvv_used, layout};

/// Whether a general register that stands there has a number below 16.
fn does_general_fit(spot: Spot, fields: &Fields) -> bool
    ensures { result ≡ general_fits spot fields.now }
{
    match spot {
        Spot::Reg => fields.r < 2,
        Spot::Rm => is_memory(fields.modrm) || fields.x == 0,
        Spot::Vvvv => fields.v < 16,
        Spot::Absent
        | Spot::OpcodeReg
        | Spot::Rax
        | Spot::Cl
        | Spot::Memory
        | Spot::VectorMemory
        | Spot::Offset
        | Spot::Immediate
        | Spot::Relative
        | Spot::One
        | Spot::VectorReg
        | Spot::VectorRm
        | Spot::VectorVvvv
        | Spot::VectorImmediate
        | Spot::Xmm0
        | Spot::OpmaskReg
        | Spot::OpmaskRm
        | Spot::OpmaskVvvv => true,
    }
}

/// Whether each general register among the operands has a number below 16.
#[tactic(auto, unfolding(crate::specs::Spelling::generals_fit))]
fn do_generals_fit(row: &Row, fields: &Fields) -> bool
    ensures { result ≡ generals_fit row.now fields.now }
{
    let layout = layout(row.operands);
    does_general_fit(layout.first.spot, fields)
        && does_general_fit(layout.second.spot, fields)
        && does_general_fit(layout.third.spot, fields)
        && does_general_fit(layout.fourth.spot, fields)
}

/// Whether vvvv names a register where the row has an operand there, and else none.
fn does_vvvv_fit(row: &Row, fields: &Fields) -> bool
    ensures { result ≡ vvvv_fits row.now fields.now }
{
    is_vvvv_used(row.operands) || fields.v % 16 == 0
}

/// Whether the number that stands there has V' as its fifth bit.
fn does_have_v_high(spot: Spot) -> bool
    ensures { result ≡ has_v_high spot }
{
    match spot {
        Spot::VectorVvvv | Spot::VectorMemory => true,
        Spot::Absent
        | Spot::Reg
        | Spot::Rm
        | Spot::Vvvv
        | Spot::OpcodeReg
        | Spot::Rax
        | Spot::Cl
        | Spot::Memory
        | Spot::Offset
        | Spot::Immediate
        | Spot::Relative
        | Spot::One
        | Spot::VectorReg
        | Spot::VectorRm
        | Spot::VectorImmediate
        | Spot::Xmm0
        | Spot::OpmaskReg
        | Spot::OpmaskRm
        | Spot::OpmaskVvvv => false,
    }
}

/// Whether the number of one of the operands has V' as its fifth bit.
#[tactic(auto, unfolding(crate::specs::Spelling::uses_v_high))]
fn is_v_high_used(operands: Operands) -> bool
    ensures { result ≡ uses_v_high operands }
{
    let layout = layout(operands);
    does_have_v_high(layout.first.spot)
        || does_have_v_high(layout.second.spot)
        || does_have_v_high(layout.third.spot)
        || does_have_v_high(layout.fourth.spot)
}

/// Whether V' is 0 where no number has it.
fn does_v_high_fit(row: &Row, fields: &Fields) -> bool
    ensures { result ≡ v_high_fits row.now fields.now }
{
    is_v_high_used(row.operands) || fields.v < 16
}

/// Whether the registers exist, and vvvv and V' are 0 where they have no use.
pub(crate) fn are_registers_allowed(row: &Row, fields: &Fields) -> bool
    ensures { result ≡ registers_allowed row.now fields.now }
{
    do_generals_fit(row, fields)
        && do_opmasks_fit(row, fields)
        && does_vvvv_fit(row, fields)
        && does_v_high_fit(row, fields)
}
