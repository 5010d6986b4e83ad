//! From a row and its fields to what they say whatever the state.
ghost use Rattle.std.specs.Prelude.{◌≡◌, ◌<◌, ◌≤◌, ℕ};
ghost use Rattle.form_scan.specs.Shaped.{most_bytes};
ghost use Rattle.machine_state.specs.State.{State};
ghost use Rattle.x_decode.specs.Seeing.{IsDecoded};
ghost use Rattle.core_step.specs.Operands.{instruction_by, instruction_of};
ghost use Rattle.core_step.specs.Fits.{RegistersFit};
ghost use Rattle.core_step.specs.Strings.{strings_of};
ghost use Rattle.core_step.specs.Pair.{pair_of};
ghost use Rattle.core_step.specs.Vectors.{memory_in, vectors_of};
ghost use Rattle.core_step.specs.Plan.{way_of, plan_by, next_of};
ghost use Rattle.core_step.specs.Alignment.{is_misaligned};
ghost use Rattle.core_step.specs.Performed.{IsPerformed};
ghost use Rattle.core_step.specs.Fetch.{IsFetchFit};
ghost use Rattle.core_step.specs.Forms.{plain_by, strings_by, pair_by, memory_by, vectors_by, plan_by_form, is_misaligned_by, PlainFormFits, AddressFits, MemoryFits, PlanFormFits, AlignmentFits, IsPrepared};
ghost use Rattle.core_step.specs.Kept.{IsKeptOf};
ghost use Rattle.vec_units.specs.Form.{IsVectorRow};

use crate::addressing::{address_form, is_memory, vector_reg, vector_rm};
use crate::fetching::Fetched;
use crate::forms::{AddressForm, Alignment, PairForm, PlainForm, PlanForm, StringForm, VectorForm};
use crate::kinds::Roles;
use crate::operands::{destination_size, operation, part_size, row_size};
use crate::pair::PairPlan;
use crate::prepared::{Kept, Prepared};
use crate::resolving::operand_for;
use crate::roles::roles;
use crate::sizes::Size;
use crate::strings::Repeat;
use crate::ways::Way;
use row_table::{Align, Decoded, Layout, Op, Row, StringOp, layout, row};

/// The instruction of an operation with these roles, whose row has the size `own` and whose destination has the other.
#[tactic(auto, unfolding(crate::specs::Operands::instruction_by, crate::specs::Forms::plain_by))]
fn plain_form_by(
    op: Op,
    roles: &Roles,
    layout: &Layout,
    own: Size,
    size: Size,
    d: &Decoded,
) -> PlainForm
    requires { RegistersFit d.now.fields }
    ensures is { (next : ℕ) (s : State)
        → plain_by result next s ≡ instruction_by op roles.now layout.now own size d.now next s }
    ensures fits { PlainFormFits result }
{
    let source_size = part_size(roles.source_breadth, layout.second.size, own, size);
    let beside_size = part_size(roles.beside_breadth, layout.third.size, own, size);
    PlainForm {
        destination: operand_for(roles.destination, size, layout, d),
        source: operand_for(roles.source, source_size, layout, d),
        beside: operand_for(roles.beside, beside_size, layout, d),
        also: operand_for(roles.also, size, layout, d),
        freed: d.fields.imm,
        op,
        size,
        source_size,
        beside_size,
        usage: roles.usage,
        stack: roles.stack,
        condition: d.fields.opcode % 16,
    }
}

/// The instruction of a row and its fields.
#[tactic(auto, unfolding(crate::specs::Operands::instruction_of))]
fn plain_form(row: &Row, d: &Decoded) -> PlainForm
    requires { RegistersFit d.now.fields }
    ensures is { (next : ℕ) (s : State) → plain_by result next s ≡ instruction_of row.now d.now next s }
    ensures fits { PlainFormFits result }
{
    let layout = layout(row.operands);
    let op = operation(row, &layout, &d.fields);
    let roles = roles(op, &layout);
    let own = row_size(row, &d.fields);
    let size = destination_size(roles.breadth, row, &d.fields);
    plain_form_by(op, &roles, &layout, own, size, d)
}

/// The instruction on strings of a row and its fields.
#[tactic(auto, unfolding(crate::specs::Strings::strings_of, crate::specs::Forms::strings_by))]
fn string_form(op: StringOp, row: &Row, d: &Decoded) -> StringForm
    ensures { (next : ℕ) (s : State) → strings_by result next s ≡ strings_of op row.now d.now next s }
{
    StringForm {
        op,
        size: row_size(row, &d.fields),
        wrap32: d.fields.p67,
        segment: d.fields.segment,
        repeat: Repeat::by_prefix(&d.fields),
    }
}

/// CMPXCHG8B or CMPXCHG16B by its row and fields.
#[tactic(auto, unfolding(crate::specs::Pair::pair_of, crate::specs::Forms::pair_by))]
fn pair_form(row: &Row, d: &Decoded) -> PairForm
    requires { RegistersFit d.now.fields }
    ensures is { (next : ℕ) (s : State) → pair_by result next s ≡ pair_of row.now d.now next s }
    ensures fits { AddressFits result.address }
{
    PairForm {
        half: PairPlan::half_by(row),
        address: address_form(&d.fields, d.disp),
    }
}

/// The address that ModRM names, if it names memory.
fn memory_form(row: &Row, d: &Decoded) -> Option<AddressForm>
    requires { RegistersFit d.now.fields }
    ensures is { (next : ℕ) (s : State) → memory_by result next s ≡ memory_in row.now d.now next s }
    ensures fits { MemoryFits result }
{
    let _row = row;
    if is_memory(&d.fields) {
        Some(address_form(&d.fields, d.disp))
    } else {
        None
    }
}

/// The instruction on vectors of a row and its fields.
#[tactic(auto, unfolding(crate::specs::Vectors::vectors_of, crate::specs::Forms::vectors_by))]
fn vector_form(row: &Row, d: &Decoded) -> VectorForm
    requires registers { RegistersFit d.now.fields }
    requires row { IsVectorRow row.now }
    ensures is { (next : ℕ) (s : State) → vectors_by result d.now.fields next s ≡ vectors_of row.now d.now next s }
    ensures fits { IsVectorRow result.row }
    ensures memory { MemoryFits result.memory }
{
    VectorForm {
        row: *row,
        reg: vector_reg(&d.fields),
        vvvv: d.fields.v,
        rm: vector_rm(&d.fields),
        memory: memory_form(row, d),
    }
}

/// The instruction of a row and its fields, by the way in which it is performed.
fn plan_form(row: &Row, d: &Decoded) -> PlanForm
    requires registers { RegistersFit d.now.fields }
    requires performed { IsPerformed row.now }
    ensures is { (next : ℕ) (s : State)
        → plan_by_form result d.now.fields next s ≡ plan_by (way_of row.now.op) row.now d.now next s }
    ensures fits { PlanFormFits result }
{
    match Way::of(row.op) {
        Way::Numbers => PlanForm::Plain(plain_form(row, d)),
        Way::Strings(op) => PlanForm::OnStrings(string_form(op, row, d)),
        Way::Pair => PlanForm::OnPair(pair_form(row, d)),
        Way::Vectors => PlanForm::OnVectors(vector_form(row, d)),
        Way::Clears(clearing) => PlanForm::Clears(clearing),
        Way::Identifies => PlanForm::Identifies,
    }
}

/// Where the operand in memory may stand.
#[tactic(auto, unfolding(crate::specs::Alignment::is_misaligned, crate::specs::Forms::is_misaligned_by))]
fn alignment_form(row: &Row, d: &Decoded) -> Option<Alignment>
    requires { RegistersFit d.now.fields }
    ensures is { (len : ℕ) (s : State)
        → is_misaligned_by result (next_of len s) s ≡ is_misaligned row.now d.now len s }
    ensures fits { AlignmentFits result }
{
    match row.align {
        Align::Free => None,
        Align::Sixteen | Align::Size => {
            if is_memory(&d.fields) {
                Some(Alignment {
                    rule: row.align,
                    length: d.fields.l,
                    address: address_form(&d.fields, d.disp),
                })
            } else {
                None
            }
        }
    }
}

/// What the bytes of an instruction say of it.
pub(crate) fn prepare(d: &Decoded, len: u8) -> Prepared
    requires spells { IsDecoded d.now.fields d.now }
    requires some { 1 ≤ len }
    requires most { len ≤ most_bytes }
    ensures decoded { result.decoded ≡ d.now }
    ensures len { result.len ≡ len }
    ensures prepared { IsPrepared result }
{
    let row = row(d.row);
    Prepared {
        form: plan_form(&row, d),
        alignment: alignment_form(&row, d),
        len,
        decoded: *d,
    }
}

/// What is kept of how a fetch ends.
pub(crate) fn keep(fetched: &Fetched) -> Kept
    requires { IsFetchFit fetched.now }
    ensures { IsKeptOf fetched.now result }
{
    match fetched {
        Fetched::Instr(d, len) => Kept::Instr(prepare(d, *len)),
        Fetched::Trap(fault) => Kept::Trap(*fault),
        Fetched::Need(slot) => Kept::Need(*slot),
    }
}
