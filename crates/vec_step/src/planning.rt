//! A vector instruction, by its row and fields.
ghost use Rattle.std.specs.Prelude.{◌≡◌, ◌*◌, ◌^◌, ◌%◌, ◌==◌, ◌<◌, ◌≤◌, IsTrue};
ghost use Rattle.gpr_flags.specs.Registers.{is_size};
ghost use Rattle.vec_units.specs.Form.{IsVectorRow, FormFits, memory_width as memory_width_of};
ghost use Rattle.vec_step.specs.Plan.{memory_bytes as memory_bytes_of, element_count as element_count_of, element_mask as element_mask_of, element_span as element_span_of, packed_span as packed_span_of, source_span as source_span_of, target_span as target_span_of, is_by_signs as is_by_signs_kind, sign_register as sign_register_of, opmask_or_all as opmask_or_all_of, mask_in as mask_in_state, element_of, source_at as source_at_address, memory_source as memory_source_of, source_or as source_or_by, source_in, first_in, memory_span as memory_span_of, target_or as target_or_by, target_in, target_at, gives_flags as gives_flags_by, vector_plan};
ghost use Rattle.vec_step.specs.Fits.{PlanFits, SpanFits, LanesFit, SourceFits, MemoryFits, TargetFits};

use crate::kinds::{Places, Source, Span, Target, VectorPlan};
use crate::places::{general, has_two_sources, opmask, spots, vector};
use gpr_flags::low;
use row_table::{
    Fields, Layout, MaskKind, Op, Row, Spot, VectorOp, element_bytes, layout, tuple_bytes,
};
use vec_file::VecFile;
use vec_units::{Form, chooses, fed, form_for, is_expanded, memory_width, packed, signs, taken};

/// The bytes of a row's operand in memory.
fn memory_bytes(row: &Row, f: &Form) -> u8
    requires { FormFits f.now }
    ensures value { result ≡ memory_bytes_of row.now f.now }
    ensures most { result ≤ 64 }
{
    tuple_bytes(row.tuple, f.width, f.len)
}

/// The elements of a source.
fn element_count(row: &Row, f: &Form) -> u8
    requires row { IsVectorRow row.now }
    requires form { FormFits f.now }
    ensures value { result ≡ element_count_of row.now f.now }
    ensures most { result * memory_width_of row.now ≤ 64 }
{
    memory_bytes(row, f) / memory_width(row)
}

/// Those elements of a source that are read, where there are so many.
fn element_mask(row: &Row, f: &Form, count: u8, mask: u64) -> u64
    requires form { FormFits f.now }
    requires count { count ≡ element_count_of row.now f.now }
    requires most { count ≤ 64 }
    ensures { result ≡ element_mask_of row.now f.now mask }
{
    if chooses(row.mask) {
        u64::MAX
    } else {
        fed(count, f.lanes, mask)
    }
}

/// The elements in memory of a source.
fn element_span(row: &Row, f: &Form, mask: u64, addr: u64) -> Span
    requires row { IsVectorRow row.now }
    requires form { FormFits f.now }
    ensures is { result ≡ element_span_of row.now f.now mask addr }
    ensures fits { SpanFits result }
{
    let lanes = element_count(row, f);
    Span {
        addr,
        width: memory_width(row),
        lanes,
        mask: element_mask(row, f, lanes, mask),
    }
}

/// Lanes in memory that stand one after the other, as many as are masked in.
fn packed_span(f: &Form, mask: u64, addr: u64) -> Span
    requires { FormFits f.now }
    ensures is { result ≡ packed_span_of f.now mask addr }
    ensures fits { SpanFits result }
{
    Span {
        addr,
        width: f.width,
        lanes: f.lanes,
        mask: packed(f.lanes, mask),
    }
}

/// The lanes in memory of a source.
fn source_span(row: &Row, f: &Form, mask: u64, addr: u64) -> Span
    requires row { IsVectorRow row.now }
    requires form { FormFits f.now }
    ensures is { result ≡ source_span_of row.now f.now mask addr }
    ensures fits { SpanFits result }
{
    if is_expanded(row.mask) {
        packed_span(f, mask, addr)
    } else {
        element_span(row, f, mask, addr)
    }
}

/// The lanes in memory of the destination.
fn target_span(f: &Form, mask: u64, addr: u64) -> Span
    requires { FormFits f.now }
    ensures is { result ≡ target_span_of f.now mask addr }
    ensures fits { SpanFits result }
{
    Span {
        addr,
        width: f.width,
        lanes: f.lanes,
        mask: taken(f, mask),
    }
}

/// Whether a row's mask is the signs of a register.
fn is_by_signs(kind: MaskKind) -> bool
    ensures { result ≡ is_by_signs_kind kind }
{
    match kind {
        MaskKind::Signs | MaskKind::SignsZero | MaskKind::Select => true,
        MaskKind::NoMask
        | MaskKind::MergeZero
        | MaskKind::ToMask
        | MaskKind::Blend
        | MaskKind::Compress
        | MaskKind::Expand
        | MaskKind::Required => false,
    }
}

/// The opmask that an instruction names, or all lanes.
fn opmask_or_all(fields: &Fields, vec: &VecFile) -> u64
    ensures { result ≡ opmask_or_all_of fields.now vec.now.k }
{
    if fields.aaa == 0 {
        u64::MAX
    } else {
        vec.k(fields.aaa % 8)
    }
}

/// The register whose signs are the mask.
fn sign_register(layout: &Layout, f: &Form, p: &Places) -> u8
    ensures value { result ≡ sign_register_of layout.now f.now p.now }
    ensures fits { result < 32 }
{
    if matches!(layout.third.spot, Spot::Xmm0) {
        0
    } else if matches!(layout.fourth.spot, Spot::VectorImmediate) {
        f.imm / 16
    } else {
        vector(Spot::VectorVvvv, p)
    }
}

/// The mask.
fn mask_in(layout: &Layout, row: &Row, fields: &Fields, f: &Form, p: &Places, vec: &VecFile) -> u64
    requires { FormFits f.now }
    ensures { result ≡ mask_in_state layout.now row.now fields.now f.now p.now vec.now }
{
    if is_by_signs(row.mask) {
        signs(f, vec.zmm(sign_register(layout, f, p)))
    } else {
        opmask_or_all(fields, vec)
    }
}

/// Whether no lane is masked in.
fn is_empty(f: &Form, mask: u64) -> bool
    requires { FormFits f.now }
    ensures { result ≡ (mask % 2 ^ f.now.lanes == 0) }
{
    low(u32::from(f.lanes), u128::from(mask)) == 0
}

/// One element of memory for all lanes.
fn element(row: &Row, fields: &Fields, f: &Form, mask: u64, addr: u64) -> Span
    requires { FormFits f.now }
    ensures is { result ≡ element_of row.now fields.now f.now mask addr }
    ensures fits { SpanFits result }
{
    Span {
        addr,
        width: element_bytes(fields.w),
        lanes: 1,
        mask: u64::from(row.whole || !is_empty(f, mask)),
    }
}

/// A source at an address.
fn source_at(row: &Row, fields: &Fields, f: &Form, mask: u64, addr: u64) -> Source
    requires row { IsVectorRow row.now }
    requires form { FormFits f.now }
    ensures is { result ≡ source_at_address row.now fields.now f.now mask addr }
    ensures fits { SourceFits result }
{
    if fields.bc {
        Source::Broadcast(element(row, fields, f, mask, addr))
    } else if row.whole {
        Source::Whole(addr, memory_bytes(row, f))
    } else {
        Source::Memory(source_span(row, f, mask, addr))
    }
}

/// The source in memory, if ModRM names memory.
fn memory_source(
    row: &Row,
    fields: &Fields,
    f: &Form,
    mask: u64,
    memory: Option<u64>,
) -> Option<Source>
    requires row { IsVectorRow row.now }
    requires form { FormFits f.now }
    ensures is { result ≡ memory_source_of row.now fields.now f.now mask memory }
    ensures fits { MemoryFits result }
{
    match memory {
        None => None,
        Some(addr) => Some(source_at(row, fields, f, mask, addr)),
    }
}

/// The source in memory, or another where ModRM doesn't name memory.
fn source_or(register: Source, memory: Option<Source>) -> Source
    requires register { SourceFits register }
    requires memory { MemoryFits memory }
    ensures is { result ≡ source_or_by register memory }
    ensures fits { SourceFits result }
{
    match memory {
        None => register,
        Some(source) => source,
    }
}

/// The source in a place.
#[tactic(auto, unfolding(crate::specs::Plan::source_in))]
fn source(spot: Spot, f: &Form, memory: Option<Source>, p: &Places) -> Source
    requires { MemoryFits memory }
    ensures is { result ≡ source_in spot f.now memory p.now }
    ensures fits { SourceFits result }
{
    match spot {
        Spot::VectorReg | Spot::VectorVvvv => Source::Register(vector(spot, p)),
        Spot::VectorRm => source_or(Source::Register(vector(spot, p)), memory),
        Spot::Rm => source_or(Source::General(general(spot, p)), memory),
        Spot::Memory => source_or(Source::Nothing, memory),
        Spot::Reg => Source::General(general(spot, p)),
        Spot::OpmaskRm => Source::Opmask(opmask(spot, p)),
        Spot::Immediate => Source::Count(f.imm),
        Spot::Absent
        | Spot::Vvvv
        | Spot::OpcodeReg
        | Spot::Rax
        | Spot::Cl
        | Spot::VectorMemory
        | Spot::Offset
        | Spot::Relative
        | Spot::One
        | Spot::VectorImmediate
        | Spot::Xmm0
        | Spot::OpmaskReg
        | Spot::OpmaskVvvv => Source::Nothing,
    }
}

/// The first source.
fn first(two: bool, spot: Spot, f: &Form, memory: Option<Source>, p: &Places) -> Source
    requires { MemoryFits memory }
    ensures is { result ≡ first_in two spot f.now memory p.now }
    ensures fits { SourceFits result }
{
    if two {
        source(spot, f, memory, p)
    } else {
        Source::Register(vector(spot, p))
    }
}

/// The lanes in memory, if ModRM names memory.
fn memory_span(f: &Form, mask: u64, memory: Option<u64>) -> Option<Span>
    requires { FormFits f.now }
    ensures is { result ≡ memory_span_of f.now mask memory }
    ensures fits { LanesFit result }
{
    match memory {
        None => None,
        Some(addr) => Some(target_span(f, mask, addr)),
    }
}

/// The destination in memory, or another where ModRM doesn't name memory.
fn target_or(register: Target, memory: Option<Span>) -> Target
    requires register { TargetFits register }
    requires memory { LanesFit memory }
    ensures is { result ≡ target_or_by register memory }
    ensures fits { TargetFits result }
{
    match memory {
        None => register,
        Some(m) => Target::Memory(m),
    }
}

/// Where the row's destination is.
#[tactic(auto, unfolding(crate::specs::Plan::target_in))]
fn destination(spot: Spot, memory: Option<Span>, p: &Places) -> Target
    requires { LanesFit memory }
    ensures is { result ≡ target_in spot memory p.now }
    ensures fits { TargetFits result }
{
    match spot {
        Spot::VectorReg | Spot::VectorVvvv => Target::Register(vector(spot, p)),
        Spot::VectorRm => target_or(Target::Register(vector(spot, p)), memory),
        Spot::Rm => target_or(Target::General(general(spot, p)), memory),
        Spot::Memory => target_or(Target::Nowhere, memory),
        Spot::Reg => Target::General(general(spot, p)),
        Spot::OpmaskReg => Target::Mask(opmask(spot, p)),
        Spot::Absent
        | Spot::Vvvv
        | Spot::OpcodeReg
        | Spot::Rax
        | Spot::Cl
        | Spot::VectorMemory
        | Spot::Offset
        | Spot::Immediate
        | Spot::Relative
        | Spot::One
        | Spot::VectorImmediate
        | Spot::Xmm0
        | Spot::OpmaskRm
        | Spot::OpmaskVvvv => Target::Nowhere,
    }
}

/// Whether an operation gives flags.
#[tactic(auto, unfolding(crate::specs::Plan::gives_flags))]
fn gives_flags(op: Op) -> bool
    ensures { result ≡ gives_flags_by op }
{
    match op {
        Op::Vector(VectorOp::Ptest) => true,
        Op::Vector(VectorOp::Pmovmskb | VectorOp::Movmskp)
        | Op::Lane(_)
        | Op::Core(_)
        | Op::Gpr(_)
        | Op::Bit(_)
        | Op::String(_)
        | Op::Cross(_)
        | Op::Width(_)
        | Op::Mac(_)
        | Op::Mask(_)
        | Op::Gather(_)
        | Op::Xsave(_) => false,
    }
}

/// Where the result goes.
fn target(op: Op, spot: Spot, memory: Option<Span>, p: &Places) -> Target
    requires { LanesFit memory }
    ensures is { result ≡ target_at op spot memory p.now }
    ensures fits { TargetFits result }
{
    if gives_flags(op) {
        Target::Flags
    } else {
        destination(spot, memory, p)
    }
}

/// The instruction of a row and its fields, whose operands are at these places.
#[tactic(auto, unfolding(crate::specs::Plan::vector_plan))]
pub fn plan(row: &Row, fields: &Fields, p: &Places, next: u64, vec: &VecFile) -> VectorPlan
    requires { IsVectorRow row.now }
    ensures is { result ≡ vector_plan row.now fields.now p.now next vec.now }
    ensures fits { PlanFits result }
{
    let form = form_for(row, fields);
    let layout = layout(row.operands);
    let mask = mask_in(&layout, row, fields, &form, p, vec);
    let two = has_two_sources(&layout);
    let spots = spots(&layout);
    let memory = memory_source(row, fields, &form, mask, p.memory);
    let lanes = memory_span(&form, mask, p.memory);
    VectorPlan {
        form,
        mask,
        old: vector(spots.destination, p),
        first: first(two, spots.first, &form, memory, p),
        second: source(spots.second, &form, memory, p),
        target: target(row.op, spots.destination, lanes, p),
        next,
    }
}
