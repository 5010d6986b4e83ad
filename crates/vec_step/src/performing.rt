//! What a vector instruction accesses and leaves.
ghost use Rattle.std.specs.Prelude.{◌≡◌, ◌≤◌, None, Some, MatchResult, IsTrue, length};
ghost use Rattle.machine_state.specs.Memory.{Swap, bytes_at, number_bytes};
ghost use Rattle.gpr_flags.specs.Registers.{is_size};
ghost use Rattle.num_lanes.specs.Lane.{lane_of};
ghost use Rattle.guest_pages.specs.Pages.{table_of, byte_of};
ghost use Rattle.guest_pages.specs.Walk.{walk as walk_of};
ghost use Rattle.guest_pages.specs.Changes.{KeepsTable};
ghost use Rattle.vec_step.specs.Plan.{vector_access, read_accesses, span_accesses, source_accesses, target_accesses};
ghost use Rattle.vec_step.specs.Fits.{PlanFits, SpanFits, SourceFits, TargetFits};
ghost use Rattle.vec_step.specs.Left.{padded, span_value, spread, operand_of, value_of, mask_of, gives_mask as gives_mask_by, number_of as number_of_result, extended_left, gprs_left, byte_left, flags_left, tested_flags};

use crate::kinds::{Source, Span, Target, VectorPlan};
use crate::spreading::spread_lowest;
use gpr_flags::{Flags, Gprs, has_bit};
use guest_pages::Pages;
use machine_state::{Access, Kind, Stop};
use masked_memory::{check_lanes, load_zeroed, store_ready};
use num_lanes::{Vec64, get_lane};
use row_table::Op;
use vec_file::VecFile;
use vec_units::{bits, vector};

// ---- the walk along the access list

fn walk_span(m: &Span, pages: &Pages, kind: Kind) -> Result<(), Stop>
    requires { SpanFits m.now }
    ensures { MatchResult result (λ _. walk_of (table_of pages.now) (span_accesses kind m.now) ≡ None)
        (λ stop. walk_of (table_of pages.now) (span_accesses kind m.now) ≡ Some stop) }
{
    check_lanes(pages, m.addr, m.width, m.lanes, m.mask, kind)
}

#[tactic(auto, unfolding(guest_pages::specs::Walk::walk))]
fn walk_source(source: &Source, pages: &Pages) -> Result<(), Stop>
    requires { SourceFits source.now }
    ensures { MatchResult result (λ _. walk_of (table_of pages.now) (source_accesses source.now) ≡ None)
        (λ stop. walk_of (table_of pages.now) (source_accesses source.now) ≡ Some stop) }
{
    match source {
        Source::Memory(m) | Source::Broadcast(m) => walk_span(m, pages, Kind::Read),
        Source::Whole(addr, len) => pages.walk(&[Access {
            kind: Kind::Read,
            addr: *addr,
            len: u64::from(*len),
        }]),
        Source::Register(_)
        | Source::General(_)
        | Source::Opmask(_)
        | Source::Count(_)
        | Source::Nothing => Ok(()),
    }
}

fn walk_sources(i: &VectorPlan, pages: &Pages) -> Result<(), Stop>
    requires { PlanFits i.now }
    ensures { MatchResult result (λ _. walk_of (table_of pages.now) (read_accesses i.now) ≡ None)
        (λ stop. walk_of (table_of pages.now) (read_accesses i.now) ≡ Some stop) }
{
    match walk_source(&i.first, pages) {
        Ok(()) => walk_source(&i.second, pages),
        Err(stop) => Err(stop),
    }
}

#[tactic(auto, unfolding(guest_pages::specs::Walk::walk))]
fn walk_target(target: &Target, pages: &Pages) -> Result<(), Stop>
    requires { TargetFits target.now }
    ensures { MatchResult result (λ _. walk_of (table_of pages.now) (target_accesses target.now) ≡ None)
        (λ stop. walk_of (table_of pages.now) (target_accesses target.now) ≡ Some stop) }
{
    match target {
        Target::Memory(m) => walk_span(m, pages, Kind::Write),
        Target::Register(_)
        | Target::Mask(_)
        | Target::General(_)
        | Target::Flags
        | Target::Nowhere => Ok(()),
    }
}

/// Walks along the access list of a vector instruction.
#[tactic(auto, unfolding(guest_pages::specs::Walk::walk, crate::specs::Plan::vector_access))]
pub fn walk(i: &VectorPlan, pages: &Pages) -> Result<(), Stop>
    requires { PlanFits i.now }
    ensures { MatchResult result (λ _. walk_of (table_of pages.now) (vector_access i.now) ≡ None)
        (λ stop. walk_of (table_of pages.now) (vector_access i.now) ≡ Some stop) }
{
    match walk_sources(i, pages) {
        Ok(()) => walk_target(&i.target, pages),
        Err(stop) => Err(stop),
    }
}

// ---- the sources

/// The lanes of a span that are accessed, with 0 in all others.
fn load_span(m: &Span, pages: &Pages) -> Vec64
    requires fits { SpanFits m.now }
    requires ready { walk_of (table_of pages.now) (span_accesses Kind.Read m.now) ≡ None }
    ensures { (w : Swap) → result ≡ span_value m.now (byte_of pages.now w) }
{
    load_zeroed(pages, m.addr, m.width, m.lanes, m.mask, Kind::Read)
}

/// Bytes of memory that can be read.
#[tactic(auto, unfolding(guest_pages::specs::Walk::walk))]
fn read_ready(pages: &Pages, addr: u64, into: &mut [u8])
    requires { walk_of (table_of pages.now) (source_accesses (Source.Whole addr (length into.old))) ≡ None }
    ensures { (w : Swap) → into.new ≡ bytes_at (byte_of pages.now w) addr (length into.old) }
{
    match pages.read(addr, into, Kind::Read) {
        // The walk met no byte that can't be read.
        Ok(()) | Err(_) => {}
    }
}

/// So many bytes of memory, and zeros.
fn load_whole(pages: &Pages, addr: u64, len: u8) -> Vec64
    requires most { len ≤ 64 }
    requires ready { walk_of (table_of pages.now) (source_accesses (Source.Whole addr len)) ≡ None }
    ensures { (w : Swap) → result ≡ padded (bytes_at (byte_of pages.now w) addr len) len }
{
    let count = usize::from(len);
    let mut out = [0; 64];
    read_ready(pages, addr, &mut out[..count]);
    out
}

/// The bytes of a number, and zeros.
fn number(value: u64) -> Vec64
    ensures { result ≡ padded (number_bytes 8 value) 8 }
{
    let mut out = [0; 64];
    out[..8].copy_from_slice(&value.to_le_bytes());
    out
}

/// One lane of memory in all lanes.
fn load_spread(m: &Span, pages: &Pages) -> Vec64
    requires fits { SpanFits m.now }
    requires ready { walk_of (table_of pages.now) (span_accesses Kind.Read m.now) ≡ None }
    ensures { (w : Swap) → result ≡ spread m.now.width (span_value m.now (byte_of pages.now w)) }
{
    spread_lowest(m.width, &load_span(m, pages))
}

/// A source, as a register.
#[tactic(auto, unfolding(crate::specs::Left::operand_of))]
fn operand(source: &Source, gprs: &Gprs, vec: &VecFile, pages: &Pages) -> Vec64
    requires fits { SourceFits source.now }
    requires ready { walk_of (table_of pages.now) (source_accesses source.now) ≡ None }
    ensures { (w : Swap) → result ≡ operand_of source.now gprs.now vec.now (byte_of pages.now w) }
{
    match source {
        Source::Register(n) => *vec.zmm(*n),
        Source::General(n) => number(gprs.get(*n)),
        Source::Opmask(n) => number(vec.k(*n)),
        Source::Count(n) => number(u64::from(*n)),
        Source::Memory(m) => load_span(m, pages),
        Source::Broadcast(m) => load_spread(m, pages),
        Source::Whole(addr, len) => load_whole(pages, *addr, *len),
        Source::Nothing => [0; 64],
    }
}

// ---- what comes of it, and where it goes

/// The register that comes of a vector instruction whose accesses can be made.
#[tactic(auto, unfolding(crate::specs::Left::value_of))]
fn value(i: &VectorPlan, gprs: &Gprs, vec: &VecFile, pages: &Pages) -> Vec64
    requires fits { PlanFits i.now }
    requires ready { walk_of (table_of pages.now) (read_accesses i.now) ≡ None }
    ensures { (w : Swap) → result ≡ value_of i.now gprs.now vec.now (byte_of pages.now w) }
{
    let first = operand(&i.first, gprs, vec, pages);
    let second = operand(&i.second, gprs, vec, pages);
    vector(&i.form, vec.zmm(i.old), &first, &second, i.mask)
}

/// The mask of bits that comes of it.
#[tactic(auto, unfolding(crate::specs::Left::mask_of))]
fn mask(i: &VectorPlan, gprs: &Gprs, vec: &VecFile, pages: &Pages) -> u64
    requires fits { PlanFits i.now }
    requires ready { walk_of (table_of pages.now) (read_accesses i.now) ≡ None }
    ensures { (w : Swap) → result ≡ mask_of i.now gprs.now vec.now (byte_of pages.now w) }
{
    let first = operand(&i.first, gprs, vec, pages);
    let second = operand(&i.second, gprs, vec, pages);
    bits(&i.form, vec.zmm(i.old), &first, &second, i.mask)
}

/// Whether the result of an operation is a mask of bits.
#[tactic(auto, unfolding(crate::specs::Left::gives_mask))]
fn gives_mask(op: Op) -> bool
    ensures { result ≡ gives_mask_by op }
{
    match op {
        Op::Vector(_) => true,
        Op::Lane(_)
        | Op::Core(_)
        | Op::Gpr(_)
        | Op::Bit(_)
        | Op::String(_)
        | Op::Cross(_)
        | Op::Width(_)
        | Op::Mac(_)
        | Op::Mask(_)
        | Op::Gather(_)
        | Op::Xsave(_) => false,
    }
}

/// The lowest lane.
fn lowest(width: u8, value: &Vec64) -> u64
    requires { IsTrue (is_size width) }
    ensures { result ≡ lane_of width value.now 0 }
{
    match width {
        1 => get_lane::<1>(value, 0),
        2 => get_lane::<2>(value, 0),
        4 => get_lane::<4>(value, 0),
        _ => get_lane::<8>(value, 0),
    }
}

/// The number for a general register.
fn number_for(i: &VectorPlan, gprs: &Gprs, vec: &VecFile, pages: &Pages) -> u64
    requires fits { PlanFits i.now }
    requires ready { walk_of (table_of pages.now) (read_accesses i.now) ≡ None }
    ensures { (w : Swap) → result ≡ number_of_result i.now (value_of i.now gprs.now vec.now (byte_of pages.now w))
        (mask_of i.now gprs.now vec.now (byte_of pages.now w)) }
{
    if gives_mask(i.form.op) {
        mask(i, gprs, vec, pages)
    } else {
        lowest(i.form.width, &value(i, gprs, vec, pages))
    }
}

/// ZF is the lowest bit and CF the next; the other four that arithmetic sets are cleared.
fn tested(mask: u64, flags: &Flags) -> Flags
    ensures { result ≡ tested_flags mask flags.now }
{
    Flags {
        zf: has_bit(mask, 0),
        cf: has_bit(mask, 1),
        pf: false,
        af: false,
        sf: false,
        ovf: false,
        ..*flags
    }
}

/// Performs a vector instruction whose accesses can be made. Of the register and the mask that may come of it, the one that goes
/// somewhere is computed.
#[tactic(auto, unfolding(crate::specs::Left::extended_left, crate::specs::Left::gprs_left, crate::specs::Left::flags_left, crate::specs::Left::byte_left))]
pub fn perform(
    i: &VectorPlan,
    gprs: &mut Gprs,
    flags: &mut Flags,
    vec: &mut VecFile,
    pages: &mut Pages,
)
    requires fits { PlanFits i.now }
    requires ready { walk_of (table_of pages.old) (vector_access i.now) ≡ None }
    ensures gprs { (w : Swap) → gprs.new ≡ gprs_left i.now gprs.old vec.old (byte_of pages.old w) }
    ensures flags { (w : Swap) → flags.new ≡ flags_left i.now gprs.old vec.old (byte_of pages.old w) flags.old }
    ensures extended { (w : Swap) → vec.new ≡ extended_left i.now gprs.old vec.old (byte_of pages.old w) }
    ensures byte { (w : Swap) → byte_of pages.new w ≡ byte_left i.now gprs.old vec.old (byte_of pages.old w) }
    ensures table { KeepsTable pages.old pages.new }
{
    match &i.target {
        Target::Register(n) => {
            let value = value(i, gprs, vec, pages);
            vec.set_zmm(*n, &value);
        }
        Target::Memory(m) => {
            let value = value(i, gprs, vec, pages);
            store_ready(pages, m.addr, m.width, m.lanes, m.mask, &value);
        }
        Target::Mask(n) => {
            let mask = mask(i, gprs, vec, pages);
            vec.set_k(*n, mask);
        }
        Target::General(n) => {
            let number = number_for(i, gprs, vec, pages);
            gprs.set(*n, number);
        }
        Target::Flags => *flags = tested(mask(i, gprs, vec, pages), flags),
        Target::Nowhere => {}
    }
}
