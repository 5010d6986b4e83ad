//! One iteration.
ghost use Rattle.std.specs.Prelude.{◌≡◌, None, OnOk, OnErr, IsTrue};
ghost use Rattle.machine_state.specs.Memory.{Swap};
ghost use Rattle.guest_pages.specs.Table.{answer_of};
ghost use Rattle.guest_pages.specs.Pages.{table_of, byte_of};
ghost use Rattle.guest_pages.specs.Walk.{walk};
ghost use Rattle.guest_pages.specs.Changes.{KeepsTable};
ghost use Rattle.gpr_flags.specs.Registers.{is_size};
ghost use Rattle.string_unit.specs.Strings.{is_string, string_op, source_place as source_place_of, destination_place as destination_place_of, string_accesses, miss_along, compared, string_gprs, string_flags, string_byte};

use crate::access_list::accesses;
use crate::memory::copy;
use crate::registers::{destination_place, pass, pass_both, source_place};
use gpr_flags::{Flags, Gprs, RAX, RDI, RSI};
use gpr_units::alu;
use guest_pages::{Kind, Miss, Pages};
use row_table::{GprOp, Op, StringOp};

/// Which operation on strings it is.
fn string_operation(op: Op) -> StringOp
    requires { IsTrue (is_string op) }
    ensures { result ≡ string_op op }
{
    match op {
        Op::String(op) => op,
        _ => unreachable!(),
    }
}

/// Sets the flags as CMP does.
#[tactic(auto, unfolding(gpr_units::specs::Alu::alu_scalar, gpr_units::specs::Alu::scalar_of))]
fn compare(size: u8, a: u64, b: u64, f: &mut Flags)
    requires { IsTrue (is_size size) }
    ensures { f.new ≡ compared size a b f.old }
{
    let _ = alu(Op::Gpr(GprOp::Cmp), size, a, b, f);
}

/// Moves, loads, stores or compares the operands at two places.
#[tactic(auto, unfolding(crate::specs::Strings::string_gprs, crate::specs::Strings::string_flags, crate::specs::Strings::string_byte, crate::specs::Strings::string_accesses, guest_pages::specs::Walk::walk))]
fn transfer(
    op: StringOp,
    size: u8,
    wrap32: bool,
    source: u64,
    destination: u64,
    g: &mut Gprs,
    f: &mut Flags,
    pages: &mut Pages,
)
    requires size { IsTrue (is_size size) }
    requires ready { walk (table_of pages.old) (string_accesses op size source destination) ≡ None }
    ensures gprs { (w : Swap) → g.new ≡ string_gprs op size wrap32 f.old.df source (byte_of pages.old w) g.old }
    ensures flags { (w : Swap) → f.new ≡ string_flags op size source destination (byte_of pages.old w) g.old f.old }
    ensures byte { (w : Swap) → byte_of pages.new w
        ≡ string_byte op size source destination g.old (byte_of pages.old w) }
    ensures table { KeepsTable pages.old pages.new }
{
    let down = f.df;
    match op {
        StringOp::Movs => {
            copy(pages, source, destination, size);
            pass_both(size, wrap32, down, g);
        }
        StringOp::Cmps => {
            let a = pages.load(source, size, Kind::Read);
            let b = pages.load(destination, size, Kind::Read);
            compare(size, a, b, f);
            pass_both(size, wrap32, down, g);
        }
        StringOp::Stos => {
            pages.store(destination, size, g.get(RAX));
            pass(RDI, size, wrap32, down, g);
        }
        StringOp::Lods => {
            let number = pages.load(source, size, Kind::Read);
            g.write(RAX, size, number);
            pass(RSI, size, wrap32, down, g);
        }
        StringOp::Scas => {
            let b = pages.load(destination, size, Kind::Read);
            compare(size, g.get(RAX), b, f);
            pass(RDI, size, wrap32, down, g);
        }
    }
}

/// One iteration of MOVS, CMPS, STOS, LODS or SCAS with operands of `size` bytes, whose accesses can be made now. With
/// `wrap32`, that is prefix 67, esi and edi say where the operands are; `base` is the base of the segment of the one at
/// rsi. The count in rcx is the caller's.
pub fn iterate_ready(
    op: StringOp,
    size: u8,
    wrap32: bool,
    base: u64,
    g: &mut Gprs,
    f: &mut Flags,
    pages: &mut Pages,
)
    requires size { IsTrue (is_size size) }
    requires ready { walk (table_of pages.old) (string_accesses op size
        (source_place_of wrap32 base g.old) (destination_place_of wrap32 g.old)) ≡ None }
    ensures gprs { (w : Swap) → g.new ≡ string_gprs op size wrap32 f.old.df
        (source_place_of wrap32 base g.old) (byte_of pages.old w) g.old }
    ensures flags { (w : Swap) → f.new ≡ string_flags op size
        (source_place_of wrap32 base g.old) (destination_place_of wrap32 g.old) (byte_of pages.old w) g.old f.old }
    ensures byte { (w : Swap) → byte_of pages.new w ≡ string_byte op size
        (source_place_of wrap32 base g.old) (destination_place_of wrap32 g.old) g.old (byte_of pages.old w) }
    ensures table { KeepsTable pages.old pages.new }
{
    let source = source_place(wrap32, base, g);
    let destination = destination_place(wrap32, g);
    transfer(op, size, wrap32, source, destination, g, f, pages);
}

/// An iteration as `iterate_ready` makes it, of an operation on strings. Where an access can't be made now, nothing changes.
pub fn iterate(
    op: Op,
    size: u8,
    wrap32: bool,
    base: u64,
    g: &mut Gprs,
    f: &mut Flags,
    pages: &mut Pages,
) -> Result<(), Miss>
    requires op { IsTrue (is_string op) }
    requires size { IsTrue (is_size size) }
    ensures answer { result ≡ answer_of (miss_along (table_of pages.old) (string_accesses (string_op op) size
        (source_place_of wrap32 base g.old) (destination_place_of wrap32 g.old))) }
    ensures gprs { OnOk result ((w : Swap) → g.new ≡ string_gprs (string_op op) size wrap32 f.old.df
        (source_place_of wrap32 base g.old) (byte_of pages.old w) g.old) }
    ensures flags { OnOk result ((w : Swap) → f.new ≡ string_flags (string_op op) size
        (source_place_of wrap32 base g.old) (destination_place_of wrap32 g.old) (byte_of pages.old w) g.old f.old) }
    ensures byte { OnOk result ((w : Swap) → byte_of pages.new w ≡ string_byte (string_op op) size
        (source_place_of wrap32 base g.old) (destination_place_of wrap32 g.old) g.old (byte_of pages.old w)) }
    ensures table { KeepsTable pages.old pages.new }
    ensures same_gprs { OnErr result (g.new ≡ g.old) }
    ensures same_flags { OnErr result (f.new ≡ f.old) }
    ensures same_pages { OnErr result (pages.new ≡ pages.old) }
{
    let op = string_operation(op);
    let list = accesses(
        op,
        size,
        source_place(wrap32, base, g),
        destination_place(wrap32, g),
    );
    pages.walk(&list).map_err(|stop| stop.miss)?;
    iterate_ready(op, size, wrap32, base, g, f, pages);
    Ok(())
}
