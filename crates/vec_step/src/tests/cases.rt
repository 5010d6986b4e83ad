//! Vector instructions by what counts of their bytes, and whether they leave what a processor does.
ghost use Rattle.std.specs.Prelude.{◌<◌};

use super::fixture::{Opcode, PAGE, Seat, entry, fields, make_seat, step};
use crate::Places;
use machine_state::Kind;
use num_lanes::Vec64;
use row_table::{Class, Fields, Row, Spot, layout};
use std::alloc::Global;
use std::process::Abort;
use std::test::Fail;

/// Which lanes are masked in: all, or those of an opmask.
#[derive(Clone, Copy)]
pub(crate) enum Masked {
    All,
    Merging(u8),
    Zeroing(u8),
}

/// Class with prefix, map, opcode and ModRM, W, length, immediate, mask, whether one element of memory is for all lanes,
/// whether ModRM.r/m has the counts of shifts, and the words that the destination has afterwards.
pub(crate) type Case = (Opcode, bool, u8, u64, Masked, bool, bool, [u64; 8]);

const MASKS: [u64; 8] = [
    0x5555_5555_5555_5555,
    0,
    u64::MAX,
    4,
    0xA5C3_F00F_5A3C_9669,
    0x0FF0_5AA5_C396_871E,
    0,
    0,
];
/// The memory operand, as the vectors count.
const MEMORY: u64 = 35;
/// General register 0, as the vectors count.
const GENERAL: u64 = 40;

const OPERAND: u64 = PAGE + 64;

/// Word j of vector n; some are those of every vector, so that lanes are found equal.
fn word(n: u64, j: u64) -> u64
    requires n { n < 64 }
    requires j { j < 8 }
{
    let number = if (n + j) % 3 == 0 { j } else { 8 * n + j };
    (number + 1).wrapping_mul(0x9E37_79B9_7F4A_7C15)
}

/// Word j of a vector of counts.
fn count(j: u64) -> u64
    requires { j < 8 }
{
    if j == 0 { 3 } else { 9 * j + 1 }
}

fn joined(words: &[u64; 8]) -> Vec64 {
    let mut bytes = [0; 64];
    for j in 0..8 {
        bytes[8 * j..8 * j + 8].copy_from_slice(&words[j].to_le_bytes());
    }
    bytes
}

fn vector(n: u64, counts: bool) -> Vec64
    requires { n < 64 }
{
    let mut words = [0; 8];
    for j in 0..8 {
        words[j] = if counts {
            count(j as u64)
        } else {
            word(n, j as u64)
        };
    }
    joined(&words)
}

/// The registers in ModRM and vvvv, of which EVEX has those above 15.
fn places(opcode: Opcode) -> Places {
    let (class, _, _, _, modrm) = opcode;
    let evex = matches!(class, Class::Evex);
    Places {
        reg: if evex { 17 } else { 1 },
        vvvv: if evex { 26 } else { 2 },
        rm: if evex { 29 } else { 5 },
        memory: if modrm < 0xC0 { Some(OPERAND) } else { None },
    }
}

fn fields_of(case: &Case) -> Fields {
    let (opcode, w, l, imm, masked, bc, _, _) = *case;
    let (aaa, z) = match masked {
        Masked::All => (0, false),
        Masked::Merging(k) => (k, false),
        Masked::Zeroing(k) => (k, true),
    };
    Fields {
        w,
        bc,
        aaa,
        z,
        ..fields(opcode, l, imm)
    }
}

/// Puts the numbers that the table starts from into registers and memory; false where the memory isn't there.
fn fill(s: &mut Seat, rm: u8, counts: bool) -> bool {
    for n in 0..32 {
        s.vec.set_zmm(n, &vector(u64::from(n), counts && n == rm));
    }
    for n in 0..8 {
        s.vec.set_k(n, MASKS[usize::from(n)]);
    }
    for n in 0..16 {
        s.gprs.set(n, word(GENERAL + u64::from(n), 7));
    }
    s.pages.write(OPERAND, &vector(MEMORY, counts)).is_ok()
}

/// A number and zeros.
fn padded(number: u64) -> Vec64 {
    joined(&[number, 0, 0, 0, 0, 0, 0, 0])
}

/// What stands at the operand in memory.
fn operand(s: &Seat) -> Vec64 {
    let mut bytes = [0; 64];
    let _there = s.pages.read(OPERAND, &mut bytes, Kind::Read);
    bytes
}

/// The destination.
fn destination(s: &Seat, row: &Row, p: &Places) -> Vec64 {
    match layout(row.operands).first.spot {
        Spot::OpmaskReg => padded(s.vec.k(p.reg % 8)),
        Spot::Reg => padded(s.gprs.get(p.reg % 16)),
        Spot::VectorReg => *s.vec.zmm(p.reg % 32),
        Spot::VectorVvvv => *s.vec.zmm(p.vvvv % 32),
        Spot::Rm if p.memory.is_none() => padded(s.gprs.get(p.rm % 16)),
        Spot::VectorRm if p.memory.is_none() => *s.vec.zmm(p.rm % 32),
        _ => operand(s),
    }
}

/// Whether an instruction of the table of rows leaves the words.
fn is_a_processors(s: &mut Seat, case: &Case) -> bool {
    let (opcode, _, _, _, _, _, counts, want) = *case;
    let places = places(opcode);
    let fields = fields_of(case);
    let ready = fill(s, places.rm, counts);
    let stepped = step(s, &fields, &places);
    match entry(&fields) {
        None => false,
        Some(row) => {
            ready && stepped == Some(Ok(())) && destination(s, &row, &places) == joined(&want)
        }
    }
}

pub(crate) fn assert_processors(
    rt: &impl Abort,
    alloc: Global,
    cases: &[Case],
) -> Result<(), Fail> {
    let mut s = make_seat(rt, alloc)?;
    for (index, case) in cases.iter().enumerate() {
        assert!(rt; is_a_processors(&mut s, case), "at row {index}");
    }
    Ok(())
}
