//! Registers and pages, and fields of vector instructions.
ghost use Rattle.std.specs.Prelude.{◌≡◌, IsTrue};
ghost use Rattle.gpr_flags.specs.Registers.{is_size as is_size_of};
ghost use Rattle.vec_units.specs.Form.{IsVectorRow};

use crate::{Places, perform, plan, walk};
use gpr_flags::{Flags, Gprs};
use guest_pages::{Pages, Perms};
use machine_state::{Kind, Miss, Stop};
use num_lanes::Vec64;
use page_fixture::map_in_frame;
use row_table::{Class, Fields, Op, Row, find, row};
use std::alloc::Global;
use std::process::Abort;
use std::test::Fail;
use vec_file::VecFile;
use vec_units::memory_width;

/// The first page, which can be read and written.
pub(crate) const PAGE: u64 = 0x10_0000;
/// The page behind it, which isn't mapped.
pub(crate) const MISSING: u64 = 0x10_1000;
/// The last 16 bytes before it.
pub(crate) const LAST: u64 = MISSING - 16;
/// A page that can only be read, behind one that can be written.
pub(crate) const READABLE: u64 = 0x10_3000;

pub(crate) const FROM_15_UP: [u8; 16] = [
    0xF0, 0xF1, 0xF2, 0xF3, 0xF4, 0xF5, 0xF6, 0xF7, 0xF8, 0xF9, 0xFA, 0xFB, 0xFC, 0xFD, 0xFE, 0xFF,
];

/// The registers and pages that an instruction finds.
#[derive(Drop)]
pub(crate) struct Seat {
    pub gprs: Gprs,
    pub flags: Flags,
    pub vec: VecFile,
    pub pages: Pages,
}

/// Register n has 16 n and one more in each byte, and the last bytes before the missing page count up to FFH.
pub(crate) fn make_seat(rt: &impl Abort, alloc: Global) -> Result<Seat, Fail> {
    let mut pages = Pages::new(alloc, 8, 16)?;
    assert_eq!(rt; map_in_frame(&mut pages, PAGE, Perms(3)), Ok(()));
    assert_eq!(rt;
        map_in_frame(&mut pages, READABLE - 0x1000, Perms(3)),
        Ok(())
    );
    assert_eq!(rt; map_in_frame(&mut pages, READABLE, Perms(1)), Ok(()));
    assert_eq!(rt; pages.write(LAST, &FROM_15_UP), Ok(()));
    let mut vec = VecFile::new();
    for n in 0..8 {
        vec.set_zmm(n, &[16 * n + 1; 64]);
    }
    Ok(Seat {
        gprs: Gprs::new(),
        flags: Flags::from_word(0x8D5),
        vec,
        pages,
    })
}

/// Class, mandatory prefix as the field pp numbers it, map, opcode and ModRM byte.
pub(crate) type Opcode = (Class, u8, u8, u8, u8);

/// The last of F2 and F3 that a legacy instruction's prefix is, or 0.
fn repeat(class: Class, pp: u8) -> u8 {
    match (class, pp) {
        (Class::Legacy, 2) => 0xF3,
        (Class::Legacy, 3) => 0xF2,
        _ => 0,
    }
}

/// Fields with W 0 and no mask.
pub(crate) fn fields(opcode: Opcode, l: u8, imm: u64) -> Fields {
    let (class, pp, map, opcode, modrm) = opcode;
    Fields {
        class,
        segment: 0,
        lock: false,
        rep: repeat(class, pp),
        p66: matches!(class, Class::Legacy) && pp == 1,
        p67: false,
        rex: false,
        w: false,
        r: 0,
        x: 0,
        b: 0,
        v: 0,
        l,
        pp,
        map,
        opcode,
        modrm: Some(modrm),
        sib: None,
        disp: 0,
        disp_len: 0,
        imm,
        imm_len: 1,
        z: false,
        bc: false,
        aaa: 0,
    }
}

/// Those of vectors of 512 bits, with opmask 1.
pub(crate) fn masked(opcode: Opcode, w: bool) -> Fields {
    Fields {
        w,
        aaa: 1,
        ..fields(opcode, 2, 0)
    }
}

/// XMM1 in ModRM.reg, XMM2 in vvvv and register 3 in ModRM.r/m.
pub(crate) const REGISTERS: Places = Places {
    reg: 1,
    vvvv: 2,
    rm: 3,
    memory: None,
};

pub(crate) const fn at(addr: u64) -> Places {
    Places {
        memory: Some(addr),
        ..REGISTERS
    }
}

/// The row of the table.
pub(crate) fn entry(fields: &Fields) -> Option<Row> {
    Some(row(find(fields)?))
}

fn is_size(width: u8) -> bool
    ensures { result ≡ is_size_of width }
{
    width == 1 || width == 2 || width == 4 || width == 8
}

#[tactic(auto, unfolding(vec_units::specs::Compute::is_vector))]
fn is_vector_row(row: &Row) -> bool
    ensures { IsTrue result → IsVectorRow row.now }
{
    let is_vector = matches!(
        row.op,
        Op::Lane(_) | Op::Vector(_) | Op::Cross(_) | Op::Width(_) | Op::Mac(_)
    );
    is_vector && is_size(row.width / 8) && is_size(memory_width(row))
}

/// Performs an instruction, or says where its walk stops; None where it has no row, or one that is none of a vector operation.
pub(crate) fn step(seat: &mut Seat, fields: &Fields, places: &Places) -> Option<Result<(), Stop>> {
    let row = entry(fields)?;
    if !is_vector_row(&row) {
        return None;
    }
    let i = plan(&row, fields, places, 0, &seat.vec);
    match walk(&i, &seat.pages) {
        Ok(()) => {
            perform(
                &i,
                &mut seat.gprs,
                &mut seat.flags,
                &mut seat.vec,
                &mut seat.pages,
            );
            Some(Ok(()))
        }
        Err(stop) => Some(Err(stop)),
    }
}

/// What `step` answers where a byte isn't mapped.
pub(crate) fn unmapped(kind: Kind, addr: u64) -> Option<Result<(), Stop>> {
    Some(Err(Stop {
        kind,
        miss: Miss::Unmapped(addr),
    }))
}

/// Bytes that are alike up to a place, and alike from it on.
pub(crate) fn bytes(below: u8, place: usize, above: u8) -> Vec64 {
    let mut v = [above; 64];
    if place <= 64 {
        v[..place].fill(below);
    }
    v
}
