//! Lanes at the ends of pages. What is expected is the SDM's (volume 1, 15.6.1 and 15.6.2).
ghost use Rattle.std.specs.Prelude.{◌<◌};

use crate::*;
use gpr_flags::has_bit;
use guest_pages::{Pages, Perms};
use machine_state::{Kind, Miss};
use num_lanes::Vec64;
use page_fixture::map_in_frame;
use std::alloc::Global;
use std::process::Abort;
use std::test::Fail;

/// The last bytes before a page that isn't mapped.
const LAST: u64 = 0x10_0FF0;

/// A page that can be written, before one that can only be read.
const GUARDED: u64 = 0x20_0000;

/// Where two pages meet that can be written.
const SEAM: u64 = 0x30_1000;

const NUMBERS: [u8; 16] = [
    0x00, 0x11, 0x22, 0x33, 0x44, 0x55, 0x66, 0x77, 0x88, 0x99, 0xAA, 0xBB, 0xCC, 0xDD, 0xEE, 0xFF,
];

/// The first page of memory, and the pages above, with numbers at the end of two of them and at the first bytes of memory.
fn pages_of(rt: &impl Abort, alloc: Global) -> Result<Pages, Fail> {
    let mut pages = Pages::new(alloc, 8, 16)?;
    for addr in [0, 0x10_0000, GUARDED, 0x30_0000, SEAM] {
        assert_eq!(rt; map_in_frame(&mut pages, addr, Perms(3)), Ok(()));
    }
    assert_eq!(rt; map_in_frame(&mut pages, 0x10_2000, Perms(1)), Ok(()));
    assert_eq!(rt;
        map_in_frame(&mut pages, GUARDED + 0x1000, Perms(1)),
        Ok(())
    );
    for addr in [0, LAST, GUARDED + 0xFF0] {
        assert_eq!(rt; pages.write(addr, &NUMBERS), Ok(()));
    }
    Ok(pages)
}

/// A load over a register of FFH, and its first 16 bytes afterwards, or where it stops.
struct Load {
    addr: u64,
    width: u8,
    lanes: u8,
    mask: u64,
    gives: Result<[u8; 16], Miss>,
}

static LOADS: [Load; 15] = [
    Load {
        addr: LAST,
        width: 4,
        lanes: 4,
        mask: 0b1111,
        gives: Ok(NUMBERS),
    },
    Load {
        addr: LAST + 12,
        width: 2,
        lanes: 8,
        mask: 0b10,
        gives: Ok([
            0xFF, 0xFF, 0xEE, 0xFF, 0xFF, 0xFF, 0xFF, 0xFF, 0xFF, 0xFF, 0xFF, 0xFF, 0xFF, 0xFF,
            0xFF, 0xFF,
        ]),
    },
    Load {
        addr: LAST + 15,
        width: 1,
        lanes: 64,
        mask: 0b1,
        gives: Ok([0xFF; 16]),
    },
    Load {
        addr: LAST + 8,
        width: 8,
        lanes: 8,
        mask: 0b1010,
        gives: Err(Miss::Unmapped(0x10_1000)),
    },
    Load {
        addr: LAST + 12,
        width: 8,
        lanes: 2,
        mask: 0b1,
        gives: Err(Miss::Unmapped(0x10_1000)),
    },
    Load {
        addr: 0x7FFF_FFFF_FFF8,
        width: 8,
        lanes: 2,
        mask: 0b10,
        gives: Err(Miss::NonCanonical(0x8000_0000_0000)),
    },
    // `62 F1 7F C9 6F 00`, VMOVDQU8 of 64 bytes, eight bytes before the page that isn't mapped: the ninth byte's bit decides.
    Load {
        addr: LAST + 8,
        width: 1,
        lanes: 64,
        mask: 0xFF,
        gives: Ok([
            0x88, 0x99, 0xAA, 0xBB, 0xCC, 0xDD, 0xEE, 0xFF, 0xFF, 0xFF, 0xFF, 0xFF, 0xFF, 0xFF,
            0xFF, 0xFF,
        ]),
    },
    Load {
        addr: LAST + 8,
        width: 1,
        lanes: 64,
        mask: 0x1FF,
        gives: Err(Miss::Unmapped(0x10_1000)),
    },
    // Words: four of them, and the fifth.
    Load {
        addr: LAST + 8,
        width: 2,
        lanes: 32,
        mask: 0xF,
        gives: Ok([
            0x88, 0x99, 0xAA, 0xBB, 0xCC, 0xDD, 0xEE, 0xFF, 0xFF, 0xFF, 0xFF, 0xFF, 0xFF, 0xFF,
            0xFF, 0xFF,
        ]),
    },
    Load {
        addr: LAST + 8,
        width: 2,
        lanes: 32,
        mask: 0x1F,
        gives: Err(Miss::Unmapped(0x10_1000)),
    },
    // The part on the page that isn't mapped comes first, and has no lane of the mask.
    Load {
        addr: 0x1F_FFF8,
        width: 8,
        lanes: 8,
        mask: 0b10,
        gives: Ok([
            0xFF, 0xFF, 0xFF, 0xFF, 0xFF, 0xFF, 0xFF, 0xFF, 0, 0, 0, 0, 0, 0, 0, 0,
        ]),
    },
    // No lane: nothing is asked for.
    Load {
        addr: 0x50_0000,
        width: 4,
        lanes: 16,
        mask: 0,
        gives: Ok([0xFF; 16]),
    },
    // Behind the last address comes address 0.
    Load {
        addr: 0xFFFF_FFFF_FFFF_FFF8,
        width: 4,
        lanes: 4,
        mask: 0b1100,
        gives: Ok([
            0xFF, 0xFF, 0xFF, 0xFF, 0xFF, 0xFF, 0xFF, 0xFF, 0x00, 0x11, 0x22, 0x33, 0x44, 0x55,
            0x66, 0x77,
        ]),
    },
    Load {
        addr: 0xFFFF_FFFF_FFFF_FFFE,
        width: 4,
        lanes: 4,
        mask: 0b10,
        gives: Ok([
            0xFF, 0xFF, 0xFF, 0xFF, 0x22, 0x33, 0x44, 0x55, 0xFF, 0xFF, 0xFF, 0xFF, 0xFF, 0xFF,
            0xFF, 0xFF,
        ]),
    },
    Load {
        addr: 0xFFFF_FFFF_FFFF_FFFE,
        width: 4,
        lanes: 4,
        mask: 0b11,
        gives: Err(Miss::Unmapped(0xFFFF_FFFF_FFFF_FFFE)),
    },
];

/// The first 16 bytes of a register.
fn front(register: &Vec64) -> [u8; 16] {
    let mut bytes = [0; 16];
    for i in 0..16 {
        bytes[i] = register[i];
    }
    bytes
}

fn wrong_load(pages: &Pages, rows: &[Load]) -> Option<usize> {
    for (i, row) in rows.iter().enumerate() {
        if row.lanes > 64
            || row.width != 1 && row.width != 2 && row.width != 4 && row.width != 8
            || u32::from(row.lanes) * u32::from(row.width) > 64
        {
            return Some(i);
        }
        let mut into = [0xFF; 64];
        let answer = load_lanes(pages, row.addr, row.width, row.lanes, row.mask, &mut into);
        let gives = match answer {
            Ok(()) => Ok(front(&into)),
            Err(miss) => Err(miss),
        };
        if gives != row.gives || (answer != Ok(()) && into != [0xFF; 64]) {
            return Some(i);
        }
    }
    None
}

#[test]
fn only_lanes_of_the_mask_are_loaded(rt: HostRuntime) -> Result<(), Fail> {
    let pages = pages_of(&rt, rt.alloc())?;
    assert_eq!(rt; wrong_load(&pages, &LOADS), None);
    Ok(())
}

/// A store of a register of 5AH, its answer, and the bytes afterwards of the 16 that end its page.
struct Store {
    page: u64,
    from: u64,
    width: u8,
    lanes: u8,
    mask: u64,
    gives: Result<(), Miss>,
    leaves: [u8; 16],
}

static STORES: [Store; 8] = [
    Store {
        page: 0x10_0000,
        from: 0xFF4,
        width: 4,
        lanes: 4,
        mask: 0b101,
        gives: Ok(()),
        leaves: [
            0x00, 0x11, 0x22, 0x33, 0x5A, 0x5A, 0x5A, 0x5A, 0x88, 0x99, 0xAA, 0xBB, 0x5A, 0x5A,
            0x5A, 0x5A,
        ],
    },
    // A lane that can't be stored: none is.
    Store {
        page: 0x10_0000,
        from: 0xFF8,
        width: 8,
        lanes: 2,
        mask: 0b11,
        gives: Err(Miss::Unmapped(0x10_1000)),
        leaves: NUMBERS,
    },
    Store {
        page: 0x10_0000,
        from: 0xFFA,
        width: 8,
        lanes: 1,
        mask: 0b1,
        gives: Err(Miss::Unmapped(0x10_1000)),
        leaves: NUMBERS,
    },
    // Eight bytes before a page that can't be written: the third lane's bit decides.
    Store {
        page: GUARDED,
        from: 0xFF8,
        width: 4,
        lanes: 16,
        mask: 0b11,
        gives: Ok(()),
        leaves: [
            0x00, 0x11, 0x22, 0x33, 0x44, 0x55, 0x66, 0x77, 0x5A, 0x5A, 0x5A, 0x5A, 0x5A, 0x5A,
            0x5A, 0x5A,
        ],
    },
    Store {
        page: GUARDED,
        from: 0xFF8,
        width: 4,
        lanes: 16,
        mask: 0b111,
        gives: Err(Miss::Denied(GUARDED + 0x1000)),
        leaves: NUMBERS,
    },
    // All lanes, up to the end of the page.
    Store {
        page: 0x10_0000,
        from: 0xFF0,
        width: 2,
        lanes: 8,
        mask: 0xFF,
        gives: Ok(()),
        leaves: [0x5A; 16],
    },
    // No lane: nothing is asked for.
    Store {
        page: GUARDED,
        from: 0x1000,
        width: 1,
        lanes: 64,
        mask: 0,
        gives: Ok(()),
        leaves: NUMBERS,
    },
    Store {
        page: GUARDED,
        from: 0x1000,
        width: 1,
        lanes: 1,
        mask: 0b1,
        gives: Err(Miss::Denied(GUARDED + 0x1000)),
        leaves: NUMBERS,
    },
];

/// Whether a store gives and leaves what its row says.
fn stores(pages: &mut Pages, row: &Store) -> bool {
    if row.lanes > 64
        || row.width != 1 && row.width != 2 && row.width != 4 && row.width != 8
        || u32::from(row.lanes) * u32::from(row.width) > 64
    {
        return false;
    }
    let end = row.page.wrapping_add(0xFF0);
    if pages.write(end, &NUMBERS) != Ok(()) {
        return false;
    }
    let addr = row.page.wrapping_add(row.from);
    let gives = store_lanes(pages, addr, row.width, row.lanes, row.mask, &[0x5A; 64]);
    let mut bytes = [0; 16];
    gives == row.gives && pages.read(end, &mut bytes, Kind::Read) == Ok(()) && bytes == row.leaves
}

fn wrong_store(pages: &mut Pages, rows: &[Store]) -> Option<usize> {
    for (i, row) in rows.iter().enumerate() {
        if !stores(pages, row) {
            return Some(i);
        }
    }
    None
}

#[test]
fn only_lanes_of_the_mask_are_stored(rt: HostRuntime) -> Result<(), Fail> {
    let mut pages = pages_of(&rt, rt.alloc())?;
    assert_eq!(rt; wrong_store(&mut pages, &STORES), None);
    Ok(())
}

/// Lanes, and which of them are accessed.
struct Lanes {
    width: u8,
    lanes: u8,
    mask: u64,
}

static LANES: [Lanes; 14] = [
    Lanes {
        width: 1,
        lanes: 64,
        mask: 0,
    },
    Lanes {
        width: 1,
        lanes: 64,
        mask: 0xFFFF_FFFF_FFFF_FFFF,
    },
    Lanes {
        width: 1,
        lanes: 64,
        mask: 1 << 7,
    },
    Lanes {
        width: 1,
        lanes: 5,
        mask: 0b10110,
    },
    Lanes {
        width: 2,
        lanes: 32,
        mask: 0xFFFF_FFFF,
    },
    Lanes {
        width: 2,
        lanes: 32,
        mask: 1 << 31,
    },
    Lanes {
        width: 2,
        lanes: 8,
        mask: 0b1010_1010,
    },
    Lanes {
        width: 4,
        lanes: 16,
        mask: 0xFFFF,
    },
    Lanes {
        width: 4,
        lanes: 16,
        mask: 0b1,
    },
    Lanes {
        width: 4,
        lanes: 3,
        mask: 0b101,
    },
    Lanes {
        width: 8,
        lanes: 8,
        mask: 0xFF,
    },
    Lanes {
        width: 8,
        lanes: 8,
        mask: 0,
    },
    Lanes {
        width: 8,
        lanes: 8,
        mask: 0b100,
    },
    Lanes {
        width: 8,
        lanes: 1,
        mask: 0b1,
    },
];

/// Whether byte k belongs to a lane of the mask.
fn is_in(lanes: &Lanes, k: usize) -> bool
    requires { k < 64 }
{
    let lane = k as u32 / u32::from(lanes.width.max(1));
    lane < u32::from(lanes.lanes.min(64)) && has_bit(lanes.mask, lane)
}

/// The bytes that these are where they belong to a lane of the mask, and else those.
fn chosen(lanes: &Lanes, these: &Vec64, those: &Vec64) -> Vec64 {
    let mut bytes = [0; 64];
    for k in 0..64 {
        bytes[k] = if is_in(lanes, k) { these[k] } else { those[k] };
    }
    bytes
}

/// Whether lanes that begin so many bytes before the seam of two pages are loaded from both of them and stored to both.
fn cross(pages: &mut Pages, lanes: &Lanes, before: u64, held: &Vec64) -> bool {
    if lanes.lanes > 64
        || lanes.width != 1 && lanes.width != 2 && lanes.width != 4 && lanes.width != 8
        || u32::from(lanes.lanes) * u32::from(lanes.width) > 64
    {
        return false;
    }
    let addr = SEAM.wrapping_sub(before);
    if pages.write(addr, held) != Ok(()) {
        return false;
    }
    let mut into = [0xFF; 64];
    if load_lanes(pages, addr, lanes.width, lanes.lanes, lanes.mask, &mut into) != Ok(())
        || into != chosen(lanes, held, &[0xFF; 64])
    {
        return false;
    }
    let from = [0xA5; 64];
    let mut left = [0; 64];
    store_lanes(pages, addr, lanes.width, lanes.lanes, lanes.mask, &from) == Ok(())
        && pages.read(addr, &mut left, Kind::Read) == Ok(())
        && left == chosen(lanes, &from, held)
}

fn wrong_crossing(pages: &mut Pages, rows: &[Lanes], held: &Vec64) -> Option<(usize, u64)> {
    for (i, row) in rows.iter().enumerate() {
        for before in 0..=65 {
            if !cross(pages, row, before, held) {
                return Some((i, before));
            }
        }
    }
    None
}

#[test]
fn lanes_cross_pages_at_each_byte(rt: HostRuntime) -> Result<(), Fail> {
    let mut pages = pages_of(&rt, rt.alloc())?;
    let mut held = [0; 64];
    for k in 0..64 {
        held[k] = k as u8 + 1;
    }
    assert_eq!(rt; wrong_crossing(&mut pages, &LANES, &held), None);
    Ok(())
}
