//! Pages at work: what each call lets be done with them afterwards.
ghost use Rattle.std.specs.Prelude.{◌≡◌, ◌<◌, ◌%◌};
ghost use Rattle.machine_state.specs.Memory.{page_size};

use super::*;
use crate::entry::{Mark, Place};
use std::process::Abort;
use std::test::Fail;

const READ: Kind = Kind::Read;

const WRITE: Kind = Kind::Write;

const EXECUTE: Kind = Kind::Execute;

const BOTH: Perms = Perms(3);

// Gives the page at an address, where that access to it waits, a free frame whose bytes are all this one, and answers whether
// the page was on the swap.
fn enter_for(pages: &mut Pages, addr: u64, kind: Kind, byte: u8) -> Option<bool> {
    if !pages.has_free() {
        return None;
    }
    match pages.ready(addr, 1, kind) {
        Err(Miss::Away(slot)) => {
            let on_swap = pages.on_swap(slot);
            pages.enter(slot, &[byte; 4096]);
            Some(on_swap)
        }
        Ok(()) | Err(Miss::Unmapped(_)) | Err(Miss::Denied(_)) | Err(Miss::NonCanonical(_)) => None,
    }
}

fn enter_at(pages: &mut Pages, addr: u64, byte: u8) -> Option<bool> {
    enter_for(pages, addr, READ, byte)
}

// Maps a page that can be read or executed, in a frame where one is free.
fn map_in_frame(pages: &mut Pages, addr: u64, perms: Perms) -> Result<(), Full>
    requires page { addr % page_size ≡ 0 }
    requires low { addr < 0x800000000000 }
{
    pages.map_page(addr, perms)?;
    let kind = if perms.permits(READ) { READ } else { EXECUTE };
    enter_for(pages, addr, kind, 0);
    Ok(())
}

// Maps so many pages from 0x1000 on, in frames as far as there are.
fn map_pages(pages: &mut Pages, count: u64) -> Result<(), Full> {
    for i in 1..=count {
        if i < 16 {
            map_in_frame(pages, i * 0x1000, BOTH)?;
        }
    }
    Ok(())
}

// The byte at an address, or why it can't be had.
fn byte_at(pages: &Pages, addr: u64) -> Result<u8, Miss> {
    let mut byte = [0u8; 1];
    pages.read(addr, &mut byte, READ)?;
    Ok(byte[0])
}

fn expect_bytes(rt: &impl Abort, pages: &Pages, cases: &[(u64, Result<u8, Miss>)]) {
    for (addr, want) in cases {
        assert_eq!(rt; byte_at(pages, *addr), *want, "at {addr:#x}");
    }
}

fn expect_answers(rt: &impl Abort, pages: &Pages, cases: &[(u64, u64, Kind, Result<(), Miss>)]) {
    for (addr, len, kind, want) in cases {
        assert_eq!(rt;
            pages.allowed(*addr, *len, *kind),
            *want,
            "at {addr:#x}, {len}"
        );
        assert_eq!(rt;
            pages.ready(*addr, *len, *kind),
            *want,
            "at {addr:#x}, {len}"
        );
    }
}

#[test]
fn accesses_stop_at_the_first_byte_that_is_not_allowed(rt: HostRuntime) -> Result<(), Fail> {
    let mut pages = Pages::new(rt.alloc(), 8, 8)?;
    map_in_frame(&mut pages, 0x1000, BOTH)?;
    map_in_frame(&mut pages, 0x2000, Perms::READ)?;
    map_in_frame(&mut pages, 0x3000, Perms::EXECUTE)?;
    map_in_frame(&mut pages, 0x7FFF_FFFF_F000, BOTH)?;
    expect_answers(
        &rt,
        &pages,
        &[
            (0x1000, 0x3000, READ, Ok(())),
            (0x1FFF, 1, WRITE, Ok(())),
            (0x1FFF, 2, WRITE, Err(Miss::Denied(0x2000))),
            (0x2FFE, 4, EXECUTE, Err(Miss::Denied(0x2FFE))),
            (0x3000, 0x1000, EXECUTE, Ok(())),
            (0x3FFF, 2, READ, Err(Miss::Unmapped(0x4000))),
            (0x0FFF, 2, READ, Err(Miss::Unmapped(0x0FFF))),
            (0x9000, 0, READ, Ok(())),
            (
                0x7FFF_FFFF_FFFF,
                2,
                READ,
                Err(Miss::NonCanonical(0x8000_0000_0000)),
            ),
            (
                0xFFFF_7FFF_FFFF_FFFF,
                2,
                READ,
                Err(Miss::NonCanonical(0xFFFF_7FFF_FFFF_FFFF)),
            ),
            (
                0xFFFF_8000_0000_0000,
                1,
                READ,
                Err(Miss::Unmapped(0xFFFF_8000_0000_0000)),
            ),
        ],
    );
    Ok(())
}

#[test]
fn pages_begin_as_zeros_and_change_alone(rt: HostRuntime) -> Result<(), Fail> {
    let mut pages = Pages::new(rt.alloc(), 8, 8)?;
    map_pages(&mut pages, 8)?;
    assert_eq!(rt; pages.map_page(0x9000, BOTH), Err(Full));
    assert_eq!(rt; pages.write(0x1FFE, &[1, 2, 3, 4]), Ok(()));
    assert_eq!(rt; pages.write(0x8FFF, &[9, 9]), Err(Miss::Unmapped(0x9000)));
    expect_bytes(
        &rt,
        &pages,
        &[
            (0x1FFD, Ok(0)),
            (0x1FFE, Ok(1)),
            (0x2001, Ok(4)),
            (0x2002, Ok(0)),
            (0x8FFF, Ok(0)),
        ],
    );

    // A page that is mapped again is zeros; one that is unmapped is gone, and its slot takes another.
    map_in_frame(&mut pages, 0x1000, Perms::READ)?;
    pages.unmap_page(0x3000);
    expect_bytes(
        &rt,
        &pages,
        &[
            (0x1FFE, Ok(0)),
            (0x2001, Ok(4)),
            (0x3000, Err(Miss::Unmapped(0x3000))),
        ],
    );
    assert_eq!(rt; pages.write(0x1FFF, &[5, 6]), Err(Miss::Denied(0x1FFF)));
    assert_eq!(rt; byte_at(&pages, 0x2000), Ok(3));
    assert_eq!(rt; pages.map_page(0x9000, BOTH), Ok(()));
    assert_eq!(rt; pages.map_page(0x3000, BOTH), Err(Full));
    Ok(())
}

// The mark of the page with this number, if it is in a frame.
fn mark_of(pages: &Pages, page: u64) -> Option<Mark> {
    match pages.seat(page) {
        Some(k) => match pages.slots.get(k as usize) {
            Some(Some(entry)) => match &entry.place {
                Place::Resident(_, mark) => Some(*mark),
                Place::Zeros | Place::Swapped => None,
            },
            Some(None) | None => None,
        },
        None => None,
    }
}

#[test]
fn a_write_across_pages_marks_both(rt: HostRuntime) -> Result<(), Fail> {
    let mut pages = Pages::new(rt.alloc(), 8, 8)?;
    map_pages(&mut pages, 4)?;
    assert_eq!(rt; pages.write(0x2FFF, &[7, 8]), Ok(()));
    expect_bytes(
        &rt,
        &pages,
        &[
            (0x2FFE, Ok(0)),
            (0x2FFF, Ok(7)),
            (0x3000, Ok(8)),
            (0x3001, Ok(0)),
        ],
    );
    assert_eq!(rt; mark_of(&pages, 1), Some(Mark::Fresh));
    assert_eq!(rt; mark_of(&pages, 2), Some(Mark::Written));
    assert_eq!(rt; mark_of(&pages, 3), Some(Mark::Written));
    assert_eq!(rt; mark_of(&pages, 4), Some(Mark::Fresh));
    Ok(())
}

#[test]
fn lent_bytes_are_written(rt: HostRuntime) -> Result<(), Fail> {
    let mut pages = Pages::new(rt.alloc(), 8, 8)?;
    if let Ok(part) = pages.lend(0x1010, 3) {
        part.copy_from_slice(&[7, 8, 9]);
    }
    map_in_frame(&mut pages, 0x1000, BOTH)?;
    assert_eq!(rt; byte_at(&pages, 0x1010), Ok(0));
    if let Ok(part) = pages.lend(0x1010, 3) {
        part.copy_from_slice(&[7, 8, 9]);
    }
    match pages.view(0x100F, 5, READ) {
        Ok(shown) => assert_eq!(rt; shown, [0, 7, 8, 9, 0].as_slice()),
        Err(miss) => panic!(rt; "{miss:?}"),
    }
    Ok(())
}

#[test]
fn a_zeroed_page_can_get_other_permissions(rt: HostRuntime) -> Result<(), Fail> {
    let mut pages = Pages::new(rt.alloc(), 8, 8)?;
    pages.map_page(0x2000, BOTH)?;
    pages.zero_page(0x2000);
    pages.set_perms(0x2000, Perms::READ);
    map_in_frame(&mut pages, 0x1000, BOTH)?;
    assert_eq!(rt; enter_at(&mut pages, 0x2000, 0), Some(false));
    assert_eq!(rt; pages.write(0x1FFE, &[1, 2]), Ok(()));
    assert_eq!(rt; pages.write(0x1FFF, &[3, 4]), Err(Miss::Denied(0x2000)));
    expect_bytes(&rt, &pages, &[(0x1FFF, Ok(2)), (0x2000, Ok(0))]);
    Ok(())
}

#[test]
fn a_page_takes_no_frame_until_it_is_entered(rt: HostRuntime) -> Result<(), Fail> {
    let mut pages = Pages::new(rt.alloc(), 8, 9)?;
    map_pages(&mut pages, 7)?;
    pages.map_page(0x8000, BOTH)?;
    pages.map_page(0x9000, BOTH)?;
    assert!(rt; pages.has_free());
    assert_eq!(rt; pages.allowed(0x8FFF, 2, WRITE), Ok(()));
    assert!(rt; matches!(pages.ready(0x8FFF, 2, WRITE), Err(Miss::Away(_))));

    // A write that waits for its second page writes nothing on the first.
    assert_eq!(rt; enter_at(&mut pages, 0x8000, 0), Some(false));
    assert!(rt; matches!(pages.write(0x8FFF, &[1, 2]), Err(Miss::Away(_))));
    assert_eq!(rt; byte_at(&pages, 0x8FFF), Ok(0));

    // A frame that becomes free serves no page that is mapped, and a page that is mapped anew gives its own up.
    pages.unmap_page(0x1000);
    pages.map_page(0x9000, BOTH)?;
    assert_eq!(rt; mark_of(&pages, 9), None);
    pages.map_page(0x2000, BOTH)?;
    assert_eq!(rt; mark_of(&pages, 2), None);
    assert_eq!(rt; enter_at(&mut pages, 0x9000, 0), Some(false));
    assert_eq!(rt; pages.write(0x8FFF, &[1, 2]), Ok(()));
    assert_eq!(rt; byte_at(&pages, 0x9000), Ok(2));
    assert!(rt; pages.has_free());
    Ok(())
}

// The number of the page that was brought first, where no frame is free.
fn first_page(pages: &Pages) -> Option<u64> {
    if pages.has_free() {
        return None;
    }
    match pages.slots.get(pages.first_brought() as usize) {
        Some(Some(entry)) => Some(entry.page),
        Some(None) | None => None,
    }
}

// Gives up the frame of the page that was brought first, where no frame is free, and answers its first byte where it had
// unsaved ones.
fn leave_first(pages: &mut Pages) -> Option<u8> {
    if pages.has_free() {
        return None;
    }
    let slot = pages.first_brought();
    let byte = match pages.unsaved(slot) {
        Some(bytes) => bytes.first().copied(),
        None => None,
    };
    pages.leave(slot);
    byte
}

// Lets the pages that were brought first leave and come again, which weren't written.
fn turn_pages(rt: &impl Abort, pages: &mut Pages, addrs: &[u64]) {
    for addr in addrs {
        assert!(rt; !pages.has_free());
        assert_eq!(rt; leave_first(pages), None, "at {addr:#x}");
        assert_eq!(rt; enter_at(pages, *addr, 0), Some(false), "at {addr:#x}");
    }
}

#[test]
fn a_page_leaves_and_comes_with_its_mark(rt: HostRuntime) -> Result<(), Fail> {
    let mut pages = Pages::new(rt.alloc(), 8, 12)?;
    map_pages(&mut pages, 9)?;
    assert_eq!(rt; first_page(&pages), Some(1));
    assert_eq!(rt; pages.write(0x2000, &[7]), Ok(()));

    // A page that wasn't written leaves as zeros, one that was to the swap.
    assert_eq!(rt; leave_first(&mut pages), None);
    assert!(rt; pages.has_free());
    assert_eq!(rt; enter_at(&mut pages, 0x9000, 0), Some(false));
    assert_eq!(rt; mark_of(&pages, 9), Some(Mark::Fresh));
    assert_eq!(rt; first_page(&pages), Some(2));
    assert_eq!(rt; leave_first(&mut pages), Some(7));

    // It comes from there with its copy, and leaves without bytes to save, and with them once it was written.
    assert_eq!(rt; enter_at(&mut pages, 0x2000, 7), Some(true));
    assert_eq!(rt; mark_of(&pages, 2), Some(Mark::Saved));
    assert_eq!(rt; byte_at(&pages, 0x2FFF), Ok(7));
    let others = [0x1000, 0x3000, 0x4000, 0x5000, 0x6000, 0x7000, 0x8000];
    turn_pages(&rt, &mut pages, &others);
    assert_eq!(rt; first_page(&pages), Some(2));
    assert_eq!(rt; leave_first(&mut pages), None);
    assert_eq!(rt; enter_at(&mut pages, 0x2000, 7), Some(true));
    assert_eq!(rt; pages.write(0x2001, &[8]), Ok(()));
    assert_eq!(rt; mark_of(&pages, 2), Some(Mark::Written));
    Ok(())
}

#[test]
fn a_page_mapped_anew_gives_its_frame_and_its_copy_up(rt: HostRuntime) -> Result<(), Fail> {
    let mut pages = Pages::new(rt.alloc(), 8, 12)?;
    map_pages(&mut pages, 8)?;
    assert_eq!(rt; pages.write(0x1000, &[1]), Ok(()));
    assert_eq!(rt; leave_first(&mut pages), Some(1));

    // On the swap or in a frame, the page is zeros then, and away.
    pages.map_page(0x1000, BOTH)?;
    assert_eq!(rt; enter_at(&mut pages, 0x1000, 0), Some(false));
    assert_eq!(rt; pages.write(0x3000, &[3]), Ok(()));
    pages.map_page(0x3000, BOTH)?;
    assert_eq!(rt; enter_at(&mut pages, 0x3000, 0), Some(false));
    assert_eq!(rt; mark_of(&pages, 3), Some(Mark::Fresh));
    pages.unmap_page(0x2000);
    map_in_frame(&mut pages, 0x9000, BOTH)?;
    assert_eq!(rt; mark_of(&pages, 9), Some(Mark::Fresh));
    pages.map_page(0x9000, BOTH)?;
    pages.zero_page(0x9000);
    assert_eq!(rt; mark_of(&pages, 9), None);
    assert_eq!(rt; enter_at(&mut pages, 0x9000, 0), Some(false));

    // The pages that are in frames came in this order.
    for page in [4, 5, 6, 7, 8, 1, 3, 9u64] {
        assert_eq!(rt; first_page(&pages), Some(page));
        assert_eq!(rt; leave_first(&mut pages), None);
        assert_eq!(rt; enter_at(&mut pages, page * 0x1000, 0), Some(false));
    }
    Ok(())
}
