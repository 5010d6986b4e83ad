//! Regions at work, and against a plain list of pages.
ghost use Rattle.std.specs.Prelude.{◌≡◌, ◌≤◌, ◌<◌, ◌+◌, IsTrue};
ghost use Rattle.region_map.specs.Calls.{FitPages, highest_end};

use super::*;
use machine_state::{Kind, Miss, Region, next_random};
use page_fixture::enter_at;
use std::alloc::{AllocError, Global};
use std::process::Abort;
use std::test::Fail;

const READ_WRITE: u8 = 3;

/// A call, by the numbers of pages: the first one of a range and how many there are, permissions, and whether they are of a file;
/// or the break.
#[derive(Clone, Copy, Debug, PartialEq, Eq)]
enum Step {
    Map(u64, u64, u8, bool),
    Unmap(u64, u64),
    Protect(u64, u64, u8),
    Break(u64),
}

#[derive(Clone, Copy, Debug, PartialEq, Eq)]
enum Answer {
    Done,
    Full,
    Hole(u64),
    Below,
    Taken(u64),
    /// The call's conditions don't hold.
    Unfit,
}

// Whether a range has a page, and lies below the highest end.
fn fits(from: u64, count: u64) -> bool
    ensures some { IsTrue result → 0 < count }
    ensures high { IsTrue result → from + count ≤ highest_end }
{
    count > 0 && from <= HIGHEST_END && count <= HIGHEST_END - from
}

fn done(res: Result<(), Full>) -> Answer {
    match res {
        Ok(()) => Answer::Done,
        Err(_) => Answer::Full,
    }
}

fn map(
    regions: &mut Regions,
    pages: &mut Pages,
    from: u64,
    count: u64,
    perms: u8,
    file: bool,
) -> Answer
    requires { FitPages pages.old regions.old.regions }
    ensures { FitPages pages.new regions.new.regions }
{
    if fits(from, count) && from >= 16 {
        done(regions.map(pages, from * PAGE_SIZE, count, Perms(perms % 8), file))
    } else {
        Answer::Unfit
    }
}

fn unmap(regions: &mut Regions, pages: &mut Pages, from: u64, count: u64) -> Answer
    requires { FitPages pages.old regions.old.regions }
    ensures { FitPages pages.new regions.new.regions }
{
    if fits(from, count) {
        done(regions.unmap(pages, from * PAGE_SIZE, count))
    } else {
        Answer::Unfit
    }
}

fn protect(regions: &mut Regions, pages: &mut Pages, from: u64, count: u64, perms: u8) -> Answer
    requires { FitPages pages.old regions.old.regions }
    ensures { FitPages pages.new regions.new.regions }
{
    if fits(from, count) {
        match regions.protect(pages, from * PAGE_SIZE, count, Perms(perms % 8)) {
            Ok(()) => Answer::Done,
            Err(ProtectFault::Hole(addr)) => Answer::Hole(addr / PAGE_SIZE),
            Err(ProtectFault::Full) => Answer::Full,
        }
    } else {
        Answer::Unfit
    }
}

fn set_break(regions: &mut Regions, pages: &mut Pages, to: u64) -> Answer
    requires { FitPages pages.old regions.old.regions }
    ensures { FitPages pages.new regions.new.regions }
{
    match regions.set_break(pages, to) {
        Ok(()) => Answer::Done,
        Err(BreakFault::Below) => Answer::Below,
        Err(BreakFault::Taken(addr)) => Answer::Taken(addr / PAGE_SIZE),
        Err(BreakFault::Full) => Answer::Full,
    }
}

fn perform(regions: &mut Regions, pages: &mut Pages, step: Step) -> Answer
    requires { FitPages pages.old regions.old.regions }
    ensures { FitPages pages.new regions.new.regions }
{
    match step {
        Step::Map(from, count, perms, file) => map(regions, pages, from, count, perms, file),
        Step::Unmap(from, count) => unmap(regions, pages, from, count),
        Step::Protect(from, count, perms) => protect(regions, pages, from, count, perms),
        Step::Break(to) => set_break(regions, pages, to),
    }
}

// Performs calls one after the other.
fn expect_answers(
    rt: &impl Abort,
    regions: &mut Regions,
    pages: &mut Pages,
    cases: &[(Step, Answer)],
)
    requires { FitPages pages.old regions.old.regions }
    ensures { FitPages pages.new regions.new.regions }
{
    for (step, want) in cases {
        let answer = perform(regions, pages, *step);
        assert_eq!(rt; answer, *want, "at {step:?}");
    }
}

// The regions, by their first page, how many there are, permissions, and whether they are of a file.
fn expect_regions(rt: &impl Abort, regions: &Regions, want: &[(u64, u64, u8, bool)]) {
    assert_eq!(rt; regions.regions.len(), want.len());
    for (region, want) in regions.regions.iter().zip(want) {
        let (first, count, perms, file) = *want;
        let want = Region {
            first,
            count,
            perms: Perms(perms),
            file,
        };
        assert_eq!(rt; *region, want);
    }
}

// Whether a page is one of those from one on and below another.
fn is_among(page: u64, from: u64, to: u64) -> bool {
    from <= page && page < to
}

/// A page of the plain list.
#[derive(Clone, Copy, Debug, PartialEq, Eq)]
struct Nature {
    perms: u8,
    file: bool,
}

/// The plain list: what each page from one on is, the heap, and how many may be mapped.
#[derive(Drop)]
struct Plain {
    base: u64,
    pages: Vec<Option<Nature>>,
    heap: u64,
    at: u64,
    limit: usize,
}

impl Plain {
    fn new(alloc: Global, base: u64, heap: u64, limit: usize) -> Result<Plain, AllocError> {
        let pages = vec![in alloc; None; 80]?;
        Ok(Plain {
            base,
            pages,
            heap,
            at: heap,
            limit,
        })
    }

    fn page_at(&self, page: u64) -> Option<Nature> {
        match self.pages.get(page.wrapping_sub(self.base) as usize) {
            Some(nature) => *nature,
            None => None,
        }
    }

    fn is_mapped(&self, page: u64) -> bool {
        self.page_at(page).is_some()
    }

    fn mapped(&self) -> usize {
        self.pages.iter().filter(|page| page.is_some()).count()
    }

    // How many pages of a range aren't mapped.
    fn fresh(&self, from: u64, to: u64) -> usize {
        (from..to).filter(|page| !self.is_mapped(*page)).count()
    }

    fn set(&mut self, from: u64, to: u64, nature: Option<Nature>) {
        let base = self.base;
        for (i, page) in self.pages.iter_mut().enumerate() {
            if is_among(base.wrapping_add(i as u64), from, to) {
                *page = nature;
            }
        }
    }

    fn map(&mut self, from: u64, to: u64, nature: Nature) -> Answer {
        if self.mapped().wrapping_add(self.fresh(from, to)) > self.limit {
            return Answer::Full;
        }
        self.set(from, to, Some(nature));
        Answer::Done
    }

    fn protect(&mut self, from: u64, to: u64, perms: u8) -> Answer {
        for page in from..to {
            if !self.is_mapped(page) {
                return Answer::Hole(page);
            }
        }
        for page in from..to {
            if let Some(nature) = self.page_at(page) {
                self.set(page, page.wrapping_add(1), Some(Nature { perms, ..nature }));
            }
        }
        Answer::Done
    }

    fn set_break(&mut self, to: u64) -> Answer {
        if to < self.heap {
            return Answer::Below;
        }
        let old = self.at.div_ceil(PAGE_SIZE);
        let new = to.div_ceil(PAGE_SIZE);
        for page in old..new {
            if self.is_mapped(page) || page >= HIGHEST_END {
                return Answer::Taken(page);
            }
        }
        let heap = Nature {
            perms: READ_WRITE,
            file: false,
        };
        let answer = self.map(old, new, heap);
        if answer == Answer::Done {
            self.set(new, old, None);
            self.at = to;
        }
        answer
    }

    fn perform(&mut self, step: Step) -> Answer {
        match step {
            Step::Map(from, count, perms, file) => {
                self.map(from, from.wrapping_add(count), Nature { perms, file })
            }
            Step::Unmap(from, count) => {
                self.set(from, from.wrapping_add(count), None);
                Answer::Done
            }
            Step::Protect(from, count, perms) => {
                self.protect(from, from.wrapping_add(count), perms)
            }
            Step::Break(to) => self.set_break(to),
        }
    }

    // The highest of the ranges of free pages that end by a page.
    fn free_below(&self, end: u64, count: u64) -> Option<u64> {
        let last = HIGHEST_END.min(end).saturating_sub(count);
        for back in 0..200u64 {
            let first = last.saturating_sub(back);
            if first >= 16 && self.fresh(first, first.wrapping_add(count)) as u64 == count {
                return Some(first);
            }
        }
        None
    }
}

// A drawn call on pages of a plain list, most of them within its first 64.
fn drawn(plain: &Plain, draw: u64) -> Step {
    let from = plain
        .base
        .wrapping_add((draw >> 8) % 64)
        .min(HIGHEST_END - 1);
    let count = ((draw >> 16) % 12).wrapping_add(1).min(HIGHEST_END - from);
    let perms = ((draw >> 24) % 8) as u8;
    match (draw >> 40) % 8 {
        0..=2 => Step::Map(from, count, perms, (draw >> 32) % 2 == 0),
        3 => Step::Unmap(from, count),
        4..=5 => Step::Protect(from, (count / 4).max(1), perms),
        _ => Step::Break(
            plain
                .heap
                .wrapping_sub(PAGE_SIZE)
                .wrapping_add((draw >> 8) % 0x14000),
        ),
    }
}

fn expect_page(rt: &impl Abort, regions: &Regions, pages: &Pages, page: u64, want: Option<Nature>) {
    let addr = page.wrapping_mul(PAGE_SIZE);
    assert_eq!(rt;
        regions.origin(addr),
        want.map(|nature| nature.file),
        "at {page:#x}"
    );
    let perms = want.map_or(0, |nature| nature.perms);
    assert_eq!(rt;
        pages.allowed(addr, 1, Kind::Read).is_ok(),
        perms != 0,
        "at {page:#x}"
    );
    assert_eq!(rt;
        pages.allowed(addr, 1, Kind::Write).is_ok(),
        perms & 2 != 0,
        "at {page:#x}"
    );
    assert_eq!(rt;
        pages.allowed(addr, 1, Kind::Execute).is_ok(),
        perms & 4 != 0,
        "at {page:#x}"
    );
}

fn expect_plain(rt: &impl Abort, regions: &Regions, pages: &Pages, plain: &Plain) {
    for (i, want) in plain.pages.iter().enumerate() {
        let page = plain.base.wrapping_add(i as u64);
        expect_page(rt, regions, pages, page, *want);
    }
    assert_eq!(rt; regions.break_at(), plain.at);
    assert_eq!(rt; regions.heap_start(), plain.heap);
}

fn expect_free(rt: &impl Abort, regions: &Regions, plain: &Plain, draw: u64) {
    let end = plain.base.wrapping_add((draw >> 8) % 80);
    let count = ((draw >> 16) % 12).wrapping_add(1);
    let top = end
        .wrapping_mul(PAGE_SIZE)
        .wrapping_add((draw >> 32) % PAGE_SIZE);
    let found = regions.free_below(top, count).map(|addr| addr / PAGE_SIZE);
    assert_eq!(rt; found, plain.free_below(end, count), "at {end:#x}, {count}");
}

// Places that are highest, by the address to end at and a number of pages.
fn expect_free_at(rt: &impl Abort, regions: &Regions, cases: &[(u64, u64, Option<u64>)]) {
    for (top, count, want) in cases {
        if *count > 0 {
            assert_eq!(rt;
                regions.free_below(*top, *count),
                *want,
                "at {top:#x}, {count}"
            );
        }
    }
}

fn expect_bytes(rt: &impl Abort, pages: &Pages, cases: &[(u64, Result<u8, Miss>)]) {
    for (addr, want) in cases {
        let mut byte = [0u8; 1];
        let read = pages.read(*addr, &mut byte, Kind::Read);
        assert_eq!(rt; read.map(|()| byte[0]), *want, "at {addr:#x}");
    }
}

// Enters the three pages from 0x10000 on.
fn enter_pages(regions: &Regions, pages: &mut Pages)
    requires { FitPages pages.old regions.now.regions }
    ensures { FitPages pages.new regions.now.regions }
{
    enter_at(pages, 0x10000);
    enter_at(pages, 0x11000);
    enter_at(pages, 0x12000);
}

// Writes bytes at the ends of pages.
fn write_bytes(regions: &Regions, pages: &mut Pages) -> Result<(), Miss>
    requires { FitPages pages.old regions.now.regions }
    ensures { FitPages pages.new regions.now.regions }
{
    pages.write(0x10FFF, &[7, 8])?;
    pages.write(0x12000, &[9])
}

// So many drawn calls, on regions and on a plain list.
fn expect_same(
    rt: &impl Abort,
    regions: &mut Regions,
    pages: &mut Pages,
    plain: &mut Plain,
    draws: u32,
)
    requires { FitPages pages.old regions.old.regions }
    ensures { FitPages pages.new regions.new.regions }
{
    let mut draw = 1;
    for n in 0..draws {
        draw = next_random(draw);
        let step = drawn(plain, draw);
        let answer = perform(regions, pages, step);
        assert_eq!(rt; answer, plain.perform(step), "call {n}: {step:?}");
        if n % 8 == 0 {
            expect_plain(rt, regions, pages, plain);
            expect_free(rt, regions, plain, draw);
        }
    }
    expect_plain(rt, regions, pages, plain);
}

#[test]
fn drawn_calls_at_the_lower_end(rt: HostRuntime) -> Result<(), Fail> {
    let mut pages = Pages::new(rt.alloc(), 8, 48)?;
    let mut plain = Plain::new(rt.alloc(), 16, 0x38000, 48)?;
    let mut regions = Regions::new(0x38000, 0x38000);
    expect_same(&rt, &mut regions, &mut pages, &mut plain, 10_000);
    Ok(())
}

#[test]
fn drawn_calls_at_the_upper_end(rt: HostRuntime) -> Result<(), Fail> {
    let mut pages = Pages::new(rt.alloc(), 8, 48)?;
    let mut plain = Plain::new(rt.alloc(), 0x7_FFFF_FFC8, 0x7FFF_FFFF_0000, 48)?;
    let mut regions = Regions::new(0x7FFF_FFFF_0000, 0x7FFF_FFFF_0000);
    expect_same(&rt, &mut regions, &mut pages, &mut plain, 10_000);
    Ok(())
}

#[test]
fn regions_join_split_and_go(rt: HostRuntime) -> Result<(), Fail> {
    let mut pages = Pages::new(rt.alloc(), 8, 64)?;
    let mut regions = Regions::new(0x80_0000, 0x80_0000);
    expect_answers(
        &rt,
        &mut regions,
        &mut pages,
        &[
            (Step::Map(16, 4, 3, false), Answer::Done),
            (Step::Map(20, 4, 3, false), Answer::Done),
            (Step::Map(24, 2, 3, true), Answer::Done),
            (Step::Map(18, 2, 5, false), Answer::Done),
        ],
    );
    expect_regions(
        &rt,
        &regions,
        &[
            (16, 2, 3, false),
            (18, 2, 5, false),
            (20, 4, 3, false),
            (24, 2, 3, true),
        ],
    );
    expect_answers(
        &rt,
        &mut regions,
        &mut pages,
        &[
            (Step::Protect(18, 2, 3), Answer::Done),
            (Step::Protect(23, 4, 1), Answer::Hole(26)),
            (Step::Protect(28, 1, 1), Answer::Hole(28)),
            (Step::Protect(23, 2, 1), Answer::Done),
            (Step::Unmap(17, 1), Answer::Done),
            (Step::Unmap(40, 8), Answer::Done),
        ],
    );
    expect_regions(
        &rt,
        &regions,
        &[
            (16, 1, 3, false),
            (18, 5, 3, false),
            (23, 1, 1, false),
            (24, 1, 1, true),
            (25, 1, 3, true),
        ],
    );
    expect_answers(
        &rt,
        &mut regions,
        &mut pages,
        &[
            (Step::Unmap(0, 24), Answer::Done),
            (Step::Map(0x7_FFFF_FFFE, 1, 7, false), Answer::Done),
            (Step::Unmap(25, 0x7_FFFF_FFE5), Answer::Done),
        ],
    );
    expect_regions(
        &rt,
        &regions,
        &[(24, 1, 1, true), (0x7_FFFF_FFFE, 1, 7, false)],
    );
    Ok(())
}

#[test]
fn the_break_moves_by_whole_pages(rt: HostRuntime) -> Result<(), Fail> {
    let mut pages = Pages::new(rt.alloc(), 8, 16)?;
    let mut regions = Regions::new(0x20000, 0x20010);
    expect_answers(
        &rt,
        &mut regions,
        &mut pages,
        &[
            (Step::Map(40, 1, 3, false), Answer::Done),
            (Step::Break(0x1FFFF), Answer::Below),
            (Step::Break(0x21000), Answer::Done),
            (Step::Break(0x24001), Answer::Done),
        ],
    );
    expect_regions(&rt, &regions, &[(33, 4, 3, false), (40, 1, 3, false)]);
    assert_eq!(rt; regions.break_at(), 0x24001);
    expect_answers(
        &rt,
        &mut regions,
        &mut pages,
        &[
            (Step::Break(0x28001), Answer::Taken(40)),
            (Step::Break(u64::MAX), Answer::Taken(40)),
            (Step::Break(0x28000), Answer::Done),
            (Step::Map(50, 8, 1, false), Answer::Done),
            (Step::Unmap(40, 1), Answer::Done),
            (Step::Break(0x29001), Answer::Full),
            (Step::Break(0x29000), Answer::Done),
            (Step::Break(0x22FFF), Answer::Done),
        ],
    );
    expect_regions(&rt, &regions, &[(33, 2, 3, false), (50, 8, 1, false)]);
    assert_eq!(rt; regions.break_at(), 0x22FFF);
    assert_eq!(rt; regions.heap_start(), 0x20000);
    Ok(())
}

#[test]
fn a_break_can_lie_anywhere(rt: HostRuntime) -> Result<(), Fail> {
    let mut pages = Pages::new(rt.alloc(), 8, 16)?;
    let mut regions = Regions::new(0, u64::MAX);
    expect_answers(
        &rt,
        &mut regions,
        &mut pages,
        &[
            (Step::Map(16, 1, 3, false), Answer::Done),
            (Step::Break(u64::MAX - 1), Answer::Done),
            (Step::Break(0x10000), Answer::Done),
            (Step::Break(0x7FFF_FFFF_F001), Answer::Taken(0x7_FFFF_FFFF)),
            (Step::Break(0x7FFF_FFFF_F000), Answer::Full),
            (Step::Break(0), Answer::Done),
            (Step::Break(0x10000), Answer::Done),
            (Step::Break(0x10001), Answer::Full),
            (Step::Break(0x8000), Answer::Done),
        ],
    );
    expect_regions(&rt, &regions, &[(0, 8, 3, false)]);
    Ok(())
}

#[test]
fn mapped_pages_are_zeros(rt: HostRuntime) -> Result<(), Fail> {
    let mut pages = Pages::new(rt.alloc(), 16, 16)?;
    let mut regions = Regions::new(0x20000, 0x20000);
    expect_answers(
        &rt,
        &mut regions,
        &mut pages,
        &[(Step::Map(16, 3, 3, false), Answer::Done)],
    );

    // The pages take no frames until they are entered.
    assert!(rt; matches!(write_bytes(&regions, &mut pages), Err(Miss::Away(_))));
    enter_pages(&regions, &mut pages);
    assert_eq!(rt; write_bytes(&regions, &mut pages), Ok(()));
    expect_answers(
        &rt,
        &mut regions,
        &mut pages,
        &[
            (Step::Map(17, 1, 3, true), Answer::Done),
            (Step::Protect(16, 3, 1), Answer::Done),
            (Step::Unmap(18, 1), Answer::Done),
            (Step::Map(18, 1, 1, false), Answer::Done),
        ],
    );
    enter_pages(&regions, &mut pages);
    expect_bytes(
        &rt,
        &pages,
        &[
            (0x10FFF, Ok(7)),
            (0x11000, Ok(0)),
            (0x12000, Ok(0)),
            (0x13000, Err(Miss::Unmapped(0x13000))),
        ],
    );
    Ok(())
}

#[test]
fn five_hundred_and_twelve_pages(rt: HostRuntime) -> Result<(), Fail> {
    let mut pages = Pages::new(rt.alloc(), 8, 512)?;
    let mut regions = Regions::new(0x50_0000, 0x50_0000);
    expect_answers(
        &rt,
        &mut regions,
        &mut pages,
        &[
            (Step::Map(0x400, 1, 5, false), Answer::Done),
            (Step::Map(0x7_FFFE_FF00, 256, 3, false), Answer::Done),
            (Step::Map(0x1000, 512, 3, false), Answer::Full),
            (Step::Map(0x1000, 256, 3, false), Answer::Full),
        ],
    );
    expect_regions(
        &rt,
        &regions,
        &[(0x400, 1, 5, false), (0x7_FFFE_FF00, 256, 3, false)],
    );
    expect_answers(
        &rt,
        &mut regions,
        &mut pages,
        &[
            (Step::Map(0x1000, 255, 3, false), Answer::Done),
            (Step::Map(0x2000, 1, 3, false), Answer::Full),
            (Step::Break(0x50_0001), Answer::Full),
            (Step::Map(0x1000, 255, 1, false), Answer::Done),
            (Step::Map(0x1001, 255, 1, false), Answer::Full),
        ],
    );
    Ok(())
}

// Pages each of which is a region of its own.
fn map_singles(rt: &impl Abort, regions: &mut Regions, pages: &mut Pages, from: u64, count: u64)
    requires { FitPages pages.old regions.old.regions }
    ensures { FitPages pages.new regions.new.regions }
{
    for i in 0..count {
        let answer = map(
            regions,
            pages,
            from.wrapping_add(i),
            1,
            (i % 2) as u8,
            false,
        );
        assert_eq!(rt; answer, Answer::Done);
    }
}

#[test]
fn a_thousand_and_twenty_four_regions(rt: HostRuntime) -> Result<(), Fail> {
    let mut pages = Pages::new(rt.alloc(), 8, 2048)?;
    let mut regions = Regions::new(0x10000, 0x10000);
    map_singles(&rt, &mut regions, &mut pages, 100, 1024);
    expect_answers(
        &rt,
        &mut regions,
        &mut pages,
        &[
            (Step::Map(90, 1, 3, false), Answer::Full),
            (Step::Map(1124, 1, 0, false), Answer::Full),
            (Step::Map(1124, 1, 1, true), Answer::Full),
            (Step::Break(0x10001), Answer::Full),
            (Step::Map(1124, 5, 1, false), Answer::Done),
            (Step::Unmap(1125, 1), Answer::Full),
            (Step::Protect(1125, 1, 3), Answer::Full),
            (Step::Protect(1125, 5, 3), Answer::Hole(1129)),
            (Step::Unmap(100, 1), Answer::Done),
            (Step::Unmap(1125, 1), Answer::Done),
            (Step::Map(1125, 1, 3, false), Answer::Full),
            (Step::Map(1125, 1, 1, false), Answer::Done),
        ],
    );
    Ok(())
}

#[test]
fn the_highest_free_range(rt: HostRuntime) -> Result<(), Fail> {
    let mut pages = Pages::new(rt.alloc(), 8, 64)?;
    let mut regions = Regions::new(0x10000, 0x10000);
    assert_eq!(rt; regions.free_below(u64::MAX, 1), Some(0x7FFF_FFFF_E000));
    assert_eq!(rt; regions.free_below(u64::MAX, 0x7_FFFF_FFEF), Some(0x10000));
    assert_eq!(rt; regions.free_below(u64::MAX, 0x7_FFFF_FFF0), None);
    assert_eq!(rt; regions.free_below(0x10FFF, 1), None);
    assert_eq!(rt; regions.free_below(0x11000, 1), Some(0x10000));
    expect_answers(
        &rt,
        &mut regions,
        &mut pages,
        &[
            (Step::Map(18, 2, 3, false), Answer::Done),
            (Step::Map(23, 1, 1, false), Answer::Done),
            (Step::Map(0x7_FFFF_FFFC, 2, 3, false), Answer::Done),
        ],
    );
    expect_free_at(
        &rt,
        &regions,
        &[
            (u64::MAX, 1, Some(0x7FFF_FFFF_E000)),
            (u64::MAX, 2, Some(0x7FFF_FFFF_A000)),
            (0x18000, 1, Some(0x16000)),
            (0x18000, 3, Some(0x14000)),
            (0x18000, 4, None),
            (0x16FFF, 2, Some(0x14000)),
            (0x15FFF, 2, Some(0x10000)),
            (0x12000, 2, Some(0x10000)),
            (0x11FFF, 2, None),
            (0x18000, u64::MAX, None),
            (0, 1, None),
        ],
    );
    Ok(())
}
