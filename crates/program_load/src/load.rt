//! The pages and regions of a program before its first step.
ghost use Rattle.std.specs.Prelude.{◌≡◌, ◌≤◌, ◌<◌, ◌+◌, ◌-◌, ◌%◌, ℕ, [], true, List, Option, All, Ok, Some, IfOk, OnOk, None, length, fold, slice_range};
ghost use Rattle.machine_state.specs.Memory.{page_size, Swap, written};
ghost use Rattle.machine_state.specs.Regions.{page_sum, most_regions};
ghost use Rattle.host_edge.specs.Files.{Held, Becomes, KeepsFiles};
ghost use Rattle.guest_pages.specs.Pages.{byte_of, memory_of};
ghost use Rattle.guest_pages.specs.Changes.{KeepsSize};
ghost use Rattle.region_map.specs.declared.kinds.Change.TheVariants.{Map, Protect};
ghost use Rattle.region_map.specs.Ranges.{is_in, changed_regions};
ghost use Rattle.region_map.specs.Calls.{FitPages, IsChange, is_mapped, lowest_page, highest_end};
ghost use Rattle.swap_pager.specs.Paging.{CanPage};
ghost use Rattle.elf_image.specs.Segments.{page_count, page_sum as segment_sum, stack_pages, AreAscending, IsSegment};
ghost use Rattle.elf_image.specs.Checks.{image_read};
ghost use Rattle.start_stack.specs.Stack.{stack_top, longest_stack};
ghost use Rattle.program_load.specs.Load.{Program, ArePartsOf, with_segment, with_stack, first_regions, first_memory, file_byte, stack_first, stack_end};
ghost use Rattle.program_load.specs.Faults.{IsSwapCaused, IsLoadCaused};
ghost use Rattle.program_load.specs.Loading.{AreReady, HaveRoom, HaveBytes, KeepsHost, with_bytes, with_zeros, HasHeap};

use crate::kinds::LoadFault;
use elf_image::{Image, STACK_PAGES, Segment};
use host_edge::{Host, HostCall};
use machine_state::{PAGE_SIZE, Perms};
use region_map::{Pages, Regions};
use start_stack::{STACK_TOP, stack_pointer};
use std::alloc::{AllocError, Global};
use swap_pager::Pager;

/// The permissions of a segment's pages while its bytes are written, and of the stack.
const READ_WRITE: Perms = Perms(3);

/// The first memory of a program, and what brings its pages.
#[derive(Drop)]
pub struct Loaded {
    pub pages: Pages,
    pub regions: Regions,
    pub pager: Pager,
}

/// The bytes that a segment has from the file.
fn part<'a>(bytes: &'a [u8], segment: &Segment) -> &'a [u8]
    requires { segment.now.file_at + segment.now.file_len ≤ length bytes.now }
    ensures { result.now ≡ slice_range bytes.now segment.now.file_at (segment.now.file_at + segment.now.file_len) }
{
    &bytes[segment.file_at as usize..(segment.file_at + segment.file_len) as usize]
}

impl Loaded {
    /// No page, for a guest that may map so many and has so many frames, and an empty heap from an address on.
    fn new(alloc: Global, heap: u64, most: u32, frames: u32) -> Result<Loaded, AllocError>
        requires page { heap % page_size ≡ 0 }
        requires least { 8 ≤ frames }
        requires fit { frames ≤ most }
        ensures none { IfOk result (λ loaded. loaded.regions.regions ≡ []) }
        ensures zeros { IfOk result (λ loaded. (swap : Swap) (addr : ℕ) → byte_of loaded.pages swap addr ≡ 0) }
        ensures heap { IfOk result (λ loaded. HasHeap loaded.regions heap) }
        ensures ready { IfOk result (λ loaded. (held : Option Held) (opened : ℕ) → (frames < most → most ≤ opened)
            → AreReady loaded.pages loaded.regions.regions held opened) }
        ensures size { IfOk result (λ loaded. (loaded.pages.frames ≡ frames) × (length loaded.pages.slots ≡ most)) }
    {
        Ok(Loaded {
            pages: Pages::new(alloc, frames, most)?,
            regions: Regions::new(heap, heap),
            pager: Pager::new(alloc)?,
        })
    }

    /// Maps the pages from one on and below another, as zeros that can be written.
    fn map(&mut self, first: u64, end: u64, file: bool)
        requires range { first < end }
        requires low { lowest_page ≤ first }
        requires high { end ≤ highest_end }
        requires fit { FitPages self.old.pages self.old.regions.regions }
        requires room { HaveRoom self.old.pages self.old.regions.regions (end - first) }
        ensures change { IsChange (Map (record { 0 = 3 }) file) first end self.old.regions.regions self.new.regions.regions
            self.old.pages self.new.pages }
        ensures heap { (self.new.regions.heap ≡ self.old.regions.heap) × (self.new.regions.at ≡ self.old.regions.at) }
        ensures fit { FitPages self.new.pages self.new.regions.regions }
    {
        match self.regions.map(
            &mut self.pages,
            first * PAGE_SIZE,
            end - first,
            READ_WRITE,
            file,
        ) {
            Ok(()) => {}
            Err(_) => unreachable!(),
        }
    }

    /// Gives the pages from one on and below another these permissions.
    fn protect(&mut self, first: u64, end: u64, perms: Perms)
        requires range { first < end }
        requires high { end ≤ highest_end }
        requires set { perms.0 < 8 }
        requires fit { FitPages self.old.pages self.old.regions.regions }
        requires mapped { (page : ℕ) → is_in first end page ≡ true → is_mapped self.old.regions.regions page ≡ true }
        requires few { length (changed_regions (Protect perms) first end self.old.regions.regions) ≤ most_regions }
        requires room { page_sum (changed_regions (Protect perms) first end self.old.regions.regions) ≤ length self.old.pages.slots }
        ensures change { IsChange (Protect perms) first end self.old.regions.regions self.new.regions.regions
            self.old.pages self.new.pages }
        ensures heap { (self.new.regions.heap ≡ self.old.regions.heap) × (self.new.regions.at ≡ self.old.regions.at) }
        ensures fit { FitPages self.new.pages self.new.regions.regions }
    {
        match self
            .regions
            .protect(&mut self.pages, first * PAGE_SIZE, end - first, perms)
        {
            Ok(()) => {}
            Err(_) => unreachable!(),
        }
    }

    /// Maps the pages of a segment, with its bytes from the file and its permissions.
    fn load_segment<H: Host>(
        &mut self,
        bytes: &[u8],
        segment: &Segment,
        host: &mut H,
    ) -> Result<(), HostCall>
        requires segment { IsSegment (length bytes.now) segment.now }
        requires ready { AreReady self.old.pages self.old.regions.regions (H.holds host.old) (H.opened host.old) }
        requires room { HaveRoom self.old.pages self.old.regions.regions (page_count segment.now) }
        ensures regions { OnOk result (self.new.regions.regions ≡ with_segment self.old.regions.regions segment.now) }
        ensures bytes { OnOk result (Becomes (HaveBytes (with_bytes bytes.now segment.now) self.old.pages self.new.pages)
            (H.holds host.old) (H.holds host.new)) }
        ensures heap { (self.new.regions.heap ≡ self.old.regions.heap) × (self.new.regions.at ≡ self.old.regions.at) }
        ensures ready { OnOk result (AreReady self.new.pages self.new.regions.regions (H.holds host.new) (H.opened host.new)) }
        ensures size { OnOk result (KeepsSize self.old.pages self.new.pages) }
        ensures host { KeepsHost (H.holds host.old) (H.holds host.new) (H.opened host.old) (H.opened host.new) }
        ensures cause { IsSwapCaused result (H.faults host.old) (H.faults host.new) }
    {
        let first = segment.first_page();
        let end = segment.end_page();
        self.map(first, end, true);
        match self.write(segment.addr, part(bytes, segment), host) {
            Ok(()) => {}
            Err(call) => return Err(call),
        }
        self.protect(first, end, segment.perms);
        Ok(())
    }

    /// Maps the pages of segments, one segment after the other.
    fn load_segments<H: Host>(
        &mut self,
        bytes: &[u8],
        segments: &[Segment],
        host: &mut H,
    ) -> Result<(), HostCall>
        requires each { All (IsSegment (length bytes.now)) segments.now }
        requires ascending { AreAscending segments.now }
        requires most { length segments.now ≤ 64 }
        requires few { segment_sum segments.now ≤ length self.old.pages.slots }
        requires none { self.old.regions.regions ≡ [] }
        requires zeros { (swap : Swap) (addr : ℕ) → byte_of self.old.pages swap addr ≡ 0 }
        requires ready { AreReady self.old.pages self.old.regions.regions (H.holds host.old) (H.opened host.old) }
        ensures regions { OnOk result (self.new.regions.regions ≡ fold with_segment [] segments.now) }
        ensures bytes { OnOk result (Becomes (HaveBytes (λ byte. file_byte bytes.now segments.now) self.old.pages self.new.pages)
            (H.holds host.old) (H.holds host.new)) }
        ensures heap { (self.new.regions.heap ≡ self.old.regions.heap) × (self.new.regions.at ≡ self.old.regions.at) }
        ensures ready { OnOk result (AreReady self.new.pages self.new.regions.regions (H.holds host.new) (H.opened host.new)) }
        ensures size { OnOk result (KeepsSize self.old.pages self.new.pages) }
        ensures host { KeepsHost (H.holds host.old) (H.holds host.new) (H.opened host.old) (H.opened host.new) }
        ensures cause { IsSwapCaused result (H.faults host.old) (H.faults host.new) }
    {
        for segment in segments {
            match self.load_segment(bytes, segment, host) {
                Ok(()) => {}
                Err(call) => return Err(call),
            }
        }
        Ok(())
    }

    /// Maps the pages of the stack, with the start stack at their end.
    fn load_stack<H: Host>(&mut self, stack: &[u8], host: &mut H) -> Result<(), HostCall>
        requires short { length stack.now ≤ longest_stack }
        requires ready { AreReady self.old.pages self.old.regions.regions (H.holds host.old) (H.opened host.old) }
        requires room { HaveRoom self.old.pages self.old.regions.regions stack_pages }
        ensures regions { OnOk result (self.new.regions.regions ≡ with_stack self.old.regions.regions) }
        ensures bytes { OnOk result (Becomes (HaveBytes
            (λ byte. written (with_zeros stack_first stack_end byte) (stack_top - length stack.now) stack.now)
            self.old.pages self.new.pages) (H.holds host.old) (H.holds host.new)) }
        ensures heap { (self.new.regions.heap ≡ self.old.regions.heap) × (self.new.regions.at ≡ self.old.regions.at) }
        ensures ready { OnOk result (AreReady self.new.pages self.new.regions.regions (H.holds host.new) (H.opened host.new)) }
        ensures size { OnOk result (KeepsSize self.old.pages self.new.pages) }
        ensures host { KeepsHost (H.holds host.old) (H.holds host.new) (H.opened host.old) (H.opened host.new) }
        ensures cause { IsSwapCaused result (H.faults host.old) (H.faults host.new) }
    {
        let end = STACK_TOP / PAGE_SIZE;
        self.map(end - STACK_PAGES, end, false);
        self.write(stack_pointer(stack), stack, host)
    }
}

/// The first memory of a program, from its file, what was read of it, and its start stack, for a guest that may map so many pages
/// and has so many frames: the pages of the segments and of the stack, and their regions. The heap starts behind the segments, and
/// is empty. A page is in a frame as long as one is free; a page that is to be filled is brought, where it is away.
///
/// A call on the swap that fails is refused, and want of memory.
pub fn load_pages<H: Host>(
    alloc: Global,
    bytes: &[u8],
    image: &Image,
    stack: &[u8],
    most: u32,
    frames: u32,
    host: &mut H,
) -> Result<Loaded, LoadFault>
    requires image { image_read bytes.now most ≡ Ok image.now }
    requires stack { length stack.now ≤ longest_stack }
    requires least { 8 ≤ frames }
    requires fit { frames ≤ most }
    requires open { frames < most → most ≤ H.opened host.old }
    ensures memory { IfOk result (λ loaded. (program : Program) → ArePartsOf program bytes.now image.now stack.now
        → (held : Held) → H.holds host.new ≡ Some held → memory_of loaded.pages held.page ≡ first_memory program) }
    ensures regions { IfOk result (λ loaded. loaded.regions
        ≡ record { regions = first_regions image.now; heap = image.now.heap; at = image.now.heap }) }
    ensures fit { IfOk result (λ loaded. FitPages loaded.pages loaded.regions.regions) }
    ensures can_page { IfOk result (λ loaded. CanPage loaded.pages (H.holds host.new) (H.opened host.new)) }
    ensures size { IfOk result (λ loaded. (loaded.pages.frames ≡ frames) × (length loaded.pages.slots ≡ most)) }
    ensures files { Becomes KeepsFiles (H.holds host.old) (H.holds host.new) }
    ensures opened { H.opened host.new ≡ H.opened host.old }
    ensures cause { IsLoadCaused result (H.faults host.old) (H.faults host.new) }
{
    let mut loaded = Loaded::new(alloc, image.heap, most, frames)?;
    loaded.load_segments(bytes, image.segments.as_slice(), host)?;
    loaded.load_stack(stack, host)?;
    Ok(loaded)
}
