//! The segments of a program file.
ghost use Rattle.std.specs.Prelude.{◌≡◌, ◌≤◌, ◌<◌, ◌+◌, ◌*◌, ◌^◌, ◌&&◌, nat_le, true, false, if◌then◌else◌, None, Some, IfOk, IfSome, MatchOption, MatchResult, length, All, [], ◌∷◌, ◌++◌};
ghost use Rattle.std.specs.List.{list_all};
ghost use Rattle.std.specs.Option.{option_to_list};
ghost use Rattle.gpr_flags.specs.Numbers.{has_bit as has_bit_of};
ghost use Rattle.elf_image.specs.Fields.{e_phoff as e_phoff_of, e_phnum as e_phnum_of, file_header_size, header_size, header_place};
ghost use Rattle.elf_image.specs.Segments.{base_of, perms_of, takes_memory, segment_at, first_page, end_page, page_count, page_sum as page_sum_of, segments_before, highest_address, EndsLow};
ghost use Rattle.elf_image.specs.Checks.{first_fault, is_placed, header_checks, program_checks};

use crate::checks::{SHARED, check};
use crate::fields::{HEADER_SIZE, ProgramHeader, e_phnum, e_phoff, e_type, program_header};
use crate::{ImageFault, Segment};
use arrayvec::ArrayVec;
use gpr_flags::has_bit;
use machine_state::{PAGE_SIZE, Perms};

/// A segment that is loaded, and the path of an interpreter (ELF-64, p_type).
const LOAD: u32 = 1;

const INTERPRETER: u32 = 3;

/// Where an image that can stand at any address is moved to.
const BASE: u64 = 0x5555_5555_4000;

/// The lowest address of a segment's first page, and the highest address where a segment may end.
const LOWEST: u64 = 0x1_0000;

const HIGHEST: u64 = 0x7FFF_0000_0000;

/// By how much the addresses of a file are moved up.
pub(crate) fn base(bytes: &[u8]) -> u64
    requires { file_header_size ≤ length bytes.now }
    ensures value { result ≡ base_of bytes.now }
    ensures low { result ≤ highest_address }
{
    if e_type(bytes) == SHARED { BASE } else { 0 }
}

/// These permissions where the flags have a bit, else none.
fn granted(flags: u32, bit: u32, perms: Perms) -> Perms
    requires { bit < 32 }
    ensures { result.0 ≡ (if has_bit_of flags bit then perms.0 else 0) }
{
    if has_bit(u64::from(flags), bit) {
        perms
    } else {
        Perms(0)
    }
}

/// The permissions of a segment with these flags (ELF-64, segment permissions).
#[tactic(auto, unfolding(crate::specs::Segments::perms_of))]
fn perms(flags: u32) -> Perms
    ensures { result.0 ≡ perms_of flags }
{
    let read = granted(flags, 2, Perms::READ);
    let write = granted(flags, 1, Perms::WRITE);
    let execute = granted(flags, 0, Perms::EXECUTE);
    Perms(read.0 | write.0 | execute.0)
}

impl Segment {
    /// The number of its first page.
    pub fn first_page(&self) -> u64
        ensures { result ≡ first_page self.now }
    {
        self.addr / PAGE_SIZE
    }

    /// The number of the page behind its last.
    pub fn end_page(&self) -> u64
        requires { EndsLow self.now }
        ensures { result ≡ end_page self.now }
    {
        (self.addr + self.mem_len + (PAGE_SIZE - 1)) / PAGE_SIZE
    }

    /// How many pages it has.
    pub fn page_count(&self) -> u64
        requires { EndsLow self.now }
        ensures { result ≡ page_count self.now }
    {
        self.end_page() - self.first_page()
    }
}

impl ProgramHeader {
    /// Whether its bytes in the file are no more than in memory, and end within the file.
    fn fits(&self, len: u64) -> bool
        ensures { result ≡ (nat_le self.now.file_len self.now.mem_len && nat_le (self.now.offset + self.now.file_len) len) }
    {
        self.file_len <= self.mem_len && self.offset <= len && self.file_len <= len - self.offset
    }

    /// Whether its segment ends at the highest address at most, where it is moved up.
    fn ends_low(&self, base: u64) -> bool
        requires { base ≤ highest_address }
        ensures { result ≡ nat_le (self.now.addr + base + self.now.mem_len) highest_address }
    {
        let room = HIGHEST - base;
        self.mem_len <= room && self.addr <= room - self.mem_len
    }

    /// Its segment, where it is moved up.
    fn segment(&self, base: u64) -> Segment
        requires { self.now.addr + base < 2 ^ 64 }
        ensures { result ≡ record {
          addr = self.now.addr + base;
          file_at = self.now.offset;
          file_len = self.now.file_len;
          mem_len = self.now.mem_len;
          perms = record { 0 = perms_of self.now.flags };
        } }
    {
        Segment {
            addr: self.addr + base,
            file_at: self.offset,
            file_len: self.file_len,
            mem_len: self.mem_len,
            perms: perms(self.flags),
        }
    }
}

/// Whether a page is above all pages of some segments.
fn is_above(page: u64, segments: &[Segment]) -> bool
    requires { All EndsLow segments.now }
    ensures { result ≡ list_all (λ segment. nat_le (end_page segment) page) segments.now }
{
    for segment in segments {
        if segment.end_page() > page {
            return false;
        }
    }
    true
}

/// Whether a segment that ends low is placed, behind those before it.
#[tactic(auto, unfolding(crate::specs::Checks::is_placed))]
fn is_placed_low(segment: &Segment, earlier: &[Segment]) -> bool
    requires segment { EndsLow segment.now }
    requires earlier { All EndsLow earlier.now }
    ensures { result ≡ is_placed earlier.now segment.now }
{
    segment.addr % PAGE_SIZE == segment.file_at % PAGE_SIZE
        && segment.addr >= LOWEST
        && is_above(segment.first_page(), earlier)
}

/// The segment of the load header at a place, if it is placed behind those before it.
#[tactic(auto, unfolding(crate::specs::Segments::segment_at))]
fn place_segment(bytes: &[u8], place: usize, earlier: &[Segment]) -> Option<Segment>
    requires len { file_header_size ≤ length bytes.now }
    requires within { place + header_size ≤ length bytes.now }
    requires earlier { All EndsLow earlier.now }
    ensures answer { MatchOption result (is_placed earlier.now (segment_at bytes.now place) ≡ false)
        (λ segment. (is_placed earlier.now (segment_at bytes.now place) ≡ true) × (segment ≡ segment_at bytes.now place)) }
    ensures low { IfSome result EndsLow }
{
    let header = program_header(bytes, place);
    let base = base(bytes);
    if !header.ends_low(base) {
        return None;
    }
    let segment = header.segment(base);
    if is_placed_low(&segment, earlier) {
        Some(segment)
    } else {
        None
    }
}

/// The segment of the program header at a place, if it has one. A refusal is by the first of its checks that isn't passed.
#[tactic(auto, unfolding(crate::specs::Checks::header_checks, crate::specs::Checks::fits_file))]
fn read_header(
    bytes: &[u8],
    place: usize,
    earlier: &[Segment],
) -> Result<Option<Segment>, ImageFault>
    requires len { file_header_size ≤ length bytes.now }
    requires within { place + header_size ≤ length bytes.now }
    requires earlier { All EndsLow earlier.now }
    ensures answer { MatchResult result (λ _. first_fault (header_checks bytes.now earlier.now place) ≡ None)
        (λ fault. first_fault (header_checks bytes.now earlier.now place) ≡ Some fault) }
    ensures segment { IfOk result (λ segment. option_to_list segment
        ≡ (if takes_memory bytes.now place then segment_at bytes.now place ∷ [] else [])) }
    ensures low { IfOk result (λ segment. IfSome segment EndsLow) }
{
    let header = program_header(bytes, place);
    check(header.kind != INTERPRETER, 11, place as u64)?;
    if header.kind != LOAD {
        return Ok(None);
    }
    check(header.fits(bytes.len() as u64), 12, place as u64 + 32)?;
    if header.mem_len == 0 {
        return Ok(None);
    }
    match place_segment(bytes, place, earlier) {
        Some(segment) => Ok(Some(segment)),
        None => Err(ImageFault {
            number: 13,
            place: place as u64 + 16,
        }),
    }
}

/// Appends the segment, if there is one.
fn add(segments: &mut ArrayVec<Segment, 64>, segment: Option<Segment>)
    requires { length segments.old.items < 64 }
    ensures { segments.new.items ≡ segments.old.items ++ option_to_list segment }
{
    match segment {
        Some(segment) => segments.push(segment),
        None => {}
    }
}

/// Reads all program headers.
pub(crate) fn read_segments(bytes: &[u8]) -> Result<ArrayVec<Segment, 64>, ImageFault>
    requires len { file_header_size ≤ length bytes.now }
    requires count { e_phnum_of bytes.now ≤ 64 }
    requires table { header_place bytes.now (e_phnum_of bytes.now) ≤ length bytes.now }
    ensures answer { MatchResult result (λ _. first_fault (program_checks bytes.now (e_phnum_of bytes.now)) ≡ None)
        (λ fault. first_fault (program_checks bytes.now (e_phnum_of bytes.now)) ≡ Some fault) }
    ensures segments { IfOk result (λ segments. segments.items ≡ segments_before bytes.now (e_phnum_of bytes.now)) }
    ensures low { IfOk result (λ segments. All EndsLow segments.items) }
{
    let mut segments = ArrayVec::new();
    for number in 0..usize::from(e_phnum(bytes)) {
        let place = e_phoff(bytes) as usize + HEADER_SIZE * number;
        let segment = read_header(bytes, place, segments.as_slice())?;
        add(&mut segments, segment);
    }
    Ok(segments)
}

/// How many pages some segments have in all.
pub(crate) fn page_sum(segments: &[Segment]) -> u64
    requires low { All EndsLow segments.now }
    requires most { length segments.now ≤ 64 }
    ensures sum { result ≡ page_sum_of segments.now }
    ensures low { result ≤ 2 ^ 41 }
{
    let mut sum = 0;
    for segment in segments {
        sum += segment.page_count();
    }
    sum
}
