//! The image of a program file.
ghost use Rattle.std.specs.Prelude.{◌≡◌, ◌≤◌, ◌+◌, ◌^◌, IfOk, MatchResult, None, Some, length, All};
ghost use Rattle.elf_image.specs.Fields.{file_header_size, header_place, e_phnum as e_phnum_of};
ghost use Rattle.elf_image.specs.Segments.{headers_at as headers_at_of, has_headers as has_headers_of, page_behind as page_behind_of, segments_of, EndsLow, IsSegment, IsImage};
ghost use Rattle.elf_image.specs.Checks.{first_fault, checks, has_room as has_room_of, image_read};

use crate::checks::{check, check_file, check_identity};
use crate::fields::{HEADER_SIZE, e_entry, e_phnum, e_phoff};
use crate::segments::{base, page_sum, read_segments};
use crate::{Image, ImageFault, Segment};
use arrayvec::ArrayVec;
use machine_state::PAGE_SIZE;

/// How many pages the stack has.
pub const STACK_PAGES: u64 = 256;

/// Whether there is a segment, and a guest may have the pages of all segments and of the stack.
#[tactic(auto, unfolding(crate::specs::Checks::has_room))]
fn has_room(segments: &[Segment], pages: u32) -> bool
    requires low { All EndsLow segments.now }
    requires most { length segments.now ≤ 64 }
    ensures { result ≡ has_room_of segments.now pages }
{
    !segments.is_empty() && page_sum(segments) + STACK_PAGES <= u64::from(pages)
}

/// Whether a segment has all program headers from the file.
fn has_headers(bytes: &[u8], segment: &Segment) -> bool
    requires len { file_header_size ≤ length bytes.now }
    requires table { header_place bytes.now (e_phnum_of bytes.now) ≤ length bytes.now }
    requires within { segment.now.file_at + segment.now.file_len ≤ length bytes.now }
    ensures { result ≡ has_headers_of bytes.now segment.now }
{
    let first = e_phoff(bytes);
    let end = first + HEADER_SIZE as u64 * u64::from(e_phnum(bytes));
    segment.file_at <= first && end <= segment.file_at + segment.file_len
}

/// Where the program headers are in memory: in the first segment that has them all, and 0 where none has.
fn headers_at(bytes: &[u8], segments: &[Segment]) -> u64
    requires len { file_header_size ≤ length bytes.now }
    requires table { header_place bytes.now (e_phnum_of bytes.now) ≤ length bytes.now }
    requires each { All (IsSegment (length bytes.now)) segments.now }
    ensures { result ≡ headers_at_of bytes.now segments.now }
{
    for segment in segments {
        if has_headers(bytes, segment) {
            return segment.addr + (e_phoff(bytes) - segment.file_at);
        }
    }
    0
}

/// The page behind the last of some segments, and 0 where there is none.
fn page_behind(segments: &[Segment]) -> u64
    requires { All EndsLow segments.now }
    ensures page { result ≡ page_behind_of segments.now }
    ensures low { result ≤ 2 ^ 35 }
{
    match segments.last() {
        Some(segment) => segment.end_page(),
        None => 0,
    }
}

/// The segments of a file that passes all checks, for a guest with so many pages.
fn check_all(bytes: &[u8], pages: u32) -> Result<ArrayVec<Segment, 64>, ImageFault>
    ensures answer { MatchResult result (λ _. first_fault (checks bytes.now pages) ≡ None)
        (λ fault. first_fault (checks bytes.now pages) ≡ Some fault) }
    ensures segments { IfOk result (λ segments. segments.items ≡ segments_of bytes.now) }
{
    check_identity(bytes)?;
    check_file(bytes)?;
    let segments = read_segments(bytes)?;
    check(has_room(segments.as_slice(), pages), 14, 56)?;
    Ok(segments)
}

/// Reads a program file, a static ELF-64 executable for x86-64, for a guest that may map so many pages. A refusal is by the first
/// check that isn't passed.
pub fn read_image(bytes: &[u8], pages: u32) -> Result<Image, ImageFault>
    ensures read { result ≡ image_read bytes.now pages }
    ensures image { IfOk result (IsImage (length bytes.now) pages) }
{
    let segments = check_all(bytes, pages)?;
    Ok(Image {
        entry: e_entry(bytes).wrapping_add(base(bytes)),
        phdr: headers_at(bytes, segments.as_slice()),
        phnum: e_phnum(bytes),
        heap: PAGE_SIZE * page_behind(segments.as_slice()),
        segments,
    })
}
