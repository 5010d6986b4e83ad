//! The checks of a program file's header.
ghost use Rattle.std.specs.Prelude.{◌≡◌, ◌≤◌, nat_le, false, IsTrue, None, Some, OnOk, MatchResult, length};
ghost use Rattle.elf_image.specs.Fields.{e_phnum as e_phnum_of, file_header_size, header_place};
ghost use Rattle.elf_image.specs.Segments.{longest_file};
ghost use Rattle.elf_image.specs.Checks.{first_fault, identity_checks, file_checks};

use crate::ImageFault;
use crate::fields::{
    FILE_HEADER_SIZE, HEADER_SIZE, e_machine, e_phentsize, e_phnum, e_phoff, e_type, e_version,
};

/// The most bytes of a program file.
const LONGEST_FILE: usize = 67_108_864;

/// The magic number, and the values of the identification (ELF-64, ELF identification).
const MAGIC: [u8; 4] = [0x7F, 0x45, 0x4C, 0x46];

const CLASS_64: u8 = 2;

const LITTLE_ENDIAN: u8 = 1;

const VERSION: u8 = 1;

/// Kinds of file: at the addresses of its segments, or at any address (ELF-64, e_type).
const EXECUTABLE: u16 = 2;

pub(crate) const SHARED: u16 = 3;

/// The machine (System V ABI, AMD64, 4.1).
const X86_64: u16 = 62;

/// The most program headers.
const MOST_HEADERS: u16 = 64;

/// Refuses a file by a check's number and place, where it doesn't pass.
pub(crate) fn check(passes: bool, number: u8, place: u64) -> Result<(), ImageFault>
    ensures { MatchResult result (λ _. IsTrue passes)
        (λ fault. (passes ≡ false) × (fault ≡ record { number = number; place = place })) }
{
    if passes {
        Ok(())
    } else {
        Err(ImageFault { number, place })
    }
}

/// Checks the length and the identification.
#[tactic(auto, unfolding(crate::specs::Checks::identity_checks))]
pub(crate) fn check_identity(bytes: &[u8]) -> Result<(), ImageFault>
    ensures answer { MatchResult result (λ _. first_fault (identity_checks bytes.now) ≡ None)
        (λ fault. first_fault (identity_checks bytes.now) ≡ Some fault) }
    ensures len { OnOk result ((file_header_size ≤ length bytes.now) × (length bytes.now ≤ longest_file)) }
{
    check(bytes.len() >= FILE_HEADER_SIZE, 1, bytes.len() as u64)?;
    check(bytes.len() <= LONGEST_FILE, 1, LONGEST_FILE as u64)?;
    check(bytes[..4] == MAGIC[..], 2, 0)?;
    check(bytes[4] == CLASS_64, 3, 4)?;
    check(bytes[5] == LITTLE_ENDIAN, 4, 5)?;
    check(bytes[6] == VERSION, 5, 6)
}

/// Whether the program headers end within the file.
fn has_table(bytes: &[u8]) -> bool
    requires { file_header_size ≤ length bytes.now }
    ensures { result ≡ nat_le (header_place bytes.now (e_phnum_of bytes.now)) (length bytes.now) }
{
    let len = bytes.len() as u64;
    let table = HEADER_SIZE as u64 * u64::from(e_phnum(bytes));
    table <= len && e_phoff(bytes) <= len - table
}

/// Checks the file header.
#[tactic(auto, unfolding(crate::specs::Checks::file_checks))]
pub(crate) fn check_file(bytes: &[u8]) -> Result<(), ImageFault>
    requires { file_header_size ≤ length bytes.now }
    ensures answer { MatchResult result (λ _. first_fault (file_checks bytes.now) ≡ None)
        (λ fault. first_fault (file_checks bytes.now) ≡ Some fault) }
    ensures count { OnOk result (e_phnum_of bytes.now ≤ 64) }
    ensures table { OnOk result (header_place bytes.now (e_phnum_of bytes.now) ≤ length bytes.now) }
{
    check(e_version(bytes) == u32::from(VERSION), 5, 20)?;
    let kind = e_type(bytes);
    check(kind == EXECUTABLE || kind == SHARED, 6, 16)?;
    check(e_machine(bytes) == X86_64, 7, 18)?;
    check(usize::from(e_phentsize(bytes)) == HEADER_SIZE, 8, 54)?;
    let count = e_phnum(bytes);
    check(count >= 1 && count <= MOST_HEADERS, 9, 56)?;
    check(has_table(bytes), 10, 32)
}
