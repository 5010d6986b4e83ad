//! The fields of a program file.
ghost use Rattle.std.specs.Prelude.{◌≡◌, ◌≤◌, ◌+◌, length};
ghost use Rattle.elf_image.specs.Fields.{field, e_type as e_type_of, e_machine as e_machine_of, e_version as e_version_of, e_entry as e_entry_of, e_phoff as e_phoff_of, e_phentsize as e_phentsize_of, e_phnum as e_phnum_of, p_type, p_flags, p_offset, p_vaddr, p_filesz, p_memsz, file_header_size, header_size};

use byteorder::{ByteOrder, LittleEndian};

/// How many bytes the file header has (ELF-64, ELF header).
pub(crate) const FILE_HEADER_SIZE: usize = 64;

/// How many bytes a program header has (ELF-64, program header).
pub const HEADER_SIZE: usize = 56;

/// The number in two, four or eight bytes from a place on.
#[tactic(auto, unfolding(crate::specs::Fields::field))]
fn field_u16(bytes: &[u8], place: usize) -> u16
    requires { place + 2 ≤ length bytes.now }
    ensures { result ≡ field bytes.now place 2 }
{
    LittleEndian::read_u16(&bytes[place..])
}

#[tactic(auto, unfolding(crate::specs::Fields::field))]
fn field_u32(bytes: &[u8], place: usize) -> u32
    requires { place + 4 ≤ length bytes.now }
    ensures { result ≡ field bytes.now place 4 }
{
    LittleEndian::read_u32(&bytes[place..])
}

#[tactic(auto, unfolding(crate::specs::Fields::field))]
fn field_u64(bytes: &[u8], place: usize) -> u64
    requires { place + 8 ≤ length bytes.now }
    ensures { result ≡ field bytes.now place 8 }
{
    LittleEndian::read_u64(&bytes[place..])
}

/// The kind of file.
pub(crate) fn e_type(bytes: &[u8]) -> u16
    requires { file_header_size ≤ length bytes.now }
    ensures { result ≡ e_type_of bytes.now }
{
    field_u16(bytes, 16)
}

/// The machine.
pub(crate) fn e_machine(bytes: &[u8]) -> u16
    requires { file_header_size ≤ length bytes.now }
    ensures { result ≡ e_machine_of bytes.now }
{
    field_u16(bytes, 18)
}

/// The version of the format.
pub(crate) fn e_version(bytes: &[u8]) -> u32
    requires { file_header_size ≤ length bytes.now }
    ensures { result ≡ e_version_of bytes.now }
{
    field_u32(bytes, 20)
}

/// Where the program begins.
pub(crate) fn e_entry(bytes: &[u8]) -> u64
    requires { file_header_size ≤ length bytes.now }
    ensures { result ≡ e_entry_of bytes.now }
{
    field_u64(bytes, 24)
}

/// Where the program headers stand.
pub(crate) fn e_phoff(bytes: &[u8]) -> u64
    requires { file_header_size ≤ length bytes.now }
    ensures { result ≡ e_phoff_of bytes.now }
{
    field_u64(bytes, 32)
}

/// How long each of them is.
pub(crate) fn e_phentsize(bytes: &[u8]) -> u16
    requires { file_header_size ≤ length bytes.now }
    ensures { result ≡ e_phentsize_of bytes.now }
{
    field_u16(bytes, 54)
}

/// How many they are.
pub(crate) fn e_phnum(bytes: &[u8]) -> u16
    requires { file_header_size ≤ length bytes.now }
    ensures { result ≡ e_phnum_of bytes.now }
{
    field_u16(bytes, 56)
}

/// A program header.
#[derive(Clone, Copy)]
pub(crate) struct ProgramHeader {
    pub kind: u32,
    pub flags: u32,
    pub offset: u64,
    pub addr: u64,
    pub file_len: u64,
    pub mem_len: u64,
}

/// The program header at a place.
pub(crate) fn program_header(bytes: &[u8], place: usize) -> ProgramHeader
    requires { place + header_size ≤ length bytes.now }
    ensures { result ≡ record {
      kind = p_type bytes.now place;
      flags = p_flags bytes.now place;
      offset = p_offset bytes.now place;
      addr = p_vaddr bytes.now place;
      file_len = p_filesz bytes.now place;
      mem_len = p_memsz bytes.now place;
    } }
{
    ProgramHeader {
        kind: field_u32(bytes, place),
        flags: field_u32(bytes, place + 4),
        offset: field_u64(bytes, place + 8),
        addr: field_u64(bytes, place + 16),
        file_len: field_u64(bytes, place + 32),
        mem_len: field_u64(bytes, place + 40),
    }
}
