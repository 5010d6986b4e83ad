//! What is read of a program file.

use arrayvec::ArrayVec;
use machine_state::Perms;

/// A program file that isn't accepted.
#[derive(Clone, Copy, Debug, PartialEq, Eq)]
pub struct ImageFault {
    /// The check that it fails: 1 the length; 2 the magic number; 3 the class; 4 the data's order; 5 the version; 6 the kind of
    /// file; 7 the machine; 8 the size of a program header; 9 how many there are; 10 where they end; 11 an interpreter; 12 a load
    /// segment's size and place in the file; 13 its place in memory; 14 that there is one, and how many pages they take.
    pub number: u8,
    /// The place of the field in the file; of check 1 the file's length, or the most that it may be.
    pub place: u64,
}

/// A segment that is loaded; by default an empty one.
#[derive(Clone, Copy, Debug, Default, PartialEq, Eq)]
pub struct Segment {
    pub addr: u64,
    /// The place of its bytes in the file, and how many they are; the others are 0.
    pub file_at: u64,
    pub file_len: u64,
    /// How many bytes it has in memory.
    pub mem_len: u64,
    pub perms: Perms,
}

/// An accepted program file.
#[derive(Drop)]
pub struct Image {
    /// Where the program begins.
    pub entry: u64,
    /// Where the program headers are in memory, or 0 where no segment has them all.
    pub phdr: u64,
    /// How many program headers there are.
    pub phnum: u16,
    /// Where the heap begins: the first page above all segments.
    pub heap: u64,
    /// In ascending order, no two on one page.
    pub segments: ArrayVec<Segment, 64>,
}
