//! The plain types of transfers.

use arrayvec::ArrayVec;

/// Bytes of guest memory, from an address on.
#[derive(Clone, Copy, Debug, Default, PartialEq, Eq)]
pub struct Piece {
    pub addr: u64,
    pub len: u64,
}

/// How a transfer stops.
#[derive(Clone, Copy, Debug, PartialEq, Eq)]
pub enum Stop {
    /// So many bytes have moved, and no more will.
    Whole(u64),
    /// So many bytes have, and the page in this slot has to be brought for the next part.
    Away(u64, u32),
    /// A call on the stream failed.
    Failed,
}

/// What comes of reading a path.
#[derive(Drop)]
pub enum PathRead {
    /// Its bytes, without the final 0.
    Text(ArrayVec<u8, 256>),
    /// There is no 0 among the most bytes that it may have.
    TooLong,
    /// A byte before its 0 can't be read.
    Fault,
    /// The page in this slot has to be brought first.
    Away(u32),
}

/// What comes of reading a list of buffers.
#[derive(Clone, Copy, Debug, PartialEq, Eq)]
pub enum ListRead {
    Whole,
    /// A byte of it can't be read.
    Fault,
    /// The page in this slot has to be brought for the next record.
    Away(u32),
}
