//! The plain types that several crates share.

use crate::Perms;

/// What an access does with the bytes that it touches.
#[derive(Clone, Copy, Debug, Default, PartialEq, Eq)]
pub enum Kind {
    #[default]
    Read,
    Write,
    Execute,
}

/// Bytes that are accessed together, from an address on; by default none.
#[derive(Clone, Copy, Debug, Default, PartialEq, Eq)]
pub struct Access {
    pub kind: Kind,
    pub addr: u64,
    pub len: u64,
}

/// Why the byte at an address can't be had.
#[derive(Clone, Copy, Debug, PartialEq, Eq)]
pub enum Miss {
    /// No page is mapped at this address.
    Unmapped(u64),
    /// The page at this address lacks the permission.
    Denied(u64),
    /// The address isn't canonical (SDM volume 1, 3.3.7.1).
    NonCanonical(u64),
    /// The access is allowed, but the page in this slot isn't in a frame now.
    Away(u32),
}

/// Where a walk along accesses stops: the kind of the first one that can't be made now, and why it can't.
#[derive(Clone, Copy, Debug, PartialEq, Eq)]
pub struct Stop {
    pub kind: Kind,
    pub miss: Miss,
}

/// How a guest ends.
#[derive(Clone, Copy, Debug, PartialEq, Eq)]
pub enum GuestEnd {
    /// It exited with this status.
    Exit(u8),
    /// It was killed by this signal.
    Killed(u8),
}

/// Adjacent mapped pages with equal permissions and equal origin; by default none.
#[derive(Clone, Copy, Debug, Default, PartialEq, Eq)]
pub struct Region {
    /// The number of the first page.
    pub first: u64,
    /// How many pages it has.
    pub count: u64,
    pub perms: Perms,
    /// The pages are of a file, and not anonymous.
    pub file: bool,
}

/// What an open descriptor stands for.
#[derive(Clone, Copy, Debug, PartialEq, Eq)]
pub struct Place {
    /// The file, by its number in the list of files; `None` for a descriptor that is still the stream of its number.
    pub file: Option<u8>,
    /// The offset, in bytes; 0 of a stream.
    pub at: u64,
    pub reads: bool,
    pub writes: bool,
    /// Writes go to the file's end.
    pub append: bool,
}
