//! What a range of pages becomes, and what the calls refuse.

use machine_state::Perms;

/// What each page of a range becomes.
#[derive(Clone, Copy, Debug, PartialEq, Eq)]
pub enum Change {
    /// Mapped as zeros, with these permissions, and of a file or not.
    Map(Perms, bool),
    Unmap,
    /// Given these permissions.
    Protect(Perms),
}

/// Why permissions can't be changed.
#[derive(Clone, Copy, Debug, PartialEq, Eq)]
pub enum ProtectFault {
    /// The page at this address is the first one of the range that isn't mapped.
    Hole(u64),
    /// There would be too many regions.
    Full,
}

/// Why the break can't be moved.
#[derive(Clone, Copy, Debug, PartialEq, Eq)]
pub enum BreakFault {
    /// It would lie below the heap's start.
    Below,
    /// The page at this address is the first one that the heap can't grow over: it is mapped, or at 7FFFFFFFF000H or above.
    Taken(u64),
    /// Too many pages would be mapped, or there would be too many regions.
    Full,
}
