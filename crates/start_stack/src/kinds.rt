//! Why a stack can't be made, and what its auxiliary vector is made of.

use thiserror::Error;

/// The stack would have so many bytes, or more where that is 2^64 - 1.
#[derive(Clone, Copy, Debug, PartialEq, Eq)]
pub struct TooLong {
    pub size: u64,
}

#[derive(Debug, Drop, Error, PartialEq, Eq)]
pub enum StartFault {
    #[error("the start stack has {} bytes", .0.size)]
    TooLong(TooLong),
    #[error("memory is wanting")]
    Memory,
}

/// An entry of the auxiliary vector (System V ABI, AMD64, 3.4.3).
#[derive(Clone, Copy)]
pub(crate) struct Auxiliary {
    pub kind: u64,
    pub value: u64,
}

/// Where the parts of the strings begin: arguments, environment, path, platform and random bytes.
#[derive(Clone, Copy)]
pub(crate) struct Places {
    pub args: u64,
    pub env: u64,
    pub path: u64,
    pub platform: u64,
    pub random: u64,
}
