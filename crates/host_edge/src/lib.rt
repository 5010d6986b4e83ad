//! The outside as traits, with its forms in memory and over std.
//!
//! A [`Source`] gives bytes, a [`Sink`] takes bytes, and a [`Host`] keeps files and the pages of a swap.
//! Each call may fail, and a failure is counted, so that a caller's clause can say which call it was.
//! The contracts speak of what an object tells of its bytes, if it tells them.
#![tactic(auto)]

mod bytes;
mod counts;
mod file_host;
mod file_streams;
mod mem_files;
mod mem_host;
mod mem_sink;
mod mem_source;
mod outside;
#[cfg(test)]
mod tests;
mod transfers;

pub use file_host::FileHost;
pub use file_streams::{FileSink, FileSource};
pub use mem_host::MemHost;
pub use mem_sink::MemSink;
pub use mem_source::MemSource;
pub use outside::{Failed, Host, HostCall, PAGE_LEN, Sink, Source};
