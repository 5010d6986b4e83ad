//! What system calls move between guest memory and streams, files, paths, lists of buffers and random draws.
//!
//! A transfer goes part by part, each on one page. It stops at a part whose page is away, says how many bytes have moved, and
//! is taken up again from there.
#![tactic(auto)]

mod buffers;
mod draws;
mod file_moves;
mod kinds;
mod laws;
mod paths;
mod pieces;
mod streams;

pub use buffers::read_list;
pub use draws::draw_bytes;
pub use file_moves::{copy_file, read_file, write_file};
pub use kinds::{ListRead, PathRead, Piece, Stop};
pub use laws::turns_law;
pub use paths::read_path;
pub use pieces::{allowed_pieces, part, total_len};
pub use streams::{put_pieces, take_pieces};

#[cfg(test)]
mod tests;
