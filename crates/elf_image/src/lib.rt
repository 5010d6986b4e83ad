//! Program files: static ELF-64 executables for x86-64.
#![tactic(auto)]

mod checks;
mod fields;
mod image;
mod kinds;
mod laws;
mod segments;

pub use fields::HEADER_SIZE;
pub use image::{STACK_PAGES, read_image};
pub use kinds::{Image, ImageFault, Segment};
pub use laws::image_law;

#[cfg(test)]
mod tests;
