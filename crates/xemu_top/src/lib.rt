//! The top call: a command from its words to its end.
#![tactic(auto)]

mod answers;
mod ends;
mod files;
mod laws;
mod lines;
mod loading;
mod running;
mod storing;
#[cfg(test)]
mod tests;
mod top;
mod words;

pub use command_words::WordFault;
pub use elf_image::ImageFault;
pub use ends::{End, Ended};
pub use laws::trail_law;
pub use start_stack::TooLong;
pub use top::emulate;
