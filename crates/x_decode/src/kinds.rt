//! What a decoder sees.
use row_table::Decoded;

/// What some bytes begin with, of which the first fifteen count.
#[derive(Clone, Copy)]
pub enum Seen {
    /// An instruction, and its length.
    Instr(Decoded, u8),
    /// They end within an instruction, and are fewer than fifteen.
    Short,
    /// An instruction would have more than fifteen bytes.
    TooLong,
    /// None that the machine has.
    Bad,
}
