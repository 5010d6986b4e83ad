//! What a scan answers, and the parts of an instruction on the way there.
use row_table::{Class, Fields, Shape};

/// The instruction at the front of some bytes.
#[derive(Clone, Copy)]
pub enum Scan {
    /// Its fields and its length.
    Whole(Fields, u8),
    /// The bytes end within it.
    Short,
    /// None begins so.
    Dead,
}

/// Why reading stops.
#[derive(Clone, Copy)]
pub enum Stop {
    Short,
    Dead,
}

/// What the prefixes say.
#[derive(Clone, Copy)]
pub struct Front {
    /// The last of 64 and 65, or 0.
    pub segment: u8,
    pub lock: bool,
    /// The last of F2 and F3, or 0.
    pub rep: u8,
    pub p66: bool,
    pub p67: bool,
    /// The last byte where it is REX, or 0.
    pub rex: u8,
}

/// What REX, VEX or EVEX says, with the class and the map.
#[derive(Clone, Copy)]
pub struct Payload {
    pub class: Class,
    pub map: u8,
    pub w: bool,
    pub r: u8,
    pub x: u8,
    pub b: u8,
    pub v: u8,
    pub l: u8,
    pub pp: u8,
    pub z: bool,
    pub bc: bool,
    pub aaa: u8,
}

/// The prefixes and the byte after them.
#[derive(Clone, Copy)]
pub struct Lead {
    pub front: Front,
    pub byte: u8,
}

/// All up to the opcode, and which bytes follow it.
#[derive(Clone, Copy)]
pub struct Head {
    pub front: Front,
    pub payload: Payload,
    pub opcode: u8,
    pub shape: Shape,
}
