//! How many bytes an operand in memory has.
ghost use Rattle.std.specs.Prelude.{◌≡◌, ◌<◌, ◌≤◌};
ghost use Rattle.row_table.specs.Tuples.{vector_bytes as vector_bytes_spec, element_bytes as element_bytes_spec, tuple_bytes as tuple_bytes_spec, source_width as source_width_spec};

use crate::kinds::Tuple;

/// The bytes of a vector, by L of VEX and L'L of EVEX.
pub fn vector_bytes(l: u8) -> u8
    ensures value { result ≡ vector_bytes_spec l }
    ensures some { 0 < result }
{
    match l {
        0 => 16,
        1 => 32,
        _ => 64,
    }
}

/// The bytes of an element that is broadcast, by W.
pub fn element_bytes(w: bool) -> u8
    ensures { result ≡ element_bytes_spec w }
{
    if w { 8 } else { 4 }
}

/// The bytes of an operand in memory, by its tuple and by the bytes of an element of the row and of a vector.
pub fn tuple_bytes(tuple: Tuple, element: u8, vector: u8) -> u8
    requires { element < 32 }
    ensures value { result ≡ tuple_bytes_spec tuple element vector }
    ensures most { element ≤ 8 → vector ≤ 64 → result ≤ 64 }
{
    match tuple {
        Tuple::NoTuple | Tuple::Full | Tuple::FullMem => vector,
        Tuple::Half | Tuple::HalfMem => vector / 2,
        Tuple::QuarterMem => vector / 4,
        Tuple::EighthMem => vector / 8,
        Tuple::Mem128 => 16,
        Tuple::T1S => element,
        Tuple::T2 => 2 * element,
        Tuple::T4 => 4 * element,
        Tuple::T8 => 8 * element,
    }
}

/// The bytes of an element in memory of a source, by those of a lane.
pub fn source_width(tuple: Tuple, width: u8) -> u8
    ensures value { result ≡ source_width_spec tuple width }
    ensures most { result ≤ width }
{
    match tuple {
        Tuple::Half | Tuple::HalfMem => width / 2,
        Tuple::QuarterMem => width / 4,
        Tuple::EighthMem => width / 8,
        Tuple::NoTuple
        | Tuple::Full
        | Tuple::FullMem
        | Tuple::Mem128
        | Tuple::T1S
        | Tuple::T2
        | Tuple::T4
        | Tuple::T8 => width,
    }
}
