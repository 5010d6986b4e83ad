//! What a displacement of one byte is multiplied by.
ghost use Rattle.std.specs.Prelude.{◌≡◌, ◌≤ℤ◌, ◌<ℤ◌, ◌*ℤ◌, pos, negsuc, true};
ghost use Rattle.evex_decode.specs.Scale.{is_half as is_half_tuple, broadcast_bytes as broadcast_bytes_of, scale_of, displacement_of};
ghost use Rattle.evex_decode.specs.Spelling.{byte_fits};

use crate::masking::does_have_broadcast;
use row_table::{Fields, Row, Tuple, element_bytes, tuple_bytes, vector_bytes};

/// Whether a tuple is Half.
fn is_half(tuple: Tuple) -> bool
    ensures { result ≡ is_half_tuple tuple }
{
    match tuple {
        Tuple::Half => true,
        Tuple::NoTuple
        | Tuple::Full
        | Tuple::FullMem
        | Tuple::HalfMem
        | Tuple::QuarterMem
        | Tuple::EighthMem
        | Tuple::Mem128
        | Tuple::T1S
        | Tuple::T2
        | Tuple::T4
        | Tuple::T8 => false,
    }
}

/// The bytes of an element that is broadcast.
fn broadcast_bytes(tuple: Tuple, w: bool) -> u8
    ensures { result ≡ broadcast_bytes_of tuple w }
{
    if is_half(tuple) { 4 } else { element_bytes(w) }
}

/// The number N of disp8*N.
#[tactic(auto, unfolding(crate::specs::Scale::scale_of))]
pub(crate) fn scale(row: &Row, fields: &Fields) -> u8
    ensures { result ≡ scale_of row.now fields.now }
{
    if fields.bc && does_have_broadcast(row.tuple) {
        broadcast_bytes(row.tuple, fields.w)
    } else {
        tuple_bytes(row.tuple, row.width / 8, vector_bytes(fields.l))
    }
}

/// A displacement of one byte times N.
fn scaled(disp: i64, scale: u8) -> i64
    requires low { negsuc 127 ≤ℤ disp }
    requires high { disp <ℤ pos 128 }
    ensures { result ≡ disp *ℤ pos scale }
{
    disp * i64::from(scale)
}

/// The displacement in bytes.
pub(crate) fn displacement(row: &Row, fields: &Fields) -> i64
    requires { byte_fits fields.now ≡ true }
    ensures { result ≡ displacement_of row.now fields.now }
{
    if fields.disp_len == 1 {
        scaled(fields.disp, scale(row, fields))
    } else {
        fields.disp
    }
}
