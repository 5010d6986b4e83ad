//! What of a row and its fields a vector result depends on.
ghost use Rattle.std.specs.Prelude.{◌≡◌, ◌≤◌, ◌/◌};
ghost use Rattle.num_lanes.specs.Lane.{IsLength};
ghost use Rattle.vec_units.specs.Form.{form_of, FormFits, IsVectorRow, vector_len as vector_len_of, is_legacy as is_legacy_class, is_compressed as is_compressed_kind, is_expanded as is_expanded_kind, chooses as chooses_kind, memory_width as memory_width_of, result_bytes as result_bytes_of};

use row_table::{
    Class, Fields, MaskKind, Op, Row, does_write_rm, source_width, tuple_bytes, vector_bytes,
};

/// What of a row and its fields a vector result depends on.
#[derive(Clone, Copy)]
pub struct Form {
    pub op: Op,
    /// The bytes of a lane.
    pub width: u8,
    /// How many lanes the result has.
    pub lanes: u8,
    /// The bytes of the vectors: 16, 32 or 64.
    pub len: u8,
    pub imm: u8,
    pub masking: MaskKind,
    pub zeroing: bool,
    /// The bytes above the vectors stay, as legacy rows have it.
    pub keeps: bool,
}

/// The bytes of the vectors of a row: of 128 bits where it ignores the length field.
fn vector_len(row: &Row, l: u8) -> u8
    ensures value { result ≡ vector_len_of row.now l }
    ensures length { IsLength result }
{
    if row.lengths == 8 {
        16
    } else {
        vector_bytes(l)
    }
}

/// Whether the bytes above the vectors stay.
fn is_legacy(class: Class) -> bool
    ensures { result ≡ is_legacy_class class }
{
    match class {
        Class::Legacy => true,
        Class::Vex | Class::Evex => false,
    }
}

/// Whether a mask is that of VPCOMPRESS.
pub(crate) fn is_compressed(kind: MaskKind) -> bool
    ensures { result ≡ is_compressed_kind kind }
{
    matches!(kind, MaskKind::Compress)
}

/// Whether a mask is that of VPEXPAND.
pub fn is_expanded(kind: MaskKind) -> bool
    ensures { result ≡ is_expanded_kind kind }
{
    matches!(kind, MaskKind::Expand)
}

/// Whether a mask chooses between the sources.
pub fn chooses(kind: MaskKind) -> bool
    ensures { result ≡ chooses_kind kind }
{
    matches!(kind, MaskKind::Select)
}

/// The bytes of an element of a row in memory.
pub fn memory_width(row: &Row) -> u8
    ensures value { result ≡ memory_width_of row.now }
    ensures most { result ≤ row.now.width / 8 }
{
    let width = row.width / 8;
    if does_write_rm(row.operands) {
        width
    } else {
        source_width(row.tuple, width)
    }
}

/// The bytes that the result of a row has, where its vectors have `len`.
fn result_bytes(row: &Row, len: u8) -> u8
    ensures value { result ≡ result_bytes_of row.now len }
    ensures most { result ≤ len }
{
    if does_write_rm(row.operands) && !is_compressed(row.mask) {
        tuple_bytes(row.tuple, row.width / 8, len).min(len)
    } else {
        len
    }
}

/// The form of a row and its fields.
#[tactic(auto, using(crate::proofs::FormLemmas::form_fits), unfolding(crate::specs::Form::form_of))]
pub fn form_for(row: &Row, fields: &Fields) -> Form
    requires { IsVectorRow row.now }
    ensures is { result ≡ form_of row.now fields.now }
    ensures fits { FormFits result }
{
    let width = row.width / 8;
    let len = vector_len(row, fields.l);
    Form {
        op: row.op,
        width,
        lanes: result_bytes(row, len) / width,
        len,
        imm: (fields.imm % 256) as u8,
        masking: row.mask,
        zeroing: fields.z,
        keeps: is_legacy(row.class),
    }
}
