//! Which masks, zeroing and broadcast a row of EVEX takes.
ghost use Rattle.std.specs.Prelude.{◌≡◌};
ghost use Rattle.evex_decode.specs.Scale.{has_broadcast};
ghost use Rattle.evex_decode.specs.Spelling.{takes_mask, mask_fits, may_zero, writes_memory, zeroing_fits, broadcast_fits};

use row_table::{Fields, MaskKind, Row, Tuple, does_write_rm, is_memory};

/// Whether a row of that kind takes the opmask, where 0 is none.
fn does_take_mask(kind: MaskKind, aaa: u8) -> bool
    ensures { result ≡ takes_mask kind aaa }
{
    match kind {
        MaskKind::NoMask | MaskKind::Signs | MaskKind::SignsZero | MaskKind::Select => aaa == 0,
        MaskKind::MergeZero
        | MaskKind::ToMask
        | MaskKind::Blend
        | MaskKind::Compress
        | MaskKind::Expand => true,
        MaskKind::Required => aaa != 0,
    }
}

/// Whether the row takes the opmask that is named, or none.
pub(crate) fn does_mask_fit(row: &Row, fields: &Fields) -> bool
    ensures { result ≡ mask_fits row.now fields.now }
{
    does_take_mask(row.mask, fields.aaa)
}

/// Whether a row of that kind may make masked-out lanes 0.
fn can_zero(kind: MaskKind) -> bool
    ensures { result ≡ may_zero kind }
{
    match kind {
        MaskKind::MergeZero | MaskKind::Blend | MaskKind::Compress | MaskKind::Expand => true,
        MaskKind::NoMask
        | MaskKind::ToMask
        | MaskKind::Required
        | MaskKind::Signs
        | MaskKind::SignsZero
        | MaskKind::Select => false,
    }
}

/// Whether the destination is in memory.
fn does_write_memory(row: &Row, fields: &Fields) -> bool
    ensures { result ≡ writes_memory row.now fields.now }
{
    does_write_rm(row.operands) && is_memory(fields.modrm)
}

/// Whether zeroing, where it is there, has a mask and a destination for it.
pub(crate) fn does_zeroing_fit(row: &Row, fields: &Fields) -> bool
    ensures { result ≡ zeroing_fits row.now fields.now }
{
    !fields.z || fields.aaa != 0 && can_zero(row.mask) && !does_write_memory(row, fields)
}

/// Whether an operand in memory of that tuple may be one element for all lanes.
pub(crate) fn does_have_broadcast(tuple: Tuple) -> bool
    ensures { result ≡ has_broadcast tuple }
{
    match tuple {
        Tuple::Full | Tuple::Half => true,
        Tuple::NoTuple
        | Tuple::FullMem
        | Tuple::HalfMem
        | Tuple::QuarterMem
        | Tuple::EighthMem
        | Tuple::Mem128
        | Tuple::T1S
        | Tuple::T2
        | Tuple::T4
        | Tuple::T8 => false,
    }
}

/// Whether broadcast, where it is there, has an operand in memory for it.
pub(crate) fn does_broadcast_fit(row: &Row, fields: &Fields) -> bool
    ensures { result ≡ broadcast_fits row.now fields.now }
{
    !fields.bc || is_memory(fields.modrm) && does_have_broadcast(row.tuple)
}
