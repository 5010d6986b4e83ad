//! The row that the fields of an EVEX instruction spell.
ghost use Rattle.std.specs.Prelude.{◌≡◌};
ghost use Rattle.row_table.specs.Spelling.{IsSpelling};
ghost use Rattle.evex_decode.specs.Spelling.{bits_fit, byte_fits, form_allowed, allowed, evex_encoding};

use crate::masking::{does_broadcast_fit, does_mask_fit, does_zeroing_fit};
use crate::naming::are_registers_allowed;
use crate::scaling::displacement;
use row_table::{Class, Decoded, Fields, Row, are_bytes_there, find, is_without_prefixes, row};

/// Whether each part of EVEX is a number of its bits, and L'L a length.
fn do_bits_fit(fields: &Fields) -> bool
    ensures { result ≡ bits_fit fields.now }
{
    fields.r < 4
        && fields.x < 2
        && fields.b < 2
        && fields.v < 32
        && fields.l < 3
        && fields.pp < 4
        && fields.aaa < 8
}

/// Whether a displacement of one byte is a number of one byte.
fn does_byte_fit(fields: &Fields) -> bool
    ensures { result ≡ byte_fits fields.now }
{
    fields.disp_len != 1 || -128 <= fields.disp && fields.disp < 128
}

/// Whether the bytes may be those of an instruction of EVEX.
fn is_form_allowed(fields: &Fields) -> bool
    ensures { result ≡ form_allowed fields.now }
{
    is_without_prefixes(fields)
        && do_bits_fit(fields)
        && does_byte_fit(fields)
        && are_bytes_there(fields)
}

/// Whether the fields meet the rules of a row that they match.
fn is_allowed(row: &Row, fields: &Fields) -> bool
    ensures { result ≡ allowed row.now fields.now }
{
    is_form_allowed(fields)
        && are_registers_allowed(row, fields)
        && does_mask_fit(row, fields)
        && does_zeroing_fit(row, fields)
        && does_broadcast_fit(row, fields)
}

/// The instruction with these fields: the row that they spell, and its displacement.
pub fn match_evex(fields: &Fields) -> Option<Decoded>
    requires { fields.now.class ≡ Class.Evex }
    ensures { IsSpelling evex_encoding fields.now result }
{
    let index = find(fields)?;
    let found = row(index);
    if !is_allowed(&found, fields) {
        return None;
    }
    Some(Decoded {
        row: index,
        fields: *fields,
        disp: displacement(&found, fields),
    })
}
