//! The row that the fields of a VEX instruction spell.
ghost use Rattle.std.specs.Prelude.{◌≡◌};
ghost use Rattle.row_table.specs.Spelling.{IsSpelling};
ghost use Rattle.vex_decode.specs.Spelling.{bits_fit, vvvv_fits, allowed, vex_encoding};

use row_table::{
    Class, Decoded, Fields, Row, are_bytes_there, do_opmasks_fit, do_registers_fit, find,
    is_vvvv_used, is_without_evex, is_without_prefixes, row,
};

/// Whether L and pp are numbers of their bits.
fn do_bits_fit(fields: &Fields) -> bool
    ensures { result ≡ bits_fit fields.now }
{
    fields.l < 2 && fields.pp < 4
}

/// Whether vvvv names a register where the row has an operand there, and else none.
fn does_vvvv_fit(row: &Row, fields: &Fields) -> bool
    ensures { result ≡ vvvv_fits row.now fields.now }
{
    fields.v < 16 && (is_vvvv_used(row.operands) || fields.v == 0)
}

/// Whether the fields meet the rules of a row that they match.
fn is_allowed(row: &Row, fields: &Fields) -> bool
    ensures { result ≡ allowed row.now fields.now }
{
    is_without_prefixes(fields)
        && do_bits_fit(fields)
        && do_registers_fit(fields)
        && do_opmasks_fit(row, fields)
        && does_vvvv_fit(row, fields)
        && are_bytes_there(fields)
        && is_without_evex(fields)
}

/// The instruction with these fields: the row that they spell, and its displacement.
pub fn match_vex(fields: &Fields) -> Option<Decoded>
    requires { fields.now.class ≡ Class.Vex }
    ensures { IsSpelling vex_encoding fields.now result }
{
    let index = find(fields)?;
    if !is_allowed(&row(index), fields) {
        return None;
    }
    Some(Decoded {
        row: index,
        fields: *fields,
        disp: fields.disp,
    })
}
