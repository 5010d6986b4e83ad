//! The row that the fields of a legacy instruction spell.
ghost use Rattle.std.specs.Prelude.{◌≡◌};
ghost use Rattle.row_table.specs.Spelling.{IsSpelling};
ghost use Rattle.legacy_decode.specs.Spelling.{without_vex, allowed, legacy_encoding};

use crate::locking::does_lock_fit;
use row_table::{
    Class, Decoded, Fields, Row, are_bytes_there, do_registers_fit, find, is_without_evex, row,
};

/// Whether there is nothing that VEX and EVEX alone have.
fn is_without_vex(fields: &Fields) -> bool
    ensures { result ≡ without_vex fields.now }
{
    fields.v == 0 && is_without_evex(fields)
}

/// Whether the fields meet the rules of a row that they match.
fn is_allowed(row: &Row, fields: &Fields) -> bool
    ensures { result ≡ allowed row.now fields.now }
{
    does_lock_fit(row, fields)
        && do_registers_fit(fields)
        && are_bytes_there(fields)
        && is_without_vex(fields)
}

/// The instruction with these fields: the row that they spell, and its displacement.
pub fn match_legacy(fields: &Fields) -> Option<Decoded>
    requires { fields.now.class ≡ Class.Legacy }
    ensures { IsSpelling legacy_encoding fields.now result }
{
    let index = find(fields)?;
    if !is_allowed(&row(index), fields) {
        return None;
    }
    Some(Decoded {
        row: index,
        fields: *fields,
        disp: fields.disp,
    })
}
