//! What one row says: its shape, and whether it fits an instruction's fields.
ghost use Rattle.std.specs.Prelude.{◌≡◌};
ghost use Rattle.row_table.specs.Shapes.{shape_of, form_fits, sib_wanted};
ghost use Rattle.row_table.specs.Matching.{digit_fits, w_fits, length_fits, prefix_of_pp, mandatory, fits, IsAt, Stands};

use crate::kinds::{Class, Fields, Form, Prefix, Row, Shape, Standing};
use crate::layouts::layout;

/// Which bytes follow the row's opcode.
pub(crate) fn shape_for(row: &Row) -> Shape
    ensures { result ≡ shape_of row.now }
{
    let layout = layout(row.operands);
    let imm = match (row.map, row.opcode) {
        (0, 0xf6) => 13,
        (0, 0xf7) => 14,
        _ => layout.immediate,
    };
    Shape {
        modrm: layout.modrm,
        imm,
    }
}

fn does_form_fit(form: Form, modrm: Option<u8>) -> bool
    ensures { result ≡ form_fits form modrm }
{
    match modrm {
        None => matches!(form, Form::Either),
        Some(byte) => match form {
            Form::Either => true,
            Form::Memory => byte < 0xc0,
            Form::Register => byte >= 0xc0,
            Form::Exactly(wanted) => byte == wanted,
        },
    }
}

fn does_digit_fit(digit: Option<u8>, modrm: Option<u8>) -> bool
    ensures { result ≡ digit_fits digit modrm }
{
    match digit {
        None => true,
        Some(digit) => match modrm {
            None => false,
            Some(byte) => byte / 8 % 8 == digit,
        },
    }
}

fn does_w_fit(w: Option<bool>, bit: bool) -> bool
    ensures { result ≡ w_fits w bit }
{
    match w {
        None => true,
        Some(w) => w == bit,
    }
}

fn does_length_fit(lengths: u8, l: u8) -> bool
    ensures { result ≡ length_fits lengths l }
{
    match l {
        0 => lengths % 2 == 1 || lengths == 8,
        1 => lengths / 2 % 2 == 1 || lengths == 8,
        2 => lengths / 4 % 2 == 1,
        _ => false,
    }
}

/// Whether a row of the fields' class, map and opcode fits them in all but its prefix.
#[tactic(auto, unfolding(crate::specs::Matching::fits))]
fn does_fit(row: &Row, fields: &Fields) -> bool
    ensures { result ≡ fits row.now fields.now }
{
    does_digit_fit(row.digit, fields.modrm)
        && does_w_fit(row.w, fields.w)
        && does_length_fit(row.lengths, fields.l)
        && does_form_fit(layout(row.operands).form, fields.modrm)
}

fn prefix_in(pp: u8) -> Prefix
    ensures { result ≡ prefix_of_pp pp }
{
    match pp {
        0 => Prefix::Np,
        1 => Prefix::P66,
        2 => Prefix::PF3,
        _ => Prefix::PF2,
    }
}

/// The mandatory prefix of the fields.
fn mandatory_prefix(fields: &Fields) -> Prefix
    ensures { result ≡ mandatory fields.now }
{
    match fields.class {
        Class::Legacy => match (fields.rep, fields.p66) {
            (0xf3, _) => Prefix::PF3,
            (0xf2, _) => Prefix::PF2,
            (_, true) => Prefix::P66,
            (_, false) => Prefix::Np,
        },
        Class::Vex | Class::Evex => prefix_in(fields.pp),
    }
}

/// How a row of the fields' class, map and opcode stands to them.
pub(crate) fn standing(row: &Row, fields: &Fields) -> Standing
    requires { IsAt row.now fields.now.class fields.now.map fields.now.opcode }
    ensures { Stands row.now fields.now result }
{
    if !does_fit(row, fields) {
        Standing::Apart
    } else if row.prefix == mandatory_prefix(fields) {
        Standing::Marked
    } else if row.prefix == Prefix::Unmarked {
        Standing::Unmarked
    } else {
        Standing::Apart
    }
}

/// Whether a SIB byte follows ModRM.
pub fn wants_sib(modrm: Option<u8>) -> bool
    ensures { result ≡ sib_wanted modrm }
{
    match modrm {
        None => false,
        Some(byte) => byte < 0xc0 && byte % 8 == 4,
    }
}
