//! Which instruction some bytes begin with.
ghost use Rattle.row_table.specs.Spelling.{IsSpelling};
ghost use Rattle.x_decode.specs.Seeing.{encoding_of, IsSeen};

use crate::kinds::Seen;
use evex_decode::match_evex;
use form_scan::{LIMIT, Scan, scan};
use legacy_decode::match_legacy;
use row_table::{Class, Decoded, Fields};
use vex_decode::match_vex;

/// The instruction with these fields, by the rules of their class.
fn matched(fields: &Fields) -> Option<Decoded>
    ensures { IsSpelling (encoding_of fields.now.class) fields.now result }
{
    match fields.class {
        Class::Legacy => match_legacy(fields),
        Class::Vex => match_vex(fields),
        Class::Evex => match_evex(fields),
    }
}

/// What the first fifteen of the bytes begin with.
pub fn decode(bytes: &[u8]) -> Seen
    ensures { IsSeen bytes.now result }
{
    match scan(bytes) {
        Scan::Whole(fields, len) => match matched(&fields) {
            Some(decoded) => Seen::Instr(decoded, len),
            None => Seen::Bad,
        },
        Scan::Short if bytes.len() < LIMIT => Seen::Short,
        Scan::Short => Seen::TooLong,
        Scan::Dead => Seen::Bad,
    }
}
