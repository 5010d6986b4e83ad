//! Which instruction some bytes begin with.
ghost use Rattle.std.specs.Prelude.{◌≡◌, ◌≤◌, ◌↔◌, ◌++◌, ℕ, List, [], length};
ghost use Rattle.form_scan.specs.Reading.{Gives, fields_at};
ghost use Rattle.form_scan.specs.Shaped.{most_bytes, Shaped, IsWhole, IsCut, within_limit};
ghost use Rattle.form_scan.specs.Scanning.{scan_of, scanned};
ghost use Rattle.row_table.specs.declared.kinds.Fields.{Fields as AllFields};

use crate::head::{read_head, read_lead};
use crate::kinds::{Scan, Stop};
use crate::tail::read_tail;
use row_table::Fields;

/// An instruction's bytes at most (Intel SDM volume 2, section 2.3.11).
pub const LIMIT: usize = 15;

#[tactic(auto, unfolding(crate::specs::Reading::fields_at))]
fn read_fields(bytes: &[u8]) -> Result<(Fields, &[u8]), Stop>
    ensures { Gives (λ x. (x.0, x.1.now)) result (fields_at bytes.now) }
{
    let (lead, rest) = read_lead(bytes)?;
    let (head, rest) = read_head(lead, rest)?;
    read_tail(head, rest)
}

/// The same as `scan` of at most fifteen bytes.
fn scan_within(bytes: &[u8]) -> Scan
    requires { length bytes.now ≤ most_bytes }
    ensures whole { (f : AllFields) (n : ℕ) → (result ≡ Scan.Whole f n) ↔ IsWhole bytes.now f n }
    ensures short { (result ≡ Scan.Short) ↔ IsCut bytes.now }
    ensures value { result ≡ scan_of (length bytes.now) (fields_at bytes.now) }
{
    match read_fields(bytes) {
        Ok((fields, rest)) => Scan::Whole(fields, (bytes.len() - rest.len()) as u8),
        Err(Stop::Short) => Scan::Short,
        Err(Stop::Dead) => Scan::Dead,
    }
}

/// The bytes that may be an instruction's.
#[tactic(auto, unfolding(crate::specs::Shaped::within_limit))]
fn first_bytes(bytes: &[u8]) -> &[u8]
    ensures value { result.now ≡ within_limit bytes.now }
    ensures limit { length result.now ≤ most_bytes }
{
    if bytes.len() < LIMIT {
        bytes
    } else {
        &bytes[..LIMIT]
    }
}

/// The instruction that the first fifteen of the bytes begin with: its fields and its length, where they
/// hold one whole; `Short` where all of them are the first bytes of one; else `Dead`.
pub fn scan(bytes: &[u8]) -> Scan
    ensures whole { (f : AllFields) (n : ℕ)
        → (result ≡ Scan.Whole f n) ↔ IsWhole (within_limit bytes.now) f n }
    ensures short { (result ≡ Scan.Short) ↔ IsCut (within_limit bytes.now) }

    // No instruction's bytes begin another's.
    ensures alone { (a b : List ℕ) (f g : AllFields)
        → Shaped a f → Shaped (a ++ b) g → (b ≡ []) × (f ≡ g) }
    ensures value { result ≡ scanned bytes.now }

    // More bytes change nothing, unless all of them are the first of an instruction.
    ensures stays { (result ≡ Scan.Short → ⊥) → (more : List ℕ) → scanned (bytes.now ++ more) ≡ result }
{
    scan_within(first_bytes(bytes))
}
