//! The table: its rows, the row of an instruction's fields, and the shape of an opcode.
ghost use Rattle.std.specs.Prelude.{◌≡◌, ◌+◌, ◌<◌, ◌≤◌, ℕ, length, slice_get, slice_index, Some, IfSome, IfNone};
ghost use Rattle.row_table.specs.Rows.{rows, starts, place};
ghost use Rattle.row_table.specs.Shapes.{shape_of};
ghost use Rattle.row_table.specs.Matching.{Matches, IsAt, IsTable, matched, shape_at, map_used};
ghost use Rattle.row_table.specs.declared.kinds.Row.{Row as AnyRow};

use crate::kinds::{Class, Fields, Row, Shape, Standing};
use crate::matching;
use crate::table::{ROWS, STARTS};

/// The number of rows.
pub fn row_count() -> u16
    ensures count { result ≡ length rows }
    ensures sound { IsTable rows }
{
    ROWS.len() as u16
}

/// A row by its number. The rows are in order of class, map and opcode.
pub fn row(index: u16) -> Row
    requires { index < length rows }
    ensures { slice_get rows index ≡ Some result }
{
    ROWS[index as usize]
}

/// How many rows lie below a place.
fn start(place: usize) -> u16
    requires { place < 3073 }
    ensures { result ≡ slice_index starts place }
{
    STARTS[place]
}

/// Class, map and opcode as one number.
fn place_of(class: Class, map: u8, opcode: u8) -> usize
    ensures { result ≡ place class map opcode }
{
    let class = match class {
        Class::Legacy => 0,
        Class::Vex => 1,
        Class::Evex => 2,
    };
    class * 1024 + map as usize * 256 + opcode as usize
}

/// The rows of a class, map and opcode: from the first number to below the second.
fn run(class: Class, map: u8, opcode: u8) -> (u16, u16)
    ensures within { result.1 ≤ length rows }
    ensures holds { (i : ℕ) (r : AnyRow) → slice_get rows i ≡ Some r → IsAt r class map opcode
        → (result.0 ≤ i) × (i < result.1) }
    ensures only { (i : ℕ) (r : AnyRow) → slice_get rows i ≡ Some r → result.0 ≤ i → i < result.1
        → IsAt r class map opcode }
{
    if map > 3 {
        return (0, 0);
    }
    let place = place_of(class, map, opcode);
    (start(place), start(place + 1))
}

/// The row of an instruction's fields. That the instruction meets the other rules of its row, as those on
/// LOCK, on masks and on register numbers, is not looked at.
pub fn find(fields: &Fields) -> Option<u16>
    ensures within { IfSome result (λ i. i < length rows) }
    ensures some { IfSome result (Matches rows fields.now) }
    ensures only { IfSome result (λ i. (j : ℕ) → Matches rows fields.now j → j ≡ i) }
    ensures none { IfNone result ((i : ℕ) → Matches rows fields.now i → ⊥) }
    ensures value { result ≡ matched fields.now }
{
    let (start, end) = run(fields.class, fields.map, fields.opcode);
    let mut unmarked = None;
    for i in start..end {
        match matching::standing(&row(i), fields) {
            Standing::Marked => return Some(i),
            Standing::Unmarked => unmarked = Some(i),
            Standing::Apart => {}
        }
    }
    unmarked
}

/// The shape of the rows of a class, map and opcode.
pub fn shape(class: Class, map: u8, opcode: u8) -> Option<Shape>
    ensures value { result ≡ shape_at class map opcode }
    ensures common { (i : ℕ) (r : AnyRow) → slice_get rows i ≡ Some r → IsAt r class map opcode
        → result ≡ Some (shape_of r) }
    ensures none { IfNone result ((i : ℕ) (r : AnyRow) → slice_get rows i ≡ Some r → IsAt r class map opcode → ⊥) }
{
    let (start, end) = run(class, map, opcode);
    if start < end {
        let first = row(start);
        Some(matching::shape_for(&first))
    } else {
        None
    }
}

/// Whether the class has a row in the map.
pub fn is_used(class: Class, map: u8) -> bool
    ensures { result ≡ map_used class map }
{
    if map > 3 {
        return false;
    }
    let place = place_of(class, map, 0);
    start(place) < start(place + 256)
}
