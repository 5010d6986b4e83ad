//! The accesses of an iteration.
ghost use Rattle.std.specs.Prelude.{◌≡◌};
ghost use Rattle.string_unit.specs.Strings.{reads as reads_of, writes as writes_of, string_accesses};

use arrayvec::ArrayVec;
use machine_state::{Access, Kind};
use row_table::StringOp;

/// A read of so many bytes.
fn reads(addr: u64, size: u8) -> Access
    ensures { result ≡ reads_of addr size }
{
    Access {
        kind: Kind::Read,
        addr,
        len: u64::from(size),
    }
}

/// A write of so many bytes.
fn writes(addr: u64, size: u8) -> Access
    ensures { result ≡ writes_of addr size }
{
    Access {
        kind: Kind::Write,
        addr,
        len: u64::from(size),
    }
}

/// The access list of an operation, whose operands are at these places.
#[tactic(auto, unfolding(crate::specs::Strings::string_accesses))]
pub fn accesses(op: StringOp, size: u8, source: u64, destination: u64) -> ArrayVec<Access, 2>
    ensures { result.items ≡ string_accesses op size source destination }
{
    let mut list = ArrayVec::new();
    match op {
        StringOp::Movs => {
            list.push(reads(source, size));
            list.push(writes(destination, size));
        }
        StringOp::Cmps => {
            list.push(reads(source, size));
            list.push(reads(destination, size));
        }
        StringOp::Stos => list.push(writes(destination, size)),
        StringOp::Lods => list.push(reads(source, size)),
        StringOp::Scas => list.push(reads(destination, size)),
    }
    list
}
