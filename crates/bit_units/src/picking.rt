//! The bits that a mask picks.
ghost use Rattle.std.specs.Prelude.{◌≡◌, ◌*◌, ◌^◌, ◌<◌, ◌≤◌};
ghost use Rattle.std.specs.Int.{bit_at};
ghost use Rattle.bit_units.specs.Picks.{extracted as extracted_from, deposited as deposited_from};

use gpr_flags::has_bit;

/// A bit at a place.
fn bit_of(number: u64, from: u32, to: u32) -> u64
    requires from { from < 64 }
    requires to { to < 64 }
    ensures value { result ≡ bit_at number from * 2 ^ to }
    ensures most { result ≤ 2 ^ to }
{
    (number >> from) % 2 * (1 << to)
}

/// The bits of a number at the places of the mask, packed from bit 0 up, PEXT.
pub(crate) fn extracted(width: u32, number: u64, mask: u64) -> u64
    requires most { width ≤ 64 }
    ensures value { result ≡ extracted_from width number mask }
    ensures fits { result < 2 ^ width }
{
    let mut value = 0u64;
    let mut count = 0u32;
    for place in 0..width {
        if has_bit(mask, place) {
            value += bit_of(number, place, count);
            count += 1;
        }
    }
    value
}

/// The low bits of a number, put at the places of the mask, PDEP.
pub(crate) fn deposited(width: u32, number: u64, mask: u64) -> u64
    requires most { width ≤ 64 }
    ensures value { result ≡ deposited_from width number mask }
    ensures fits { result < 2 ^ width }
{
    let mut value = 0u64;
    let mut count = 0u32;
    for place in 0..width {
        if has_bit(mask, place) {
            value += bit_of(number, count, place);
            count += 1;
        }
    }
    value
}
