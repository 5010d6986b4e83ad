//! Single bits of a number, by their place.
ghost use Rattle.std.specs.Prelude.{◌≡◌, ◌%◌, ◌^◌, ◌<◌, ◌≤◌};
ghost use Rattle.bit_units.specs.Bits.{bts_value as value_of_bts, btr_value as value_of_btr, btc_value as value_of_btc, bt_flags as flags_of_bt};

use gpr_flags::{Flags, has_bit, ones};

/// The place that a bit's number means.
fn place(width: u32, b: u64) -> u32
    requires some { 0 < width }
    requires most { width ≤ 64 }
    ensures value { result ≡ b % width }
    ensures within { result < width }
{
    (b % u64::from(width)) as u32
}

/// The number whose bit of that place alone is 1.
#[tactic(auto, using(std::proofs::lemmas::Nat::pow_below))]
fn one_bit(width: u32, place: u32) -> u64
    requires most { width ≤ 64 }
    requires within { place < width }
    ensures value { result ≡ 2 ^ place }
    ensures fits { result < 2 ^ width }
{
    1 << place
}

/// BTS.
#[tactic(auto, using(std::proofs::lemmas::Nat::or_lt))]
pub(crate) fn bts_value(width: u32, a: u64, b: u64) -> u64
    requires some { 0 < width }
    requires most { width ≤ 64 }
    requires a { a < 2 ^ width }
    ensures value { result ≡ value_of_bts width a b }
    ensures fits { result < 2 ^ width }
{
    a | one_bit(width, place(width, b))
}

/// BTR.
pub(crate) fn btr_value(width: u32, a: u64, b: u64) -> u64
    requires some { 0 < width }
    requires most { width ≤ 64 }
    requires a { a < 2 ^ width }
    ensures value { result ≡ value_of_btr width a b }
    ensures fits { result < 2 ^ width }
{
    a & (ones(width) - one_bit(width, place(width, b)))
}

/// BTC.
#[tactic(auto, using(std::proofs::lemmas::Nat::xor_lt))]
pub(crate) fn btc_value(width: u32, a: u64, b: u64) -> u64
    requires some { 0 < width }
    requires most { width ≤ 64 }
    requires a { a < 2 ^ width }
    ensures value { result ≡ value_of_btc width a b }
    ensures fits { result < 2 ^ width }
{
    a ^ one_bit(width, place(width, b))
}

/// The flags of BT, BTS, BTR and BTC.
pub(crate) fn bt_flags(width: u32, a: u64, b: u64, f: Flags) -> Flags
    requires some { 0 < width }
    requires most { width ≤ 64 }
    ensures { result ≡ flags_of_bt width a b f }
{
    Flags {
        cf: has_bit(a, place(width, b)),
        ..f
    }
}
