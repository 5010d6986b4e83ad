//! The first and the last 1 bit of a number, and the number of its 1 bits.
ghost use Rattle.std.specs.Prelude.{◌≡◌, ◌-◌, ◌^◌, ◌<◌, ◌≤◌, count_ones};
ghost use Rattle.std.specs.Int.Count.{count_leading_zeros, count_trailing_zeros};
ghost use Rattle.bit_units.specs.Bits.{bsf_value as value_of_bsf, bsr_value as value_of_bsr, scan_flags as flags_of_scan, zeros_flags as flags_of_zeros, popcnt_flags as flags_of_popcnt};

use gpr_flags::{Flags, leading_zeros};

/// How many 0 bits there are below the lowest 1 bit, TZCNT.
pub(crate) fn trailing_zeros(width: u32, b: u64) -> u64
    requires some { 0 < width }
    requires most { width ≤ 64 }
    requires b { b < 2 ^ width }
    ensures value { result ≡ count_trailing_zeros width b }
    ensures fits { result < 2 ^ width }
{
    u64::from(b.trailing_zeros().min(width))
}

/// POPCNT.
pub(crate) fn popcnt_value(width: u32, b: u64) -> u64
    requires some { 0 < width }
    requires most { width ≤ 64 }
    requires b { b < 2 ^ width }
    ensures value { result ≡ count_ones b }
    ensures fits { result < 2 ^ width }
{
    u64::from(b.count_ones())
}

/// BSF.
pub(crate) fn bsf_value(width: u32, a: u64, b: u64) -> u64
    requires some { 0 < width }
    requires most { width ≤ 64 }
    requires a { a < 2 ^ width }
    requires b { b < 2 ^ width }
    ensures value { result ≡ value_of_bsf width a b }
    ensures fits { result < 2 ^ width }
{
    if b == 0 { a } else { trailing_zeros(width, b) }
}

/// BSR.
pub(crate) fn bsr_value(width: u32, a: u64, b: u64) -> u64
    requires some { 0 < width }
    requires most { width ≤ 64 }
    requires a { a < 2 ^ width }
    requires b { b < 2 ^ width }
    ensures value { result ≡ value_of_bsr width a b }
    ensures fits { result < 2 ^ width }
{
    if b == 0 { a } else { highest(width, b) }
}

/// The place of the highest 1 bit.
fn highest(width: u32, b: u64) -> u64
    requires some { 0 < width }
    requires most { width ≤ 64 }
    requires b { b < 2 ^ width }
    requires not_zero { 0 < b }
    ensures value { result ≡ width - 1 - count_leading_zeros width b }
    ensures fits { result < 2 ^ width }
{
    u64::from(width) - 1 - leading_zeros(width, b)
}

/// The flags of BSF and BSR.
pub(crate) fn scan_flags(b: u64, f: Flags) -> Flags
    ensures { result ≡ flags_of_scan b f }
{
    Flags { zf: b == 0, ..f }
}

/// The flags of TZCNT and LZCNT.
pub(crate) fn zeros_flags(b: u64, value: u64, f: Flags) -> Flags
    ensures { result ≡ flags_of_zeros b value f }
{
    Flags {
        cf: b == 0,
        zf: value == 0,
        ..f
    }
}

/// The flags of POPCNT.
pub(crate) fn popcnt_flags(b: u64, f: Flags) -> Flags
    ensures { result ≡ flags_of_popcnt b f }
{
    Flags {
        cf: false,
        pf: false,
        af: false,
        zf: b == 0,
        sf: false,
        ovf: false,
        ..f
    }
}
