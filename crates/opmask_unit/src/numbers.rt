//! The low bits of opmasks.
ghost use Rattle.std.specs.Prelude.{◌≡◌, ◌%◌, ◌^◌, ◌<◌, ◌≤◌};
ghost use Rattle.opmask_unit.specs.Opmasks.{inverted as inverted_to};

use gpr_flags::{low, ones};

/// The low bits of an opmask.
pub(crate) fn cut(bits: u8, a: u64) -> u64
    requires { bits ≤ 64 }
    ensures value { result ≡ a % 2 ^ bits }
    ensures fits { result < 2 ^ bits }
{
    low(u32::from(bits), u128::from(a))
}

/// Each bit inverted.
pub(crate) fn inverted(bits: u8, a: u64) -> u64
    requires most { bits ≤ 64 }
    requires a { a < 2 ^ bits }
    ensures value { result ≡ inverted_to bits a }
    ensures fits { result < 2 ^ bits }
{
    ones(u32::from(bits)) - a
}
