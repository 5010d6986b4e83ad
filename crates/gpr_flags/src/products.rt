//! Products, and their halves.
ghost use Rattle.std.specs.Prelude.{◌≡◌, pos, ◌+◌, ◌*◌, ◌<◌, ◌≤◌, ◌^◌, ◌*ℤ◌};
ghost use Rattle.gpr_flags.specs.Numbers.{low_half, high_half};

use crate::numbers::{low, power};

/// A product of signed numbers.
pub fn signed_product(a: i64, b: i64) -> i128
    ensures { result ≡ a *ℤ b }
{
    i128::from(a) * i128::from(b)
}

/// The halves of the low bits of a product, twice `bits` of them.
pub fn halves(bits: u32, product: u128) -> (u64, u64)
    requires { bits ≤ 64 }
    ensures low { result.0 ≡ low_half bits (pos product) }
    ensures high { result.1 ≡ high_half bits (pos product) }
    ensures low_small { result.0 < 2 ^ bits }
    ensures high_small { result.1 < 2 ^ bits }
{
    (low(bits, product), low(bits, product / power(bits)))
}

/// The same of a signed product.
pub fn signed_halves(bits: u32, product: i128) -> (u64, u64)
    requires { bits ≤ 64 }
    ensures low { result.0 ≡ low_half bits product }
    ensures high { result.1 ≡ high_half bits product }
    ensures low_small { result.0 < 2 ^ bits }
    ensures high_small { result.1 < 2 ^ bits }
{
    halves(bits, product.cast_unsigned())
}

/// A number of twice as many bits, of its halves.
pub fn join(bits: u32, high: u64, low: u64) -> u128
    requires most { bits ≤ 64 }
    requires high { high < 2 ^ bits }
    requires low { low < 2 ^ bits }
    ensures value { result ≡ high * 2 ^ bits + low }
    ensures small { result < 2 ^ (2 * bits) }
{
    u128::from(high) * power(bits) + u128::from(low)
}
