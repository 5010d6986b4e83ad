//! Products of lanes. The numbers are below 2 to the power of their bits; of a result its low bits count.
ghost use Rattle.std.specs.Prelude.{◌≡◌, pos, ◌+◌, ◌-◌, ◌*◌, ◌/◌, ◌%◌, ◌^◌, ◌<◌, ◌≤◌};
ghost use Rattle.gpr_flags.specs.Numbers.{low_of, low_half, high_half};
ghost use Rattle.mac_kernels.specs.MacOps.{product, product52 as product52_of};

use gpr_flags::{halves, low, low_signed, signed, signed_halves, signed_product};

/// The low half of a product.
pub(crate) fn low_product(bits: u32, a: u64, b: u64) -> u64
    requires { bits ≤ 64 }
    ensures { result % 2 ^ bits ≡ a * b % 2 ^ bits }
{
    low(bits, u128::from(a) * u128::from(b))
}

/// The high half of an unsigned product.
pub(crate) fn high_unsigned(bits: u32, a: u64, b: u64) -> u64
    requires { bits ≤ 64 }
    ensures { result ≡ high_half bits (pos (a * b)) }
{
    halves(bits, u128::from(a) * u128::from(b)).1
}

/// The halves of a signed product.
fn product_halves(bits: u32, a: u64, b: u64) -> (u64, u64)
    requires some { 0 < bits }
    requires most { bits ≤ 64 }
    requires a { a < 2 ^ bits }
    requires b { b < 2 ^ bits }
    ensures low { result.0 ≡ low_half bits (product bits a b) }
    ensures high { result.1 ≡ high_half bits (product bits a b) }
{
    signed_halves(bits, signed_product(signed(bits, a), signed(bits, b)))
}

/// The high half of a signed product.
pub(crate) fn high_signed(bits: u32, a: u64, b: u64) -> u64
    requires some { 0 < bits }
    requires most { bits ≤ 64 }
    requires a { a < 2 ^ bits }
    requires b { b < 2 ^ bits }
    ensures { result ≡ high_half bits (product bits a b) }
{
    product_halves(bits, a, b).1
}

/// The high bits of a signed product, two more than half of its bits, rounded to one less.
pub(crate) fn rounded_high(bits: u32, a: u64, b: u64) -> u64
    requires some { 2 ≤ bits }
    requires most { bits ≤ 64 }
    requires a { a < 2 ^ bits }
    requires b { b < 2 ^ bits }
    ensures { result % 2 ^ bits ≡ (low_of (2 * bits) (product bits a b) / 2 ^ (bits - 2) + 1) / 2 % 2 ^ bits }
{
    let (low_part, high_part) = product_halves(bits, a, b);
    let high_bits = 4 * u128::from(high_part) + u128::from(low_part >> (bits - 2));
    low(bits, (high_bits + 1) / 2)
}

/// The product of the low 32 bits.
pub(crate) fn doublewords(a: u64, b: u64) -> u64
    ensures { result ≡ a % 2 ^ 32 * (b % 2 ^ 32) }
{
    low(32, u128::from(a)) * low(32, u128::from(b))
}

/// The signed product of the low 32 bits.
pub(crate) fn signed_doublewords(a: u64, b: u64) -> u64
    ensures { result ≡ low_of 64 (product 32 (a % 2 ^ 32) (b % 2 ^ 32)) }
{
    let first = signed(32, low(32, u128::from(a)));
    let second = signed(32, low(32, u128::from(b)));
    low_signed(64, signed_product(first, second))
}

/// The product of the low 52 bits.
fn product52(a: u64, b: u64) -> u128
    ensures { result ≡ product52_of a b }
{
    u128::from(low(52, u128::from(a))) * u128::from(low(52, u128::from(b)))
}

/// A number and the low 52 bits of such a product.
pub(crate) fn add_low52(bits: u32, d: u64, a: u64, b: u64) -> u64
    requires { bits ≤ 64 }
    ensures { result % 2 ^ bits ≡ (d + product52_of a b % 2 ^ 52) % 2 ^ bits }
{
    low(bits, u128::from(d) + u128::from(low(52, product52(a, b))))
}

/// A number and the bits above them.
pub(crate) fn add_high52(bits: u32, d: u64, a: u64, b: u64) -> u64
    requires { bits ≤ 64 }
    ensures { result % 2 ^ bits ≡ (d + product52_of a b / 2 ^ 52) % 2 ^ bits }
{
    low(bits, u128::from(d) + (product52(a, b) >> 52))
}
