//! Sums of products of bytes and of words.
ghost use Rattle.std.specs.Prelude.{◌≡◌, ◌+◌, ◌+ℤ◌, ◌*ℤ◌, ◌*◌, ◌^◌, ◌<◌, ◌≤◌, unsigned_abs};
ghost use Rattle.gpr_flags.specs.Numbers.{low_of, signed_of};
ghost use Rattle.num_lanes.specs.Ranges.{clamp_signed_of};
ghost use Rattle.mac_kernels.specs.MacOps.{part as part_of, word_product as product_of_words, byte_product as product_of_bytes, words_sum as sum_of_words, bytes_sum as sum_of_bytes};

use gpr_flags::{low, low_signed, signed};
use num_lanes::clamp_signed;

/// Part `k` of a number, of parts of `bits` bits, the lowest first.
pub(crate) fn part(bits: u32, number: u64, k: u32) -> u64
    requires most { bits ≤ 64 }
    requires within { bits * k < 64 }
    ensures value { result ≡ part_of bits number k }
    ensures small { result < 2 ^ bits }
{
    low(bits, u128::from(number >> (bits * k)))
}

/// The same as a number in two's complement.
fn signed_part(bits: u32, number: u64, k: u32) -> i16
    requires some { 0 < bits }
    requires most { bits ≤ 16 }
    requires within { bits * k < 64 }
    ensures { result ≡ signed_of bits (part_of bits number k) }
{
    signed(bits, part(bits, number, k)) as i16
}

/// A product of small numbers.
fn small_product(a: i16, b: i16) -> i32
    ensures { result ≡ a *ℤ b }
{
    i32::from(a) * i32::from(b)
}

/// The product of word `k` of each number.
fn word_product(a: u64, b: u64, k: u32) -> i32
    requires { k < 2 }
    ensures { result ≡ product_of_words a b k }
{
    small_product(signed_part(16, a, k), signed_part(16, b, k))
}

/// The product of byte `k` of each number, that of `a` unsigned.
fn byte_product(a: u64, b: u64, k: u32) -> i32
    requires { k < 4 }
    ensures { result ≡ product_of_bytes a b k }
{
    small_product(part(8, a, k) as i16, signed_part(8, b, k))
}

/// A sum of two such products.
fn sum_of_two(a: i32, b: i32) -> i64
    ensures value { result ≡ a +ℤ b }
    ensures small { unsigned_abs result ≤ 2 ^ 32 }
{
    i64::from(a) + i64::from(b)
}

/// The same of a sum and one more.
fn sum_and_one(sum: i64, a: i32) -> i64
    requires small { unsigned_abs sum ≤ 2 ^ 40 }
    ensures value { result ≡ sum +ℤ a }
    ensures small { unsigned_abs result ≤ unsigned_abs sum + 2 ^ 31 }
{
    sum + i64::from(a)
}

/// Two products of words.
pub(crate) fn words_sum(a: u64, b: u64) -> i64
    ensures { result ≡ sum_of_words a b }
{
    sum_of_two(word_product(a, b, 0), word_product(a, b, 1))
}

/// Two products of bytes.
pub(crate) fn two_bytes_sum(a: u64, b: u64) -> i64
    ensures value { result ≡ product_of_bytes a b 0 +ℤ product_of_bytes a b 1 }
    ensures small { unsigned_abs result ≤ 2 ^ 32 }
{
    sum_of_two(byte_product(a, b, 0), byte_product(a, b, 1))
}

/// Four products of bytes.
pub(crate) fn bytes_sum(a: u64, b: u64) -> i64
    ensures { result ≡ sum_of_bytes a b }
{
    let three = sum_and_one(two_bytes_sum(a, b), byte_product(a, b, 2));
    sum_and_one(three, byte_product(a, b, 3))
}

/// The low bits of a sum.
pub(crate) fn wrapped(bits: u32, sum: i64) -> u64
    requires { bits ≤ 64 }
    ensures { result ≡ low_of bits sum }
{
    low_signed(bits, i128::from(sum))
}

/// A sum with signed saturation.
pub(crate) fn clamped(bits: u32, sum: i64) -> u64
    requires some { 0 < bits }
    requires most { bits ≤ 64 }
    ensures { result ≡ clamp_signed_of bits sum }
{
    clamp_signed(i128::from(sum), bits)
}

/// The low bits of a signed number and a sum.
pub(crate) fn add_wrapped(bits: u32, d: u64, sum: i64) -> u64
    requires some { 0 < bits }
    requires most { bits ≤ 64 }
    requires d { d < 2 ^ bits }
    ensures { result ≡ low_of bits (signed_of bits d +ℤ sum) }
{
    low_signed(bits, i128::from(signed(bits, d)) + i128::from(sum))
}

/// The same with signed saturation.
pub(crate) fn add_clamped(bits: u32, d: u64, sum: i64) -> u64
    requires some { 0 < bits }
    requires most { bits ≤ 64 }
    requires d { d < 2 ^ bits }
    ensures { result ≡ clamp_signed_of bits (signed_of bits d +ℤ sum) }
{
    clamp_signed(i128::from(signed(bits, d)) + i128::from(sum), bits)
}
