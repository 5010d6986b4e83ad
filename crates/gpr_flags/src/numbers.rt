//! Numbers of so many bits, their bits and their sign, and whole numbers as bits in two's complement.
ghost use Rattle.std.specs.Prelude.{◌≡◌, ◌%◌, ◌^◌, ◌<◌, ◌≤◌};
ghost use Rattle.std.specs.Int.Count.{count_leading_zeros};
ghost use Rattle.gpr_flags.specs.Numbers.{has_bit as has_bit_of, is_negative as is_negative_of, signed_of, low_of};

/// 2 to the power of `exponent`.
pub fn power(exponent: u32) -> u128
    requires { exponent < 128 }
    ensures { result ≡ 2 ^ exponent }
{
    1 << exponent
}

/// The low bits of a number.
#[tactic(auto, using(std::proofs::lemmas::Nat::and_mask))]
pub fn low(bits: u32, number: u128) -> u64
    requires { bits ≤ 64 }
    ensures value { result ≡ number % 2 ^ bits }
    ensures small { result < 2 ^ bits }
{
    (number & (power(bits) - 1)) as u64
}

/// Whether a bit of a number is 1; the lowest has the place 0 (SDM volume 1, 1.3.1).
pub fn has_bit(number: u64, place: u32) -> bool
    requires { place < 64 }
    ensures { result ≡ has_bit_of number place }
{
    (number >> place) % 2 == 1
}

/// Whether the highest bit of a number of that width is 1, its sign (SDM volume 1, 4.2.1.2).
pub fn is_negative(width: u32, number: u64) -> bool
    requires some { 0 < width }
    requires most { width ≤ 64 }
    ensures { result ≡ is_negative_of width number }
{
    has_bit(number, width - 1)
}

/// How many 0 bits there are above the highest 1 bit.
pub fn leading_zeros(width: u32, b: u64) -> u64
    requires some { 0 < width }
    requires most { width ≤ 64 }
    requires b { b < 2 ^ width }
    ensures value { result ≡ count_leading_zeros width b }
    ensures within { result ≤ width }
    ensures fits { result < 2 ^ width }
{
    u64::from(b.leading_zeros() - (64 - width))
}

/// The number that `bits` bits are in two's complement.
pub fn signed(bits: u32, number: u64) -> i64
    requires some { 0 < bits }
    requires most { bits ≤ 64 }
    requires fits { number < 2 ^ bits }
    ensures { result ≡ signed_of bits number }
{
    if is_negative(bits, number) {
        (i128::from(number) - (1 << bits)) as i64
    } else {
        number as i64
    }
}

/// The low bits of a number in two's complement.
pub fn low_signed(bits: u32, number: i128) -> u64
    requires { bits ≤ 64 }
    ensures value { result ≡ low_of bits number }
    ensures small { result < 2 ^ bits }
{
    low(bits, number.cast_unsigned())
}
