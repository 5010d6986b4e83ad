//! Sums of the absolute differences of bytes.
ghost use Rattle.std.specs.Prelude.{◌≡◌, ◌+◌, ◌*◌, ◌<◌, ◌≤◌, length};
ghost use Rattle.std.specs.Int.{abs_diff};
ghost use Rattle.num_lanes.specs.Lane.{IsLength, lane_of};
ghost use Rattle.mac_kernels.specs.MacOps.{sum_of, part as part_of, four_differences as four_differences_of, word_of_differences as word_of_differences_of, chosen as chosen_of, word_of_chosen as word_of_chosen_of};

use crate::sums::part;
use num_lanes::get_lane;

/// The sum over the bytes of two numbers.
#[tactic(auto, unfolding(crate::specs::MacOps::sum_of))]
pub(crate) fn byte_differences(a: u64, b: u64) -> u64
    ensures { result ≡ sum_of 8 (λ k. abs_diff (part_of 8 a k) (part_of 8 b k)) }
{
    let mut sum = 0;
    for k in 0..8 {
        sum += part(8, a, k).abs_diff(part(8, b, k));
    }
    sum
}

/// The difference of two bytes, by their places.
fn difference(first: &[u8], p: usize, second: &[u8], q: usize) -> u64
    requires first { p < length first.now }
    requires second { q < length second.now }
    ensures value { result ≡ abs_diff (lane_of 1 first.now p) (lane_of 1 second.now q) }
    ensures small { result < 256 }
{
    get_lane::<1>(first, p).abs_diff(get_lane::<1>(second, q))
}

/// The sum over four bytes of each operand, from these places on.
fn four_differences(first: &[u8], p: usize, second: &[u8], q: usize) -> u64
    requires first { p + 3 < length first.now }
    requires second { q + 3 < length second.now }
    requires first_fits { length first.now ≤ 64 }
    requires second_fits { length second.now ≤ 64 }
    ensures { result ≡ four_differences_of (lane_of 1 first.now) (lane_of 1 second.now) p q }
{
    difference(first, p, second, q)
        + difference(first, p + 1, second, q + 1)
        + difference(first, p + 2, second, q + 2)
        + difference(first, p + 3, second, q + 3)
}

/// The word that MPSADBW puts at a place among the bytes.
pub(crate) fn word_of_differences(imm: u8, first: &[u8], second: &[u8], place: usize) -> u64
    requires length { IsLength (length second.now) }
    requires first { length first.now ≡ length second.now }
    requires in_range { place < length second.now }
    ensures { result ≡ word_of_differences_of imm first.now second.now place }
{
    let start = place / 16 * 16;
    let bits = usize::from(if place / 16 % 2 == 0 { imm } else { imm / 8 });
    four_differences(
        first,
        start + 4 * (bits / 4 % 2) + place % 16 / 2,
        second,
        start + 4 * (bits % 4),
    )
}

/// The byte at a place, where each doubleword of 128 bits is that which two bits of the immediate name.
fn chosen(imm: u8, bytes: &[u8], p: usize) -> u64
    requires length { IsLength (length bytes.now) }
    requires in_range { p < length bytes.now }
    ensures value { result ≡ chosen_of imm bytes.now p }
    ensures small { result < 256 }
{
    let choice = part(2, u64::from(imm), (p % 16 / 4) as u32);
    get_lane::<1>(bytes, p / 16 * 16 + 4 * choice as usize + p % 4)
}

/// The difference of a byte and such a byte.
fn chosen_difference(imm: u8, first: &[u8], p: usize, second: &[u8], q: usize) -> u64
    requires length { IsLength (length second.now) }
    requires first { p < length first.now }
    requires second { q < length second.now }
    ensures value { result ≡ abs_diff (lane_of 1 first.now p) (chosen_of imm second.now q) }
    ensures small { result < 256 }
{
    get_lane::<1>(first, p).abs_diff(chosen(imm, second, q))
}

/// The sum over four bytes of the first operand and four such bytes.
fn four_chosen(imm: u8, first: &[u8], p: usize, second: &[u8], q: usize) -> u64
    requires length { IsLength (length second.now) }
    requires first { p + 3 < length first.now }
    requires second { q + 3 < length second.now }
    requires first_fits { length first.now ≤ 64 }
    ensures { result ≡ four_differences_of (lane_of 1 first.now) (chosen_of imm second.now) p q }
{
    chosen_difference(imm, first, p, second, q)
        + chosen_difference(imm, first, p + 1, second, q + 1)
        + chosen_difference(imm, first, p + 2, second, q + 2)
        + chosen_difference(imm, first, p + 3, second, q + 3)
}

/// The word that VDBPSADBW puts at a place among the bytes.
pub(crate) fn word_of_chosen(imm: u8, first: &[u8], second: &[u8], place: usize) -> u64
    requires length { IsLength (length second.now) }
    requires first { length first.now ≡ length second.now }
    requires in_range { place < length second.now }
    ensures { result ≡ word_of_chosen_of imm first.now second.now place }
{
    let start = place / 8 * 8;
    let k = place % 8 / 2;
    four_chosen(imm, first, start + 4 * (k / 2), second, start + k)
}
