//! Shifts of two lanes together, and bits of quadwords. Of a result its low bits count.
ghost use Rattle.std.specs.Prelude.{◌≡◌, ◌+◌, ◌*◌, ◌%◌, ◌^◌, ◌<◌, ◌≤◌, length, IsTrue};
ghost use Rattle.gpr_flags.specs.Registers.{is_size};
ghost use Rattle.gpr_flags.specs.Numbers.{has_bit as has_bit_of};
ghost use Rattle.gpr_flags.specs.Shifts.{rotated};
ghost use Rattle.num_lanes.specs.Lane.{IsLength};
ghost use Rattle.mac_kernels.specs.MacOps.{double_left as double_left_of, double_right as double_right_of, quadword as quadword_of};

use gpr_flags::{has_bit, join, low, rotated_number};
use num_lanes::get_lane;

/// The high bits of two numbers together, shifted to the left.
pub(crate) fn double_left(bits: u32, above: u64, below: u64, count: u64) -> u64
    requires some { 0 < bits }
    requires most { bits ≤ 64 }
    requires above { above < 2 ^ bits }
    requires below { below < 2 ^ bits }
    ensures { result % 2 ^ bits ≡ double_left_of bits above below count % 2 ^ bits }
{
    let shift = (count % u64::from(bits)) as u32;
    low(bits, join(bits, above, below) >> (bits - shift))
}

/// The low bits of two numbers together, shifted to the right.
pub(crate) fn double_right(bits: u32, above: u64, below: u64, count: u64) -> u64
    requires some { 0 < bits }
    requires most { bits ≤ 64 }
    requires above { above < 2 ^ bits }
    requires below { below < 2 ^ bits }
    ensures { result % 2 ^ bits ≡ double_right_of bits above below count % 2 ^ bits }
{
    let shift = (count % u64::from(bits)) as u32;
    low(bits, join(bits, above, below) >> shift)
}

/// The quadword that has the bytes of a lane.
fn quadword<const W: usize>(bytes: &[u8], lane: usize) -> u64
    requires width { IsTrue (is_size W) }
    requires length { IsLength (length bytes.now) }
    requires in_range { lane * W + W ≤ length bytes.now }
    ensures { result ≡ quadword_of W bytes.now lane }
{
    get_lane::<8>(bytes, lane * W / 8)
}

/// The bit of that quadword that the low six bits of a number name.
pub(crate) fn quadword_bit<const W: usize>(bytes: &[u8], lane: usize, place: u64) -> bool
    requires width { IsTrue (is_size W) }
    requires length { IsLength (length bytes.now) }
    requires in_range { lane * W + W ≤ length bytes.now }
    ensures { result ≡ has_bit_of (quadword_of W bytes.now lane) (place % 64) }
{
    has_bit(quadword::<W>(bytes, lane), (place % 64) as u32)
}

/// That quadword, rotated so that the bit that the low six bits of a number name is the lowest.
pub(crate) fn quadword_bits<const W: usize>(bytes: &[u8], lane: usize, place: u64) -> u64
    requires width { IsTrue (is_size W) }
    requires length { IsLength (length bytes.now) }
    requires in_range { lane * W + W ≤ length bytes.now }
    ensures { result ≡ rotated 64 (quadword_of W bytes.now lane) (place % 64) }
{
    rotated_number(64, quadword::<W>(bytes, lane), (place % 64) as u32)
}
