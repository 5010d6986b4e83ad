//! Lanes of a list of bytes.
ghost use Rattle.std.specs.Prelude.{ℕ, ◌≡◌, ◌≢◌, ◌+◌, ◌*◌, ◌%◌, ◌^◌, ◌<◌, ◌≤◌, length};
ghost use Rattle.std.specs.Simd.Lanes.{put_chunk, digits_l};
ghost use Rattle.num_lanes.specs.Lane.{lane_of};

use byteorder::{ByteOrder, LittleEndian};
use gpr_flags::low;

/// The bytes of a vector register, the lowest first (SDM volume 1, 15.1).
pub type Vec64 = [u8; 64];

/// The number in lane `lane` of lanes of `W` bytes, the lowest byte first (SDM volume 1, 4.1).
pub fn get_lane<const W: usize>(bytes: &[u8], lane: usize) -> u64
    requires some { 0 < W }
    requires most { W ≤ 8 }
    requires in_range { lane * W + W ≤ length bytes.now }
    ensures value { result ≡ lane_of W bytes.now lane }
    ensures small { result < 2 ^ (8 * W) }
{
    let chunk = &bytes[lane * W..lane * W + W];
    LittleEndian::read_uint(chunk, W)
}

/// Puts the low `W` bytes of a number into lane `lane` of lanes of `W` bytes.
pub fn set_lane<const W: usize>(bytes: &mut [u8], lane: usize, value: u64)
    requires some { 0 < W }
    requires most { W ≤ 8 }
    requires in_range { lane * W + W ≤ length bytes.old }
    ensures bytes { bytes.new ≡ put_chunk (lane * W) bytes.old (digits_l 256 W value) }
    ensures lane { lane_of W bytes.new lane ≡ value % 2 ^ (8 * W) }
    ensures others { (other : ℕ) → other ≢ lane → other * W + W ≤ length bytes.old
        → lane_of W bytes.new other ≡ lane_of W bytes.old other }
{
    let chunk = &mut bytes[lane * W..lane * W + W];
    LittleEndian::write_uint(chunk, low(8 * W as u32, u128::from(value)), W);
}
