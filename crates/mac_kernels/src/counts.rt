//! Lanes that are equal, and the least one.
ghost use Rattle.std.specs.Prelude.{◌≡◌, ◌+◌, ◌*◌, ◌/◌, ◌^◌, ◌<◌, ◌≤◌, ◌==◌, nat_lt, if◌then◌else◌, length, IsTrue};
ghost use Rattle.gpr_flags.specs.Registers.{is_size};
ghost use Rattle.num_lanes.specs.Lane.{IsLength, lane_of};
ghost use Rattle.mac_kernels.specs.MacOps.{sum_of, least_place as least_place_of, least_and_place as least_and_place_of};

use num_lanes::get_lane;

/// The number whose one 1 bit is at a place, or 0.
fn bit_where(holds: bool, place: usize) -> u64
    requires { place < 64 }
    ensures value { result ≡ (if holds then 2 ^ place else 0) }
    ensures most { result ≤ 2 ^ place }
{
    if holds { 1 << place } else { 0 }
}

/// A bit for each lane below `lane` that is `b`.
pub(crate) fn conflicts<const W: usize>(second: &[u8], lane: usize, b: u64) -> u64
    requires width { IsTrue (is_size W) }
    requires length { IsLength (length second.now) }
    requires in_range { lane * W + W ≤ length second.now }
    ensures { result ≡ sum_of lane (λ j. if lane_of W second.now j == b then 2 ^ j else 0) }
{
    let mut value = 0;
    for j in 0..lane {
        value += bit_where(get_lane::<W>(second, j) == b, j);
    }
    value
}

/// The one of two places, the first below the second, at which the lane is less; the first one, if they are equal.
fn lesser<const W: usize>(bytes: &[u8], place: usize, other: usize) -> usize
    requires width { IsTrue (is_size W) }
    requires place { place * W + W ≤ length bytes.now }
    requires other { other * W + W ≤ length bytes.now }
    ensures { result ≡ (if nat_lt (lane_of W bytes.now other) (lane_of W bytes.now place) then other else place) }
{
    if get_lane::<W>(bytes, other) < get_lane::<W>(bytes, place) {
        other
    } else {
        place
    }
}

/// The first place of the least lane of the low 128 bits.
fn least_place<const W: usize>(bytes: &[u8]) -> usize
    requires width { IsTrue (is_size W) }
    requires length { IsLength (length bytes.now) }
    ensures value { result ≡ least_place_of (16 / W) (lane_of W bytes.now) }
    ensures within { result < 16 / W }
{
    let mut least = 0;
    for place in 0..16 / W {
        least = lesser::<W>(bytes, least, place);
    }
    least
}

/// Lane `lane` of the least lane of the low 128 bits, its place, and zeros.
pub(crate) fn least_and_place<const W: usize>(bytes: &[u8], lane: usize) -> u64
    requires width { IsTrue (is_size W) }
    requires length { IsLength (length bytes.now) }
    ensures { result ≡ least_and_place_of W bytes.now lane }
{
    let place = least_place::<W>(bytes);
    match lane {
        0 => get_lane::<W>(bytes, place),
        1 => place as u64,
        _ => 0,
    }
}
