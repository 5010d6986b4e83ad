//! Masks of bits.
ghost use Rattle.std.specs.Prelude.{◌≡◌, ◌*◌, ◌/◌, ◌+◌, ◌<◌, ◌≤◌, ◌^◌, ◌&&◌, length, if◌then◌else◌, IsTrue};
ghost use Rattle.gpr_flags.specs.Registers.{is_size};
ghost use Rattle.gpr_flags.specs.Numbers.{has_bit as has_bit_of, is_negative as is_negative_of};
ghost use Rattle.num_lanes.specs.Lane.{lane_of};
ghost use Rattle.vec_units.specs.Results.{signs_in, is_fed as is_fed_of, fed as fed_of, has_none as has_none_of, have_none as have_none_of};

use gpr_flags::{has_bit, is_negative};
use num_lanes::{Vec64, get_lane};

/// Whether the mask has a lane, and the lane has its sign.
fn is_set<const W: usize>(computed: &Vec64, mask: u64, lane: usize) -> bool
    requires some { 0 < W }
    requires most { W ≤ 8 }
    requires lane { lane < 64 }
    requires in_range { lane * W + W ≤ 64 }
    ensures { result ≡ (has_bit_of mask lane && is_negative_of (8 * W) (lane_of W computed.now lane)) }
{
    has_bit(mask, lane as u32) && is_negative(8 * W as u32, get_lane::<W>(computed, lane))
}

/// One bit more.
fn with_bit(value: u64, lane: usize, bit: bool) -> u64
    requires lane { lane < 64 }
    requires small { value < 2 ^ lane }
    ensures { result ≡ value + (if bit then 2 ^ lane else 0) }
{
    if bit { value + (1 << lane) } else { value }
}

/// Bit i is the sign of lane i, where the mask has it.
#[tactic(auto, unfolding(crate::specs::Results::signs_in))]
pub(crate) fn mask_bits<const W: usize>(computed: &Vec64, mask: u64, lanes: usize) -> u64
    requires width { IsTrue (is_size W) }
    requires lanes { lanes * W ≤ 64 }
    ensures { result ≡ signs_in W (lane_of W computed.now) mask lanes }
{
    let mut value = 0;
    for lane in 0..lanes {
        value = with_bit(value, lane, is_set::<W>(computed, mask, lane));
    }
    value
}

/// Whether an element, one of `n`, is that of a lane that is masked in.
#[tactic(auto, unfolding(crate::specs::Results::any_below))]
fn is_fed(n: u8, lanes: u8, mask: u64, element: u8) -> bool
    requires some { 0 < n }
    requires lanes { lanes ≤ 64 }
    ensures { result ≡ is_fed_of n lanes mask element }
{
    let mut any = false;
    for lane in 0..lanes {
        any = any || lane % n == element && has_bit(mask, u32::from(lane));
    }
    any
}

/// Of `n` elements those that feed lanes that are masked in, a bit an element: element j is that of the lanes j, j + n, j + 2 n and so on.
#[tactic(auto, unfolding(crate::specs::Results::fed))]
pub fn fed(n: u8, lanes: u8, mask: u64) -> u64
    requires most { n ≤ 64 }
    requires lanes { lanes ≤ 64 }
    ensures { result ≡ fed_of n lanes mask }
{
    if n == lanes {
        return mask;
    }
    let mut value = 0;
    for element in 0..n {
        value = with_bit(value, usize::from(element), is_fed(n, lanes, mask, element));
    }
    value
}

/// Whether bits have none in common with the register's, or none beyond them.
fn has_none(beyond: bool, register: u64, second: u64) -> bool
    ensures { result ≡ has_none_of beyond register second }
{
    if beyond {
        second & !register == 0
    } else {
        second & register == 0
    }
}

/// The same of so many lanes of 64 bits.
#[tactic(auto, unfolding(crate::specs::Results::have_none))]
pub(crate) fn have_none(beyond: bool, register: &Vec64, second: &Vec64, lanes: usize) -> bool
    requires { lanes ≤ 8 }
    ensures { result ≡ have_none_of beyond register.now second.now lanes }
{
    let mut none = true;
    for lane in 0..lanes {
        none = none
            && has_none(
                beyond,
                get_lane::<8>(register, lane),
                get_lane::<8>(second, lane),
            );
    }
    none
}

/// A number, where it counts.
pub(crate) fn one_of(counts: bool, number: u64) -> u64
    ensures value { result ≡ (if counts then number else 0) }
    ensures most { result ≤ number }
{
    if counts { number } else { 0 }
}
