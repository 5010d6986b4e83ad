//! The register that comes of the lanes that were computed: with mask, zeroing and upper bits.
ghost use Rattle.std.specs.Prelude.{◌≡◌, ◌*◌, ◌/◌, ◌+◌, ◌<◌, ◌≤◌, ◌^◌, ◌++◌, if◌then◌else◌, ℕ, IsTrue, true, take, drop};
ghost use Rattle.gpr_flags.specs.Registers.{is_size};
ghost use Rattle.num_lanes.specs.Lane.{lane_of, joined};
ghost use Rattle.vec_units.specs.Form.{FormFits};
ghost use Rattle.vec_units.specs.Results.{merged as merged_of, left_out as left_out_of, packed as packed_of, taken_by, placed_lane, has_all as has_all_of, above as above_of};

use crate::forms::{Form, chooses, is_compressed};
use gpr_flags::{has_bit, low, ones};
use num_lanes::{Vec64, get_lane, set_lane};
use row_table::MaskKind;

/// What stood in a lane, or 0.
fn merged(zeroing: bool, old: u64) -> u64
    ensures { result ≡ merged_of zeroing old }
{
    if zeroing { 0 } else { old }
}

/// What stands in a lane that is masked out.
fn left_out(masking: MaskKind, zeroing: bool, old: u64, first: u64) -> u64
    ensures value { result ≡ left_out_of masking zeroing old first }
    ensures small { (n : ℕ) → 0 < n → old < n → first < n → result < n }
{
    match masking {
        MaskKind::Blend => merged(zeroing, first),
        MaskKind::SignsZero => 0,
        MaskKind::NoMask
        | MaskKind::MergeZero
        | MaskKind::ToMask
        | MaskKind::Compress
        | MaskKind::Expand
        | MaskKind::Required
        | MaskKind::Signs
        | MaskKind::Select => merged(zeroing, old),
    }
}

/// The lowest lanes, as many as a mask has.
pub fn packed(lanes: u8, mask: u64) -> u64
    requires { lanes ≤ 64 }
    ensures { result ≡ packed_of lanes mask }
{
    ones(low(u32::from(lanes), u128::from(mask)).count_ones())
}

/// Which lanes of the result are those that are computed.
pub fn taken(f: &Form, mask: u64) -> u64
    requires { FormFits f.now }
    ensures { result ≡ taken_by f.now mask }
{
    if is_compressed(f.masking) {
        packed(f.lanes, mask)
    } else if chooses(f.masking) {
        u64::MAX
    } else {
        mask
    }
}

/// A lane of the register.
#[tactic(auto, unfolding(crate::specs::Results::placed_lane))]
fn placed<const W: usize>(
    f: &Form,
    computed: &Vec64,
    dest: &Vec64,
    first: &Vec64,
    mask: u64,
    lane: usize,
) -> u64
    requires some { 0 < W }
    requires most { W ≤ 8 }
    requires lane { lane < 64 }
    requires in_range { lane * W + W ≤ 64 }
    ensures value { result ≡ placed_lane W f.now (lane_of W computed.now) (lane_of W dest.now) (lane_of W first.now) mask lane }
    ensures small { result < 2 ^ (8 * W) }
{
    let old = get_lane::<W>(dest, lane);
    if lane < usize::from(f.lanes) {
        if has_bit(mask, lane as u32) {
            get_lane::<W>(computed, lane)
        } else {
            left_out(f.masking, f.zeroing, old, get_lane::<W>(first, lane))
        }
    } else if lane < usize::from(f.len) / W {
        0
    } else if f.keeps {
        old
    } else {
        0
    }
}

/// The register, lane by lane.
fn register_by_lanes<const W: usize>(
    f: &Form,
    computed: &Vec64,
    dest: &Vec64,
    first: &Vec64,
    mask: u64,
) -> Vec64
    requires { IsTrue (is_size W) }
    ensures { result ≡ joined W (64 / W) (placed_lane W f.now (lane_of W computed.now) (lane_of W dest.now) (lane_of W first.now) mask) }
{
    let mut out = [0u8; 64];
    for lane in 0..64 / W {
        let value = placed::<W>(f, computed, dest, first, mask, lane);
        set_lane::<W>(&mut out, lane, value);
    }
    out
}

/// Whether a mask has every lane of the result.
fn has_all(f: &Form, mask: u64) -> bool
    requires { FormFits f.now }
    ensures { result ≡ has_all_of f.now.lanes mask }
{
    let lanes = u32::from(f.lanes);
    low(lanes, u128::from(mask)) == ones(lanes)
}

/// The lowest bytes of a register, so many, and above them those of another.
fn spliced(bottom: &Vec64, count: usize, top: &Vec64) -> Vec64
    requires { count ≤ 64 }
    ensures { result ≡ take count bottom.now ++ drop count top.now }
{
    let mut out = *top;
    out[..count].copy_from_slice(&bottom[..count]);
    out
}

/// What stands above the lanes of the result: zeros, but above the vectors of a legacy row what stood there.
fn above(f: &Form, dest: &Vec64) -> Vec64
    requires { FormFits f.now }
    ensures { result ≡ above_of f.now dest.now }
{
    let zeros = [0u8; 64];
    if f.keeps {
        spliced(&zeros, usize::from(f.len), dest)
    } else {
        zeros
    }
}

/// The register where no lane is masked out, whatever the first operand.
#[tactic(auto, using(crate::proofs::Whole::whole_is))]
fn register_whole<const W: usize>(f: &Form, computed: &Vec64, dest: &Vec64) -> Vec64
    requires fits { FormFits f.now }
    requires width { f.now.width ≡ W }
    ensures { (first : ℕ → ℕ) (mask : ℕ) → has_all_of f.now.lanes mask ≡ true
        → result ≡ joined W (64 / W) (placed_lane W f.now (lane_of W computed.now) (lane_of W dest.now) first mask) }
{
    spliced(computed, usize::from(f.lanes) * W, &above(f, dest))
}

/// The register, by the lanes that were computed.
pub(crate) fn register<const W: usize>(
    f: &Form,
    computed: &Vec64,
    dest: &Vec64,
    first: &Vec64,
    mask: u64,
) -> Vec64
    requires size { IsTrue (is_size W) }
    requires fits { FormFits f.now }
    requires width { f.now.width ≡ W }
    ensures { result ≡ joined W (64 / W) (placed_lane W f.now (lane_of W computed.now) (lane_of W dest.now) (lane_of W first.now) mask) }
{
    if has_all(f, mask) {
        register_whole::<W>(f, computed, dest)
    } else {
        register_by_lanes::<W>(f, computed, dest, first, mask)
    }
}
