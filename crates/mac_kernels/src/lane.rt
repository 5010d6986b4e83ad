//! One lane of an operation.
ghost use Rattle.std.specs.Prelude.{◌≡◌, ◌+◌, ◌*◌, ◌%◌, ◌^◌, ◌≤◌, length, IsTrue};
ghost use Rattle.gpr_flags.specs.Registers.{is_size};
ghost use Rattle.num_lanes.specs.Lane.{IsLength, lane_of};
ghost use Rattle.mac_kernels.specs.MacOps.{lane_raw};

use crate::counts::{conflicts, least_and_place};
use crate::differences::{byte_differences, word_of_chosen, word_of_differences};
use crate::pairs::{pair_difference, pair_difference_signed, pair_sum, pair_sum_signed};
use crate::products::{
    add_high52, add_low52, doublewords, high_signed, high_unsigned, low_product, rounded_high,
    signed_doublewords,
};
use crate::shifts::{double_left, double_right, quadword_bit, quadword_bits};
use crate::sums::{
    add_clamped, add_wrapped, bytes_sum, clamped, two_bytes_sum, words_sum, wrapped,
};
use gpr_flags::leading_zeros;
use num_lanes::{get_lane, ones_where};
use row_table::MacOp;

/// A number of which the low bits are a lane of an operation's result.
#[tactic(auto, unfolding(crate::specs::MacOps::lane_raw))]
pub(crate) fn one_lane<const W: usize>(
    op: MacOp,
    imm: u8,
    dest: &[u8],
    first: &[u8],
    second: &[u8],
    lane: usize,
) -> u64
    requires width { IsTrue (is_size W) }
    requires length { IsLength (length second.now) }
    requires dest { length dest.now ≡ length second.now }
    requires first { length first.now ≡ length second.now }
    requires in_range { lane * W + W ≤ length second.now }
    ensures { result % 2 ^ (8 * W)
        ≡ lane_raw op W (8 * W) imm first.now second.now lane (lane_of W dest.now lane) (lane_of W first.now lane) (lane_of W second.now lane) % 2 ^ (8 * W) }
{
    let bits = 8 * W as u32;
    let d = get_lane::<W>(dest, lane);
    let a = get_lane::<W>(first, lane);
    let b = get_lane::<W>(second, lane);
    match op {
        MacOp::Pmull => low_product(bits, a, b),
        MacOp::Pmulh => high_signed(bits, a, b),
        MacOp::Pmulhu => high_unsigned(bits, a, b),
        MacOp::Pmuludq => doublewords(a, b),
        MacOp::Pmuldq => signed_doublewords(a, b),
        MacOp::Pmulhrs => rounded_high(bits, a, b),
        MacOp::Phadd => pair_sum::<W>(first, second, lane),
        MacOp::Phadds => pair_sum_signed::<W>(first, second, lane),
        MacOp::Phsub => pair_difference::<W>(first, second, lane),
        MacOp::Phsubs => pair_difference_signed::<W>(first, second, lane),
        MacOp::Vplzcnt => leading_zeros(bits, b),
        MacOp::Vpconflict => conflicts::<W>(second, lane, b),
        MacOp::Vpopcnt => u64::from(b.count_ones()),
        MacOp::Phminposu => least_and_place::<W>(second, lane),
        MacOp::Vpshufbitqmb => ones_where(bits, quadword_bit::<W>(first, lane, b)),
        MacOp::Vpshld => double_left(bits, a, b, u64::from(imm)),
        MacOp::Vpshrd => double_right(bits, b, a, u64::from(imm)),
        MacOp::Vpshldv => double_left(bits, d, a, b),
        MacOp::Vpshrdv => double_right(bits, a, d, b),
        MacOp::Pmaddwd => wrapped(bits, words_sum(a, b)),
        MacOp::Psadbw => byte_differences(a, b),
        MacOp::Pmaddubsw => clamped(bits, two_bytes_sum(a, b)),
        MacOp::Vpdpbusd => add_wrapped(bits, d, bytes_sum(a, b)),
        MacOp::Vpdpbusds => add_clamped(bits, d, bytes_sum(a, b)),
        MacOp::Vpdpwssd => add_wrapped(bits, d, words_sum(a, b)),
        MacOp::Vpdpwssds => add_clamped(bits, d, words_sum(a, b)),
        MacOp::Vpmadd52lu => add_low52(bits, d, a, b),
        MacOp::Vpmadd52hu => add_high52(bits, d, a, b),
        MacOp::Vpmultishiftqb => quadword_bits::<W>(second, lane, a),
        MacOp::Mpsadbw => word_of_differences(imm, first, second, lane * W),
        MacOp::Vdbpsadbw => word_of_chosen(imm, first, second, lane * W),
    }
}
