//! Single bits, scans, counts, and the operations of VEX on general registers, by operation.
ghost use Rattle.std.specs.Prelude.{◌≡◌, ◌*◌, ◌^◌, ◌<◌, ◌≤◌};
ghost use Rattle.bit_units.specs.Bits.{bit_value as value_of_bit, bit_flags as flags_of_bit, core_value as value_of_core, value_of_bits, flags_of_bits, bits_value, bits_flags};

use crate::masking::{
    andn_value, bextr_flags, bextr_value, blsi_value, blsmsk_value, blsr_value, bzhi_value,
    low_byte, mask_flags, reversed,
};
use crate::numbers::masked;
use crate::picking::{deposited, extracted};
use crate::rotating::ror_value;
use crate::scanning::{
    bsf_value, bsr_value, popcnt_flags, popcnt_value, scan_flags, trailing_zeros, zeros_flags,
};
use crate::shifting::{shl_value, shr_value};
use crate::single_bits::{bt_flags, btc_value, btr_value, bts_value};
use gpr_flags::{Flags, leading_zeros, low, sar_value};
use row_table::{BitOp, CoreOp, Op};

/// The value by operation.
#[tactic(auto, unfolding(crate::specs::Bits::bit_value))]
fn bit_value(op: BitOp, width: u32, a: u64, b: u64) -> u64
    requires some { 0 < width }
    requires most { width ≤ 64 }
    requires a { a < 2 ^ width }
    requires b { b < 2 ^ width }
    ensures value { result ≡ value_of_bit op width a b }
    ensures fits { result < 2 ^ width }
{
    match op {
        BitOp::Bts => bts_value(width, a, b),
        BitOp::Btr => btr_value(width, a, b),
        BitOp::Btc => btc_value(width, a, b),
        BitOp::Popcnt => popcnt_value(width, b),
        BitOp::Bsf => bsf_value(width, a, b),
        BitOp::Tzcnt => trailing_zeros(width, b),
        BitOp::Bsr => bsr_value(width, a, b),
        BitOp::Lzcnt => leading_zeros(width, b),
        BitOp::Andn => andn_value(width, a, b),
        BitOp::Blsr => blsr_value(width, b),
        BitOp::Blsmsk => blsmsk_value(width, b),
        BitOp::Blsi => blsi_value(width, b),
        BitOp::Bzhi => bzhi_value(width, a, b),
        BitOp::Pext => extracted(width, a, b),
        BitOp::Pdep => deposited(width, a, b),
        BitOp::Bextr => bextr_value(width, a, b),
        BitOp::Shlx => shl_value(width, a, masked(width, b)),
        BitOp::Sarx => sar_value(width, a, masked(width, b)),
        BitOp::Shrx => shr_value(width, a, masked(width, b)),
        BitOp::Rorx => ror_value(width, a, masked(width, b)),
        _ => a,
    }
}

/// The flags by operation.
#[tactic(auto, unfolding(crate::specs::Bits::bit_flags))]
fn bit_flags(op: BitOp, width: u32, a: u64, b: u64, value: u64, f: Flags) -> Flags
    requires some { 0 < width }
    requires most { width ≤ 64 }
    ensures { result ≡ flags_of_bit op width a b value f }
{
    match op {
        BitOp::Bt | BitOp::Bts | BitOp::Btr | BitOp::Btc => bt_flags(width, a, b, f),
        BitOp::Popcnt => popcnt_flags(b, f),
        BitOp::Bsf | BitOp::Bsr => scan_flags(b, f),
        BitOp::Tzcnt | BitOp::Lzcnt => zeros_flags(b, value, f),
        BitOp::Andn => mask_flags(width, value, false, f),
        BitOp::Blsr => mask_flags(width, value, b == 0, f),
        BitOp::Blsmsk => Flags {
            zf: false,
            ..mask_flags(width, value, b == 0, f)
        },
        BitOp::Blsi => mask_flags(width, value, b != 0, f),
        BitOp::Bzhi => mask_flags(width, value, low_byte(b) > width - 1, f),
        BitOp::Bextr => bextr_flags(value, f),
        _ => f,
    }
}

/// The value of an operation of the core.
#[tactic(auto, unfolding(crate::specs::Bits::core_value))]
fn core_value(op: CoreOp, width: u32, a: u64) -> u64
    requires most { width ≤ 64 }
    requires a { a < 2 ^ width }
    ensures value { result ≡ value_of_core op width a }
    ensures fits { result < 2 ^ width }
{
    match op {
        CoreOp::Bswap => reversed(width, a),
        _ => a,
    }
}

/// The value; an operation that isn't one of these gives `a`.
fn value_of(op: Op, width: u32, a: u64, b: u64) -> u64
    requires some { 0 < width }
    requires most { width ≤ 64 }
    requires a { a < 2 ^ width }
    requires b { b < 2 ^ width }
    ensures value { result ≡ value_of_bits op width a b }
    ensures fits { result < 2 ^ width }
{
    match op {
        Op::Bit(op) => bit_value(op, width, a, b),
        Op::Core(op) => core_value(op, width, a),
        _ => a,
    }
}

/// The flags; an operation that isn't one of these keeps them.
fn flags_of(op: Op, width: u32, a: u64, b: u64, value: u64, f: Flags) -> Flags
    requires some { 0 < width }
    requires most { width ≤ 64 }
    ensures { result ≡ flags_of_bits op width a b value f }
{
    match op {
        Op::Bit(op) => bit_flags(op, width, a, b, value, f),
        _ => f,
    }
}

/// An operation on the bits of `a` and `b`, of which `size` bytes count. For BT, BTS, BTR and BTC `a` is the number and
/// `b` the bit's place, taken modulo the size in bits; for BSF, BSR, TZCNT, LZCNT, POPCNT, BLSR, BLSMSK and BLSI `b` is
/// the source, and `a` the destination's old value; BSWAP is of `a`, ANDN of not `a` and `b`; for PEXT and PDEP `b` is
/// the mask, for BZHI the index, for BEXTR the start and the length, for SHLX, SARX, SHRX and RORX the count. Any other
/// operation gives `a` and keeps the flags.
#[tactic(auto, unfolding(crate::specs::Bits::bits_value, crate::specs::Bits::bits_flags))]
pub fn bits(op: Op, size: u8, a: u64, b: u64, f: &mut Flags) -> u64
    requires some { 1 ≤ size }
    requires most { size ≤ 8 }
    ensures value { result ≡ bits_value op (8 * size) a b }
    ensures flags { f.new ≡ bits_flags op (8 * size) a b f.old }
    ensures fits { result < 2 ^ (8 * size) }
{
    let width = 8 * u32::from(size);
    let a = low(width, u128::from(a));
    let b = low(width, u128::from(b));
    let value = value_of(op, width, a, b);
    *f = flags_of(op, width, a, b, value, *f);
    value
}
