//! Quotients and remainders.
ghost use Rattle.std.specs.Prelude.{◌≡◌, ◌≢◌, pos, negsuc, ◌+◌, ◌*◌, ◌/◌, ◌<◌, ◌≤◌, ◌^◌, ◌%◌, ◌⊎◌, true, false, IfOk, OnErr, IfSome, IfNone, int_div, int_rem, FitsSigned, is_err};
ghost use Rattle.std.specs.Int.{w128};
ghost use Rattle.gpr_flags.specs.Numbers.{signed_of, low_of};
ghost use Rattle.gpr_units.specs.Numbers.{is_outside};
ghost use Rattle.gpr_units.specs.Divide.{dividend_of, divisor_of, quotient_of, remainder_of, is_refused};

use crate::numbers::{bits_in, cut, full, is_outside_signed};
use gpr_flags::{join, low, low_signed, signed as signed_number};

/// The divisor is 0, or the quotient doesn't fit (#DE).
#[derive(Clone, Copy)]
pub struct DivFault;

fn above_zero(number: u128) -> i128
    requires { number < 2 ^ 127 }
    ensures { result ≡ pos number }
{
    number as i128
}

fn below_zero(number: u128) -> i128
    requires { number < 2 ^ 127 }
    ensures { result ≡ negsuc number }
{
    -(number as i128) - 1
}

/// Twice `bits` bits, all 1.
fn ones(bits: u32) -> u128
    requires { bits ≤ 64 }
    ensures { result + 1 ≡ 2 ^ (2 * bits) }
{
    let half = (full(bits) - 1) as u64;
    join(bits, half, half)
}

/// The number that twice `bits` bits are in two's complement.
fn signed_wide(bits: u32, number: u128) -> i128
    requires some { 0 < bits }
    requires most { bits ≤ 64 }
    requires small { number < 2 ^ (2 * bits) }
    ensures { result ≡ signed_of (2 * bits) number }
{
    if number < 1 << (2 * bits - 1) {
        above_zero(number)
    } else {
        below_zero(ones(bits) - number)
    }
}

fn divide_unsigned(bits: u32, dividend: u128, divisor: u64) -> Result<(u64, u64), DivFault>
    requires most { bits ≤ 64 }
    requires divisor { divisor < 2 ^ bits }
    ensures zero { divisor ≡ 0 → is_err result ≡ true }
    ensures fits { divisor ≢ 0 → is_err result ≡ is_outside false bits (pos (dividend / divisor)) }
    ensures quotient { IfOk result (λ r. r.0 ≡ low_of bits (pos (dividend / divisor))) }
    ensures remainder { IfOk result (λ r. r.1 ≡ low_of bits (pos (dividend % divisor))) }
    ensures small { IfOk result (λ r. (r.0 < 2 ^ bits) × (r.1 < 2 ^ bits)) }
{
    if divisor == 0 {
        return Err(DivFault);
    }
    let by = u128::from(divisor);
    let quotient = dividend / by;
    if quotient >= full(bits) {
        return Err(DivFault);
    }
    Ok((low(bits, quotient), low(bits, dividend % by)))
}

/// The quotient, where there is one of `bits` bits.
fn quotient(bits: u32, dividend: i128, divisor: i128) -> Option<i128>
    requires some { 0 < bits }
    requires most { bits ≤ 64 }
    ensures some { IfSome result (λ q. (divisor ≢ pos 0) × (q ≡ int_div dividend divisor) × (is_outside true bits q ≡ false) × FitsSigned w128 (int_div dividend divisor)) }
    ensures none { IfNone result ((divisor ≡ pos 0) ⊎ (is_outside true bits (int_div dividend divisor) ≡ true)) }
{
    if divisor == 0 {
        return None;
    }
    let quotient = dividend.checked_div(divisor)?;
    if is_outside_signed(bits, quotient) {
        None
    } else {
        Some(quotient)
    }
}

fn remainder(dividend: i128, divisor: i128) -> i128
    requires zero { divisor ≢ pos 0 }
    requires fits { FitsSigned w128 (int_div dividend divisor) }
    ensures { result ≡ int_rem dividend divisor }
{
    dividend % divisor
}

fn divide_signed(bits: u32, dividend: i128, divisor: i128) -> Result<(u64, u64), DivFault>
    requires some { 0 < bits }
    requires most { bits ≤ 64 }
    ensures ok { IfOk result (λ r. (divisor ≢ pos 0) × (is_outside true bits (int_div dividend divisor) ≡ false)) }
    ensures quotient { IfOk result (λ r. r.0 ≡ low_of bits (int_div dividend divisor)) }
    ensures remainder { IfOk result (λ r. r.1 ≡ low_of bits (int_rem dividend divisor)) }
    ensures small { IfOk result (λ r. (r.0 < 2 ^ bits) × (r.1 < 2 ^ bits)) }
    ensures err { OnErr result ((divisor ≡ pos 0) ⊎ (is_outside true bits (int_div dividend divisor) ≡ true)) }
{
    match quotient(bits, dividend, divisor) {
        Some(quotient) => Ok((
            low_signed(bits, quotient),
            low_signed(bits, remainder(dividend, divisor)),
        )),
        None => Err(DivFault),
    }
}

/// The quotient and the remainder of a dividend of twice `size` bytes, in two halves, by a divisor of `size` bytes (SDM
/// volume 2, DIV and IDIV). Bits of the operands above the size don't count.
#[tactic(auto, unfolding(crate::specs::Divide::dividend_of, crate::specs::Divide::divisor_of))]
pub fn divide(size: u8, signed: bool, high: u64, low: u64, by: u64) -> Result<(u64, u64), DivFault>
    requires some { 0 < size }
    requires most { size ≤ 8 }
    ensures refused { is_err result ≡ is_refused signed (8 * size) high low by }
    ensures quotient { IfOk result (λ r. r.0 ≡ low_of (8 * size) (quotient_of signed (8 * size) high low by)) }
    ensures remainder { IfOk result (λ r. r.1 ≡ low_of (8 * size) (remainder_of signed (8 * size) high low by)) }
    ensures small { IfOk result (λ r. (r.0 < 2 ^ (8 * size)) × (r.1 < 2 ^ (8 * size))) }
{
    let bits = bits_in(size);
    let dividend = join(bits, cut(bits, high), cut(bits, low));
    let divisor = cut(bits, by);
    if signed {
        let divisor = i128::from(signed_number(bits, divisor));
        divide_signed(bits, signed_wide(bits, dividend), divisor)
    } else {
        divide_unsigned(bits, dividend, divisor)
    }
}
