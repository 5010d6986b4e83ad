//! Sums, differences and logic.
ghost use Rattle.std.specs.Prelude.{◌≡◌, pos, ◌+◌, ◌*◌, ◌<◌, ◌≤◌, ◌^◌, ◌+ℤ◌, ◌-ℤ◌, IsTrue};
ghost use Rattle.gpr_units.specs.Alu.{carry_of, sum_value, sum_carry, sum_flags, difference_value, difference_flags, logic_flags, scalar_of, is_alu, alu_value, alu_flags};

use crate::numbers::{bits_in, cut, full, is_outside_signed};
use gpr_flags::{Flags, low, signed};
use row_table::{GprOp, Op};

fn signed_sum(a: i64, b: i64, carry: u64) -> i128
    requires { carry < 2 }
    ensures { result ≡ a +ℤ b +ℤ pos carry }
{
    i128::from(a) + i128::from(b) + i128::from(carry)
}

fn signed_difference(a: i64, b: i64, borrow: u64) -> i128
    requires { borrow < 2 }
    ensures { result ≡ a -ℤ b -ℤ pos borrow }
{
    i128::from(a) - i128::from(b) - i128::from(borrow)
}

fn carry(set: bool) -> u64
    ensures value { result ≡ carry_of set }
    ensures small { result < 2 }
{
    u64::from(set)
}

/// A sum with a carry.
fn add_with(bits: u32, a: u64, b: u64, carry: u64, f: &mut Flags) -> u64
    requires some { 0 < bits }
    requires most { bits ≤ 64 }
    requires a { a < 2 ^ bits }
    requires b { b < 2 ^ bits }
    requires carry { carry < 2 }
    ensures value { result ≡ sum_value bits a b carry }
    ensures flags { f.new ≡ sum_flags bits a b carry f.old }
    ensures small { result < 2 ^ bits }
{
    let sum = u128::from(a) + u128::from(b) + u128::from(carry);
    f.cf = sum >= full(bits);
    f.af = a % 16 + b % 16 + carry >= 16;
    let signed_sum = signed_sum(signed(bits, a), signed(bits, b), carry);
    f.ovf = is_outside_signed(bits, signed_sum);
    let value = low(bits, sum);
    *f = f.with_value(bits, value);
    value
}

/// A difference with a borrow.
fn subtract_with(bits: u32, a: u64, b: u64, borrow: u64, f: &mut Flags) -> u64
    requires some { 0 < bits }
    requires most { bits ≤ 64 }
    requires a { a < 2 ^ bits }
    requires b { b < 2 ^ bits }
    requires borrow { borrow < 2 }
    ensures value { result ≡ difference_value bits a b borrow }
    ensures flags { f.new ≡ difference_flags bits a b borrow f.old }
    ensures small { result < 2 ^ bits }
{
    let whole = u128::from(b) + u128::from(borrow);
    f.cf = u128::from(a) < whole;
    f.af = a % 16 < b % 16 + borrow;
    let signed_difference = signed_difference(signed(bits, a), signed(bits, b), borrow);
    f.ovf = is_outside_signed(bits, signed_difference);
    let value = low(bits, u128::from(a) + full(bits) - whole);
    *f = f.with_value(bits, value);
    value
}

/// A logical value.
fn logic(bits: u32, value: u64, f: &mut Flags) -> u64
    requires some { 0 < bits }
    requires most { bits ≤ 64 }
    ensures value { result ≡ value }
    ensures flags { f.new ≡ logic_flags bits value f.old }
{
    f.cf = false;
    f.ovf = false;
    *f = f.with_value(bits, value);
    value
}

/// The low bits of a sum, and its carry.
fn sum_and_carry(bits: u32, a: u64, b: u64, carry: u64) -> (u64, bool)
    requires most { bits ≤ 64 }
    requires carry { carry < 2 }
    ensures value { result.0 ≡ sum_value bits a b carry }
    ensures carry { result.1 ≡ sum_carry bits a b carry }
    ensures small { result.0 < 2 ^ bits }
{
    let sum = u128::from(a) + u128::from(b) + u128::from(carry);
    (low(bits, sum), sum >= full(bits))
}

/// A value with each bit inverted.
fn invert(bits: u32, value: u64) -> u64
    requires most { bits ≤ 64 }
    requires value { value < 2 ^ bits }
    ensures { result + value + 1 ≡ 2 ^ bits }
{
    (full(bits) - 1 - u128::from(value)) as u64
}

#[tactic(auto, using(crate::proofs::Bits::one_small), unfolding(crate::specs::Alu::scalar_of))]
fn perform(op: GprOp, bits: u32, a: u64, b: u64, f: &mut Flags) -> u64
    requires op { IsTrue (is_alu (Op.Gpr op)) }
    requires some { 8 ≤ bits }
    requires most { bits ≤ 64 }
    requires a { a < 2 ^ bits }
    requires b { b < 2 ^ bits }
    ensures value { result ≡ (scalar_of op bits a b f.old).value }
    ensures flags { f.new ≡ (scalar_of op bits a b f.old).flags }
    ensures small { result < 2 ^ bits }
{
    let cf = f.cf;
    match op {
        GprOp::Add => add_with(bits, a, b, 0, f),
        GprOp::Or => logic(bits, a | b, f),
        GprOp::Adc => add_with(bits, a, b, carry(cf), f),
        GprOp::Sbb => subtract_with(bits, a, b, carry(cf), f),
        GprOp::And => logic(bits, a & b, f),
        GprOp::Sub => subtract_with(bits, a, b, 0, f),
        GprOp::Xor => logic(bits, a ^ b, f),
        GprOp::Cmp => {
            let _ = subtract_with(bits, a, b, 0, f);
            a
        }
        GprOp::Test => {
            let _ = logic(bits, a & b, f);
            a
        }
        GprOp::Not => invert(bits, a),
        GprOp::Neg => subtract_with(bits, 0, a, 0, f),
        GprOp::Inc => {
            let value = add_with(bits, a, 1, 0, f);
            f.cf = cf;
            value
        }
        GprOp::Dec => {
            let value = subtract_with(bits, a, 1, 0, f);
            f.cf = cf;
            value
        }
        GprOp::Adcx => {
            let (value, carried) = sum_and_carry(bits, a, b, carry(cf));
            f.cf = carried;
            value
        }
        GprOp::Adox => {
            let (value, carried) = sum_and_carry(bits, a, b, carry(f.ovf));
            f.ovf = carried;
            value
        }
        GprOp::Mul | GprOp::Imul | GprOp::Div | GprOp::Idiv | GprOp::Mulx => unreachable!(),
    }
}

/// The value of an operation on operands of `size` bytes, with its flags (SDM volume 2, the page of each operation). Bits of
/// the operands above the size don't count. An operation of one operand takes `a`.
#[tactic(auto, unfolding(crate::specs::Alu::alu_scalar))]
pub fn alu(op: Op, size: u8, a: u64, b: u64, f: &mut Flags) -> u64
    requires op { IsTrue (is_alu op) }
    requires some { 0 < size }
    requires most { size ≤ 8 }
    ensures value { result ≡ alu_value op (8 * size) a b f.old }
    ensures flags { f.new ≡ alu_flags op (8 * size) a b f.old }
    ensures small { result < 2 ^ (8 * size) }
{
    let bits = bits_in(size);
    let a = cut(bits, a);
    let b = cut(bits, b);
    match op {
        Op::Gpr(op) => perform(op, bits, a, b, f),
        _ => unreachable!(),
    }
}
