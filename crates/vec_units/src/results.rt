//! What a vector instruction gives.
ghost use Rattle.std.specs.Prelude.{◌≡◌, Some};
ghost use Rattle.num_lanes.specs.Lane.{LanesAre, lane_of};
ghost use Rattle.vec_units.specs.Form.{FormFits, IsVector};
ghost use Rattle.vec_units.specs.Results.{vector_result, signs_in, sign_mask, mask_of, bits_of, test_of, computed_lane, part, result_of, mask_result_of};

use crate::bit_masks::{have_none, mask_bits, one_of};
use crate::computing::compute;
use crate::forms::{Form, form_for};
use crate::masked::{register, taken};
use num_lanes::Vec64;
use row_table::{Decoded, Op, VectorOp, row};

/// The lanes of the operation, whatever the mask.
fn computed(f: &Form, dest: &Vec64, first: &Vec64, second: &Vec64, mask: u64) -> Vec64
    requires { FormFits f.now }
    ensures { LanesAre f.now.width (part f.now result) (computed_lane f.now dest.now first.now second.now mask) }
{
    let len = usize::from(f.len);
    let mut into = [0; 64];
    compute(
        f.op,
        f.width,
        f.imm,
        &dest[..len],
        &first[..len],
        &second[..len],
        mask,
        &mut into[..len],
    );
    into
}

/// The register that a vector instruction of this form gives, with mask, zeroing and upper bits.
#[tactic(auto, using(crate::proofs::Vectors::vector_is))]
pub fn vector(f: &Form, dest: &Vec64, first: &Vec64, second: &Vec64, mask: u64) -> Vec64
    requires { FormFits f.now }
    ensures { result ≡ vector_result f.now dest.now first.now second.now mask }
{
    let lanes = computed(f, dest, first, second, mask);
    let taken = taken(f, mask);
    match f.width {
        1 => register::<1>(f, &lanes, dest, first, taken),
        2 => register::<2>(f, &lanes, dest, first, taken),
        4 => register::<4>(f, &lanes, dest, first, taken),
        _ => register::<8>(f, &lanes, dest, first, taken),
    }
}

/// The signs of the lanes of a register that a mask has.
fn signs_by(f: &Form, register: &Vec64, mask: u64) -> u64
    requires { FormFits f.now }
    ensures { result ≡ signs_in f.now.width (lane_of f.now.width register.now) mask f.now.lanes }
{
    let lanes = usize::from(f.lanes);
    match f.width {
        1 => mask_bits::<1>(register, mask, lanes),
        2 => mask_bits::<2>(register, mask, lanes),
        4 => mask_bits::<4>(register, mask, lanes),
        _ => mask_bits::<8>(register, mask, lanes),
    }
}

/// The signs of a register's lanes, a bit a lane.
pub fn signs(f: &Form, register: &Vec64) -> u64
    requires { FormFits f.now }
    ensures { result ≡ sign_mask f.now register.now }
{
    signs_by(f, register, u64::MAX)
}

/// The signs of the lanes that are computed and masked in.
#[tactic(auto, using(crate::proofs::Vectors::mask_is))]
fn lane_bits(f: &Form, dest: &Vec64, first: &Vec64, second: &Vec64, mask: u64) -> u64
    requires { FormFits f.now }
    ensures { result ≡ mask_of f.now dest.now first.now second.now mask }
{
    signs_by(f, &computed(f, dest, first, second, mask), mask)
}

/// PTEST: ZF in bit 0 and CF in bit 1.
#[tactic(auto, unfolding(crate::specs::Results::test_of))]
fn test(f: &Form, register: &Vec64, second: &Vec64) -> u64
    requires { FormFits f.now }
    ensures { result ≡ test_of f.now register.now second.now }
{
    let lanes = usize::from(f.len) / 8;
    one_of(have_none(false, register, second, lanes), 1)
        + one_of(have_none(true, register, second, lanes), 2)
}

/// The mask of bits that a vector instruction of this form gives: for PTEST ZF in bit 0 and CF in bit 1, else a bit a lane.
#[tactic(auto, unfolding(crate::specs::Results::bits_by))]
pub fn bits(f: &Form, dest: &Vec64, first: &Vec64, second: &Vec64, mask: u64) -> u64
    requires { FormFits f.now }
    ensures { result ≡ bits_of f.now dest.now first.now second.now mask }
{
    match f.op {
        Op::Vector(VectorOp::Ptest) => test(f, dest, second),
        Op::Vector(VectorOp::Pmovmskb | VectorOp::Movmskp)
        | Op::Lane(_)
        | Op::Core(_)
        | Op::Gpr(_)
        | Op::Bit(_)
        | Op::String(_)
        | Op::Cross(_)
        | Op::Width(_)
        | Op::Mac(_)
        | Op::Mask(_)
        | Op::Gather(_)
        | Op::Xsave(_) => lane_bits(f, dest, first, second, mask),
    }
}

/// The register that a vector instruction gives, with mask, zeroing and upper bits.
pub fn result(d: &Decoded, dest: &Vec64, first: &Vec64, second: &Vec64, mask: u64) -> Vec64
    requires { IsVector d.now }
    ensures { Some result ≡ result_of d.now dest.now first.now second.now mask }
{
    vector(&form_for(&row(d.row), &d.fields), dest, first, second, mask)
}

/// The mask of bits that a vector instruction gives: for PTEST ZF in bit 0 and CF in bit 1, else a bit a lane.
pub fn mask_result(d: &Decoded, dest: &Vec64, first: &Vec64, second: &Vec64, mask: u64) -> u64
    requires { IsVector d.now }
    ensures { Some result ≡ mask_result_of d.now dest.now first.now second.now mask }
{
    bits(&form_for(&row(d.row), &d.fields), dest, first, second, mask)
}
