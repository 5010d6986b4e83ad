//! Registers and masks of bits, by their forms.
ghost use Rattle.std.specs.Prelude.{◌≡◌, IsTrue};
ghost use Rattle.vec_units.specs.Compute.{is_vector as is_vector_op};
ghost use Rattle.vec_units.specs.Form.{FormFits};

use crate::{Form, bits, fed, packed, signs, vector};
use num_lanes::Vec64;
use row_table::{CrossOp, LaneOp, MacOp, MaskKind, Op, VectorOp, WidthOp};

/// PADDB of vectors of 16 bytes.
const SUM: Form = Form {
    op: Op::Lane(LaneOp::Padd),
    width: 1,
    lanes: 16,
    len: 16,
    imm: 0,
    masking: MaskKind::MergeZero,
    zeroing: false,
    keeps: false,
};

#[tactic(auto, unfolding(crate::specs::Compute::is_vector))]
fn is_vector(op: Op) -> bool
    ensures { result ≡ is_vector_op op }
{
    matches!(
        op,
        Op::Lane(_) | Op::Vector(_) | Op::Cross(_) | Op::Width(_) | Op::Mac(_)
    )
}

fn fits(f: &Form) -> bool
    ensures { IsTrue result → FormFits f.now }
{
    is_vector(f.op)
        && (f.width == 1 || f.width == 8)
        && (f.len == 16 || f.len == 32 || f.len == 64)
        && u32::from(f.lanes) * u32::from(f.width) <= u32::from(f.len)
}

fn register(f: Form, dest: &Vec64, first: &Vec64, second: &Vec64, mask: u64) -> Option<Vec64> {
    if fits(&f) {
        Some(vector(&f, dest, first, second, mask))
    } else {
        None
    }
}

fn mask_of(f: Form, dest: &Vec64, second: &Vec64, mask: u64) -> Option<u64> {
    if fits(&f) {
        Some(bits(&f, dest, &[0; 64], second, mask))
    } else {
        None
    }
}

/// Bytes that are alike up to a place, and alike from it on.
fn bytes(below: u8, place: usize, above: u8) -> Vec64 {
    let mut v = [above; 64];
    if place <= 64 {
        v[..place].fill(below);
    }
    v
}

#[test]
fn bytes_above_the_vectors_are_cleared_or_kept(rt: HostRuntime) {
    let dest = [7; 64];
    let (first, second) = ([0xF0; 64], [0x12; 64]);
    let legacy = Form { keeps: true, ..SUM };
    let wide = Form {
        lanes: 32,
        len: 32,
        ..SUM
    };
    let few = Form { lanes: 4, ..SUM };
    let kept = Form { keeps: true, ..few };
    let all = u64::MAX;
    assert_eq!(rt;
        register(SUM, &dest, &first, &second, all),
        Some(bytes(2, 16, 0))
    );
    assert_eq!(rt;
        register(legacy, &dest, &first, &second, all),
        Some(bytes(2, 16, 7))
    );
    assert_eq!(rt;
        register(wide, &dest, &first, &second, all),
        Some(bytes(2, 32, 0))
    );
    assert_eq!(rt;
        register(few, &dest, &first, &second, all),
        Some(bytes(2, 4, 0))
    );
    let mut want = bytes(2, 4, 7);
    want[4..16].fill(0);
    assert_eq!(rt; register(kept, &dest, &first, &second, all), Some(want));
}

#[test]
fn lanes_that_are_masked_out_stay_or_are_cleared(rt: HostRuntime) {
    let dest = [7; 64];
    let (first, second) = ([0xF0; 64], [0x12; 64]);
    let zeroing = Form {
        zeroing: true,
        ..SUM
    };
    let blend = Form {
        masking: MaskKind::Blend,
        ..SUM
    };
    let zeroing_blend = Form {
        zeroing: true,
        ..blend
    };
    let signs = Form {
        masking: MaskKind::SignsZero,
        ..SUM
    };
    for (form, left_out) in [
        (SUM, 7),
        (zeroing, 0),
        (blend, 0xF0),
        (zeroing_blend, 0),
        (signs, 0),
    ] {
        let mut want = bytes(left_out, 16, 0);
        want[1] = 2;
        want[15] = 2;
        assert_eq!(rt;
            register(form, &dest, &first, &second, 0x1_8002),
            Some(want)
        );
    }
}

#[test]
fn signs_of_lanes_are_bits(rt: HostRuntime) {
    let moved = Form {
        op: Op::Vector(VectorOp::Pmovmskb),
        ..SUM
    };
    let doubles = Form {
        op: Op::Vector(VectorOp::Movmskp),
        width: 8,
        lanes: 4,
        len: 32,
        ..SUM
    };
    let mut second = bytes(0x80, 3, 0x7F);
    second[15] = 0xFF;
    second[31] = 0x80;
    assert_eq!(rt; mask_of(moved, &[0; 64], &second, u64::MAX), Some(0x8007));
    assert_eq!(rt; mask_of(doubles, &[0; 64], &second, u64::MAX), Some(0xA));
    assert_eq!(rt; mask_of(doubles, &[0; 64], &second, 8), Some(8));
}

#[test]
fn a_comparison_has_a_bit_a_lane(rt: HostRuntime) {
    let whole = Form {
        op: Op::Lane(LaneOp::Pcmpeq),
        lanes: 64,
        len: 64,
        masking: MaskKind::ToMask,
        ..SUM
    };
    let short = Form {
        lanes: 16,
        len: 16,
        ..whole
    };
    let second = bytes(0, 40, 1);
    let some = 0xA5C3_F00F_5A3C_9669;
    for (form, mask, want) in [
        (whole, u64::MAX, 0xFF_FFFF_FFFF),
        (whole, some, 0x0F_5A3C_9669),
        (short, u64::MAX, 0xFFFF),
        (short, some, 0x9669),
    ] {
        assert_eq!(rt; mask_of(form, &[0xFF; 64], &second, mask), Some(want));
    }
    assert_eq!(rt;
        mask_of(whole, &[0; 64], &[0; 64], u64::MAX),
        Some(u64::MAX)
    );
}

fn signs_of(f: Form, register: &Vec64) -> Option<u64> {
    if fits(&f) {
        Some(signs(&f, register))
    } else {
        None
    }
}

#[test]
fn signs_of_a_register_are_a_mask(rt: HostRuntime) {
    let quads = Form {
        width: 8,
        lanes: 4,
        len: 32,
        ..SUM
    };
    let mut register = bytes(0x80, 16, 0x7F);
    register[63] = 0xFF;
    assert_eq!(rt; signs_of(quads, &register), Some(3));
    assert_eq!(rt; signs_of(SUM, &[0x80; 64]), Some(0xFFFF));
}

#[test]
fn ptest_says_what_is_in_common_and_beyond(rt: HostRuntime) {
    let test = Form {
        op: Op::Vector(VectorOp::Ptest),
        width: 8,
        lanes: 2,
        ..SUM
    };
    let mut above = [0; 64];
    above[16..].fill(1);
    for (register, second, want) in [
        ([0; 64], [0; 64], 3),
        ([1; 64], [1; 64], 2),
        ([0xF0; 64], [0x0F; 64], 1),
        ([0xF1; 64], [0x0F; 64], 0),
        ([0; 64], above, 3),
    ] {
        assert_eq!(rt; mask_of(test, &register, &second, u64::MAX), Some(want));
    }
}

/// 0 to 63.
fn counted() -> Vec64 {
    let mut out = [0; 64];
    for i in 0..64 {
        out[i] = i as u8;
    }
    out
}

/// VPMOVDB of a vector of 64 bytes, with and without zeroing.
#[test]
fn lanes_above_a_narrowed_result_are_zeros(rt: HostRuntime) {
    let narrowed = Form {
        op: Op::Width(WidthOp::Vpmovd),
        len: 64,
        ..SUM
    };
    for (zeroing, left_out) in [(false, 7), (true, 0)] {
        let form = Form {
            zeroing,
            ..narrowed
        };
        let mut want = bytes(left_out, 16, 0);
        want[0] = 0;
        want[3] = 12;
        want[15] = 60;
        assert_eq!(rt;
            register(form, &[7; 64], &[9; 64], &counted(), 0xF_8009),
            Some(want)
        );
    }
}

/// VPCOMPRESSB and VPEXPANDB of vectors of 16 bytes.
#[test]
fn lanes_are_closed_up_and_spread_out(rt: HostRuntime) {
    let closed = Form {
        op: Op::Width(WidthOp::Vpcompress),
        masking: MaskKind::Compress,
        ..SUM
    };
    let spread = Form {
        op: Op::Width(WidthOp::Vpexpand),
        masking: MaskKind::Expand,
        ..SUM
    };
    for (zeroing, left_out) in [(false, 7), (true, 0)] {
        let closed = Form { zeroing, ..closed };
        let spread = Form { zeroing, ..spread };
        let mut lowest = bytes(left_out, 16, 0);
        lowest[..3].copy_from_slice(&[0, 2, 15]);
        let mut apart = bytes(left_out, 16, 0);
        apart[0] = 0;
        apart[2] = 1;
        apart[15] = 2;
        assert_eq!(rt;
            register(closed, &[7; 64], &[9; 64], &counted(), 0x3_8005),
            Some(lowest)
        );
        assert_eq!(rt;
            register(spread, &[7; 64], &[9; 64], &counted(), 0x3_8005),
            Some(apart)
        );
    }
}

/// PBLENDVB with the signs as mask, and PSADBW, whose lanes have 8 bytes.
#[test]
fn each_kernel_has_its_operations(rt: HostRuntime) {
    let blend = Form {
        op: Op::Cross(CrossOp::Pblendv),
        masking: MaskKind::Select,
        ..SUM
    };
    let differences = Form {
        op: Op::Mac(MacOp::Psadbw),
        width: 8,
        lanes: 2,
        ..SUM
    };
    let mut want = bytes(9, 16, 0);
    want[1] = 1;
    want[15] = 15;
    assert_eq!(rt;
        register(blend, &[7; 64], &[9; 64], &counted(), 0x8002),
        Some(want)
    );
    let mut want = [0; 64];
    want[0] = 28;
    want[8] = 92;
    assert_eq!(rt;
        register(differences, &[7; 64], &[0; 64], &counted(), u64::MAX),
        Some(want)
    );
}

fn fed_of(n: u8, lanes: u8, mask: u64) -> Option<u64> {
    if n <= 64 && lanes <= 64 {
        Some(fed(n, lanes, mask))
    } else {
        None
    }
}

#[test]
fn elements_are_those_that_lanes_ask_for(rt: HostRuntime) {
    for (n, lanes, mask, want) in [
        (4, 16, 0x3333, 3),
        (4, 16, 0x8000, 8),
        (4, 16, 0xF_0000, 0),
        (2, 8, 0x55, 1),
        (1, 8, 0x80, 1),
        (16, 16, 0xF_8001, 0xF_8001),
    ] {
        assert_eq!(rt;
            fed_of(n, lanes, mask),
            Some(want),
            "{n} for {lanes} by {mask}"
        );
    }
    assert_eq!(rt; packed(16, 0x3_8005), 7);
    assert_eq!(rt; packed(64, u64::MAX), u64::MAX);
    assert_eq!(rt; packed(8, 0x100), 0);
}
