//! Instructions by their bytes, with what the SDM gives for them.
use super::fixture::{
    FROM_15_UP, LAST, REGISTERS, Seat, at, bytes, fields, make_seat, step, unmapped,
};
use crate::Places;
use machine_state::Kind;
use row_table::{Class, Fields};
use std::process::Abort;
use std::test::Fail;

/// The registers 0, 1 and 2 in ModRM.reg, vvvv and ModRM.r/m.
const IN_ORDER: Places = Places {
    reg: 0,
    vvvv: 1,
    rm: 2,
    memory: None,
};

/// Register 1 everywhere.
const ALL_ONE: Places = Places {
    reg: 1,
    vvvv: 1,
    rm: 1,
    memory: None,
};

/// A shift by an immediate of xmm1 to xmm0, in vvvv.
const BY_NUMBER: Places = Places {
    reg: 0,
    vvvv: 0,
    rm: 1,
    memory: None,
};

fn assert_steps(rt: &impl Abort, s: &mut Seat, fields: &Fields, places: &Places) {
    assert_eq!(rt; step(s, fields, places), Some(Ok(())));
}

/// C5 F1 EC C2: VPADDSB xmm0, xmm1, xmm2.
#[test]
fn signed_sums_stop_at_their_bounds(rt: HostRuntime) -> Result<(), Fail> {
    let mut s = make_seat(&rt, rt.alloc())?;
    let sum = fields((Class::Vex, 1, 1, 0xEC, 0xC2), 0, 0);
    s.vec.set_zmm(1, &[0x7F; 64]);
    s.vec.set_zmm(2, &[1; 64]);
    assert_steps(&rt, &mut s, &sum, &IN_ORDER);
    assert_eq!(rt; *s.vec.zmm(0), bytes(0x7F, 16, 0));
    Ok(())
}

/// C5 F9 72 D1 28: VPSRLD xmm0, xmm1, 40; C5 F9 72 F1 1F: VPSLLD xmm0, xmm1, 31.
#[test]
fn counts_of_shifts_may_pass_the_width(rt: HostRuntime) -> Result<(), Fail> {
    let mut s = make_seat(&rt, rt.alloc())?;
    let right = fields((Class::Vex, 1, 1, 0x72, 0xD1), 0, 40);
    let left = fields((Class::Vex, 1, 1, 0x72, 0xF1), 0, 31);
    s.vec.set_zmm(1, &[0xFF; 64]);
    assert_steps(&rt, &mut s, &right, &BY_NUMBER);
    assert_eq!(rt; *s.vec.zmm(0), [0; 64]);
    let mut ones = [0; 64];
    let mut want = [0; 64];
    for at in [0, 4, 8, 12] {
        ones[at] = 1;
        want[at + 3] = 0x80;
    }
    s.vec.set_zmm(1, &ones);
    assert_steps(&rt, &mut s, &left, &BY_NUMBER);
    assert_eq!(rt; *s.vec.zmm(0), want);
    Ok(())
}

/// 66 0F EF C9: PXOR xmm1, xmm1; C5 F1 EF C9: VPXOR xmm1, xmm1, xmm1.
#[test]
fn legacy_rows_keep_what_vex_clears(rt: HostRuntime) -> Result<(), Fail> {
    let mut s = make_seat(&rt, rt.alloc())?;
    let legacy = fields((Class::Legacy, 1, 1, 0xEF, 0xC9), 0, 0);
    let vex = fields((Class::Vex, 1, 1, 0xEF, 0xC9), 0, 0);
    s.vec.set_zmm(1, &bytes(0xFF, 32, 0));
    assert_steps(&rt, &mut s, &legacy, &ALL_ONE);
    let mut want = bytes(0, 16, 0xFF);
    want[32..].fill(0);
    assert_eq!(rt; *s.vec.zmm(1), want);
    assert_steps(&rt, &mut s, &vex, &ALL_ONE);
    assert_eq!(rt; *s.vec.zmm(1), [0; 64]);
    Ok(())
}

/// 66 0F 6E CB: MOVD xmm1, ebx; C4 E1 F9 7E CB: VMOVQ rbx, xmm1; C5 F9 7E CB: VMOVD ebx, xmm1.
#[test]
fn elements_move_between_kinds_of_registers(rt: HostRuntime) -> Result<(), Fail> {
    let load = fields((Class::Legacy, 1, 1, 0x6E, 0xCB), 0, 0);
    let narrow = fields((Class::Vex, 1, 1, 0x7E, 0xCB), 0, 0);
    let store = Fields { w: true, ..narrow };
    let mut s = make_seat(&rt, rt.alloc())?;
    s.gprs.set(3, 0x1122_3344_5566_7788);
    assert_steps(&rt, &mut s, &load, &REGISTERS);
    assert_eq!(rt;
        &s.vec.zmm(1)[..17],
        [
            0x88, 0x77, 0x66, 0x55, 0, 0, 0, 0, 0, 0, 0, 0, 0, 0, 0, 0, 0x11
        ]
        .as_slice()
    );
    s.vec.set_zmm(1, &[0x99; 64]);
    assert_steps(&rt, &mut s, &store, &REGISTERS);
    assert_eq!(rt; s.gprs.get(3), 0x9999_9999_9999_9999);
    assert_steps(&rt, &mut s, &narrow, &REGISTERS);
    assert_eq!(rt; s.gprs.get(3), 0x9999_9999);
    Ok(())
}

/// C5 FD D7 CB: VPMOVMSKB ecx, ymm3; C4 E2 79 17 CB: VPTEST xmm1, xmm3.
#[test]
fn bits_go_to_a_general_register_or_to_the_flags(rt: HostRuntime) -> Result<(), Fail> {
    let moved = fields((Class::Vex, 1, 1, 0xD7, 0xCB), 1, 0);
    let test = fields((Class::Vex, 1, 2, 0x17, 0xCB), 0, 0);
    let mut s = make_seat(&rt, rt.alloc())?;
    s.gprs.set(1, u64::MAX);
    s.vec.set_zmm(3, &bytes(0x80, 5, 0));
    assert_steps(&rt, &mut s, &moved, &REGISTERS);
    assert_eq!(rt; s.gprs.get(1), 0x1F);
    assert_steps(&rt, &mut s, &test, &REGISTERS);
    assert_eq!(rt; s.flags.word(), 0x242);
    s.vec.set_zmm(3, &[1; 64]);
    assert_steps(&rt, &mut s, &test, &REGISTERS);
    assert_eq!(rt; s.flags.word(), 0x203);
    assert_eq!(rt; *s.vec.zmm(1), [0x11; 64]);
    Ok(())
}

/// C5 FA 7E 0B: VMOVQ xmm1, [rbx]; 66 0F 3A 16 0B 00: PEXTRD [rbx], xmm1, 0.
#[test]
fn an_element_is_accessed_by_itself(rt: HostRuntime) -> Result<(), Fail> {
    let load = fields((Class::Vex, 2, 1, 0x7E, 0x0B), 0, 0);
    let store = fields((Class::Legacy, 1, 3, 0x16, 0x0B), 0, 0);
    let mut s = make_seat(&rt, rt.alloc())?;
    assert_steps(&rt, &mut s, &load, &at(LAST + 8));
    let mut want = [0; 64];
    want[..8].copy_from_slice(&FROM_15_UP[8..]);
    assert_eq!(rt; *s.vec.zmm(1), want);
    assert_eq!(rt;
        step(&mut s, &load, &at(LAST + 9)),
        unmapped(Kind::Read, LAST + 16)
    );
    assert_eq!(rt;
        step(&mut s, &store, &at(LAST + 13)),
        unmapped(Kind::Write, LAST + 16)
    );
    assert_steps(&rt, &mut s, &store, &at(LAST + 12));
    let mut left = [0; 16];
    assert_eq!(rt; s.pages.read(LAST, &mut left, Kind::Read), Ok(()));
    assert_eq!(rt; &left[..12], &FROM_15_UP[..12]);
    assert_eq!(rt; &left[12..], &FROM_15_UP[8..12]);
    Ok(())
}
