//! What is in use and what is kept, by register and place. What is expected is the SDM's (volume 1, 13.1 and 13.6).
ghost use Rattle.std.specs.Prelude.{◌<◌};

use crate::*;

/// A byte of a vector register, and the component that has it.
struct Place {
    register: u8,
    byte: usize,
    component: u8,
}

static PLACES: [Place; 12] = [
    Place {
        register: 0,
        byte: 0,
        component: 0x02,
    },
    Place {
        register: 0,
        byte: 15,
        component: 0x02,
    },
    Place {
        register: 15,
        byte: 15,
        component: 0x02,
    },
    Place {
        register: 0,
        byte: 16,
        component: 0x04,
    },
    Place {
        register: 15,
        byte: 16,
        component: 0x04,
    },
    Place {
        register: 15,
        byte: 31,
        component: 0x04,
    },
    Place {
        register: 0,
        byte: 32,
        component: 0x40,
    },
    Place {
        register: 15,
        byte: 32,
        component: 0x40,
    },
    Place {
        register: 15,
        byte: 63,
        component: 0x40,
    },
    Place {
        register: 16,
        byte: 0,
        component: 0x80,
    },
    Place {
        register: 16,
        byte: 63,
        component: 0x80,
    },
    Place {
        register: 31,
        byte: 40,
        component: 0x80,
    },
];

/// The components that can be kept, without x87.
const KEPT: Components = Components(0xE6);

/// Keeps all components that can be kept.
fn keep_all<P: Parts>(parts: &mut P) {
    parts.set_record(Record {
        at: Some(0x1000),
        compact: false,
        kept: KEPT,
    });
}

/// Whether another value of the row's byte uses its component and drops it, and the same value drops nothing.
fn is_its_component<P: Parts>(parts: &mut P, row: &Place) -> bool {
    if row.register >= 32 || row.byte >= 64 {
        return false;
    }
    let before = parts.in_use().0;
    let mut value = *parts.zmm(row.register);
    value[row.byte] = 0x80;
    keep_all(parts);
    parts.set_zmm(row.register, &value);
    let uses = parts.in_use().0 == before | row.component;
    let drops = parts.record().kept.0 == KEPT.0 & !row.component;
    keep_all(parts);
    parts.set_zmm(row.register, &value);
    uses && drops && parts.record().kept == KEPT
}

fn wrong_place(rows: &[Place]) -> Option<usize> {
    for (i, row) in rows.iter().enumerate() {
        let mut file = VecFile::new();
        if !is_its_component(&mut file, row) {
            return Some(i);
        }
    }
    None
}

#[test]
fn each_byte_of_a_vector_register_is_of_one_component(rt: HostRuntime) {
    assert_eq!(rt; wrong_place(&PLACES), None);
}

#[test]
fn start_is_initial(rt: HostRuntime) {
    let file = VecFile::new();
    assert_eq!(rt; file.in_use(), Components(0));
    assert_eq!(rt; *file.zmm(31), [0; 64]);
    assert_eq!(rt; file.k(7), 0);
    assert_eq!(rt; file.mxcsr(), 0x1F80);
    assert_eq!(rt; file.x87()[0], 0x7F);
    assert_eq!(rt; file.x87()[1], 0x03);
    assert_eq!(rt; file.x87()[2], 0);
    assert_eq!(rt; file.record().at, None);
}

#[test]
fn opmasks_are_one_component(rt: HostRuntime) {
    let mut file = VecFile::new();
    keep_all(&mut file);
    file.set_k(7, 0);
    assert_eq!(rt; file.record().kept, KEPT);
    file.set_k(7, 0x8000_0000_0000_0000);
    assert_eq!(rt; file.record().kept, Components(0xC6));
    assert_eq!(rt; file.k(7), 0x8000_0000_0000_0000);
    assert_eq!(rt; file.in_use(), Components::OPMASK);
    file.set_k(7, 0);
    assert_eq!(rt; file.in_use(), Components(0));
}

#[test]
fn mxcsr_uses_sse_and_drops_nothing(rt: HostRuntime) {
    let mut file = VecFile::new();
    keep_all(&mut file);
    file.set_mxcsr(0x1FA0);
    assert_eq!(rt; file.mxcsr(), 0x1FA0);
    assert_eq!(rt; file.in_use(), Components::SSE);
    assert_eq!(rt; file.record().kept, KEPT);
}

#[test]
fn x87_is_in_use_and_never_kept(rt: HostRuntime) {
    let mut file = VecFile::new();
    keep_all(&mut file);
    let mut x87 = *file.x87();
    x87[103] = 0x3F;
    file.set_x87(&x87);
    assert_eq!(rt; file.x87()[103], 0x3F);
    assert_eq!(rt; file.in_use(), Components::X87);
    assert_eq!(rt; file.record().kept, KEPT);
}

/// Which components are in use after the bytes from a place on were cleared in files whose registers 0 to 16 have no zero, and
/// which are then still kept.
fn cleared_from(from: usize) -> (u8, u8) {
    let mut file = VecFile::new();
    for n in 0..17 {
        file.set_zmm(n, &[7; 64]);
    }
    keep_all(&mut file);
    if from <= 64 {
        file.clear(from);
    }
    (file.in_use().0, file.record().kept.0)
}

#[test]
fn cleared_bytes_are_not_in_use_and_not_kept(rt: HostRuntime) {
    assert_eq!(rt; cleared_from(16), (0x82, 0xA2));
    assert_eq!(rt; cleared_from(0), (0x80, 0xA0));
    assert_eq!(rt; cleared_from(64), (0xC6, 0xE6));
}
