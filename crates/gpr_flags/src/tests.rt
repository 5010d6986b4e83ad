//! Words and conditions. What is expected is the SDM's.
use crate::*;

/// A flags word, and the numbers of the conditions that it meets, as bits (SDM volume 1, 3.4.3 and appendix B).
const CONDITIONS: [(u64, u16); 7] = [
    (0x202, 0b1010_1010_1010_1010),
    (0x203, 0b1010_1010_0110_0110),
    (0x206, 0b1010_0110_1010_1010),
    (0x242, 0b0110_1010_0101_1010),
    (0x282, 0b0101_1001_1010_1010),
    (0xA02, 0b0101_1010_1010_1001),
    (0xA82, 0b1010_1001_1010_1001),
];

#[test]
fn conditions_follow_the_flags(rt: HostRuntime) {
    for (word, met) in CONDITIONS {
        let flags = Flags::from_word(word);
        for cond in 0..16u8 {
            assert_eq!(rt;
                flags.holds(cond),
                met >> cond & 1 == 1,
                "condition {cond} at {word}"
            );
        }
    }
}

#[test]
fn word_of_flags_of_a_word(rt: HostRuntime) {
    assert_eq!(rt; Flags::none().word(), 0x202);
    // Of all bits, CF, PF, AF, ZF, SF, DF and OF stay, and the two that are always set.
    assert_eq!(rt; Flags::from_word(u64::MAX).word(), 0xED7);
    assert_eq!(rt; Flags::from_word(0xA92).word(), 0xA92);
    assert!(rt; Flags::from_word(0xA92).ovf);
    assert!(rt; !Flags::from_word(0xA92).cf);
}

#[test]
fn registers_keep_their_values(rt: HostRuntime) {
    let mut gprs = Gprs::new();
    gprs.set(4, 7);
    gprs.set(15, u64::MAX);
    assert_eq!(rt; gprs.get(0), 0);
    assert_eq!(rt; gprs.get(4), 7);
    assert_eq!(rt; gprs.get(15), u64::MAX);
}

/// A size in bytes, and what FFFFFFFF00112233H is once A1B2C3D4E5F60718H is written to it at that size (SDM volume 1, 3.4.1.1).
const WRITTEN: [(u8, u64); 4] = [
    (1, 0xFFFF_FFFF_0011_2218),
    (2, 0xFFFF_FFFF_0011_0718),
    (4, 0xE5F6_0718),
    (8, 0xA1B2_C3D4_E5F6_0718),
];

#[test]
fn short_numbers_leave_the_rest_of_a_register_and_four_bytes_clear_it(rt: HostRuntime) {
    for (size, expected) in WRITTEN {
        let mut gprs = Gprs::new();
        gprs.set(3, 0xFFFF_FFFF_0011_2233);
        gprs.write(3, size, 0xA1B2_C3D4_E5F6_0718);
        assert_eq!(rt; gprs.get(3), expected, "size {size}");
    }
}

#[test]
fn flags_of_a_value_are_of_its_bits(rt: HostRuntime) {
    assert_eq!(rt; Flags::none().with_value(8, 0x80).word(), 0x282);
    assert_eq!(rt; Flags::none().with_value(16, 0x80).word(), 0x202);
    assert_eq!(rt; Flags::none().with_value(32, 0).word(), 0x246);
    assert_eq!(rt;
        Flags::none().with_value(64, 0x8000_0000_0000_0103).word(),
        0x286
    );
    assert_eq!(rt; Flags::none().with_sign_and_zero(8, 0).word(), 0x242);
    assert_eq!(rt; low(5, 0xFF), 0x1F);
}

#[test]
fn sign_is_the_highest_bit(rt: HostRuntime) {
    assert!(rt; has_bit(0x400, 10));
    assert!(rt; !has_bit(0x400, 9));
    assert!(rt; is_negative(8, 0x80));
    assert!(rt; !is_negative(16, 0x80));
    assert!(rt; is_negative(64, u64::MAX));
}
