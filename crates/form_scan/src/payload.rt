//! What the bits of REX, VEX and EVEX say. VEX and EVEX hold their register bits inverted.
ghost use Rattle.std.specs.Prelude.{◌≡◌};
ghost use Rattle.form_scan.specs.Payload.{of_rex, of_vex_two, of_vex_three, of_evex};

use crate::kinds::Payload;
use row_table::Class;

/// A legacy instruction's: the bits of its REX byte, all 0 where `rex` is 0.
#[tactic(auto, unfolding(crate::specs::Payload::of_rex))]
pub(crate) fn from_rex(map: u8, rex: u8) -> Payload
    ensures { result ≡ of_rex map rex }
{
    Payload {
        class: Class::Legacy,
        map,
        w: rex / 8 % 2 == 1,
        r: rex / 4 % 2,
        x: rex / 2 % 2,
        b: rex % 2,
        v: 0,
        l: 0,
        pp: 0,
        z: false,
        bc: false,
        aaa: 0,
    }
}

/// C5 and one byte.
#[tactic(auto, unfolding(crate::specs::Payload::of_vex_two))]
pub(crate) fn from_vex_two(p: u8) -> Payload
    ensures { result ≡ of_vex_two p }
{
    Payload {
        class: Class::Vex,
        map: 1,
        w: false,
        r: 1 - p / 128 % 2,
        x: 0,
        b: 0,
        v: 15 - p / 8 % 16,
        l: p / 4 % 2,
        pp: p % 4,
        z: false,
        bc: false,
        aaa: 0,
    }
}

/// C4 and two bytes.
#[tactic(auto, unfolding(crate::specs::Payload::of_vex_three))]
pub(crate) fn from_vex_three(p: u8, q: u8) -> Payload
    ensures { result ≡ of_vex_three p q }
{
    Payload {
        class: Class::Vex,
        map: p % 32,
        w: q / 128 % 2 == 1,
        r: 1 - p / 128 % 2,
        x: 1 - p / 64 % 2,
        b: 1 - p / 32 % 2,
        v: 15 - q / 8 % 16,
        l: q / 4 % 2,
        pp: q % 4,
        z: false,
        bc: false,
        aaa: 0,
    }
}

/// 62 and three bytes.
#[tactic(auto, unfolding(crate::specs::Payload::of_evex))]
pub(crate) fn from_evex(p: u8, q: u8, s: u8) -> Payload
    ensures { result ≡ of_evex p q s }
{
    Payload {
        class: Class::Evex,
        map: p % 8,
        w: q / 128 % 2 == 1,
        r: (1 - p / 128 % 2) + 2 * (1 - p / 16 % 2),
        x: 1 - p / 64 % 2,
        b: 1 - p / 32 % 2,
        v: (15 - q / 8 % 16) + 16 * (1 - s / 8 % 2),
        l: s / 32 % 4,
        pp: q % 4,
        z: s / 128 % 2 == 1,
        bc: s / 16 % 2 == 1,
        aaa: s % 8,
    }
}
