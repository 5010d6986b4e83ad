//! Legacy prefixes and REX.
ghost use Rattle.std.specs.Prelude.{◌≡◌};
ghost use Rattle.form_scan.specs.Front.{is_rex, is_segment, is_repeat, is_prefix, in_front};
ghost use Rattle.form_scan.specs.Reading.{after, no_front};

use crate::kinds::Front;

fn is_rex_byte(byte: u8) -> bool
    ensures { result ≡ is_rex byte }
{
    (0x40..=0x4f).contains(&byte)
}

fn is_segment_prefix(byte: u8) -> bool
    ensures { result ≡ is_segment byte }
{
    byte == 0x64 || byte == 0x65
}

fn is_repeat_prefix(byte: u8) -> bool
    ensures { result ≡ is_repeat byte }
{
    byte == 0xf2 || byte == 0xf3
}

fn is_legacy_prefix(byte: u8) -> bool
    ensures { result ≡ is_prefix byte }
{
    byte == 0xf0
        || byte == 0xf2
        || byte == 0xf3
        || byte == 0x2e
        || byte == 0x36
        || byte == 0x3e
        || byte == 0x26
        || byte == 0x64
        || byte == 0x65
        || byte == 0x66
        || byte == 0x67
}

/// Whether the byte is a prefix or REX.
#[tactic(auto, unfolding(crate::specs::Front::in_front))]
pub(crate) fn is_in_front(byte: u8) -> bool
    ensures { result ≡ in_front byte }
{
    is_rex_byte(byte) || is_legacy_prefix(byte)
}

/// Before the first byte.
pub(crate) fn empty() -> Front
    ensures { result ≡ no_front }
{
    Front {
        segment: 0,
        lock: false,
        rep: 0,
        p66: false,
        p67: false,
        rex: 0,
    }
}

/// With one more byte.
#[tactic(auto, unfolding(crate::specs::Reading::after))]
pub(crate) fn with_byte(front: Front, byte: u8) -> Front
    ensures { result ≡ after front byte }
{
    Front {
        segment: if is_segment_prefix(byte) {
            byte
        } else {
            front.segment
        },
        lock: front.lock || byte == 0xf0,
        rep: if is_repeat_prefix(byte) {
            byte
        } else {
            front.rep
        },
        p66: front.p66 || byte == 0x66,
        p67: front.p67 || byte == 0x67,
        rex: if is_rex_byte(byte) { byte } else { 0 },
    }
}
