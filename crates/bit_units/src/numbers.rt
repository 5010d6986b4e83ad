//! The low bits of a count.
ghost use Rattle.std.specs.Prelude.{◌≡◌, ◌<◌};
ghost use Rattle.bit_units.specs.Numbers.{masked as masked_to};

/// A count's low five bits, or its low six for 64 bits.
pub(crate) fn masked(width: u32, count: u64) -> u32
    ensures value { result ≡ masked_to width count }
    ensures small { result < 64 }
{
    if width == 64 {
        (count % 64) as u32
    } else {
        (count % 32) as u32
    }
}
