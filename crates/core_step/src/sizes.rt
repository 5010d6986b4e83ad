//! Numbers of an operand's size, and the parts of general registers.
ghost use Rattle.std.specs.Prelude.{◌≡◌, ◌≤◌, ◌<◌, ◌^◌};
ghost use Rattle.core_step.specs.Size.{bytes_in, bits_in, cut as cut_to, sign_extended, half_of, with_high_byte as with_high};

use gpr_flags::is_negative;

/// The size of an operand (SDM volume 1, 4.1).
#[derive(Clone, Copy, Debug, PartialEq, Eq)]
pub enum Size {
    /// 8 bits.
    Byte,
    /// 16 bits.
    Word,
    /// 32 bits.
    Double,
    /// 64 bits.
    Quad,
}

impl Size {
    /// How many bytes it has.
    pub(crate) fn bytes(self) -> u8
        ensures value { result ≡ bytes_in self }
        ensures some { 1 ≤ result }
        ensures most { result ≤ 8 }
    {
        match self {
            Size::Byte => 1,
            Size::Word => 2,
            Size::Double => 4,
            Size::Quad => 8,
        }
    }

    /// How many bits it has.
    pub(crate) fn bits(self) -> u32
        ensures value { result ≡ bits_in self }
        ensures some { 8 ≤ result }
        ensures most { result ≤ 64 }
    {
        8 * u32::from(self.bytes())
    }

    /// The low bits of a number, as many as the size has.
    pub(crate) fn cut(self, number: u64) -> u64
        ensures { result ≡ cut_to self number }
    {
        match self {
            Size::Byte => number % 0x100,
            Size::Word => number % 0x1_0000,
            Size::Double => number % 0x1_0000_0000,
            Size::Quad => number,
        }
    }

    /// A number of this size at 64 bits, with its sign.
    pub(crate) fn sign_extend(self, number: u64) -> u64
        requires { number < 2 ^ bits_in self }
        ensures { result ≡ sign_extended self number }
    {
        let above = match self {
            Size::Byte => 0xFFFF_FFFF_FFFF_FF00,
            Size::Word => 0xFFFF_FFFF_FFFF_0000,
            Size::Double => 0xFFFF_FFFF_0000_0000,
            Size::Quad => 0,
        };
        if is_negative(self.bits(), number) {
            above + number
        } else {
            number
        }
    }

    /// The size that has half as many bits.
    pub(crate) fn half(self) -> Size
        ensures { result ≡ half_of self }
    {
        match self {
            Size::Byte | Size::Word => Size::Byte,
            Size::Double => Size::Word,
            Size::Quad => Size::Double,
        }
    }
}

/// A register with other bits 8 to 15.
pub(crate) fn with_high_byte(old: u64, number: u64) -> u64
    ensures { result ≡ with_high old number }
{
    old / 0x1_0000 * 0x1_0000 + number % 0x100 * 0x100 + old % 0x100
}
