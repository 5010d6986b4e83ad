//! The flags as conditions and as a number.
ghost use Rattle.std.specs.Prelude.{◌≡◌, ◌<◌, ◌≤◌};
ghost use Rattle.gpr_flags.specs.Flags.{no_flags, flag_bit as flag_bit_of, flags_word, flags_of, sign_and_zero, value_flags, even_condition, holds as condition_holds};

use crate::kinds::Flags;
use crate::numbers::{has_bit, is_negative};

fn even_condition_holds(f: &Flags, number: u8) -> bool
    requires { number < 8 }
    ensures { result ≡ even_condition f.now number }
{
    match number {
        0 => f.ovf,
        1 => f.cf,
        2 => f.zf,
        3 => f.cf || f.zf,
        4 => f.sf,
        5 => f.pf,
        6 => f.sf != f.ovf,
        _ => f.zf || f.sf != f.ovf,
    }
}

fn flag_bit(set: bool, weight: u64) -> u64
    ensures value { result ≡ flag_bit_of set weight }
    ensures most { result ≤ weight }
{
    if set { weight } else { 0 }
}

impl Flags {
    /// All seven clear.
    pub fn none() -> Flags
        ensures { result ≡ no_flags }
    {
        Flags {
            cf: false,
            pf: false,
            af: false,
            zf: false,
            sf: false,
            df: false,
            ovf: false,
        }
    }

    /// Whether the condition with this number, 0 to 15, is met (SDM volume 1, appendix B).
    #[tactic(auto, unfolding(crate::specs::Flags::holds))]
    pub fn holds(&self, cond: u8) -> bool
        requires { cond < 16 }
        ensures { result ≡ condition_holds self.now cond }
    {
        if cond % 2 == 1 {
            !even_condition_holds(self, cond / 2)
        } else {
            even_condition_holds(self, cond / 2)
        }
    }

    /// The flags as the number that RFLAGS is, with bits 1 and 9 set and no others beside the flags (SDM volume 1, 3.4.3).
    pub fn word(&self) -> u64
        ensures { result ≡ flags_word self.now }
    {
        let low = flag_bit(self.cf, 1) + flag_bit(self.pf, 4) + flag_bit(self.af, 16);
        let middle = flag_bit(self.zf, 64) + flag_bit(self.sf, 128);
        514 + low + middle + flag_bit(self.df, 1024) + flag_bit(self.ovf, 2048)
    }

    /// The flags of a flags word; its other bits don't count.
    #[tactic(auto, unfolding(crate::specs::Flags::flags_of))]
    pub fn from_word(word: u64) -> Flags
        ensures { result ≡ flags_of word }
    {
        Flags {
            cf: has_bit(word, 0),
            pf: has_bit(word, 2),
            af: has_bit(word, 4),
            zf: has_bit(word, 6),
            sf: has_bit(word, 7),
            df: has_bit(word, 10),
            ovf: has_bit(word, 11),
        }
    }

    /// The same flags with SF and ZF of a value of `bits` bits.
    pub fn with_sign_and_zero(self, bits: u32, value: u64) -> Flags
        requires some { 0 < bits }
        requires most { bits ≤ 64 }
        ensures { result ≡ sign_and_zero bits value self }
    {
        Flags {
            zf: value == 0,
            sf: is_negative(bits, value),
            ..self
        }
    }

    /// The same flags with SF, ZF and PF of a value of `bits` bits.
    pub fn with_value(self, bits: u32, value: u64) -> Flags
        requires some { 0 < bits }
        requires most { bits ≤ 64 }
        ensures { result ≡ value_flags bits value self }
    {
        Flags {
            pf: (value % 256).count_ones() % 2 == 0,
            ..self.with_sign_and_zero(bits, value)
        }
    }
}
