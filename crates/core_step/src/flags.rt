//! Flags of instructions that move them.
ghost use Rattle.std.specs.Prelude.{◌≡◌};
ghost use Rattle.core_step.specs.Result.{with_low_flags as flags_with_low};

use gpr_flags::Flags;

/// The flags where SF, ZF, AF, PF and CF are those of a flags word.
pub(crate) fn with_low(f: Flags, word: u64) -> Flags
    ensures { result ≡ flags_with_low f word }
{
    Flags {
        df: f.df,
        ovf: f.ovf,
        ..Flags::from_word(word)
    }
}
