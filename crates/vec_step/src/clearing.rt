//! Vector registers whose upper parts become 0.
ghost use Rattle.std.specs.Prelude.{◌≡◌, ◌≤◌};
ghost use Rattle.vec_step.specs.Clear.{first_cleared, clearing_left};

use crate::kinds::Clearing;
use vec_file::VecFile;

/// The first byte that becomes 0.
fn first(clearing: Clearing) -> usize
    ensures value { result ≡ first_cleared clearing }
    ensures most { result ≤ 64 }
{
    match clearing {
        Clearing::Upper => 16,
        Clearing::All => 0,
    }
}

/// Clears bytes of vector registers 0 to 15.
pub fn clear(vec: &mut VecFile, clearing: Clearing)
    ensures { vec.new ≡ clearing_left clearing vec.old }
{
    vec.clear(first(clearing));
}
