//! Shifts.
ghost use Rattle.std.specs.Prelude.{◌≡◌, ◌^◌, ◌<◌, IsTrue};
ghost use Rattle.opmask_unit.specs.Opmasks.{is_width, shift_of};

use crate::numbers::cut;
use gpr_flags::low;

/// The low `bits` bits of an opmask, shifted to the left or to the right. All of the count counts, and one that isn't
/// below `bits` leaves 0.
#[tactic(auto, unfolding(crate::specs::Opmasks::shift_of))]
pub fn shift(left: bool, bits: u8, a: u64, count: u8) -> u64
    requires { IsTrue (is_width bits) }
    ensures value { result ≡ shift_of left bits a count }
    ensures fits { result < 2 ^ bits }
{
    let a = cut(bits, a);
    if count >= bits {
        0
    } else if left {
        low(u32::from(bits), u128::from(a) << count)
    } else {
        a >> count
    }
}
