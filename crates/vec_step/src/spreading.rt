//! One lane in all lanes.
ghost use Rattle.std.specs.Prelude.{◌≡◌, IsTrue};
ghost use Rattle.gpr_flags.specs.Registers.{is_size};
ghost use Rattle.vec_step.specs.Left.{spread};

use num_lanes::{Vec64, get_lane, set_lane};

/// The lowest lane in all lanes of one width.
fn spread_at<const W: usize>(lanes: &Vec64) -> Vec64
    requires { IsTrue (is_size W) }
    ensures { result ≡ spread W lanes.now }
{
    let value = get_lane::<W>(lanes, 0);
    let mut out = [0u8; 64];
    for lane in 0..64 / W {
        set_lane::<W>(&mut out, lane, value);
    }
    out
}

/// The lowest lane in all lanes.
pub(crate) fn spread_lowest(width: u8, lanes: &Vec64) -> Vec64
    requires { IsTrue (is_size width) }
    ensures { result ≡ spread width lanes.now }
{
    match width {
        1 => spread_at::<1>(lanes),
        2 => spread_at::<2>(lanes),
        4 => spread_at::<4>(lanes),
        _ => spread_at::<8>(lanes),
    }
}
