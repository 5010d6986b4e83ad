//! A register file with the state components that XSAVE saves.
ghost use Rattle.std.specs.Prelude.{◌≡◌, ◌<◌, false, slice_index, slice_get, Some};
ghost use Rattle.gpr_flags.specs.Numbers.{has_bit};
ghost use Rattle.machine_state.specs.State.{Extended};
ghost use Rattle.num_lanes.specs.Components.{in_use_of};
ghost use Rattle.num_lanes.specs.Setters.{with_zmm, with_k, with_mxcsr, with_x87, restored_of, with_record};

use crate::components::{Components, Record};
use crate::lanes::Vec64;

/// What calls on save areas see of a register file. A setter changes its value alone, and takes each component whose value
/// that changes out of the kept set.
pub trait Parts {
    /// The extended state that the file stands for.
    ghost extended: { Self → Extended };

    fn zmm(&self, n: u8) -> &Vec64
        requires { n < 32 }
        ensures { slice_get (extended self.now).zmm n ≡ Some result.now };

    fn set_zmm(&mut self, n: u8, v: &Vec64)
        requires { n < 32 }
        ensures { extended self.new ≡ with_zmm n v.now (extended self.old) };

    fn k(&self, n: u8) -> u64
        requires { n < 8 }
        ensures { result ≡ slice_index (extended self.now).k n };

    fn set_k(&mut self, n: u8, v: u64)
        requires { n < 8 }
        ensures { extended self.new ≡ with_k n v (extended self.old) };

    fn mxcsr(&self) -> u32
        ensures value { result ≡ (extended self.now).mxcsr }
        ensures bound { result < 65536 };

    fn set_mxcsr(&mut self, v: u32)
        requires { v < 65536 }
        ensures { extended self.new ≡ with_mxcsr v (extended self.old) };

    /// The 24 bytes of the header and eight registers of 10 bytes; byte 5 is 0.
    fn x87(&self) -> &[u8; 104]
        ensures value { (extended self.now).x87 ≡ result.now }
        ensures reserved { slice_index result.now 5 ≡ 0 };

    fn set_x87(&mut self, v: &[u8; 104])
        requires { slice_index v.now 5 ≡ 0 }
        ensures { extended self.new ≡ with_x87 v.now (extended self.old) };

    /// The components whose value isn't the initial one (SDM volume 1, 13.6).
    fn in_use(&self) -> Components
        ensures { result.0 ≡ in_use_of (extended self.now) };

    fn record(&self) -> Record
        ensures value { restored_of result ≡ (extended self.now).restored }
        ensures without_x87 { has_bit result.kept.0 0 ≡ false };

    fn set_record(&mut self, r: Record)
        requires { has_bit r.kept.0 0 ≡ false }
        ensures { extended self.new ≡ with_record r (extended self.old) };
}
