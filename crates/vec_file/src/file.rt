//! The register file.
ghost use Rattle.std.specs.Prelude.{◌≡◌, ◌<◌, ◌≤◌, ◌==◌, ◌&&◌, false, nat_eq, replicate, slice_index, slice_get, slice_set, slice_range, Some};
ghost use Rattle.std.specs.Cmp.Lexicographic.{pointwise};
ghost use Rattle.std.specs.List.{list_all};
ghost use Rattle.gpr_flags.specs.Numbers.{has_bit};
ghost use Rattle.machine_state.specs.State.{initial_extended, IsExtended};
ghost use Rattle.num_lanes.specs.Components.{changed, in_use_of};
ghost use Rattle.num_lanes.specs.Setters.{with_zmm, with_k, with_mxcsr, with_x87, restored_of, with_record, with_cleared};

use crate::values::{are_initial, bit_unless, cleared, initial_fields, initial_registers};
use bitflags::Flags;
use num_lanes::{Components, Record, Vec64};
use std::marker::Model;

/// ZMM0 to ZMM31, k0 to k7, MXCSR, x87, and what is remembered of the last XRSTOR.
#[derive(Drop)]
pub struct VecFile {
    zmm: [Vec64; 32],
    k: [u64; 8],
    mxcsr: u32,
    x87: [u8; 104],
    restored: Record,
}

impl Model for VecFile {
    ghost use Rattle.machine_state.specs.State.{Extended, IsExtended};
    ghost use Rattle.vec_file.specs.File.{extended_of};

    ghost Value = { Extended };

    ghost view = { λ file. extended_of file.zmm file.k file.mxcsr file.x87 file.restored };

    ghost invariant = { λ file. IsExtended (extended_of file.zmm file.k file.mxcsr file.x87 file.restored) };
}

impl VecFile {
    /// The state at the start of a program.
    #[tactic(auto, unfolding(machine_state::specs::State::initial_extended, machine_state::specs::State::initial_x87))]
    pub fn new() -> VecFile
        ensures { result ≡ initial_extended }
    {
        VecFile {
            zmm: initial_registers(),
            k: [0; 8],
            mxcsr: 0x1F80,
            x87: initial_fields(),
            restored: Record {
                at: None,
                compact: false,
                kept: Components(0),
            },
        }
    }

    /// What holds of the state at any time; a caller that needs it calls this.
    pub fn limit(&self)
        ensures { IsExtended self.now }
    {
        let _whole = &self.zmm;
    }

    /// The vector register `n`.
    pub fn zmm(&self, n: u8) -> &Vec64
        requires { n < 32 }
        ensures { slice_get self.now.zmm n ≡ Some result.now }
    {
        &self.zmm[n as usize]
    }

    /// The components that another value of vector register `n` changes.
    fn changed_by_zmm(&self, n: u8, v: &Vec64) -> Components
        requires { n < 32 }
        ensures { result.0 ≡ changed self.now (record self.now { zmm = slice_set self.now.zmm n v.now }) }
    {
        let old = &self.zmm[n as usize];
        if n < 16 {
            let sse = bit_unless(old[..16] == v[..16], Components::SSE);
            let avx = bit_unless(old[16..32] == v[16..32], Components::AVX);
            let upper = bit_unless(old[32..64] == v[32..64], Components::ZMM_HI256);
            Components(sse + avx + upper)
        } else {
            Components(bit_unless(old == v, Components::HI16_ZMM))
        }
    }

    /// Puts a value into vector register `n`.
    pub fn set_zmm(&mut self, n: u8, v: &Vec64)
        requires { n < 32 }
        ensures { self.new ≡ with_zmm n v.now self.old }
    {
        let changed = self.changed_by_zmm(n, v);
        self.restored.kept.remove(changed);
        self.zmm[n as usize] = *v;
    }

    #[tactic(auto, unfolding(num_lanes::specs::Setters::with_cleared))]
    /// Puts 0 into the bytes from `from` on of ZMM0 to ZMM15: VZEROUPPER from 16 on, VZEROALL from 0 on (SDM volume 2).
    pub fn clear(&mut self, from: usize)
        requires { from ≤ 64 }
        ensures { self.new ≡ with_cleared from 16 self.old }
    {
        for n in 0..16u8 {
            let v = cleared(self.zmm(n), from);
            self.set_zmm(n, &v);
        }
    }

    /// The opmask `n`.
    pub fn k(&self, n: u8) -> u64
        requires { n < 8 }
        ensures { result ≡ slice_index self.now.k n }
    {
        self.k[n as usize]
    }

    /// The components that another value of opmask `n` changes.
    fn changed_by_k(&self, n: u8, v: u64) -> Components
        requires { n < 8 }
        ensures { result.0 ≡ changed self.now (record self.now { k = slice_set self.now.k n v }) }
    {
        Components(bit_unless(self.k[n as usize] == v, Components::OPMASK))
    }

    /// Puts a value into opmask `n`.
    pub fn set_k(&mut self, n: u8, v: u64)
        requires { n < 8 }
        ensures { self.new ≡ with_k n v self.old }
    {
        let changed = self.changed_by_k(n, v);
        self.restored.kept.remove(changed);
        self.k[n as usize] = v;
    }

    /// MXCSR.
    pub fn mxcsr(&self) -> u32
        ensures value { result ≡ self.now.mxcsr }
        ensures bound { result < 65536 }
    {
        self.mxcsr
    }

    /// Puts a value into MXCSR.
    pub fn set_mxcsr(&mut self, v: u32)
        requires { v < 65536 }
        ensures { self.new ≡ with_mxcsr v self.old }
    {
        self.mxcsr = v;
    }

    /// The x87 state: the 24 bytes of its header, of which byte 5 is 0, and eight registers of 10 bytes.
    pub fn x87(&self) -> &[u8; 104]
        ensures value { self.now.x87 ≡ result.now }
        ensures reserved { slice_index result.now 5 ≡ 0 }
    {
        &self.x87
    }

    /// Puts a value into the x87 state.
    pub fn set_x87(&mut self, v: &[u8; 104])
        requires { slice_index v.now 5 ≡ 0 }
        ensures { self.new ≡ with_x87 v.now self.old }
    {
        self.x87.copy_from_slice(v);
    }

    /// Whether XMM0 to XMM15 and MXCSR are initial.
    fn is_sse_initial(&self) -> bool
        ensures { result ≡ (list_all (λ register. pointwise nat_eq (slice_range register 0 16) (slice_range (replicate 64 0) 0 16))
            (slice_range self.now.zmm 0 16) && self.now.mxcsr == 8064) }
    {
        are_initial(&self.zmm[..16], 0, 16) && self.mxcsr == 0x1F80
    }

    /// The components that are in use: those whose value isn't the initial one, and SSE also where MXCSR isn't 1F80H.
    pub fn in_use(&self) -> Components
        ensures { result.0 ≡ in_use_of self.now }
    {
        let low = &self.zmm[..16];
        let x87 = bit_unless(self.x87 == initial_fields(), Components::X87);
        let sse = bit_unless(self.is_sse_initial(), Components::SSE);
        let avx = bit_unless(are_initial(low, 16, 32), Components::AVX);
        let opmask = bit_unless(self.k == [0; 8], Components::OPMASK);
        let upper = bit_unless(are_initial(low, 32, 64), Components::ZMM_HI256);
        let high = bit_unless(
            self.zmm[16..32] == initial_registers()[16..32],
            Components::HI16_ZMM,
        );
        Components(x87 + sse + avx + opmask + upper + high)
    }

    /// What is remembered of the last XRSTOR.
    pub fn record(&self) -> Record
        ensures value { restored_of result ≡ self.now.restored }
        ensures without_x87 { has_bit result.kept.0 0 ≡ false }
    {
        self.restored
    }

    /// Puts a value into the restore record.
    pub fn set_record(&mut self, r: Record)
        requires { has_bit r.kept.0 0 ≡ false }
        ensures { self.new ≡ with_record r self.old }
    {
        self.restored = r;
    }
}
