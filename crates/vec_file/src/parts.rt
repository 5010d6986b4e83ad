//! The register file as calls on save areas see it.
use crate::VecFile;
use num_lanes::{Components, Parts, Record, Vec64};

impl Parts for VecFile {
    ghost extended = { λ v. v };

    fn zmm(&self, n: u8) -> &Vec64 {
        VecFile::zmm(self, n)
    }

    fn set_zmm(&mut self, n: u8, v: &Vec64) {
        VecFile::set_zmm(self, n, v);
    }

    fn k(&self, n: u8) -> u64 {
        VecFile::k(self, n)
    }

    fn set_k(&mut self, n: u8, v: u64) {
        VecFile::set_k(self, n, v);
    }

    fn mxcsr(&self) -> u32 {
        VecFile::mxcsr(self)
    }

    fn set_mxcsr(&mut self, v: u32) {
        VecFile::set_mxcsr(self, v);
    }

    fn x87(&self) -> &[u8; 104] {
        VecFile::x87(self)
    }

    fn set_x87(&mut self, v: &[u8; 104]) {
        VecFile::set_x87(self, v);
    }

    fn in_use(&self) -> Components {
        VecFile::in_use(self)
    }

    fn record(&self) -> Record {
        VecFile::record(self)
    }

    fn set_record(&mut self, r: Record) {
        VecFile::set_record(self, r);
    }
}
