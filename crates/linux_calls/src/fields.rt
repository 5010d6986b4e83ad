//! Records, field by field.
ghost use Rattle.std.specs.Prelude.{◌≡◌, ◌+◌, ◌<◌, ◌≤◌, ◌++◌, [], length, replicate};
ghost use Rattle.machine_state.specs.Memory.{number_bytes};
ghost use Rattle.linux_calls.specs.Records.{name_field};

use arrayvec::ArrayVec;
use byteorder::{ByteOrder, LittleEndian};
use std::marker::Model;

/// The most bytes of a record.
const RECORD_LEN: usize = 390;

/// How many bytes a name of the system has, with its final zeros.
const NAME_LEN: usize = 65;

/// The bytes of a record that is made.
#[derive(Drop)]
pub(crate) struct Fields {
    bytes: ArrayVec<u8, RECORD_LEN>,
}

impl Model for Fields {
    ghost use Rattle.std.specs.Prelude.{ℕ, List};

    ghost Value = { List ℕ };

    ghost view = { λ fields. fields.bytes.items };
}

impl Fields {
    /// No bytes.
    pub(crate) fn new() -> Fields
        ensures { result ≡ [] }
    {
        Fields {
            bytes: ArrayVec::new(),
        }
    }

    /// The bytes so far.
    pub(crate) fn bytes(&self) -> &[u8]
        ensures { result.now ≡ self.now }
    {
        self.bytes.as_slice()
    }

    // Appends bytes.
    fn append(&mut self, bytes: &[u8])
        requires { length self.old + length bytes.now ≤ 390 }
        ensures bytes { self.new ≡ self.old ++ bytes.now }
        ensures len { length self.new ≡ length self.old + length bytes.now }
    {
        match self.bytes.try_extend_from_slice(bytes) {
            Ok(()) => {}
            Err(_) => unreachable!(),
        }
    }

    /// Appends a number of 8 bytes.
    pub(crate) fn word(&mut self, number: u64)
        requires { length self.old + 8 ≤ 390 }
        ensures bytes { self.new ≡ self.old ++ number_bytes 8 number }
        ensures len { length self.new ≡ length self.old + 8 }
    {
        let mut bytes = [0; 8];
        LittleEndian::write_u64(&mut bytes, number);
        self.append(&bytes);
    }

    /// Appends a number of 4 bytes.
    pub(crate) fn half(&mut self, number: u32)
        requires { length self.old + 4 ≤ 390 }
        ensures bytes { self.new ≡ self.old ++ number_bytes 4 number }
        ensures len { length self.new ≡ length self.old + 4 }
    {
        let mut bytes = [0; 4];
        LittleEndian::write_u32(&mut bytes, number);
        self.append(&bytes);
    }

    /// Appends so many zeros.
    pub(crate) fn zeros(&mut self, count: usize)
        requires { length self.old + count ≤ 390 }
        ensures bytes { self.new ≡ self.old ++ replicate count 0 }
        ensures len { length self.new ≡ length self.old + count }
    {
        for _ in 0..count {
            self.append(&[0]);
        }
    }

    /// Appends a name, with zeros up to the length of its field.
    pub(crate) fn name(&mut self, text: &str)
        requires short { length text.now ≤ 65 }
        requires room { length self.old + 65 ≤ 390 }
        ensures bytes { self.new ≡ self.old ++ name_field text.now }
        ensures len { length self.new ≡ length self.old + 65 }
    {
        self.append(text.as_bytes());
        self.zeros(NAME_LEN - text.len());
    }
}
