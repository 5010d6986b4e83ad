//! What stands in the operands of an instruction on numbers, where its accesses can be made.
ghost use Rattle.std.specs.Prelude.{◌≡◌, ◌≤◌, ◌<◌, ◌^◌, Some, MatchResult, length};
ghost use Rattle.byteorder.specs.Endian.{little_number};
ghost use Rattle.guest_pages.specs.Pages.{table_of};
ghost use Rattle.guest_pages.specs.Walk.{walk};
ghost use Rattle.core_step.specs.Size.{bytes_in, bits_in};
ghost use Rattle.core_step.specs.Fits.{OperandFits, InstructionFits};
ghost use Rattle.core_step.specs.Access.{operand_access, kind_of, accesses_of};
ghost use Rattle.core_step.specs.Taken.{IsTaken, IsOld, AreTaken};

use crate::kinds::{Instruction, Operand, Use};
use crate::machine::Machine;
use crate::sizes::Size;
use byteorder::{ByteOrder, LittleEndian};
use machine_state::{Kind, PAGE_SIZE, Stop};

/// The numbers in the operands of an instruction.
#[derive(Clone, Copy)]
pub(crate) struct Taken {
    /// What stood in the destination; 0 where it is only written.
    pub destination: u64,
    pub source: u64,
}

impl Size {
    // The number in the first bytes.
    fn number(self, bytes: &[u8]) -> u64
        requires { bytes_in self ≤ length bytes.now }
        ensures value { result ≡ little_number (bytes_in self) bytes.now }
        ensures fits { result < 2 ^ bits_in self }
    {
        match self {
            Size::Byte => u64::from(bytes[0]),
            Size::Word => u64::from(LittleEndian::read_u16(bytes)),
            Size::Double => u64::from(LittleEndian::read_u32(bytes)),
            Size::Quad => LittleEndian::read_u64(bytes),
        }
    }
}

impl Machine {
    // The number in memory on two pages.
    #[inline(never)]
    fn take_across(&self, kind: Kind, addr: u64, size: Size) -> Result<u64, Stop>
        ensures { MatchResult result (IsTaken self.now kind (Operand.Memory addr) size)
            (λ stop. walk (table_of self.now.pages) (operand_access kind (Operand.Memory addr) size) ≡ Some stop) }
    {
        match self.pages.ready(addr, u64::from(size.bytes()), kind) {
            Ok(()) => Ok(self.pages.load(addr, size.bytes(), kind)),
            Err(miss) => Err(Stop { kind, miss }),
        }
    }

    // The number in memory. A page is looked at once.
    fn take_memory(&self, kind: Kind, addr: u64, size: Size) -> Result<u64, Stop>
        ensures { MatchResult result (IsTaken self.now kind (Operand.Memory addr) size)
            (λ stop. walk (table_of self.now.pages) (operand_access kind (Operand.Memory addr) size) ≡ Some stop) }
    {
        if addr % PAGE_SIZE + u64::from(size.bytes()) > PAGE_SIZE {
            return self.take_across(kind, addr, size);
        }
        match self.pages.view(addr, size.bytes() as usize, kind) {
            Ok(bytes) => Ok(size.number(bytes)),
            Err(miss) => Err(Stop { kind, miss }),
        }
    }

    // The number of an operand.
    #[inline(always)]
    #[tactic(auto, unfolding(crate::specs::Plain::value_of, guest_pages::specs::Walk::walk))]
    fn take(&self, kind: Kind, operand: Operand, size: Size) -> Result<u64, Stop>
        requires { OperandFits operand }
        ensures { MatchResult result (IsTaken self.now kind operand size)
            (λ stop. walk (table_of self.now.pages) (operand_access kind operand size) ≡ Some stop) }
    {
        match operand {
            Operand::Memory(addr) => self.take_memory(kind, addr, size),
            Operand::Absent
            | Operand::Register(_)
            | Operand::HighByte(_)
            | Operand::Number(_)
            | Operand::Mxcsr
            | Operand::Opmask(_) => Ok(self.register_value(operand, size)),
        }
    }

    // The number that stands in a destination; where it is only written, that is not looked at.
    #[inline(always)]
    fn take_old(&self, usage: Use, operand: Operand, size: Size) -> Result<u64, Stop>
        requires { OperandFits operand }
        ensures { MatchResult result (IsOld self.now usage operand size)
            (λ stop. walk (table_of self.now.pages) (operand_access (kind_of usage) operand size) ≡ Some stop) }
    {
        match usage {
            Use::Read => self.take(Kind::Read, operand, size),
            Use::Update => self.take(Kind::Write, operand, size),
            Use::Write => match self.walk_operand(Kind::Write, operand, size) {
                Ok(()) => Ok(0),
                Err(stop) => Err(stop),
            },
        }
    }

    /// The numbers in the operands of an instruction, if its accesses can be made: the source's first, and the destination's last.
    #[inline(always)]
    pub(crate) fn take_operands(&self, i: &Instruction) -> Result<Taken, Stop>
        requires { InstructionFits i.now }
        ensures { MatchResult result (AreTaken self.now i.now)
            (λ stop. walk (table_of self.now.pages) (accesses_of i.now) ≡ Some stop) }
    {
        match self.take(Kind::Read, i.source, i.source_size) {
            Ok(source) => match self.take_old(i.usage, i.destination, i.size) {
                Ok(destination) => Ok(Taken {
                    destination,
                    source,
                }),
                Err(stop) => Err(stop),
            },
            Err(stop) => Err(stop),
        }
    }
}
