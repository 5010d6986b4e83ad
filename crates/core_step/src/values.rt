//! The numbers of operands, and where they go.
ghost use Rattle.std.specs.Prelude.{◌≡◌, ◌≢◌, ◌<◌, ◌≤◌, ◌^◌, None, length};
ghost use Rattle.machine_state.specs.Memory.{Swap};
ghost use Rattle.guest_pages.specs.Table.{blocked};
ghost use Rattle.guest_pages.specs.Pages.{table_of, byte_of};
ghost use Rattle.guest_pages.specs.Walk.{walk};
ghost use Rattle.guest_pages.specs.Changes.{KeepsTable, IsWritten};
ghost use Rattle.core_step.specs.Size.{bytes_in, bits_in};
ghost use Rattle.core_step.specs.Fits.{OperandFits};
ghost use Rattle.core_step.specs.Access.{operand_access};
ghost use Rattle.core_step.specs.Plain.{register_value as register_value_of, number_for as number_for_use, gprs_with, gprs_after, gprs_stacked, byte_after, extended_with, extended_after};
ghost use Rattle.core_step.specs.Machine.{processor_in};

use crate::kinds::{Operand, Use};
use crate::machine::Machine;
use crate::sizes::{Size, with_high_byte};
use gpr_flags::{Gprs, RSP};
use guest_pages::Pages;
use machine_state::Kind;
use vec_file::VecFile;

impl Machine {
    /// The number of an operand that isn't in memory.
    pub(crate) fn register_value(&self, operand: Operand, size: Size) -> u64
        requires { OperandFits operand }
        ensures value { result ≡ register_value_of operand size (processor_in self.now) }
        ensures fits { result < 2 ^ bits_in size }
    {
        match operand {
            Operand::Register(number) => size.cut(self.gprs.get(number)),
            Operand::HighByte(number) => size.cut(self.gprs.get(number) >> 8),
            Operand::Number(number) => size.cut(number),
            Operand::Mxcsr => size.cut(u64::from(self.vec.mxcsr())),
            Operand::Opmask(number) => size.cut(self.vec.k(number)),
            Operand::Absent | Operand::Memory(_) => 0,
        }
    }

    /// The same where most instructions have none.
    #[inline(always)]
    pub(crate) fn beside_value(&self, operand: Operand, size: Size) -> u64
        requires { OperandFits operand }
        ensures value { result ≡ register_value_of operand size (processor_in self.now) }
        ensures fits { result < 2 ^ bits_in size }
    {
        match operand {
            Operand::Absent => 0,
            operand => self.register_value(operand, size),
        }
    }
}

/// What goes to a destination.
pub(crate) fn number_for(usage: Use, number: Option<u64>) -> Option<u64>
    ensures { result ≡ number_for_use usage number }
{
    match usage {
        Use::Read => None,
        Use::Write | Use::Update => number,
    }
}

/// Puts a number into a register.
pub(crate) fn set_register(gprs: &mut Gprs, operand: Operand, size: Size, number: u64)
    requires { OperandFits operand }
    ensures { gprs.new ≡ gprs_with operand size number gprs.old }
{
    match operand {
        Operand::Register(to) => gprs.write(to, size.bytes(), number),
        Operand::HighByte(to) => {
            let old = gprs.get(to);
            gprs.set(to, with_high_byte(old, number));
        }
        Operand::Absent
        | Operand::Memory(_)
        | Operand::Number(_)
        | Operand::Mxcsr
        | Operand::Opmask(_) => {}
    }
}

/// Puts a number, where there is one, into a register.
pub(crate) fn put_register(gprs: &mut Gprs, operand: Operand, size: Size, number: Option<u64>)
    requires { OperandFits operand }
    ensures { gprs.new ≡ gprs_after operand size number gprs.old }
{
    if let Some(number) = number {
        set_register(gprs, operand, size, number);
    }
}

/// Puts a number, where there is one, into an operand that can be written, if that is in memory.
fn put_memory(pages: &mut Pages, operand: Operand, size: Size, number: Option<u64>)
    requires { number ≢ None → walk (table_of pages.old) (operand_access Kind.Write operand size) ≡ None }
    ensures byte { (w : Swap) → byte_of pages.new w ≡ byte_after operand size number (byte_of pages.old w) }
    ensures table { KeepsTable pages.old pages.new }
    ensures unwritten { number ≡ None → pages.new ≡ pages.old }
{
    if let (Operand::Memory(addr), Some(number)) = (operand, number) {
        pages.store(addr, size.bytes(), number);
    }
}

/// Puts a number into MXCSR or an opmask.
fn set_extended(vec: &mut VecFile, operand: Operand, size: Size, number: u64)
    requires { OperandFits operand }
    ensures { vec.new ≡ extended_with operand size number vec.old }
{
    match operand {
        Operand::Mxcsr => vec.set_mxcsr((number % 0x1_0000) as u32),
        Operand::Opmask(to) => vec.set_k(to, size.cut(number)),
        Operand::Absent
        | Operand::Register(_)
        | Operand::HighByte(_)
        | Operand::Memory(_)
        | Operand::Number(_) => {}
    }
}

/// Puts a number, where there is one, into MXCSR or an opmask.
fn put_extended(vec: &mut VecFile, operand: Operand, size: Size, number: Option<u64>)
    requires { OperandFits operand }
    ensures { vec.new ≡ extended_after operand size number vec.old }
{
    if let Some(number) = number {
        set_extended(vec, operand, size, number);
    }
}

/// Puts a number, where there is one, into an operand that can be written.
pub(crate) fn put(
    gprs: &mut Gprs,
    vec: &mut VecFile,
    pages: &mut Pages,
    operand: Operand,
    size: Size,
    number: Option<u64>,
)
    requires operand { OperandFits operand }
    requires ready { number ≢ None → walk (table_of pages.old) (operand_access Kind.Write operand size) ≡ None }
    ensures gprs { gprs.new ≡ gprs_after operand size number gprs.old }
    ensures extended { vec.new ≡ extended_after operand size number vec.old }
    ensures byte { (w : Swap) → byte_of pages.new w ≡ byte_after operand size number (byte_of pages.old w) }
    ensures table { KeepsTable pages.old pages.new }
    ensures unwritten { number ≡ None → pages.new ≡ pages.old }
{
    put_register(gprs, operand, size, number);
    put_extended(vec, operand, size, number);
    put_memory(pages, operand, size, number);
}

/// Gives rsp its new value, where there is one.
pub(crate) fn move_stack(gprs: &mut Gprs, rsp: Option<u64>)
    ensures { gprs.new ≡ gprs_stacked rsp gprs.old }
{
    if let Some(rsp) = rsp {
        gprs.set(RSP, rsp);
    }
}
