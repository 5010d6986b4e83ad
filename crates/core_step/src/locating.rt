//! Addresses in a state, from what they are made of.
ghost use Rattle.std.specs.Prelude.{◌≡◌, ◌<◌, ◌%◌, ◌^◌};
ghost use Rattle.core_step.specs.Address.{register_for, wrapped_to, prefixed_base, in_prefixed};
ghost use Rattle.core_step.specs.Operands.{bit_offset_by};
ghost use Rattle.core_step.specs.Forms.{base_by, index_by, offset_by, address_by, bit_by, BaseFits, IndexFits, AddressFits};

use crate::forms::{AddressForm, Base, BitForm};
use crate::kinds::Bases;
use crate::operands::bit_offset;
use gpr_flags::{Gprs, RSP};

/// A register as an address has it.
#[inline(always)]
fn register(gprs: &Gprs, bases: &Bases, number: u8) -> u64
    requires { number < 16 }
    ensures { result ≡ register_for gprs.now bases.now number }
{
    if number == RSP {
        bases.rsp
    } else {
        gprs.get(number)
    }
}

/// An address as wide as prefix 67 says.
#[inline(always)]
fn wrap(wrap32: bool, number: u64) -> u64
    ensures { result ≡ wrapped_to wrap32 number }
{
    if wrap32 {
        number % 0x1_0000_0000
    } else {
        number
    }
}

/// The base of the segment that a prefix names.
#[inline(always)]
pub(crate) fn segment_base(prefix: u8, bases: &Bases) -> u64
    ensures { result ≡ prefixed_base prefix bases.now }
{
    match prefix {
        0x64 => bases.fs,
        0x65 => bases.gs,
        _ => 0,
    }
}

/// An address within the segment as an address of memory.
#[inline(always)]
fn in_segment(prefix: u8, bases: &Bases, offset: u64) -> u64
    ensures { result ≡ in_prefixed prefix bases.now offset }
{
    offset.wrapping_add(segment_base(prefix, bases))
}

impl Base {
    #[inline(always)]
    fn value(self, gprs: &Gprs, bases: &Bases) -> u64
        requires { BaseFits self }
        ensures { result ≡ base_by self gprs.now bases.now }
    {
        match self {
            Base::Nothing => 0,
            Base::Next => bases.next,
            Base::Register(number) => register(gprs, bases, number),
        }
    }
}

/// The index times its scale, modulo 2^64.
#[inline(always)]
fn scaled(index: Option<u8>, scale: u64, gprs: &Gprs, bases: &Bases) -> u64
    requires { IndexFits index }
    ensures { result ≡ index_by index scale gprs.now bases.now % 2 ^ 64 }
{
    match index {
        Some(number) => register(gprs, bases, number).wrapping_mul(scale),
        None => 0,
    }
}

impl AddressForm {
    /// The address within the segment.
    #[inline(always)]
    #[tactic(auto, unfolding(crate::specs::Forms::offset_by))]
    pub(crate) fn offset(&self, gprs: &Gprs, bases: &Bases) -> u64
        requires { AddressFits self.now }
        ensures { result ≡ offset_by self.now gprs.now bases.now }
    {
        let sum = self
            .base
            .value(gprs, bases)
            .wrapping_add(scaled(self.index, self.scale, gprs, bases))
            .wrapping_add(self.disp);
        wrap(self.wrap32, sum)
    }

    /// The effective address.
    #[inline(always)]
    #[tactic(auto, unfolding(crate::specs::Forms::address_by))]
    pub(crate) fn address(&self, gprs: &Gprs, bases: &Bases) -> u64
        requires { AddressFits self.now }
        ensures { result ≡ address_by self.now gprs.now bases.now }
    {
        in_segment(self.segment, bases, self.offset(gprs, bases))
    }
}

impl BitForm {
    /// Where the operand is that holds the bit.
    #[inline(never)]
    #[tactic(auto, unfolding(crate::specs::Forms::bit_by))]
    pub(crate) fn address(&self, gprs: &Gprs, bases: &Bases) -> u64
        requires address { AddressFits self.now.address }
        requires register { self.now.register < 16 }
        ensures { result ≡ bit_by self.now gprs.now bases.now }
    {
        let place = self
            .address
            .offset(gprs, bases)
            .wrapping_add(bit_offset(self.size, self.register, gprs));
        in_segment(
            self.address.segment,
            bases,
            wrap(self.address.wrap32, place),
        )
    }
}
