//! An instruction with its operands found in a state.
ghost use Rattle.std.specs.Prelude.{◌≡◌, slice_index};
ghost use Rattle.gpr_flags.specs.Registers.{RSP};
ghost use Rattle.machine_state.specs.Memory.{Swap};
ghost use Rattle.core_step.specs.Operands.{rsp_for};
ghost use Rattle.core_step.specs.Fits.{InstructionFits};
ghost use Rattle.core_step.specs.Forms.{plain_by, strings_by, address_by, pair_by, memory_by, places_by, vectors_by, PlainFormFits, AddressFits, MemoryFits};
ghost use Rattle.core_step.specs.Machine.{state_of};
ghost use Rattle.vec_units.specs.Form.{IsVectorRow};
ghost use Rattle.vec_step.specs.Fits.{PlanFits as VectorPlanFits};

use crate::forms::{AddressForm, PairForm, PlainForm, StringForm, VectorForm};
use crate::kinds::{Bases, Instruction, StackUse};
use crate::locating::segment_base;
use crate::machine::Machine;
use crate::operands::{rsp_in_addresses, stack_place};
use crate::pair::PairPlan;
use crate::sizes::Size;
use crate::strings::StringPlan;
use row_table::Fields;
use vec_step::{Places, VectorPlan, plan};

impl Machine {
    // What addresses are made of.
    #[inline(always)]
    fn bases(&self, stack: StackUse, size: Size, next: u64) -> Bases
        ensures { result ≡ record { rsp = rsp_for stack size self.now.gprs; next = next; fs = self.now.fs; gs = self.now.gs } }
    {
        Bases {
            rsp: rsp_in_addresses(stack, size, &self.gprs),
            next,
            fs: self.fs,
            gs: self.gs,
        }
    }

    // The address in an instruction that leaves the stack alone.
    pub(crate) fn address_in(&self, address: &AddressForm, next: u64) -> u64
        requires { AddressFits address.now }
        ensures { result ≡ address_by address.now self.now.gprs
            (record { rsp = slice_index self.now.gprs RSP; next = next; fs = self.now.fs; gs = self.now.gs }) }
    {
        let bases = self.bases(StackUse::Aside, Size::Quad, next);
        address.address(&self.gprs, &bases)
    }

    // An instruction on numbers.
    #[inline(always)]
    #[tactic(auto, unfolding(crate::specs::Forms::plain_by))]
    pub(crate) fn instruction(&self, f: &PlainForm, next: u64) -> Instruction
        requires { PlainFormFits f.now }
        ensures is { (w : Swap) → result ≡ plain_by f.now next (state_of self.now w) }
        ensures fits { InstructionFits result }
    {
        let stack = stack_place(f.stack, f.size, &self.gprs);
        let bases = self.bases(f.stack, f.size, next);
        Instruction {
            destination: f.destination.resolve(stack, &self.gprs, &bases),
            source: f.source.resolve(stack, &self.gprs, &bases),
            beside: f.beside.resolve(stack, &self.gprs, &bases),
            also: f.also.resolve(stack, &self.gprs, &bases),
            stack,
            freed: f.freed,
            rip: self.rip,
            next,
            op: f.op,
            size: f.size,
            source_size: f.source_size,
            beside_size: f.beside_size,
            usage: f.usage,
            condition: f.condition,
        }
    }

    // An instruction on strings.
    #[tactic(auto, unfolding(crate::specs::Forms::strings_by))]
    pub(crate) fn on_strings(&self, f: &StringForm, next: u64) -> StringPlan
        ensures { (w : Swap) → result ≡ strings_by f.now next (state_of self.now w) }
    {
        let bases = self.bases(StackUse::Aside, Size::Quad, next);
        StringPlan {
            op: f.op,
            size: f.size,
            wrap32: f.wrap32,
            base: segment_base(f.segment, &bases),
            repeat: f.repeat,
            next,
        }
    }

    // CMPXCHG8B or CMPXCHG16B.
    #[tactic(auto, unfolding(crate::specs::Forms::pair_by))]
    pub(crate) fn on_pair(&self, f: &PairForm, next: u64) -> PairPlan
        requires { AddressFits f.now.address }
        ensures { (w : Swap) → result ≡ pair_by f.now next (state_of self.now w) }
    {
        PairPlan {
            half: f.half,
            addr: self.address_in(&f.address, next),
            next,
        }
    }

    // The address of an operand, if it is in memory.
    fn memory_in(&self, memory: &Option<AddressForm>, next: u64) -> Option<u64>
        requires { MemoryFits memory.now }
        ensures { (w : Swap) → result ≡ memory_by memory.now next (state_of self.now w) }
    {
        match memory {
            Some(address) => Some(self.address_in(address, next)),
            None => None,
        }
    }

    // What an instruction on vectors names.
    fn places(&self, f: &VectorForm, next: u64) -> Places
        requires { MemoryFits f.now.memory }
        ensures { (w : Swap) → result ≡ places_by f.now next (state_of self.now w) }
    {
        Places {
            reg: f.reg,
            vvvv: f.vvvv,
            rm: f.rm,
            memory: self.memory_in(&f.memory, next),
        }
    }

    // An instruction on vectors.
    #[tactic(auto, unfolding(crate::specs::Forms::vectors_by))]
    pub(crate) fn on_vectors(&self, f: &VectorForm, fields: &Fields, next: u64) -> VectorPlan
        requires row { IsVectorRow f.now.row }
        requires memory { MemoryFits f.now.memory }
        ensures is { (w : Swap) → result ≡ vectors_by f.now fields.now next (state_of self.now w) }
        ensures fits { VectorPlanFits result }
    {
        let places = self.places(f, next);
        plan(&f.row, fields, &places, next, &self.vec)
    }
}
