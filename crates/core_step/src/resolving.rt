//! From the part that an operand plays to its form, and from that to where it is in a state.
ghost use Rattle.std.specs.Prelude.{◌≡◌, ◌<◌, ℕ, List};
ghost use Rattle.core_step.specs.declared.kinds.Bases.{Bases as AnyBases};
ghost use Rattle.core_step.specs.Operands.{operand_for as operand_for_part};
ghost use Rattle.core_step.specs.Fits.{RegistersFit, OperandFits};
ghost use Rattle.core_step.specs.Address.{offset_of};
ghost use Rattle.core_step.specs.Forms.{operand_by, OperandFormFits};

use crate::addressing::address_form;
use crate::forms::OperandForm;
use crate::kinds::{Bases, Operand, Part};
use crate::operands::{bit_operand, operand, upper_half};
use crate::sizes::Size;
use gpr_flags::{Gprs, R11, RAX, RBP, RCX, RDX};
use row_table::{Decoded, Layout};

/// The address of what is in ModRM.r/m, as a number.
#[tactic(auto, unfolding(crate::specs::Forms::operand_by))]
fn address_operand(d: &Decoded) -> OperandForm
    requires { RegistersFit d.now.fields }
    ensures operand { (stack : ℕ) (gprs : List ℕ) (bases : AnyBases)
        → operand_by result stack gprs bases ≡ Operand.Number (offset_of d.now.fields d.now.disp gprs bases) }
    ensures fits { OperandFormFits result }
{
    OperandForm::Address(address_form(&d.fields, d.disp))
}

/// The operand that plays a part.
#[tactic(auto, unfolding(crate::specs::Operands::operand_for, crate::specs::Forms::operand_by))]
pub(crate) fn operand_for(part: Part, size: Size, layout: &Layout, d: &Decoded) -> OperandForm
    requires registers { RegistersFit d.now.fields }
    ensures operand { (stack : ℕ) (gprs : List ℕ) (bases : AnyBases)
        → operand_by result stack gprs bases ≡ operand_for_part part size layout.now d.now stack gprs bases }
    ensures fits { OperandFormFits result }
{
    match part {
        Part::Absent => OperandForm::Fixed(Operand::Absent),
        Part::First => operand(layout.first.spot, size, &d.fields, d.disp),
        Part::Second => operand(layout.second.spot, size, &d.fields, d.disp),
        Part::Third => operand(layout.third.spot, size, &d.fields, d.disp),
        Part::Bit => bit_operand(size, &d.fields, d.disp),
        Part::Address => address_operand(d),
        Part::Stack => OperandForm::Stack,
        Part::Rax => OperandForm::Fixed(Operand::Register(RAX)),
        Part::Rcx => OperandForm::Fixed(Operand::Register(RCX)),
        Part::Rdx => OperandForm::Fixed(Operand::Register(RDX)),
        Part::Rbp => OperandForm::Fixed(Operand::Register(RBP)),
        Part::R11 => OperandForm::Fixed(Operand::Register(R11)),
        Part::Ah => OperandForm::Fixed(Operand::HighByte(RAX)),
        Part::UpperHalf => OperandForm::Fixed(upper_half(size)),
        Part::Mxcsr => OperandForm::Fixed(Operand::Mxcsr),
    }
}

impl OperandForm {
    /// Where the operand is.
    #[inline(always)]
    #[tactic(auto, unfolding(crate::specs::Forms::operand_by))]
    pub(crate) fn resolve(&self, stack: u64, gprs: &Gprs, bases: &Bases) -> Operand
        requires { OperandFormFits self.now }
        ensures operand { result ≡ operand_by self.now stack gprs.now bases.now }
        ensures fits { OperandFits result }
    {
        match self {
            OperandForm::Fixed(operand) => *operand,
            OperandForm::Relative(distance) => Operand::Number(bases.next.wrapping_add(*distance)),
            OperandForm::Memory(address) => Operand::Memory(address.address(gprs, bases)),
            OperandForm::Bit(bit) => Operand::Memory(bit.address(gprs, bases)),
            OperandForm::Address(address) => Operand::Number(address.offset(gprs, bases)),
            OperandForm::Stack => Operand::Memory(stack),
        }
    }
}
