//! Instructions on strings: where they are, and one iteration.
ghost use Rattle.std.specs.Prelude.{◌≡◌, ◌%◌, ◌^◌, None, if◌then◌else◌};
ghost use Rattle.machine_state.specs.Memory.{Swap};
ghost use Rattle.guest_pages.specs.Pages.{table_of, byte_of};
ghost use Rattle.guest_pages.specs.Walk.{walk};
ghost use Rattle.guest_pages.specs.Changes.{KeepsTable};
ghost use Rattle.string_unit.specs.Strings.{string_accesses, string_gprs, string_flags, string_byte};
ghost use Rattle.core_step.specs.Size.{bytes_in};
ghost use Rattle.core_step.specs.Strings.{repeat_of, is_repeated as is_repeated_by, is_met as is_met_by, count_in, is_over as is_over_by, source_of, destination_of, with_count, goes_on as goes_on_by, is_continued as is_continued_by};

use crate::sizes::Size;
use gpr_flags::{Flags, Gprs, RCX};
use guest_pages::Pages;
use row_table::{Fields, StringOp};
use string_unit::{index, iterate_ready};

/// How often an instruction on strings is performed, by its prefix (SDM volume 2, REP/REPE/REPZ/REPNE/REPNZ).
#[derive(Clone, Copy, Debug, PartialEq, Eq)]
pub enum Repeat {
    /// Once: it has no prefix F2 or F3.
    Once,
    /// As often as rcx says, and CMPS and SCAS only while their operands are equal: F3.
    WhileEqual,
    /// As often as rcx says, and CMPS and SCAS only while their operands are unequal: F2.
    WhileUnequal,
}

impl Repeat {
    /// What the last of the prefixes F2 and F3 says.
    pub(crate) fn by_prefix(fields: &Fields) -> Repeat
        ensures { result ≡ repeat_of fields.now }
    {
        match fields.rep {
            0xF3 => Repeat::WhileEqual,
            0xF2 => Repeat::WhileUnequal,
            _ => Repeat::Once,
        }
    }

    fn is_repeated(self) -> bool
        ensures { result ≡ is_repeated_by self }
    {
        match self {
            Repeat::Once => false,
            Repeat::WhileEqual | Repeat::WhileUnequal => true,
        }
    }

    /// Whether the flags of a comparison let it be repeated.
    fn is_met(self, flags: Flags) -> bool
        ensures { result ≡ is_met_by self flags }
    {
        match self {
            Repeat::Once => false,
            Repeat::WhileEqual => flags.zf,
            Repeat::WhileUnequal => !flags.zf,
        }
    }

    /// Whether they let an instruction go on, which counts for comparisons alone.
    #[tactic(auto, unfolding(crate::specs::Strings::goes_on))]
    fn goes_on(self, op: StringOp, flags: Flags) -> bool
        ensures { result ≡ goes_on_by op self flags }
    {
        match op {
            StringOp::Cmps | StringOp::Scas => self.is_met(flags),
            StringOp::Movs | StringOp::Stos | StringOp::Lods => true,
        }
    }
}

/// An instruction on strings, with its prefixes.
#[derive(Clone, Copy)]
pub struct StringPlan {
    pub op: StringOp,
    /// The size of the operands.
    pub size: Size,
    /// Whether the low 32 bits of rsi, rdi and rcx count, which prefix 67 says.
    pub wrap32: bool,
    /// The base of the segment of the operand at rsi.
    pub base: u64,
    pub repeat: Repeat,
    /// Where the next instruction stands.
    pub next: u64,
}

impl StringPlan {
    /// The count.
    pub(crate) fn count(&self, gprs: &Gprs) -> u64
        ensures { result ≡ count_in self.now gprs.now }
    {
        index(self.wrap32, gprs.get(RCX))
    }

    /// Whether the count, which is 0, keeps an iteration from being made.
    pub(crate) fn is_over(&self, gprs: &Gprs) -> bool
        ensures { result ≡ is_over_by self.now gprs.now }
    {
        self.repeat.is_repeated() && self.count(gprs) == 0
    }

    /// One iteration, whose accesses can be made.
    pub(crate) fn iterate_once(&self, gprs: &mut Gprs, flags: &mut Flags, pages: &mut Pages)
        requires ready { walk (table_of pages.old) (string_accesses self.now.op (bytes_in self.now.size)
            (source_of self.now gprs.old) (destination_of self.now gprs.old)) ≡ None }
        ensures gprs { (w : Swap) → gprs.new ≡ string_gprs self.now.op (bytes_in self.now.size) self.now.wrap32 flags.old.df
            (source_of self.now gprs.old) (byte_of pages.old w) gprs.old }
        ensures flags { (w : Swap) → flags.new ≡ string_flags self.now.op (bytes_in self.now.size)
            (source_of self.now gprs.old) (destination_of self.now gprs.old) (byte_of pages.old w) gprs.old flags.old }
        ensures byte { (w : Swap) → byte_of pages.new w ≡ string_byte self.now.op (bytes_in self.now.size)
            (source_of self.now gprs.old) (destination_of self.now gprs.old) gprs.old (byte_of pages.old w) }
        ensures table { KeepsTable pages.old pages.new }
    {
        iterate_ready(
            self.op,
            self.size.bytes(),
            self.wrap32,
            self.base,
            gprs,
            flags,
            pages,
        );
    }

    /// Lowers the count by one where the instruction is repeated.
    pub(crate) fn lower_count(&self, count: u64, gprs: &mut Gprs)
        ensures { gprs.new ≡ with_count self.now count gprs.old }
    {
        if self.repeat.is_repeated() {
            gprs.set(RCX, count.saturating_sub(1));
        }
    }

    /// Whether another iteration follows.
    fn is_continued(&self, count: u64, flags: Flags) -> bool
        ensures { result ≡ is_continued_by self.now count flags }
    {
        self.repeat.is_repeated()
            && count.saturating_sub(1) != 0
            && self.repeat.goes_on(self.op, flags)
    }

    /// Where the instruction pointer is after an iteration.
    pub(crate) fn rip_after(&self, count: u64, flags: Flags, rip: u64) -> u64
        ensures { result ≡ if is_continued_by self.now count flags then rip else self.now.next }
    {
        if self.is_continued(count, flags) {
            rip
        } else {
            self.next
        }
    }
}
