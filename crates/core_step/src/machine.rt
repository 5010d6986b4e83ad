//! The machine: it fetches an instruction and performs it.
ghost use Rattle.std.specs.Prelude.{◌≡◌, ◌↔◌, ◌<◌, ◌≤◌, ◌+◌, ◌-◌, ◌^◌, ℕ, Some, None, slice_get, length};
ghost use Rattle.machine_state.specs.Memory.{Swap};
ghost use Rattle.guest_pages.specs.Table.{blocked};
ghost use Rattle.guest_pages.specs.Pages.{table_of, byte_of};
ghost use Rattle.guest_pages.specs.Walk.{walk};
ghost use Rattle.guest_pages.specs.Changes.{KeepsTable};
ghost use Rattle.row_table.specs.Rows.{rows};
ghost use Rattle.form_scan.specs.Shaped.{most_bytes};
ghost use Rattle.x_decode.specs.Seeing.{IsDecoded};
ghost use Rattle.string_unit.specs.Strings.{string_accesses};
ghost use Rattle.core_step.specs.Size.{bytes_in};
ghost use Rattle.core_step.specs.Access.{accesses_of};
ghost use Rattle.core_step.specs.Plain.{plain_effect, steps_after, gprs_left, byte_left, extended_left};
ghost use Rattle.core_step.specs.Strings.{source_of, destination_of, strings_access, iterated, strings_effect};
ghost use Rattle.core_step.specs.Pair.{pair_bytes, pair_effect};
ghost use Rattle.core_step.specs.Vectors.{vectors_effect, clears_effect};
ghost use Rattle.core_step.specs.Cpuid.{identify_effect};
ghost use Rattle.vec_step.specs.Plan.{vector_access};
ghost use Rattle.vec_step.specs.Fits.{PlanFits as VectorPlanFits};
ghost use Rattle.core_step.specs.Plan.{next_of};
ghost use Rattle.core_step.specs.Pages.{TouchesAtMost, fetch_accesses};
ghost use Rattle.core_step.specs.Fits.{InstructionFits};
ghost use Rattle.core_step.specs.Fetch.{NeedsPage, IsFetched, IsFetchFit, fetched};
ghost use Rattle.core_step.specs.Fetches.{Fetches};
ghost use Rattle.core_step.specs.Performed.{IsPerformed};
ghost use Rattle.core_step.specs.Taken.{AreTaken};
ghost use Rattle.core_step.specs.Forms.{plain_by, strings_by, pair_by, vectors_by, plan_by_form, AddressFits, MemoryFits, PlainFormFits, PlanFormFits, IsPrepared};
ghost use Rattle.core_step.specs.declared.kinds.Plan.{Plan};
ghost use Rattle.vec_units.specs.Form.{IsVectorRow};
ghost use Rattle.core_step.specs.Kept.{fetched_of, IsKeptFit};
ghost use Rattle.row_table.specs.declared.kinds.Row.{Row as AnyRow};
ghost use Rattle.core_step.specs.Machine.{IsWhole, IsLeft, IsCarriedOut, IsLocal, IsFramed, accesses, needed, state_of};

use crate::acted::Acted;
use crate::cpuid::identify;
use crate::fetch_cache::FetchCache;
use crate::fetching::{Fetched, fetch_outcome, read_run, read_whole};
use crate::forms::{PairForm, PlainForm, PlanForm, StringForm, VectorForm};
use crate::kinds::{ClearPlan, IdentifyPlan, Instruction, Outcome};
use crate::pair::PairPlan;
use crate::prepared::{Kept, Prepared};
use crate::preparing::prepare;
use crate::results::outcome;
use crate::strings::StringPlan;
use crate::taking::Taken;
use crate::values::{move_stack, number_for, put, put_register};
use crate::walking::answer;
use gpr_flags::{Fault, Flags, Gprs};
use guest_pages::Pages;
use machine_state::Kind;
use row_table::{Decoded, Fields};
use vec_file::VecFile;
use vec_step::{Clearing, VectorPlan, clear, perform as perform_vectors, walk as walk_vectors};
use x_decode::{LIMIT, decode};

/// The processor with its memory: general registers, flags, instruction pointer, extended state, pages, the bases of the
/// segments FS and GS, and the number of completed steps.
#[derive(Drop)]
pub struct Machine {
    pub gprs: Gprs,
    pub flags: Flags,
    pub rip: u64,
    pub vec: VecFile,
    pub pages: Pages,
    pub fs: u64,
    pub gs: u64,
    pub steps: u64,
}

impl Machine {
    /// Fetches the instruction at `rip`. After `Need` the caller brings the page and fetches again.
    pub fn fetch(&self) -> Fetched
        // An answer that isn't Need is what the written machine fetches, and that never needs a page.
        ensures whole { (w : Swap) → IsFetched (state_of self.now w) result }
        ensures never { (w : Swap) (slot : ℕ) → fetched (state_of self.now w) ≡ Fetched.Need slot → ⊥ }
        // Exactly where the page in that slot is needed before the instruction can be told.
        ensures need { (w : Swap) (slot : ℕ) → (result ≡ Fetched.Need slot)
            ↔ NeedsPage (table_of self.now.pages) (byte_of self.now.pages w) self.now.rip slot }
        ensures fits { IsFetchFit result }
        // It reads from at most two pages.
        ensures few { TouchesAtMost 2 (fetch_accesses self.now.rip) }
    {
        let mut bytes = [0; LIMIT];
        let run = read_run(&self.pages, self.rip, &mut bytes);
        fetch_outcome(decode(&bytes[..run.count]), run.stop)
    }

    /// The same by a cache, which keeps what came of fetches, with instructions prepared to be performed.
    pub fn fetch_by<'f>(&self, cache: &'f mut FetchCache) -> &'f Kept
        ensures whole { (w : Swap) → IsFetched (state_of self.now w) (fetched_of result.now) }
        ensures never { (w : Swap) (slot : ℕ) → fetched (state_of self.now w) ≡ Fetched.Need slot → ⊥ }
        ensures need { (w : Swap) (slot : ℕ) → (fetched_of result.now ≡ Fetched.Need slot)
            ↔ NeedsPage (table_of self.now.pages) (byte_of self.now.pages w) self.now.rip slot }
        ensures fits { IsFetchFit (fetched_of result.now) }
        ensures few { TouchesAtMost 2 (fetch_accesses self.now.rip) }
        ensures kept { IsKeptFit result.now }
    {
        match read_whole(&self.pages, self.rip) {
            Some(bytes) => cache.recall(self.rip, &bytes),
            None => self.fetch_apart(cache),
        }
    }

    // The same where the bytes lie on two pages, or some of them can't be executed now.
    #[inline(never)]
    fn fetch_apart<'f>(&self, cache: &'f mut FetchCache) -> &'f Kept
        ensures fetches { Fetches self.now (fetched_of result.now) }
        ensures kept { IsKeptFit result.now }
    {
        let mut bytes = [0; LIMIT];
        let run = read_run(&self.pages, self.rip, &mut bytes);
        if run.count == bytes.len() {
            cache.recall(self.rip, &bytes)
        } else {
            cache.hold(&fetch_outcome(decode(&bytes[..run.count]), run.stop))
        }
    }

    /// Performs an instruction of `len` bytes at `rip`: one step, but for the answer of a system call and for the signal
    /// of a fault. The caller counts the step of a `Call` when it is answered, and of a `Trap` when the signal is
    /// delivered or ends the program. After `Need` it brings the page and performs the same instruction, which gives the
    /// same step from what was left.
    pub fn perform(&mut self, d: &Decoded, len: u8) -> Acted
        requires spells { IsDecoded d.now.fields d.now }
        requires some { 1 ≤ len }
        requires most { len ≤ most_bytes }
        requires room { self.old.steps < 2 ^ 64 - 1 }
        ensures whole { IsWhole d.now len self.old self.new result }
        // Exactly where the walk along the access list meets an allowed access on the page in that slot, which is away,
        // before one that isn't allowed.
        ensures need { (w : Swap) (slot : ℕ) → (result ≡ Acted.Need slot)
            ↔ (needed (walk (table_of self.old.pages) (accesses d.now len (state_of self.old w))) ≡ Some slot) }
        // Where a page is needed nothing has changed.
        ensures waits { (slot : ℕ) → result ≡ Acted.Need slot → self.new ≡ self.old }
        ensures pages { KeepsTable self.old.pages self.new.pages }
        ensures counted { self.new.steps ≡ steps_after result self.old.steps }
        // An instruction that was decoded is performed: its answer is never that it is undefined.
        ensures defined { result ≡ Acted.Trap Fault.Undefined → ⊥ }
        // Its operation is one that is performed, and each operand that it needs has a place in its row's list.
        ensures performed { (r : AnyRow) → slice_get rows d.now.row ≡ Some r → IsPerformed r }
        // The access list touches at most four pages.
        ensures few { (w : Swap) → TouchesAtMost 4 (accesses d.now len (state_of self.old w)) }
        // Memories that agree on the access list give the same.
        ensures local { (w : Swap) → IsLocal d.now len (state_of self.old w) }
        // A byte outside of its write accesses stays.
        ensures framed { (w : Swap) → IsFramed d.now len (state_of self.old w) }
    {
        self.perform_prepared(&prepare(d, len))
    }

    /// Performs an instruction that is prepared, as `perform` does.
    pub fn perform_prepared(&mut self, p: &Prepared) -> Acted
        requires prepared { IsPrepared p.now }
        requires room { self.old.steps < 2 ^ 64 - 1 }
        ensures whole { IsWhole p.now.decoded p.now.len self.old self.new result }
        ensures need { (w : Swap) (slot : ℕ) → (result ≡ Acted.Need slot)
            ↔ (needed (walk (table_of self.old.pages) (accesses p.now.decoded p.now.len (state_of self.old w))) ≡ Some slot) }
        ensures waits { (slot : ℕ) → result ≡ Acted.Need slot → self.new ≡ self.old }
        ensures pages { KeepsTable self.old.pages self.new.pages }
        ensures counted { self.new.steps ≡ steps_after result self.old.steps }
        ensures defined { result ≡ Acted.Trap Fault.Undefined → ⊥ }
        ensures performed { (r : AnyRow) → slice_get rows p.now.decoded.row ≡ Some r → IsPerformed r }
        ensures few { (w : Swap) → TouchesAtMost 4 (accesses p.now.decoded p.now.len (state_of self.old w)) }
        ensures local { (w : Swap) → IsLocal p.now.decoded p.now.len (state_of self.old w) }
        ensures framed { (w : Swap) → IsFramed p.now.decoded p.now.len (state_of self.old w) }
    {
        if self.is_misaligned(p) {
            return Acted::Trap(Fault::General);
        }
        self.carry_out(p)
    }

    // Performs an instruction whose operand in memory stands where it may.
    fn carry_out(&mut self, p: &Prepared) -> Acted
        requires fits { PlanFormFits p.now.form }
        requires room { self.old.steps < 2 ^ 64 - 1 }
        ensures { IsCarriedOut (λ w. let s = state_of self.old w in
            plan_by_form p.now.form p.now.decoded.fields (next_of p.now.len s) s) self.old self.new result }
    {
        let next = self.rip.wrapping_add(p.len as u64);
        match &p.form {
            PlanForm::Plain(f) => self.carry_out_plain(f, next),
            PlanForm::OnStrings(f) => self.carry_out_strings(f, next),
            PlanForm::OnPair(f) => self.carry_out_pair(f, next),
            PlanForm::OnVectors(f) => self.carry_out_vectors(f, &p.decoded.fields, next),
            PlanForm::Clears(clearing) => self.carry_out_clearing(*clearing, next),
            PlanForm::Identifies => self.carry_out_identifying(next),
        }
    }

    // An instruction on numbers.
    fn carry_out_plain(&mut self, f: &PlainForm, next: u64) -> Acted
        requires fits { PlainFormFits f.now }
        requires room { self.old.steps < 2 ^ 64 - 1 }
        ensures { IsCarriedOut (λ w. Plan.Plain (plain_by f.now next (state_of self.old w))) self.old self.new result }
    {
        let i = self.instruction(f, next);
        match self.take_operands(&i) {
            Err(stop) => answer(stop),
            Ok(taken) => self.complete(&i, taken),
        }
    }

    // An instruction on strings.
    #[inline(never)]
    fn carry_out_strings(&mut self, f: &StringForm, next: u64) -> Acted
        requires room { self.old.steps < 2 ^ 64 - 1 }
        ensures { IsCarriedOut (λ w. Plan.OnStrings (strings_by f.now next (state_of self.old w))) self.old self.new result }
    {
        let i = self.on_strings(f, next);
        match self.walk_strings(&i) {
            Err(stop) => answer(stop),
            Ok(()) => self.pass_strings(&i),
        }
    }

    // CMPXCHG8B or CMPXCHG16B.
    #[inline(never)]
    fn carry_out_pair(&mut self, f: &PairForm, next: u64) -> Acted
        requires fits { AddressFits f.now.address }
        requires room { self.old.steps < 2 ^ 64 - 1 }
        ensures { IsCarriedOut (λ w. Plan.OnPair (pair_by f.now next (state_of self.old w))) self.old self.new result }
    {
        let i = self.on_pair(f, next);
        match self.walk_pair(&i) {
            Err(stop) => answer(stop),
            Ok(()) => self.exchange(&i),
        }
    }

    // An instruction on vectors.
    #[inline(never)]
    fn carry_out_vectors(&mut self, f: &VectorForm, fields: &Fields, next: u64) -> Acted
        requires row { IsVectorRow f.now.row }
        requires memory { MemoryFits f.now.memory }
        requires room { self.old.steps < 2 ^ 64 - 1 }
        ensures { IsCarriedOut (λ w. Plan.OnVectors (vectors_by f.now fields.now next (state_of self.old w))) self.old self.new result }
    {
        let i = self.on_vectors(f, fields, next);
        match walk_vectors(&i, &self.pages) {
            Err(stop) => answer(stop),
            Ok(()) => self.apply(&i),
        }
    }

    // VZEROUPPER or VZEROALL.
    #[inline(never)]
    fn carry_out_clearing(&mut self, clearing: Clearing, next: u64) -> Acted
        requires room { self.old.steps < 2 ^ 64 - 1 }
        ensures { IsCarriedOut (λ w. Plan.Clears (record { clearing = clearing; next = next })) self.old self.new result }
    {
        self.clear(&ClearPlan { clearing, next })
    }

    // CPUID.
    #[inline(never)]
    fn carry_out_identifying(&mut self, next: u64) -> Acted
        requires room { self.old.steps < 2 ^ 64 - 1 }
        ensures { IsCarriedOut (λ w. Plan.Identifies (record { next = next })) self.old self.new result }
    {
        self.identify(&IdentifyPlan { next })
    }

    // Goes on with the next instruction.
    fn move_on(&mut self, rip: u64)
        requires { self.old.steps < 2 ^ 64 - 1 }
        ensures { self.new ≡ record self.old { rip = rip; steps = self.old.steps + 1 } }
    {
        self.rip = rip;
        self.steps += 1;
    }

    // Performs an instruction on strings whose accesses can be made.
    #[tactic(auto, unfolding(crate::specs::Strings::strings_access))]
    fn pass_strings(&mut self, i: &StringPlan) -> Acted
        requires ready { walk (table_of self.old.pages) (strings_access i.now self.old.gprs) ≡ None }
        requires room { self.old.steps < 2 ^ 64 - 1 }
        ensures { IsLeft self.old self.new result (strings_effect i.now) }
    {
        if i.is_over(&self.gprs) {
            self.move_on(i.next);
            Acted::Done
        } else {
            self.repeat(i);
            Acted::Done
        }
    }

    // One iteration, whose accesses can be made.
    fn repeat(&mut self, i: &StringPlan)
        requires ready { walk (table_of self.old.pages) (string_accesses i.now.op (bytes_in i.now.size)
            (source_of i.now self.old.gprs) (destination_of i.now self.old.gprs)) ≡ None }
        requires room { self.old.steps < 2 ^ 64 - 1 }
        ensures { IsLeft self.old self.new Acted.Done (iterated i.now) }
    {
        let count = i.count(&self.gprs);
        i.iterate_once(&mut self.gprs, &mut self.flags, &mut self.pages);
        i.lower_count(count, &mut self.gprs);
        let rip = i.rip_after(count, self.flags, self.rip);
        self.move_on(rip);
    }

    // Performs CMPXCHG8B or CMPXCHG16B, whose access can be made.
    fn exchange(&mut self, i: &PairPlan) -> Acted
        requires ready { blocked (table_of self.old.pages) Kind.Write i.now.addr (pair_bytes i.now) ≡ None }
        requires room { self.old.steps < 2 ^ 64 - 1 }
        ensures { IsLeft self.old self.new result (pair_effect i.now) }
    {
        let found = i.load(&self.pages);
        let equal = i.is_equal(found, &self.gprs);
        i.exchange_memory(found, &self.gprs, &mut self.pages);
        i.exchange_registers(found, &mut self.gprs);
        self.flags.zf = equal;
        self.move_on(i.next);
        Acted::Done
    }

    // Performs an instruction on vectors whose accesses can be made.
    fn apply(&mut self, i: &VectorPlan) -> Acted
        requires fits { VectorPlanFits i.now }
        requires ready { walk (table_of self.old.pages) (vector_access i.now) ≡ None }
        requires room { self.old.steps < 2 ^ 64 - 1 }
        ensures { IsLeft self.old self.new result (vectors_effect i.now) }
    {
        perform_vectors(
            i,
            &mut self.gprs,
            &mut self.flags,
            &mut self.vec,
            &mut self.pages,
        );
        self.move_on(i.next);
        Acted::Done
    }

    // Performs VZEROUPPER or VZEROALL.
    fn clear(&mut self, i: &ClearPlan) -> Acted
        requires room { self.old.steps < 2 ^ 64 - 1 }
        ensures { IsLeft self.old self.new result (clears_effect i.now) }
    {
        clear(&mut self.vec, i.clearing);
        self.move_on(i.next);
        Acted::Done
    }

    // Performs CPUID.
    fn identify(&mut self, i: &IdentifyPlan) -> Acted
        requires room { self.old.steps < 2 ^ 64 - 1 }
        ensures { IsLeft self.old self.new result (identify_effect i.now) }
    {
        identify(&mut self.gprs);
        self.move_on(i.next);
        Acted::Done
    }

    // Performs an instruction whose accesses can be made, by the numbers in its operands.
    fn complete(&mut self, i: &Instruction, taken: Taken) -> Acted
        requires fits { InstructionFits i.now }
        requires taken { AreTaken self.old i.now taken }
        requires room { self.old.steps < 2 ^ 64 - 1 }
        ensures { IsLeft self.old self.new result (plain_effect i.now) }
    {
        let beside = self.beside_value(i.beside, i.beside_size);
        let outcome = outcome(
            i,
            taken.destination,
            taken.source,
            beside,
            self.flags,
            self.steps,
        );
        self.leave(i, &outcome);
        outcome.acted
    }

    // Puts what comes of an instruction to its places.
    #[tactic(auto, unfolding(crate::specs::Plain::gprs_left, crate::specs::Plain::byte_left, crate::specs::Plain::extended_left))]
    fn leave(&mut self, i: &Instruction, o: &Outcome)
        requires fits { InstructionFits i.now }
        requires ready { walk (table_of self.old.pages) (accesses_of i.now) ≡ None }
        requires room { self.old.steps < 2 ^ 64 - 1 }
        ensures gprs { self.new.gprs ≡ gprs_left i.now o.now self.old.gprs }
        ensures extended { self.new.vec ≡ extended_left i.now o.now self.old.vec }
        ensures byte { (w : Swap) → byte_of self.new.pages w ≡ byte_left i.now o.now (byte_of self.old.pages w) }
        ensures flags { self.new.flags ≡ o.now.flags }
        ensures rip { self.new.rip ≡ o.now.rip }
        ensures fs { self.new.fs ≡ self.old.fs }
        ensures gs { self.new.gs ≡ self.old.gs }
        ensures steps { self.new.steps ≡ steps_after o.now.acted self.old.steps }
        ensures pages { KeepsTable self.old.pages self.new.pages }
    {
        move_stack(&mut self.gprs, o.stack);
        put_register(&mut self.gprs, i.also, i.size, o.also);
        let number = number_for(i.usage, o.destination);
        put(
            &mut self.gprs,
            &mut self.vec,
            &mut self.pages,
            i.destination,
            i.size,
            number,
        );
        self.flags = o.flags;
        self.rip = o.rip;
        if o.acted == Acted::Done {
            self.steps += 1;
        }
    }
}
