//! Whole steps, and runs of them: each step goes by phases, and a phase that waits for a page is tried again once the page is
//! brought.
ghost use Rattle.std.specs.Prelude.{◌≡◌, ◌<◌, ◌≤◌, ◌+◌, ◌-◌, ◌^◌, ℕ, List, Option, Some, None, false, OnOk, Result, Ok};
ghost use Rattle.form_scan.specs.Shaped.{most_bytes};
ghost use Rattle.x_decode.specs.Seeing.{IsDecoded};
ghost use Rattle.guest_pages.specs.Order.{IsAwayIn};
ghost use Rattle.linux_calls.specs.View.{FitParts};
ghost use Rattle.linux_calls.specs.Waiting.{CanGoOn};
ghost use Rattle.guest_run.specs.Step.{signal_of as signal_of_fault};
ghost use Rattle.swap_pager.specs.Paging.{CanPage};
ghost use Rattle.guest_run.specs.Guests.{Around, around, view_in, PhaseFits, IsBetween, IsWithin};
ghost use Rattle.guest_run.specs.Following.{Tries, Steps, Runs, IsGuest, run_end as run_end_spec};
ghost use Rattle.linux_calls.specs.declared.kinds.Stage.{Stage};
ghost use Rattle.linux_calls.specs.Outside.{streams};
ghost use Rattle.linux_calls.specs.Following.{faults};
ghost use Rattle.guest_run.specs.Paging.{Answers, Brings, Grows};
ghost use Rattle.guest_run.specs.Units.{IsLow, IsNearer};

use crate::ends::RunEnd;
use crate::guest::{Guest, Phase};
use core_step::{Acted, Decoded, Kept};
use gpr_flags::Fault;
use host_edge::{Host, HostCall, Sink, Source};
use linux_calls::{CallEnd, World, answer, growth_law};
use machine_state::GuestEnd;

/// What comes of a try of a phase.
#[derive(Clone, Copy)]
pub(crate) enum Tried {
    /// A page was brought, and the step goes on.
    Again,
    /// The step is completed, by which the guest may have ended.
    Done(Option<GuestEnd>),
}

/// The signal that a fault raises.
fn signal_of(fault: Fault) -> u8
    ensures { result ≡ signal_of_fault fault }
{
    match fault {
        Fault::Divide => 8,
        Fault::Breakpoint => 5,
        Fault::Undefined => 4,
        Fault::General | Fault::Page { .. } => 11,
    }
}

/// Brings the page that a guest waits for.
pub(crate) fn bring<H: Host>(guest: &mut Guest, slot: u32, host: &mut H) -> Result<Tried, HostCall>
    requires away { IsAwayIn guest.old.machine.pages slot }
    requires pages { CanPage guest.old.machine.pages (H.holds host.old) (H.opened host.old) }
    ensures brings { Brings guest.old guest.new slot (H.holds host.old) (H.holds host.new) (H.opened host.old) (H.opened host.new)
        (H.faults host.old) (H.faults host.new) result }
    ensures grows { Grows }
{
    // What holds of pages at any time, and of what is left of a call.
    let _ = guest.machine.pages.limit();
    growth_law();
    match guest.pager.bring(&mut guest.machine.pages, slot, host) {
        Ok(()) => Ok(Tried::Again),
        Err(call) => Err(call),
    }
}

/// Completes a step. The next one begins with a fetch.
fn complete(guest: &mut Guest, end: Option<GuestEnd>) -> Tried
    requires { guest.old.machine.steps < 2 ^ 64 - 1 }
    ensures guest { guest.new ≡ record guest.old {
      machine = record guest.old.machine { steps = guest.old.machine.steps + 1 };
      phase = Phase.Fetch;
    } }
    ensures done { result ≡ Tried.Done end }
{
    guest.machine.steps += 1;
    guest.phase = Phase::Fetch;
    Tried::Done(end)
}

/// Completes a step by a fault, whose signal ends the guest.
fn kill(guest: &mut Guest, fault: Fault) -> Tried
    requires { guest.old.machine.steps < 2 ^ 64 - 1 }
    ensures guest { guest.new ≡ record guest.old {
      machine = record guest.old.machine { steps = guest.old.machine.steps + 1 };
      phase = Phase.Fetch;
    } }
    ensures done { result ≡ Tried.Done (Some (GuestEnd.Killed (signal_of_fault fault))) }
{
    complete(guest, Some(GuestEnd::Killed(signal_of(fault))))
}

/// Answers the guest's system call, or goes on with it, as far as that goes without a page that is away.
fn answer_call<S: Source, O: Sink, E: Sink>(
    guest: &mut Guest,
    input: &mut S,
    out: &mut O,
    err: &mut E,
) -> CallEnd
    requires can_go_on { CanGoOn (view_in guest.old) }
    requires fit { FitParts (view_in guest.old) }
    ensures { Answers guest.old guest.new (streams (S.left input.old) (O.taken out.old) (E.taken err.old)) (streams (S.left input.new) (O.taken out.new) (E.taken err.new))
        (faults (S.faults input.old) (O.faults out.old) (E.faults err.old)) (faults (S.faults input.new) (O.faults out.new) (E.faults err.new)) result }
{
    let steps = guest.machine.steps;
    let mut w = World {
        gprs: &mut guest.machine.gprs,
        fs: &mut guest.machine.fs,
        gs: &mut guest.machine.gs,
        pages: &mut guest.machine.pages,
        regions: &mut guest.regions,
        files: &mut guest.files,
        random: &mut guest.random,
        progress: &mut guest.progress,
        steps,
    };
    answer(&mut w, input, out, err)
}

/// Tries the answer of the guest's system call.
fn try_answer<H: Host, S: Source, O: Sink, E: Sink>(
    guest: &mut Guest,
    host: &mut H,
    input: &mut S,
    out: &mut O,
    err: &mut E,
) -> Result<Tried, HostCall>
    requires room { guest.old.machine.steps < 2 ^ 64 - 1 }
    requires phase { guest.old.phase ≡ Phase.Answer }
    requires within { IsWithin guest.old (around (H.holds host.old) (H.opened host.old) (H.faults host.old) (S.left input.old) (S.faults input.old)
        (O.taken out.old) (O.faults out.old) (E.taken err.old) (E.faults err.old)) }
    ensures tries { Tries guest.old guest.new
        (around (H.holds host.old) (H.opened host.old) (H.faults host.old) (S.left input.old) (S.faults input.old)
        (O.taken out.old) (O.faults out.old) (E.taken err.old) (E.faults err.old))
        (around (H.holds host.new) (H.opened host.new) (H.faults host.new) (S.left input.new) (S.faults input.new)
        (O.taken out.new) (O.faults out.new) (E.taken err.new) (E.faults err.new)) result }
    ensures nearer { IsNearer guest.old guest.new result }
    ensures low { IsLow guest.old result }
{
    match answer_call(guest, input, out, err) {
        CallEnd::Need(slot) => bring(guest, slot, host),
        CallEnd::Value(_) => Ok(complete(guest, None)),
        CallEnd::Exit(code) => Ok(complete(guest, Some(GuestEnd::Exit(code)))),
        CallEnd::Host(call) => Err(call),
    }
}

/// Tries to perform an instruction of so many bytes, with its system call's answer, or its fault's signal.
fn try_perform<H: Host, S: Source, O: Sink, E: Sink>(
    guest: &mut Guest,
    d: &Decoded,
    len: u8,
    host: &mut H,
    input: &mut S,
    out: &mut O,
    err: &mut E,
) -> Result<Tried, HostCall>
    requires room { guest.old.machine.steps < 2 ^ 64 - 1 }
    requires phase { guest.old.phase ≡ Phase.Perform d.now len }
    requires within { IsWithin guest.old (around (H.holds host.old) (H.opened host.old) (H.faults host.old) (S.left input.old) (S.faults input.old)
        (O.taken out.old) (O.faults out.old) (E.taken err.old) (E.faults err.old)) }
    ensures tries { Tries guest.old guest.new
        (around (H.holds host.old) (H.opened host.old) (H.faults host.old) (S.left input.old) (S.faults input.old)
        (O.taken out.old) (O.faults out.old) (E.taken err.old) (E.faults err.old))
        (around (H.holds host.new) (H.opened host.new) (H.faults host.new) (S.left input.new) (S.faults input.new)
        (O.taken out.new) (O.faults out.new) (E.taken err.new) (E.faults err.new)) result }
    ensures nearer { IsNearer guest.old guest.new result }
{
    match guest.machine.perform(d, len) {
        Acted::Need(slot) => bring(guest, slot, host),
        Acted::Done => {
            guest.phase = Phase::Fetch;
            Ok(Tried::Done(None))
        }
        Acted::Call => {
            guest.phase = Phase::Answer;
            try_answer(guest, host, input, out, err)
        }
        Acted::Trap(fault) => Ok(kill(guest, fault)),
    }
}

/// Tries to fetch an instruction and to perform it.
fn try_fetch<H: Host, S: Source, O: Sink, E: Sink>(
    guest: &mut Guest,
    host: &mut H,
    input: &mut S,
    out: &mut O,
    err: &mut E,
) -> Result<Tried, HostCall>
    requires room { guest.old.machine.steps < 2 ^ 64 - 1 }
    requires phase { guest.old.phase ≡ Phase.Fetch }
    requires within { IsWithin guest.old (around (H.holds host.old) (H.opened host.old) (H.faults host.old) (S.left input.old) (S.faults input.old)
        (O.taken out.old) (O.faults out.old) (E.taken err.old) (E.faults err.old)) }
    ensures tries { Tries guest.old guest.new
        (around (H.holds host.old) (H.opened host.old) (H.faults host.old) (S.left input.old) (S.faults input.old)
        (O.taken out.old) (O.faults out.old) (E.taken err.old) (E.faults err.old))
        (around (H.holds host.new) (H.opened host.new) (H.faults host.new) (S.left input.new) (S.faults input.new)
        (O.taken out.new) (O.faults out.new) (E.taken err.new) (E.faults err.new)) result }
    ensures nearer { IsNearer guest.old guest.new result }
{
    match guest.machine.fetch_by(&mut guest.cache) {
        Kept::Instr(instruction) => match guest.machine.perform_prepared(instruction) {
            Acted::Need(slot) => {
                guest.phase = Phase::Perform(instruction.decoded, instruction.len);
                bring(guest, slot, host)
            }
            Acted::Done => Ok(Tried::Done(None)),
            Acted::Call => {
                guest.phase = Phase::Answer;
                try_answer(guest, host, input, out, err)
            }
            Acted::Trap(fault) => Ok(kill(guest, fault)),
        },
        Kept::Trap(fault) => {
            let fault = *fault;
            Ok(kill(guest, fault))
        }
        Kept::Need(slot) => {
            let slot = *slot;
            bring(guest, slot, host)
        }
    }
}

/// Tries the next phase of a step.
fn try_phase<H: Host, S: Source, O: Sink, E: Sink>(
    guest: &mut Guest,
    host: &mut H,
    input: &mut S,
    out: &mut O,
    err: &mut E,
) -> Result<Tried, HostCall>
    requires room { guest.old.machine.steps < 2 ^ 64 - 1 }
    requires within { IsWithin guest.old (around (H.holds host.old) (H.opened host.old) (H.faults host.old) (S.left input.old) (S.faults input.old)
        (O.taken out.old) (O.faults out.old) (E.taken err.old) (E.faults err.old)) }
    ensures tries { Tries guest.old guest.new
        (around (H.holds host.old) (H.opened host.old) (H.faults host.old) (S.left input.old) (S.faults input.old)
        (O.taken out.old) (O.faults out.old) (E.taken err.old) (E.faults err.old))
        (around (H.holds host.new) (H.opened host.new) (H.faults host.new) (S.left input.new) (S.faults input.new)
        (O.taken out.new) (O.faults out.new) (E.taken err.new) (E.faults err.new)) result }
    ensures nearer { IsNearer guest.old guest.new result }
{
    match guest.phase {
        Phase::Fetch => try_fetch(guest, host, input, out, err),
        Phase::Perform(d, len) => try_perform(guest, &d, len, host, input, out, err),
        Phase::Answer => try_answer(guest, host, input, out, err),
    }
}

/// One whole step, whatever pages are away.
fn step<H: Host, S: Source, O: Sink, E: Sink>(
    guest: &mut Guest,
    host: &mut H,
    input: &mut S,
    out: &mut O,
    err: &mut E,
) -> Result<Option<GuestEnd>, HostCall>
    requires room { guest.old.machine.steps < 2 ^ 64 - 1 }
    requires between { IsBetween guest.old (around (H.holds host.old) (H.opened host.old) (H.faults host.old) (S.left input.old) (S.faults input.old)
        (O.taken out.old) (O.faults out.old) (E.taken err.old) (E.faults err.old)) }
    ensures { Steps guest.old guest.new
        (around (H.holds host.old) (H.opened host.old) (H.faults host.old) (S.left input.old) (S.faults input.old)
        (O.taken out.old) (O.faults out.old) (E.taken err.old) (E.faults err.old))
        (around (H.holds host.new) (H.opened host.new) (H.faults host.new) (S.left input.new) (S.faults input.new)
        (O.taken out.new) (O.faults out.new) (E.taken err.new) (E.faults err.new)) result }
{
    'tries: loop {
        match try_phase(guest, host, input, out, err) {
            Ok(Tried::Again) => {}
            Ok(Tried::Done(end)) => return Ok(end),
            Err(call) => return Err(call),
        }
    }
}

/// The end of a run by that of its guest.
fn run_end(end: GuestEnd) -> RunEnd
    ensures { result ≡ run_end_spec (Some end) }
{
    match end {
        GuestEnd::Exit(code) => RunEnd::Exit(code),
        GuestEnd::Killed(signal) => RunEnd::Killed(signal),
    }
}

/// Runs a guest that hasn't ended.
fn run_steps<H: Host, S: Source, O: Sink, E: Sink>(
    guest: &mut Guest,
    upto: u64,
    host: &mut H,
    input: &mut S,
    out: &mut O,
    err: &mut E,
) -> RunEnd
    requires steps { guest.old.machine.steps ≤ upto }
    requires goes { guest.old.end ≡ None }
    requires guest { IsGuest guest.old (around (H.holds host.old) (H.opened host.old) (H.faults host.old) (S.left input.old) (S.faults input.old)
        (O.taken out.old) (O.faults out.old) (E.taken err.old) (E.faults err.old)) }
    ensures { Runs (upto - guest.old.machine.steps) guest.old guest.new
        (around (H.holds host.old) (H.opened host.old) (H.faults host.old) (S.left input.old) (S.faults input.old)
        (O.taken out.old) (O.faults out.old) (E.taken err.old) (E.faults err.old))
        (around (H.holds host.new) (H.opened host.new) (H.faults host.new) (S.left input.new) (S.faults input.new)
        (O.taken out.new) (O.faults out.new) (E.taken err.new) (E.faults err.new)) result }
{
    'steps: while guest.machine.steps < upto {
        match step(guest, host, input, out, err) {
            Ok(None) => {}
            Ok(Some(end)) => {
                guest.end = Some(end);
                return run_end(end);
            }
            Err(call) => {
                guest.failed = true;
                return RunEnd::Host(call);
            }
        }
    }
    RunEnd::Budget
}

/// Runs until the guest ends or `upto` steps are completed. A guest that has ended gives its end again, and nothing happens.
pub fn run<H: Host, S: Source, O: Sink, E: Sink>(
    guest: &mut Guest,
    upto: u64,
    host: &mut H,
    input: &mut S,
    out: &mut O,
    err: &mut E,
) -> RunEnd
    requires steps { guest.old.machine.steps ≤ upto }
    requires guest { IsGuest guest.old (around (H.holds host.old) (H.opened host.old) (H.faults host.old) (S.left input.old) (S.faults input.old)
        (O.taken out.old) (O.faults out.old) (E.taken err.old) (E.faults err.old)) }
    ensures { Runs (upto - guest.old.machine.steps) guest.old guest.new
        (around (H.holds host.old) (H.opened host.old) (H.faults host.old) (S.left input.old) (S.faults input.old)
        (O.taken out.old) (O.faults out.old) (E.taken err.old) (E.faults err.old))
        (around (H.holds host.new) (H.opened host.new) (H.faults host.new) (S.left input.new) (S.faults input.new)
        (O.taken out.new) (O.faults out.new) (E.taken err.new) (E.faults err.new)) result }
{
    match guest.end {
        Some(end) => run_end(end),
        None => run_steps(guest, upto, host, input, out, err),
    }
}
