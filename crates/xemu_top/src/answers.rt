//! Answers, and the lines that say them.
ghost use Rattle.std.specs.Prelude.{◌≡◌, ℕ, List, Option, None};
ghost use Rattle.guest_run.specs.Guests.{Around};
ghost use Rattle.xemu_top.specs.Command.{HasSignal};
ghost use Rattle.xemu_top.specs.Lines.{refusal_line as refusal_line_of};
ghost use Rattle.xemu_top.specs.Parts.{Ends, Says, answer_of, with_err};

use crate::ends::{End, Ended};
use crate::lines::refusal_line;
use core_step::Machine;
use host_edge::{HostCall, Sink};
use line_text::Line;

/// The answer with an end and a machine.
pub(crate) fn answer(end: End, machine: Option<Machine>) -> Ended
    requires { HasSignal end }
    ensures { result ≡ answer_of end machine }
{
    Ended {
        status: end.status(),
        end,
        machine,
    }
}

/// The answer with an end that leaves no machine.
pub(crate) fn lost(end: End) -> Ended
    requires { HasSignal end }
    ensures { result ≡ answer_of end None }
{
    answer(end, None)
}

/// Puts a line on the error output.
fn say<E: Sink>(line: &Line, err: &mut E) -> Result<(), HostCall>
    ensures { (a : Around) → Says line.now (with_err a (E.taken err.old) (E.faults err.old)) (with_err a (E.taken err.new) (E.faults err.new)) result }
{
    match line.put(err) {
        Ok(()) => Ok(()),
        Err(_) => Err(HostCall::PutErr),
    }
}

/// Puts the line that says an end, where there is one, and then answers that end with its machine, or that the put failed.
pub(crate) fn finish<E: Sink>(
    line: Option<Line>,
    end: End,
    machine: Option<Machine>,
    err: &mut E,
) -> Ended
    requires { HasSignal end }
    ensures { (a : Around) → Ends line end machine (with_err a (E.taken err.old) (E.faults err.old)) (with_err a (E.taken err.new) (E.faults err.new)) result }
{
    match line {
        Some(line) => match say(&line, err) {
            Ok(()) => answer(end, machine),
            Err(call) => lost(End::Host(call)),
        },
        None => answer(end, machine),
    }
}

/// Answers an end before the first step, behind the line that says it, where it is a refusal.
pub(crate) fn stop<E: Sink>(end: End, err: &mut E) -> Ended
    requires { HasSignal end }
    ensures { (a : Around) → Ends (refusal_line_of end) end None (with_err a (E.taken err.old) (E.faults err.old)) (with_err a (E.taken err.new) (E.faults err.new)) result }
{
    finish(refusal_line(end), end, None, err)
}
