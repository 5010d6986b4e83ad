//! The run of a guest, and what follows it: the stores and the report.
ghost use Rattle.std.specs.Prelude.{◌≡◌, ◌≤◌, ◌<◌, ℕ, List, Option, None, length, map, string_bytes};
ghost use Rattle.machine_state.specs.World.{GuestFile};
ghost use Rattle.command_words.specs.Command.{IsCommand};
ghost use Rattle.program_load.specs.Load.{Program};
ghost use Rattle.guest_run.specs.Guests.{Around, around};
ghost use Rattle.guest_run.specs.Following.{IsGuest, HasSignal};
ghost use Rattle.xemu_top.specs.Command.{end_of as end_of_guest};
ghost use Rattle.xemu_top.specs.Parts.{Finishes, RunsGuest, with_err, with_host};

use crate::answers::{finish, lost};
use crate::ends::{End, Ended};
use crate::lines::report;
use crate::storing::store_files;
use command_words::Command;
use guest_run::{Guest, RunEnd, run};
use host_edge::{Host, Sink, Source};
use machine_state::GuestEnd;

/// The end of a command by that of its guest. One that didn't end has used its budget.
fn end_of(end: Option<GuestEnd>) -> End
    ensures { result ≡ end_of_guest end }
{
    match end {
        Some(GuestEnd::Exit(code)) => End::Exit(code),
        Some(GuestEnd::Killed(signal)) => End::Killed(signal),
        None => End::Budget,
    }
}

/// Stores the files of a guest that has run, reports its end, where that is wanted, and answers it.
fn end_run<H: Host, E: Sink>(
    words: &[String],
    command: &Command,
    guest: Guest,
    host: &mut H,
    err: &mut E,
) -> Ended
    requires command { IsCommand (map string_bytes words.now) command.now }
    requires signal { HasSignal guest.end }
    ensures { (a : Around) → Finishes (map string_bytes words.now) command.now guest
        (with_host (with_err a (E.taken err.old) (E.faults err.old)) (H.holds host.old) (H.opened host.old) (H.faults host.old))
        (with_host (with_err a (E.taken err.new) (E.faults err.new)) (H.holds host.new) (H.opened host.new) (H.faults host.new)) result }
{
    match store_files(
        words,
        command.outs.as_slice(),
        guest.files().entries(),
        host,
    ) {
        Ok(()) => {
            let line = report(command.report, guest.end(), guest.steps());
            let end = end_of(guest.end());
            finish(line, end, Some(guest.into_machine()), err)
        }
        Err(call) => lost(End::Host(call)),
    }
}

/// Runs a guest, and ends the command as it ended.
pub(crate) fn run_guest<H: Host, S: Source, O: Sink, E: Sink>(
    words: &[String],
    command: &Command,
    mut guest: Guest,
    host: &mut H,
    input: &mut S,
    out: &mut O,
    err: &mut E,
) -> Ended
    requires command { IsCommand (map string_bytes words.now) command.now }
    requires is_guest { IsGuest guest (around (H.holds host.old) (H.opened host.old) (H.faults host.old) (S.left input.old) (S.faults input.old)
        (O.taken out.old) (O.faults out.old) (E.taken err.old) (E.faults err.old)) }
    requires goes { guest.end ≡ None }
    requires steps { guest.machine.steps ≡ 0 }
    ensures { RunsGuest (map string_bytes words.now) command.now guest
        (around (H.holds host.old) (H.opened host.old) (H.faults host.old) (S.left input.old) (S.faults input.old)
        (O.taken out.old) (O.faults out.old) (E.taken err.old) (E.faults err.old))
        (around (H.holds host.new) (H.opened host.new) (H.faults host.new) (S.left input.new) (S.faults input.new)
        (O.taken out.new) (O.faults out.new) (E.taken err.new) (E.faults err.new)) result }
{
    match run(&mut guest, command.budget, host, input, out, err) {
        RunEnd::Exit(_) | RunEnd::Killed(_) | RunEnd::Budget => {
            end_run(words, command, guest, host, err)
        }
        RunEnd::Host(call) => lost(End::Host(call)),
    }
}
