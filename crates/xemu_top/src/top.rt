//! The command.
ghost use Rattle.std.specs.Prelude.{◌≡◌, ◌≤◌, ◌<◌, ◌^◌, ℕ, List, Option, IsSome, IsTrue, Ok, Some, None, false, is_some, length, map, string_bytes};
ghost use Rattle.host_edge.specs.Files.{Held, Becomes};
ghost use Rattle.machine_state.specs.World.{GuestFile, first_descriptors};
ghost use Rattle.linux_calls.specs.Outside.{streams};
ghost use Rattle.linux_calls.specs.Following.{StillTell};
ghost use Rattle.command_words.specs.Reading.{words_read};
ghost use Rattle.command_words.specs.Command.{IsCommand};
ghost use Rattle.elf_image.specs.Checks.{image_read};
ghost use Rattle.guest_run.specs.Outside.{Outside, IsOutside, files_of};
ghost use Rattle.guest_run.specs.Tally.{IsCounted, NoneRose, tally};
ghost use Rattle.guest_run.specs.Guests.{around};
ghost use Rattle.xemu_top.specs.Command.{calls_made, command as command_of, paths_stored, program_of, status_of, swap_wanted, on_image as on_image_of, on_stack as on_stack_of, on_words, work};
ghost use Rattle.guest_run.specs.Starting.{stack_fault};
ghost use Rattle.xemu_top.specs.Headline.{KeepsOtherFiles, Meets, IsRunnable, RefusesAs, RefusesWords, failed_call, is_own, is_run_or_memory};
ghost use Rattle.xemu_top.specs.Parts.{DoesWork};

use crate::answers::{lost, stop};
use crate::ends::{End, Ended};
use crate::files::{guest_files, load_ins};
use crate::loading::{Loaded, load_file};
use crate::running::run_guest;
use crate::words::{arguments, environment, swap_path, text_at};
use command_words::{Command, read_words};
use elf_image::{Image, ImageFault, read_image};
use guest_files::Files;
use guest_run::{Limits, PrepareFault, prepare};
use host_edge::{Host, HostCall, Sink, Source};
use std::alloc::Global;

/// The most bytes of a program file.
const LONGEST_FILE: u32 = 67_108_864;

/// The refusal of a file that is longer than may be.
const TOO_LONG: ImageFault = ImageFault {
    number: 1,
    place: LONGEST_FILE as u64,
};

/// What the words say of the guest's limits.
fn limits_of(command: &Command) -> Limits
    ensures { result ≡ record { pages = command.now.pages; resident = command.now.resident; cap = command.now.cap; budget = command.now.budget; seed = command.now.seed } }
{
    Limits {
        pages: command.pages,
        resident: command.resident,
        cap: command.cap,
        budget: command.budget,
        seed: command.seed,
    }
}

/// Makes the guest of an image with its files and runs it, or refuses its start stack.
fn on_program<H: Host, S: Source, O: Sink, E: Sink>(
    alloc: Global,
    words: &[String],
    command: &Command,
    bytes: &[u8],
    image: &Image,
    files: Files,
    host: &mut H,
    input: &mut S,
    out: &mut O,
    err: &mut E,
) -> Ended
    requires command { IsCommand (map string_bytes words.now) command.now }
    requires image { image_read bytes.now command.now.pages ≡ Ok image.now }
    requires files { (files.cap ≡ command.now.cap) × (files.places ≡ first_descriptors) }
    ensures { DoesWork (map string_bytes words.now) command.now
        (λ on. on_stack_of (map string_bytes words.now) command.now (program_of (map string_bytes words.now) command.now bytes.now image.now) files.files
        (stack_fault (program_of (map string_bytes words.now) command.now bytes.now image.now)) on)
        (around (H.holds host.old) (H.opened host.old) (H.faults host.old) (S.left input.old) (S.faults input.old)
        (O.taken out.old) (O.faults out.old) (E.taken err.old) (E.faults err.old))
        (around (H.holds host.new) (H.opened host.new) (H.faults host.new) (S.left input.new) (S.faults input.new)
        (O.taken out.new) (O.faults out.new) (E.taken err.new) (E.faults err.new)) result }
{
    let env = match environment(alloc, words, command) {
        Ok(env) => env,
        Err(_) => return lost(End::Memory),
    };
    match prepare(
        alloc,
        image,
        bytes,
        arguments(words, command),
        &env,
        files,
        &limits_of(command),
        swap_path(words, command),
        host,
    ) {
        Ok(guest) => run_guest(words, command, guest, host, input, out, err),
        Err(PrepareFault::TooLong(fault)) => stop(End::Start(fault), err),
        Err(PrepareFault::Host(call)) => lost(End::Host(call)),
        Err(PrepareFault::Memory) => lost(End::Memory),
    }
}

/// Loads the files of `--in` for an image, and runs it.
fn on_image<H: Host, S: Source, O: Sink, E: Sink>(
    alloc: Global,
    words: &[String],
    command: &Command,
    bytes: &[u8],
    image: &Image,
    host: &mut H,
    input: &mut S,
    out: &mut O,
    err: &mut E,
) -> Ended
    requires command { IsCommand (map string_bytes words.now) command.now }
    requires image { image_read bytes.now command.now.pages ≡ Ok image.now }
    ensures { DoesWork (map string_bytes words.now) command.now
        (on_image_of (map string_bytes words.now) command.now bytes.now (Ok image.now))
        (around (H.holds host.old) (H.opened host.old) (H.faults host.old) (S.left input.old) (S.faults input.old)
        (O.taken out.old) (O.faults out.old) (E.taken err.old) (E.faults err.old))
        (around (H.holds host.new) (H.opened host.new) (H.faults host.new) (S.left input.new) (S.faults input.new)
        (O.taken out.new) (O.faults out.new) (E.taken err.new) (E.faults err.new)) result }
{
    let ins = match load_ins(alloc, words, command, host) {
        Ok(ins) => ins,
        Err(end) => return stop(end, err),
    };
    match guest_files(alloc, words, command, ins) {
        Ok(files) => on_program(
            alloc, words, command, bytes, image, files, host, input, out, err,
        ),
        Err(_) => lost(End::Memory),
    }
}

/// Reads the image of a file and runs it, or refuses it.
fn on_file<H: Host, S: Source, O: Sink, E: Sink>(
    alloc: Global,
    words: &[String],
    command: &Command,
    bytes: &[u8],
    host: &mut H,
    input: &mut S,
    out: &mut O,
    err: &mut E,
) -> Ended
    requires { IsCommand (map string_bytes words.now) command.now }
    ensures { DoesWork (map string_bytes words.now) command.now
        (on_image_of (map string_bytes words.now) command.now bytes.now (image_read bytes.now command.now.pages))
        (around (H.holds host.old) (H.opened host.old) (H.faults host.old) (S.left input.old) (S.faults input.old)
        (O.taken out.old) (O.faults out.old) (E.taken err.old) (E.faults err.old))
        (around (H.holds host.new) (H.opened host.new) (H.faults host.new) (S.left input.new) (S.faults input.new)
        (O.taken out.new) (O.faults out.new) (E.taken err.new) (E.faults err.new)) result }
{
    match read_image(bytes, command.pages) {
        Ok(image) => on_image(alloc, words, command, bytes, &image, host, input, out, err),
        Err(fault) => stop(End::Image(fault), err),
    }
}

/// Loads the program of a command and runs it.
fn on_command<H: Host, S: Source, O: Sink, E: Sink>(
    alloc: Global,
    words: &[String],
    command: &Command,
    host: &mut H,
    input: &mut S,
    out: &mut O,
    err: &mut E,
) -> Ended
    requires { IsCommand (map string_bytes words.now) command.now }
    ensures { DoesWork (map string_bytes words.now) command.now (on_words (map string_bytes words.now) (Ok command.now))
        (around (H.holds host.old) (H.opened host.old) (H.faults host.old) (S.left input.old) (S.faults input.old)
        (O.taken out.old) (O.faults out.old) (E.taken err.old) (E.faults err.old))
        (around (H.holds host.new) (H.opened host.new) (H.faults host.new) (S.left input.new) (S.faults input.new)
        (O.taken out.new) (O.faults out.new) (E.taken err.new) (E.faults err.new)) result }
{
    match load_file(alloc, text_at(words, command.program), LONGEST_FILE, host) {
        Loaded::Whole(bytes) => on_file(alloc, words, command, &bytes, host, input, out, err),
        Loaded::Long => stop(End::Image(TOO_LONG), err),
        Loaded::Failed => lost(End::Host(HostCall::Load(command.program))),
        Loaded::Memory => lost(End::Memory),
    }
}

/// Does what the words say: a program is loaded from the host with its files and run, and what it left of them is stored.
///
/// `input`, `out` and `err` are the guest's input, output and error output. A refusal, and the report that `--report` asks for, are a
/// line on `err`. A run takes its memory before the first step. Pages that have no frame lie in the host's swap, which is opened where
/// the words name one.
pub fn emulate<H: Host, S: Source, O: Sink, E: Sink>(
    alloc: Global,
    words: &[String],
    host: &mut H,
    input: &mut S,
    out: &mut O,
    err: &mut E,
) -> Ended
    // A run is the written machine's run, where the host tells its files and its swap and the source its input; of the outputs each
    // counts where it is told.
    ensures headline { IsSome (S.left input.old) → (held now : Held) → H.holds host.old ≡ Some held → H.holds host.new ≡ Some now → (on : Outside)
        → IsOutside (H.holds host.old) (streams (S.left input.old) (O.taken out.old) (E.taken err.old)) on
        → Meets (map string_bytes words.now) on now.page result
        (IsOutside (H.holds host.new) (streams (S.left input.new) (O.taken out.new) (E.taken err.new))) }

    // What is refused, and what runs, by the words and the files alone.
    ensures refusal { (held : Held) → H.holds host.old ≡ Some held → (on : Outside) → on.files ≡ held.file
        → RefusesAs (work (map string_bytes words.now) on) result.end }
    ensures complete { IsRunnable (map string_bytes words.now) (files_of (H.holds host.old))
        → NoneRose (calls_made (words_read (map string_bytes words.now)))
        (tally (H.faults host.old) (S.faults input.old) (O.faults out.old) (E.faults err.old))
        (tally (H.faults host.new) (S.faults input.new) (O.faults out.new) (E.faults err.new))
        → IsTrue (is_run_or_memory result.end) }

    // The causes, whatever the outside tells.
    ensures cause { IsCounted (calls_made (words_read (map string_bytes words.now))) (failed_call result.end)
        (tally (H.faults host.old) (S.faults input.old) (O.faults out.old) (E.faults err.old))
        (tally (H.faults host.new) (S.faults input.new) (O.faults out.new) (E.faults err.new)) }
    ensures words { RefusesWords (length words.now) (words_read (map string_bytes words.now)) result.end }
    ensures too_many { 2 ^ 32 ≤ length words.now → result.end ≡ End.Memory }
    ensures status { result.status ≡ status_of result.end }
    ensures no_machine { is_own result.end ≡ false → result.machine ≡ None }

    // What is told before is told after it. Only the files of `--out` are stored, and a swap is opened only where one is named.
    ensures files { Becomes (KeepsOtherFiles (paths_stored (map string_bytes words.now) (words_read (map string_bytes words.now))))
        (H.holds host.old) (H.holds host.new) }
    ensures swap { swap_wanted (words_read (map string_bytes words.now)) ≡ None → H.opened host.new ≡ H.opened host.old }
    ensures tells { StillTell (streams (S.left input.old) (O.taken out.old) (E.taken err.old)) (streams (S.left input.new) (O.taken out.new) (E.taken err.new)) }
{
    if words.len() > u32::MAX as usize {
        return lost(End::Memory);
    }
    match read_words(words) {
        Ok(command) => on_command(alloc, words, &command, host, input, out, err),
        Err(fault) => stop(End::Words(fault), err),
    }
}
