//! A guest before its first step.
ghost use Rattle.std.specs.Prelude.{◌≡◌, ◌≤◌, ◌<◌, ℕ, List, Option, IfOk, IfErr, OnOk, None, Some, Ok, IsSome, length, map, string_bytes};
ghost use Rattle.machine_state.specs.Memory.{Swap};
ghost use Rattle.machine_state.specs.World.{first_descriptors};
ghost use Rattle.host_edge.specs.Files.{Becomes, KeepsFiles};
ghost use Rattle.guest_pages.specs.Pages.{memory_of};
ghost use Rattle.core_step.specs.Machine.{state_of};
ghost use Rattle.elf_image.specs.Checks.{image_read};
ghost use Rattle.start_stack.specs.Stack.{longest_stack, stack_size};
ghost use Rattle.program_load.specs.Load.{Program, ArePartsOf, first_memory, first_state};
ghost use Rattle.program_load.specs.Faults.{IsLoadCaused};
ghost use Rattle.guest_run.specs.Tally.{IsCounted, tally};
ghost use Rattle.guest_run.specs.Guests.{around};
ghost use Rattle.guest_run.specs.Following.{IsGuest, failed_in};
ghost use Rattle.guest_run.specs.Starting.{IsPrepared, PrepareRefuses, program_from, prepare_calls, prepare_failed};
ghost use Rattle.host_edge.specs.declared.outside.HostCall.TheVariants.{SwapOpen};

use crate::guest::{Guest, Phase};
use core_step::{FetchCache, Machine, VecFile};
use elf_image::Image;
use gpr_flags::{Flags, Gprs, RSP};
use guest_files::Files;
use guest_pages::Pages;
use host_edge::{Host, HostCall};
use linux_calls::Progress;
use program_load::{LoadFault, load_pages};
use start_stack::{StartFault, TooLong, random_after, stack_bytes, stack_pointer};
use std::alloc::Global;
use thiserror::Error;

/// What a guest may have, and the seed of its random stream.
#[derive(Clone, Copy, Debug, PartialEq, Eq)]
pub struct Limits {
    /// How many pages it may map.
    pub pages: u32,
    /// How many of them are resident at a time.
    pub resident: u32,
    /// How many bytes a file may have.
    pub cap: u32,
    pub budget: u64,
    pub seed: u64,
}

/// Why a guest can't be made.
#[derive(Debug, Drop, Error, PartialEq, Eq)]
pub enum PrepareFault {
    #[error("the start stack has {} bytes", .0.size)]
    TooLong(TooLong),
    #[error("a call on the host failed")]
    Host(HostCall),
    #[error("memory is wanting")]
    Memory,
}

/// The machine before the first step, by the program's entry, its start stack and its pages.
#[tactic(auto, unfolding(program_load::specs::Load::first_state))]
fn first_machine(entry: u64, stack: &[u8], pages: Pages) -> Machine
    requires { length stack.now ≤ longest_stack }
    ensures state { (program : Program) (swap : Swap) → entry ≡ program.image.entry → length stack.now ≡ stack_size program.args program.env
        → memory_of pages swap ≡ first_memory program → state_of result swap ≡ first_state program }
    ensures pages { result.pages ≡ pages }
    ensures steps { result.steps ≡ 0 }
{
    let mut gprs = Gprs::new();
    gprs.set(RSP, stack_pointer(stack));
    Machine {
        gprs,
        flags: Flags::none(),
        rip: entry,
        vec: VecFile::new(),
        pages,
        fs: 0,
        gs: 0,
        steps: 0,
    }
}

/// Opens the swap, where a path is given.
fn open_swap<H: Host>(swap: Option<&str>, pages: u32, host: &mut H) -> Result<(), HostCall>
    requires some { 0 < pages }
    ensures opened { OnOk result (IsSome swap.entry → H.opened host.new ≡ pages) }
    ensures unopened { swap.entry ≡ None → H.opened host.new ≡ H.opened host.old }
    ensures held { Becomes KeepsFiles (H.holds host.old) (H.holds host.new) }
    ensures cause { (take out err : ℕ) → IsCounted (prepare_calls swap.entry) (failed_in result)
        (tally (H.faults host.old) take out err) (tally (H.faults host.new) take out err) }
{
    match swap {
        Some(path) => match host.swap_open(path, pages) {
            Ok(()) => Ok(()),
            Err(_) => Err(HostCall::SwapOpen),
        },
        None => Ok(()),
    }
}

/// The guest of a program with its start stack, whose pages are filled with the host.
fn start<H: Host>(
    alloc: Global,
    image: &Image,
    bytes: &[u8],
    stack: &[u8],
    files: Files,
    limits: &Limits,
    host: &mut H,
) -> Result<Guest, LoadFault>
    requires image { image_read bytes.now limits.now.pages ≡ Ok image.now }
    requires frames { (8 ≤ limits.now.resident) × (limits.now.resident ≤ limits.now.pages) }
    requires short { length stack.now ≤ longest_stack }
    requires files { (files.cap ≡ limits.now.cap) × (files.places ≡ first_descriptors) }
    requires open { limits.now.resident < limits.now.pages → limits.now.pages ≤ H.opened host.old }
    ensures prepared { IfOk result (λ guest. (program : Program) → ArePartsOf program bytes.now image.now stack.now
        → length stack.now ≡ stack_size program.args program.env → program.seed ≡ limits.now.seed
        → IsPrepared program limits.now files.files (H.holds host.new) guest) }
    ensures guest { IfOk result (λ guest. (left out err : Option (List ℕ)) (take puts err_puts : ℕ)
        → IsGuest guest (around (H.holds host.new) (H.opened host.new) (H.faults host.new) left take out puts err err_puts)) }
    ensures held { Becomes KeepsFiles (H.holds host.old) (H.holds host.new) }
    ensures opened { H.opened host.new ≡ H.opened host.old }
    ensures cause { IsLoadCaused result (H.faults host.old) (H.faults host.new) }
{
    let loaded = load_pages(
        alloc,
        bytes,
        image,
        stack,
        limits.pages,
        limits.resident,
        host,
    )?;
    Ok(Guest {
        machine: first_machine(image.entry, stack, loaded.pages),
        regions: loaded.regions,
        files,
        random: random_after(limits.seed),
        progress: Progress::new(),
        pager: loaded.pager,
        cache: FetchCache::new(alloc)?,
        phase: Phase::Fetch,
        end: None,
        failed: false,
    })
}

/// Makes the guest of a program.
pub fn prepare<H: Host>(
    alloc: Global,
    image: &Image,
    bytes: &[u8],
    args: &[String],
    env: &[String],
    files: Files,
    limits: &Limits,
    swap: Option<&str>,
    host: &mut H,
) -> Result<Guest, PrepareFault>
    requires image { image_read bytes.now limits.now.pages ≡ Ok image.now }
    requires least { 512 ≤ limits.now.pages }
    requires most { limits.now.pages ≤ 262144 }
    requires frames { (8 ≤ limits.now.resident) × (limits.now.resident ≤ limits.now.pages) }
    requires cap { (1 ≤ limits.now.cap) × (limits.now.cap ≤ 67108864) }
    requires files { (files.cap ≡ limits.now.cap) × (files.places ≡ first_descriptors) }
    requires some { 0 < length args.now }
    requires swap { limits.now.resident < limits.now.pages → IsSome swap }
    ensures prepared { IfOk result (IsPrepared
        (program_from bytes.now image.now (map string_bytes args.now) (map string_bytes env.now) limits.now.seed)
        limits.now files.files (H.holds host.new)) }
    ensures guest { IfOk result (λ guest. (left out err : Option (List ℕ)) (take puts err_puts : ℕ)
        → IsGuest guest (around (H.holds host.new) (H.opened host.new) (H.faults host.new) left take out puts err err_puts)) }
    ensures refused { IfErr result (PrepareRefuses
        (program_from bytes.now image.now (map string_bytes args.now) (map string_bytes env.now) limits.now.seed)) }
    ensures held { Becomes KeepsFiles (H.holds host.old) (H.holds host.new) }
    ensures unopened { swap.entry ≡ None → H.opened host.new ≡ H.opened host.old }
    ensures cause { (take out err : ℕ) → IsCounted (prepare_calls swap.entry) (prepare_failed result)
        (tally (H.faults host.old) take out err) (tally (H.faults host.new) take out err) }
{
    let stack = match stack_bytes(alloc, image, args, env, limits.seed) {
        Ok(stack) => stack,
        Err(StartFault::TooLong(fault)) => return Err(PrepareFault::TooLong(fault)),
        Err(StartFault::Memory) => return Err(PrepareFault::Memory),
    };
    match open_swap(swap, limits.pages, host) {
        Ok(()) => {}
        Err(call) => return Err(PrepareFault::Host(call)),
    }
    match start(alloc, image, bytes, &stack, files, limits, host) {
        Ok(guest) => Ok(guest),
        Err(LoadFault::Host(call)) => Err(PrepareFault::Host(call)),
        Err(LoadFault::Memory) => Err(PrepareFault::Memory),
    }
}
