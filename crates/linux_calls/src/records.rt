//! The calls that write a record of fixed length, and those on the bases of FS and GS.
ghost use Rattle.std.specs.Prelude.{◌≡◌, length};
ghost use Rattle.machine_state.specs.Memory.{number_bytes};
ghost use Rattle.linux_calls.specs.Records.{put_record as put_record_call, fstat_call, stat_bytes, uname_call, uname_bytes};
ghost use Rattle.linux_calls.specs.Records.{arch_prctl_call, clock_gettime_call, is_clock as is_clock_spec, time_bytes};
ghost use Rattle.linux_calls.specs.View.{view_of, FitParts};
ghost use Rattle.linux_calls.specs.Waiting.{NeedsFirst, NeedsRecord, NeedsRecordIn};
ghost use Rattle.linux_calls.specs.Passing.{NeverWaits, PassedIn, PassesFirst};
ghost use Rattle.linux_calls.specs.declared.kinds.Call.{Call};
ghost use Rattle.linux_calls.specs.Following.{Does, Kept, halt_of as halt_of_spec};

use crate::errnos::{EFAULT, EPERM};
use crate::fields::Fields;
use crate::kinds::Halt;
use crate::world::{World, low};
use guest_files::Errno;
use guest_pages::Miss;
use machine_state::PAGE_SIZE;

/// What arch_prctl does: ARCH_SET_GS, ARCH_SET_FS, ARCH_GET_FS, ARCH_GET_GS.
const SET_GS: u32 = 0x1001;

const SET_FS: u32 = 0x1002;

const GET_FS: u32 = 0x1003;

const GET_GS: u32 = 0x1004;

/// A base of FS or GS lies below this.
const BASE_END: u64 = 0x7FFF_FFFF_F000;

/// The mode of a stream (S_IFIFO) and of a file (S_IFREG), and who may read and write it.
const STREAM_MODE: u32 = 0x1180;

const FILE_MODE: u32 = 0x81A4;

// What a miss makes of a call.
fn halt_of(miss: Miss) -> Halt
    ensures { result ≡ halt_of_spec miss }
{
    match miss {
        Miss::Away(slot) => Halt::Need(slot),
        Miss::Unmapped(_) | Miss::Denied(_) | Miss::NonCanonical(_) => Halt::Refused(EFAULT),
    }
}

// Writes a record to an address.
fn put_record(w: &mut World, addr: u64, bytes: &[u8]) -> Result<u64, Halt>
    requires { FitParts (view_of w.old) }
    ensures kept { Kept w.old w.new }
    ensures does { Does (put_record_call addr bytes.now) (view_of w.old) (view_of w.new) result }
    ensures needs { NeedsRecordIn (view_of w.new) addr (length bytes.now) result }
    ensures exact { PassedIn (λ _. NeverWaits (λ slot. NeedsRecord (view_of w.old) addr (length bytes.now) slot)) result }
{
    match w.pages.write(addr, bytes) {
        Ok(()) => Ok(0),
        Err(miss) => Err(halt_of(miss)),
    }
}

// The record of a descriptor (struct stat).
#[tactic(auto, unfolding(crate::specs::Records::stat_bytes))]
fn stat_record(fd: u32, of_stream: bool, size: u64) -> Fields
    ensures bytes { result ≡ stat_bytes fd of_stream size }
    ensures len { length result ≡ 144 }
{
    let mut fields = Fields::new();
    fields.word(0);
    fields.word(u64::from(fd));
    fields.word(1);
    fields.half(if of_stream { STREAM_MODE } else { FILE_MODE });
    fields.zeros(12);
    fields.word(0);
    fields.word(size);
    fields.word(PAGE_SIZE);
    fields.zeros(80);
    fields
}

/// The call fstat.
#[tactic(auto, unfolding(crate::specs::Records::fstat_call))]
pub(crate) fn fstat(w: &mut World) -> Result<u64, Halt>
    requires { FitParts (view_of w.old) }
    ensures kept { Kept w.old w.new }
    ensures does { Does fstat_call (view_of w.old) (view_of w.new) result }
    ensures needs { NeedsFirst Call.Fstat (view_of w.new) result }
    ensures exact { PassedIn (λ _. PassesFirst Call.Fstat (view_of w.old)) result }
{
    let fd = low(w.rdi());
    let addr = w.rsi();
    match w.files.place(fd) {
        Some(place) => {
            let size = w.files.size(fd).unwrap_or(0);
            let fields = stat_record(fd, place.file.is_none(), size);
            put_record(w, addr, fields.bytes())
        }
        None => Err(Halt::Refused(Errno::EBADF)),
    }
}

// The record of the system (struct utsname).
#[tactic(auto, unfolding(crate::specs::Records::uname_bytes))]
fn uname_record() -> Fields
    ensures bytes { result ≡ uname_bytes }
    ensures len { length result ≡ 390 }
{
    let mut fields = Fields::new();
    fields.name("Linux");
    fields.name("xemu");
    fields.name("6.1.0");
    fields.name("#1");
    fields.name("x86_64");
    fields.name("(none)");
    fields
}

/// The call uname.
#[tactic(auto, unfolding(crate::specs::Records::uname_call))]
pub(crate) fn uname(w: &mut World) -> Result<u64, Halt>
    requires { FitParts (view_of w.old) }
    ensures kept { Kept w.old w.new }
    ensures does { Does uname_call (view_of w.old) (view_of w.new) result }
    ensures needs { NeedsFirst Call.Uname (view_of w.new) result }
    ensures exact { PassedIn (λ _. PassesFirst Call.Uname (view_of w.old)) result }
{
    let addr = w.rdi();
    let fields = uname_record();
    put_record(w, addr, fields.bytes())
}

// The record of a time (struct timespec).
#[tactic(auto, unfolding(crate::specs::Records::time_bytes))]
fn time_record(steps: u64) -> Fields
    ensures bytes { result ≡ time_bytes steps }
    ensures len { length result ≡ 16 }
{
    let mut fields = Fields::new();
    fields.word(steps / 1_000_000_000);
    fields.word(steps % 1_000_000_000);
    fields
}

// Whether a number is a clock's.
fn is_clock(id: u32) -> bool
    ensures { result ≡ is_clock_spec id }
{
    matches!(id, 0 | 1 | 4 | 5 | 6 | 7)
}

/// The call clock_gettime.
#[tactic(auto, unfolding(crate::specs::Records::clock_gettime_call))]
pub(crate) fn clock_gettime(w: &mut World) -> Result<u64, Halt>
    requires { FitParts (view_of w.old) }
    ensures kept { Kept w.old w.new }
    ensures does { Does clock_gettime_call (view_of w.old) (view_of w.new) result }
    ensures needs { NeedsFirst Call.ClockGettime (view_of w.new) result }
    ensures exact { PassedIn (λ _. PassesFirst Call.ClockGettime (view_of w.old)) result }
{
    if !is_clock(low(w.rdi())) {
        return Err(Halt::Refused(Errno::EINVAL));
    }
    let addr = w.rsi();
    let fields = time_record(w.steps);
    put_record(w, addr, fields.bytes())
}

// Writes a base to an address.
fn put_base(w: &mut World, addr: u64, base: u64) -> Result<u64, Halt>
    requires { FitParts (view_of w.old) }
    ensures kept { Kept w.old w.new }
    ensures does { Does (put_record_call addr (number_bytes 8 base)) (view_of w.old) (view_of w.new) result }
    ensures needs { NeedsRecordIn (view_of w.new) addr 8 result }
    ensures exact { PassedIn (λ _. NeverWaits (λ slot. NeedsRecord (view_of w.old) addr 8 slot)) result }
{
    let mut fields = Fields::new();
    fields.word(base);
    put_record(w, addr, fields.bytes())
}

/// The call arch_prctl.
#[tactic(auto, unfolding(crate::specs::Records::arch_prctl_call))]
pub(crate) fn arch_prctl(w: &mut World) -> Result<u64, Halt>
    requires { FitParts (view_of w.old) }
    ensures kept { Kept w.old w.new }
    ensures does { Does arch_prctl_call (view_of w.old) (view_of w.new) result }
    ensures needs { NeedsFirst Call.ArchPrctl (view_of w.new) result }
    ensures exact { PassedIn (λ _. PassesFirst Call.ArchPrctl (view_of w.old)) result }
{
    let base = w.rsi();
    match low(w.rdi()) {
        SET_FS | SET_GS if base >= BASE_END => Err(Halt::Refused(EPERM)),
        SET_FS => {
            *w.fs = base;
            Ok(0)
        }
        SET_GS => {
            *w.gs = base;
            Ok(0)
        }
        GET_FS => put_base(w, base, *w.fs),
        GET_GS => put_base(w, base, *w.gs),
        _ => Err(Halt::Refused(Errno::EINVAL)),
    }
}
