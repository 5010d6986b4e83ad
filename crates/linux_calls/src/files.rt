//! The calls on descriptors that move no bytes.
ghost use Rattle.linux_calls.specs.FileCalls.{close_call, lseek_call, ioctl_call};
ghost use Rattle.linux_calls.specs.View.{view_of, FitParts};
ghost use Rattle.linux_calls.specs.Following.{DoesAtOnce, Kept};

use crate::errnos::ENOTTY;
use crate::world::{World, low};
use guest_files::Errno;

/// The call close.
#[tactic(auto, unfolding(crate::specs::FileCalls::close_call))]
pub(crate) fn close(w: &mut World) -> Result<u64, Errno>
    requires { FitParts (view_of w.old) }
    ensures kept { Kept w.old w.new }
    ensures does { DoesAtOnce close_call (view_of w.old) (view_of w.new) result }
{
    let fd = low(w.rdi());
    match w.files.close(fd) {
        Ok(()) => Ok(0),
        Err(errno) => Err(errno),
    }
}

/// The call lseek.
#[tactic(auto, unfolding(crate::specs::FileCalls::lseek_call))]
pub(crate) fn lseek(w: &mut World) -> Result<u64, Errno>
    requires { FitParts (view_of w.old) }
    ensures kept { Kept w.old w.new }
    ensures does { DoesAtOnce lseek_call (view_of w.old) (view_of w.new) result }
{
    let fd = low(w.rdi());
    let to = w.rsi().cast_signed();
    let whence = low(w.rdx());
    match w.files.seek(fd, to, whence) {
        Ok(at) => Ok(at),
        Err(errno) => Err(errno),
    }
}

/// The call ioctl.
#[tactic(auto, unfolding(crate::specs::FileCalls::ioctl_call))]
pub(crate) fn ioctl(w: &mut World) -> Result<u64, Errno>
    requires { FitParts (view_of w.old) }
    ensures kept { Kept w.old w.new }
    ensures does { DoesAtOnce ioctl_call (view_of w.old) (view_of w.new) result }
{
    let fd = low(w.rdi());
    match w.files.place(fd) {
        Some(_) => Err(ENOTTY),
        None => Err(Errno::EBADF),
    }
}
