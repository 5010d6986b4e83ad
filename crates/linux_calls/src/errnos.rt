//! The errors that calls answer beside those of the calls on files.
ghost use Rattle.std.specs.Prelude.{◌≡◌};
ghost use Rattle.linux_calls.specs.Call.{negative as negative_spec};

use guest_files::Errno;

pub(crate) const EPERM: Errno = Errno(1);

pub(crate) const ENOMEM: Errno = Errno(12);

pub(crate) const EFAULT: Errno = Errno(14);

pub(crate) const ENODEV: Errno = Errno(19);

pub(crate) const ENOTDIR: Errno = Errno(20);

pub(crate) const ENOTTY: Errno = Errno(25);

pub(crate) const ENAMETOOLONG: Errno = Errno(36);

pub(crate) const ENOSYS: Errno = Errno(38);

/// An error as a register has it.
pub(crate) fn negative(errno: Errno) -> u64
    ensures { result ≡ negative_spec errno }
{
    0u64.wrapping_sub(u64::from(errno.0))
}
