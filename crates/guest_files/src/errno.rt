//! The errors of the calls on files.

/// An error of Linux, by its number (errno(3)).
#[derive(Clone, Copy, Debug, PartialEq, Eq)]
pub struct Errno(pub u16);

impl Errno {
    pub const ENOENT: Errno = Errno(2);

    pub const EBADF: Errno = Errno(9);

    pub const EACCES: Errno = Errno(13);

    pub const EEXIST: Errno = Errno(17);

    pub const EINVAL: Errno = Errno(22);

    pub const EMFILE: Errno = Errno(24);

    pub const ENOSPC: Errno = Errno(28);

    pub const ESPIPE: Errno = Errno(29);

    pub const EROFS: Errno = Errno(30);
}
