//! Calls and what they answer, on files `in` (hello, to be read), `out` (to be made), `both` (0123456789) and `gone` (neither
//! there nor to be made), with a cap of 16.
use crate::Errno;

/// A call, or what stands afterwards.
pub enum Step {
    /// Name and flags.
    Open(&'static str, u32, Result<u32, Errno>),
    Close(u32, Result<(), Errno>),
    /// Descriptor, offset, answer, and the buffer afterwards.
    Read(u32, u64, Result<usize, Errno>, &'static str),
    Write(u32, u64, &'static str, Result<usize, Errno>),
    /// Descriptor, number and whence.
    Seek(u32, i64, u32, Result<u64, Errno>),
    Size(u32, Option<u64>),
    Offset(u32, Option<u64>),
    Appends(u32, Option<bool>),
}

static OPENING: [Step; 32] = [
    Step::Open("in", 3, Err(Errno::EINVAL)),
    Step::Open("none", 0x43, Err(Errno::EINVAL)),
    Step::Open("none", 0, Err(Errno::ENOENT)),
    Step::Open("none", 0x80, Err(Errno::ENOENT)),
    Step::Open("none", 0x40, Err(Errno::EACCES)),
    Step::Open("", 0, Err(Errno::ENOENT)),
    Step::Open("inn", 0, Err(Errno::ENOENT)),
    Step::Open("gone", 2, Err(Errno::ENOENT)),
    Step::Open("gone", 0xC1, Err(Errno::EACCES)),
    Step::Open("out", 0, Err(Errno::ENOENT)),
    Step::Open("out", 0x201, Err(Errno::ENOENT)),
    Step::Open("in", 0xC0, Err(Errno::EEXIST)),
    Step::Open("in", 0xC1, Err(Errno::EEXIST)),
    Step::Open("both", 0xC2, Err(Errno::EEXIST)),
    Step::Open("in", 1, Err(Errno::EROFS)),
    Step::Open("in", 2, Err(Errno::EROFS)),
    Step::Open("in", 0x241, Err(Errno::EROFS)),
    Step::Size(3, None),
    Step::Open("in", 0x80, Ok(3)),
    Step::Size(3, Some(5)),
    Step::Open("out", 0xC1, Ok(4)),
    Step::Size(4, Some(0)),
    Step::Open("out", 0xC1, Err(Errno::EEXIST)),
    Step::Open("out", 0, Ok(5)),
    Step::Open("both", 0xFFFF_FD3E, Ok(6)),
    Step::Size(6, Some(10)),
    Step::Appends(6, Some(true)),
    Step::Open("both", 0x200, Ok(7)),
    Step::Size(7, Some(10)),
    Step::Open("both", 0x201, Ok(8)),
    Step::Size(7, Some(0)),
    Step::Appends(8, Some(false)),
];

pub fn opening() -> &'static [Step] {
    &OPENING
}

static CLOSING: [Step; 20] = [
    Step::Close(3, Err(Errno::EBADF)),
    Step::Close(64, Err(Errno::EBADF)),
    Step::Close(u32::MAX, Err(Errno::EBADF)),
    Step::Open("in", 0, Ok(3)),
    Step::Open("in", 0, Ok(4)),
    Step::Open("in", 0, Ok(5)),
    Step::Close(4, Ok(())),
    Step::Close(4, Err(Errno::EBADF)),
    Step::Offset(4, None),
    Step::Size(4, None),
    Step::Open("both", 0x402, Ok(4)),
    Step::Appends(4, Some(true)),
    Step::Open("in", 0, Ok(6)),
    Step::Size(0, None),
    Step::Offset(0, Some(0)),
    Step::Close(0, Ok(())),
    Step::Open("in", 0, Ok(0)),
    Step::Read(0, 1, Ok(4), "ello."),
    Step::Close(2, Ok(())),
    Step::Open("both", 2, Ok(2)),
];

pub fn closing() -> &'static [Step] {
    &CLOSING
}

static READING: [Step; 20] = [
    Step::Open("in", 0, Ok(3)),
    Step::Open("both", 1, Ok(4)),
    Step::Open("both", 2, Ok(5)),
    Step::Read(0, 0, Err(Errno::ESPIPE), ".."),
    Step::Read(1, 0, Err(Errno::EBADF), ".."),
    Step::Read(2, u64::MAX, Err(Errno::EBADF), ".."),
    Step::Read(4, 0, Err(Errno::EBADF), ".."),
    Step::Read(63, 0, Err(Errno::EBADF), ".."),
    Step::Read(64, 0, Err(Errno::EBADF), ".."),
    Step::Read(3, 1 << 63, Err(Errno::EINVAL), ".."),
    Step::Read(0, 1 << 63, Err(Errno::ESPIPE), ".."),
    Step::Read(3, (1 << 63) - 1, Ok(0), ".."),
    Step::Read(3, 0, Ok(0), ""),
    Step::Read(3, 0, Ok(1), "h"),
    Step::Read(3, 0, Ok(5), "hello"),
    Step::Read(3, 0, Ok(5), "hello..."),
    Step::Read(3, 3, Ok(2), "lo..."),
    Step::Read(3, 5, Ok(0), "..."),
    Step::Read(5, 9, Ok(1), "9.."),
    Step::Offset(5, Some(0)),
];

pub fn reading() -> &'static [Step] {
    &READING
}

static WRITING: [Step; 27] = [
    Step::Open("in", 0, Ok(3)),
    Step::Open("both", 2, Ok(4)),
    Step::Open("out", 0x442, Ok(5)),
    Step::Write(0, 0, "x", Err(Errno::EBADF)),
    Step::Write(1, 0, "x", Err(Errno::ESPIPE)),
    Step::Write(2, 1 << 63, "x", Err(Errno::ESPIPE)),
    Step::Write(3, 0, "x", Err(Errno::EBADF)),
    Step::Write(6, 0, "x", Err(Errno::EBADF)),
    Step::Write(4, 1 << 63, "", Err(Errno::EINVAL)),
    Step::Write(4, (1 << 63) - 1, "x", Err(Errno::ENOSPC)),
    Step::Write(4, (1 << 63) - 1, "", Ok(0)),
    Step::Size(4, Some(10)),
    Step::Write(4, 2, "ab", Ok(2)),
    Step::Read(4, 0, Ok(10), "01ab456789.."),
    Step::Write(4, 9, "cde", Ok(3)),
    Step::Read(4, 7, Ok(5), "78cde.."),
    Step::Write(4, 14, "fghi", Ok(2)),
    Step::Read(4, 10, Ok(6), "de\0\0fg..."),
    Step::Write(4, 16, "j", Err(Errno::ENOSPC)),
    Step::Write(4, 16, "", Ok(0)),
    Step::Write(4, 15, "jk", Ok(1)),
    Step::Size(4, Some(16)),
    Step::Write(5, 8, "", Ok(0)),
    Step::Size(5, Some(0)),
    Step::Write(5, 2, "ab", Ok(2)),
    Step::Read(5, 0, Ok(4), "\0\0ab."),
    Step::Offset(5, Some(0)),
];

pub fn writing() -> &'static [Step] {
    &WRITING
}

static MOVING: [Step; 30] = [
    Step::Open("in", 0, Ok(3)),
    Step::Open("both", 0x402, Ok(4)),
    Step::Seek(0, 0, 0, Err(Errno::ESPIPE)),
    Step::Seek(1, 0, 9, Err(Errno::ESPIPE)),
    Step::Seek(2, 0, 2, Err(Errno::ESPIPE)),
    Step::Seek(5, 0, 0, Err(Errno::EBADF)),
    Step::Seek(64, 0, 0, Err(Errno::EBADF)),
    Step::Seek(3, 0, 3, Err(Errno::EINVAL)),
    Step::Seek(3, 0, u32::MAX, Err(Errno::EINVAL)),
    Step::Seek(3, -1, 0, Err(Errno::EINVAL)),
    Step::Seek(3, 4, 0, Ok(4)),
    Step::Seek(3, 3, 1, Ok(7)),
    Step::Offset(3, Some(7)),
    Step::Seek(3, -8, 1, Err(Errno::EINVAL)),
    Step::Offset(3, Some(7)),
    Step::Seek(3, -7, 1, Ok(0)),
    Step::Seek(3, -2, 2, Ok(3)),
    Step::Seek(3, 100, 2, Ok(105)),
    Step::Seek(3, -6, 2, Err(Errno::EINVAL)),
    Step::Seek(3, i64::MAX, 0, Ok((1 << 63) - 1)),
    Step::Seek(3, 1, 1, Err(Errno::EINVAL)),
    Step::Seek(3, i64::MIN, 1, Err(Errno::EINVAL)),
    Step::Seek(3, i64::MIN + 1, 1, Ok(0)),
    Step::Seek(3, i64::MAX, 2, Err(Errno::EINVAL)),
    Step::Seek(4, 6, 0, Ok(6)),
    Step::Write(4, 10, "abc", Ok(3)),
    Step::Offset(4, Some(6)),
    Step::Seek(4, 0, 2, Ok(13)),
    Step::Appends(4, Some(true)),
    Step::Offset(3, Some(0)),
];

pub fn moving() -> &'static [Step] {
    &MOVING
}
