//! Offsets in files.
ghost use Rattle.std.specs.Prelude.{◌≡◌, ◌^◌, ◌<◌, IfSome, pos, ◌+ℤ◌};
ghost use Rattle.guest_files.specs.Content.{count_below as count_under};
ghost use Rattle.guest_files.specs.Moves.{base_of, offset_of};

/// Offsets lie below this.
pub const OFFSET_END: u64 = 1 << 63;

/// How many of so many bytes from an offset on lie below the cap.
pub fn count_below(cap: u32, at: u64, count: usize) -> usize
    ensures { result ≡ count_under cap at count }
{
    let room = u64::from(cap).saturating_sub(at);
    count.min(room as usize)
}

/// The offset that lies so many bytes behind another, if it is one.
pub fn offset_from(base: u64, by: i64) -> Option<u64>
    requires { base < 2 ^ 63 }
    ensures value { result ≡ offset_of (pos base +ℤ by) }
    ensures within { IfSome result (λ at. at < 2 ^ 63) }
{
    match base.checked_add_signed(by) {
        Some(at) if at < OFFSET_END => Some(at),
        _ => None,
    }
}

/// From where an offset is counted: the start, the offset as it is or the file's end.
pub fn base(whence: u32, at: u64, size: u64) -> Option<u64>
    requires at { at < 2 ^ 63 }
    requires size { size < 2 ^ 63 }
    ensures value { result ≡ base_of whence at size }
    ensures within { IfSome result (λ base. base < 2 ^ 63) }
{
    match whence {
        0 => Some(0),
        1 => Some(at),
        2 => Some(size),
        _ => None,
    }
}
