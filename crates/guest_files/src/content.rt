//! The bytes of a file, in room that was taken before.
ghost use Rattle.std.specs.Prelude.{◌≡◌, ◌+◌, ◌-◌, ◌<◌, ◌≤◌, ◌++◌, length, replicate, vec_len, vec_capacity};
ghost use Rattle.guest_files.specs.Content.{content_with, filled, piece_of};

/// Appends zeros up to a length.
fn pad(content: &mut Vec<u8>, len: usize)
    requires { len ≤ vec_capacity content.old }
    ensures items { content.new.items
        ≡ content.old.items ++ replicate (len - vec_len content.old) 0 }
    ensures capacity { vec_capacity content.new ≡ vec_capacity content.old }
{
    for _ in content.len()..len {
        content.push_reserved(0);
    }
}

/// Writes bytes from an offset on, and zeros between the end and the offset.
pub fn write(content: &mut Vec<u8>, at: usize, bytes: &[u8])
    requires { 0 < length bytes.now → at + length bytes.now ≤ vec_capacity content.old }
    ensures items { content.new.items ≡ content_with content.old.items at bytes.now }
    ensures capacity { vec_capacity content.new ≡ vec_capacity content.old }
{
    if bytes.is_empty() {
        return;
    }
    let end = at + bytes.len();
    pad(content, end);
    content.slice_mut(at..end).copy_from_slice(bytes);
}

/// Copies the bytes from an offset on to the front of a buffer, as many as fit, and answers how many.
pub fn read(content: &[u8], at: u64, into: &mut [u8]) -> usize
    ensures count { result ≡ length (piece_of content.now at (length into.old)) }
    ensures bytes { into.new ≡ filled (piece_of content.now at (length into.old)) into.old }
{
    let start = at.min(content.len() as u64) as usize;
    let rest = &content[start..];
    let count = rest.len().min(into.len());
    into[..count].copy_from_slice(&rest[..count]);
    count
}
