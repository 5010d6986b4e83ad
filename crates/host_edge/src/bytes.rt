// Bytes that are put into room that was taken before.
ghost use Rattle.std.specs.Prelude.{◌≡◌, ◌+◌, ◌≤◌, ◌++◌, IfOk, drop, length, take, vec_len, vec_capacity};
ghost use Rattle.host_edge.specs.Files.{length_within};

use std::alloc::{AllocError, Global};

/// Appends bytes for which there is room, and takes no memory.
pub fn append(bytes: &mut Vec<u8>, more: &[u8])
    requires { vec_len bytes.old + length more.now ≤ vec_capacity bytes.old }
    ensures items { bytes.new.items ≡ bytes.old.items ++ more.now }
    ensures len { vec_len bytes.new ≡ vec_len bytes.old + length more.now }
    ensures capacity { vec_capacity bytes.new ≡ vec_capacity bytes.old }
{
    for byte in more {
        bytes.push_reserved(*byte);
    }
}

/// So many zero bytes.
pub fn zeros(alloc: Global, count: usize) -> Result<Vec<u8>, AllocError>
    ensures { IfOk result (λ bytes. vec_len bytes ≡ count) }
{
    vec![in alloc; 0; count]
}

/// Writes bytes over those from a place on.
pub fn write_at(bytes: &mut Vec<u8>, at: usize, from: &[u8])
    requires { at + length from.now ≤ vec_len bytes.old }
    ensures items { bytes.new.items
        ≡ take at bytes.old.items ++ (from.now ++ drop (at + length from.now) bytes.old.items) }
    ensures len { vec_len bytes.new ≡ vec_len bytes.old }
{
    bytes.slice_mut(at..at + from.len()).copy_from_slice(from);
}

/// Moves the bytes between a start and a place up by a size, over as many bytes behind that place.
pub fn close_gap(bytes: &mut Vec<u8>, start: usize, at: usize, size: usize)
    requires { start + at + size ≤ vec_len bytes.old }
    ensures moved { drop (start + size) bytes.new.items
        ≡ take at (drop start bytes.old.items) ++ drop (at + size) (drop start bytes.old.items) }
    ensures len { vec_len bytes.new ≡ vec_len bytes.old }
{
    bytes.slice_mut(start..start + at + size).rotate_right(size);
}

/// Copies the first bytes to the front of a buffer, as many as fit, and answers how many there are, or one more than the
/// buffer's length where there are more.
pub fn copy_front(bytes: &[u8], into: &mut [u8]) -> u64
    ensures says { result ≡ length_within (length bytes.now) (length into.old) }
    ensures bytes { into.new
        ≡ take (length into.old) bytes.now ++ drop (length bytes.now) into.old }
    ensures rest { drop result into.new ≡ drop result into.old }
{
    if bytes.len() <= into.len() {
        into[..bytes.len()].copy_from_slice(bytes);
        bytes.len() as u64
    } else {
        let room = into.len();
        into.copy_from_slice(&bytes[..room]);
        room as u64 + 1
    }
}

/// Copies the bytes from a place on into a buffer.
pub fn read_at(bytes: &[u8], at: usize, into: &mut [u8])
    requires { at + length into.old ≤ length bytes.now }
    ensures { into.new ≡ take (length into.old) (drop at bytes.now) }
{
    into.copy_from_slice(&bytes[at..at + into.len()]);
}
