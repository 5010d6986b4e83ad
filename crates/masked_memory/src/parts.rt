//! The parts of an operand of lanes: its bytes page by page.
ghost use Rattle.std.specs.Prelude.{ℕ, ◌≡◌, ◌+◌, ◌-◌, ◌*◌, ◌/◌, ◌%◌, ◌^◌, ◌<◌, ◌≤◌, true, false, min, length, slice_index, IsTrue, if◌then◌else◌};
ghost use Rattle.std.specs.Simd.Lanes.{chunk, put_chunk};
ghost use Rattle.gpr_flags.specs.Numbers.{has_bit as has_bit_of};
ghost use Rattle.gpr_flags.specs.Registers.{is_size};
ghost use Rattle.machine_state.specs.Memory.{page_size};
ghost use Rattle.masked_memory.specs.Parts.{byte_place, AreAll, HasLane, AreCopied};

use gpr_flags::has_bit;
use machine_state::PAGE_SIZE;

/// Bytes of an operand that lie on one page.
#[derive(Clone, Copy)]
pub(crate) struct Part {
    /// The address of the first of them.
    pub(crate) addr: u64,
    /// Which byte of the operand that is.
    pub(crate) from: usize,
    /// How many they are.
    pub(crate) len: usize,
}

impl Part {
    /// The part of an operand of `len` bytes that begins with its byte `from`.
    pub(crate) fn new(addr: u64, from: usize, len: usize) -> Part
        requires { from < len }
        ensures addr { result.addr ≡ byte_place addr from }
        ensures from { result.from ≡ from }
        ensures len { result.len ≡ min (len - from) (page_size - result.addr % page_size) }
    {
        let addr = addr.wrapping_add(from as u64);
        let page_left = (PAGE_SIZE - addr % PAGE_SIZE) as usize;
        Part {
            addr,
            from,
            len: (len - from).min(page_left),
        }
    }

    /// Whether one of its bytes belongs to a lane of `width` bytes that the mask has.
    pub(crate) fn has_lane(self, width: u8, mask: u64) -> bool
        requires width { 0 < width }
        requires some { 0 < self.len }
        requires most { self.from + self.len ≤ 64 * width }
        ensures some { result ≡ true → HasLane width mask self.from self.len }
        ensures none { result ≡ false → AreAll false width mask self.from self.len }
    {
        let width = width as usize;
        let first = self.from / width;
        let last = (self.from + self.len - 1) / width;
        (mask >> first).trailing_zeros() as usize <= last - first
    }

    /// Sets those of its bytes that belong to lanes of `W` bytes that the mask has, lane by lane.
    fn copy_lanes<const W: usize>(self, mask: u64, from: &[u8], to: &mut [u8])
        requires width { IsTrue (is_size W) }
        requires from_whole { self.from % W ≡ 0 }
        requires len_whole { self.len % W ≡ 0 }
        requires most { self.from + self.len ≤ 64 }
        requires from_len { length from.now ≡ self.len }
        requires to_len { length to.old ≡ self.len }
        ensures { AreCopied W mask self.from from.now to.old to.new }
    {
        let first = self.from / W;
        for lane in 0..self.len / W {
            copy_lane::<W>(mask, first + lane, from, to, lane);
        }
    }

    /// Sets those of its bytes that belong to such lanes, byte by byte.
    fn copy_bytes<const W: usize>(self, mask: u64, from: &[u8], to: &mut [u8])
        requires width { IsTrue (is_size W) }
        requires most { self.from + self.len ≤ 64 }
        requires from_len { length from.now ≡ self.len }
        requires to_len { length to.old ≡ self.len }
        ensures { AreCopied W mask self.from from.now to.old to.new }
    {
        for k in 0..self.len {
            let lane = (self.from + k) / W;
            to[k] = if has_bit(mask, lane as u32) {
                from[k]
            } else {
                to[k]
            };
        }
    }

    /// Sets those of its bytes that belong to such lanes, at once where all of them do.
    pub(crate) fn copy<const W: usize>(self, mask: u64, from: &[u8], to: &mut [u8])
        requires width { IsTrue (is_size W) }
        requires some { 0 < self.len }
        requires most { self.from + self.len ≤ 64 }
        requires from_len { length from.now ≡ self.len }
        requires to_len { length to.old ≡ self.len }
        ensures copied { AreCopied W mask self.from from.now to.old to.new }
        ensures bytes { (k : ℕ) → slice_index to.new k < 256 }
    {
        if !self.has_lane(W as u8, !mask) {
            to.copy_from_slice(from);
        } else if self.from % W == 0 && self.len % W == 0 {
            self.copy_lanes::<W>(mask, from, to);
        } else {
            self.copy_bytes::<W>(mask, from, to);
        }
    }
}

/// Copies the lane of `W` bytes at one place to that place, if it is a lane of the operand that the mask has.
fn copy_lane<const W: usize>(mask: u64, lane: usize, from: &[u8], to: &mut [u8], place: usize)
    requires lane { lane < 64 }
    requires place { place < 64 }
    requires width { W ≤ 8 }
    requires from_long { place * W + W ≤ length from.now }
    requires to_long { place * W + W ≤ length to.old }
    ensures { to.new ≡ (if has_bit_of mask lane then put_chunk (place * W) to.old (chunk (place * W) W from.now) else to.old) }
{
    if has_bit(mask, lane as u32) {
        let at = place * W;
        to[at..at + W].copy_from_slice(&from[at..at + W]);
    }
}
