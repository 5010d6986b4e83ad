// A line of text.
ghost use Rattle.std.specs.Prelude.{◌≡◌, ◌+◌, ◌/◌, ◌%◌, ◌^◌, ◌<◌, ◌≤◌, [], ◌++◌, ◌∷◌, length, false};
ghost use Rattle.std.specs.Fmt.{decimal, digit_glyph};
ghost use Rattle.host_edge.specs.Causes.{HasCause};
ghost use Rattle.host_edge.specs.Streams.{Puts};
ghost use Rattle.line_text.specs.Digits.{hex_digits, line_len};

use arrayvec::ArrayVec;
use host_edge::{Failed, Sink};
use itoa::Buffer;
use std::marker::Model;

/// The most bytes that a line can have.
pub const LINE_LEN: usize = 256;

/// Bytes that are gathered in room of their own; nothing is allocated.
#[derive(Drop)]
pub struct Line {
    bytes: ArrayVec<u8, LINE_LEN>,
}

impl Model for Line {
    ghost use Rattle.std.specs.Prelude.{ℕ, List};

    ghost Value = { List ℕ };

    ghost view = { λ line. line.bytes.items };
}

// The lower-case letter or the figure of a hexadecimal digit.
fn hex_digit(digit: u8) -> u8
    requires { digit < 16 }
    ensures { result ≡ digit_glyph false digit }
{
    if digit < 10 {
        b'0' + digit
    } else {
        b'a' + (digit - 10)
    }
}

// The hexadecimal digit of a number that has so many digits behind it.
fn hex_digit_at(n: u64, place: u8) -> u8
    requires { place < 16 }
    ensures { result ≡ digit_glyph false (n / 16 ^ place % 16) }
{
    let digit = (n >> (4 * place)) % 16;
    hex_digit(digit as u8)
}

impl Line {
    /// An empty line.
    pub fn new() -> Line
        ensures { result ≡ [] }
    {
        Line {
            bytes: ArrayVec::new(),
        }
    }

    /// Appends a text.
    pub fn text(&mut self, t: &str)
        requires { length self.old + length t.now ≤ line_len }
        ensures bytes { self.new ≡ self.old ++ t.now }
        ensures len { length self.new ≡ length self.old + length t.now }
    {
        match self.bytes.try_extend_from_slice(t.as_bytes()) {
            Ok(()) => {}
            Err(_) => unreachable!(),
        }
    }

    /// Appends a number in base 10, without leading zeros: at most 20 bytes, as `decimal_short` in proofs/Room.antt says.
    #[tactic(auto, using(crate::proofs::Room::decimal_short))]
    pub fn dec(&mut self, n: u64)
        requires { length self.old + length (decimal n) ≤ line_len }
        ensures bytes { self.new ≡ self.old ++ decimal n }
        ensures most { length self.new ≤ length self.old + 20 }
    {
        let mut buffer = Buffer::new();
        self.text(buffer.format(n));
    }

    /// Appends a number in base 16, with exactly so many digits, in lower case.
    pub fn hex(&mut self, n: u64, digits: u8)
        requires some { 1 ≤ digits }
        requires most { digits ≤ 16 }
        requires holds { n < 16 ^ digits }
        requires room { length self.old + digits ≤ line_len }
        ensures bytes { self.new ≡ self.old ++ hex_digits digits n }
        ensures len { length self.new ≡ length self.old + digits }
    {
        for done in 0..digits {
            self.bytes.push(hex_digit_at(n, digits - 1 - done));
        }
    }

    /// Gives the whole line to a sink, in one call.
    pub fn put<K: Sink>(&self, sink: &mut K) -> Result<(), Failed>
        ensures bytes { Puts (K.taken sink.old) (K.taken sink.new) self.now result }
        ensures cause { HasCause (K.faults sink.old) (K.faults sink.new) result }
    {
        sink.put(&self.bytes)
    }
}
