// A sink in memory.
ghost use Rattle.std.specs.Prelude.{◌≡◌, IfOk, IfSome, OnErr, OnOk, [], is_err, is_some, length};
ghost use Rattle.host_edge.specs.Causes.{HasCause};
ghost use Rattle.host_edge.specs.Streams.{Puts};
ghost use Rattle.host_edge.specs.MemSink.{after_failed_put, after_put, listed_part, part_put};

use crate::bytes::append;
use crate::counts::fault;
use crate::{Failed, Sink};
use std::alloc::{AllocError, Global};
use std::marker::Model;

/// A sink that keeps bytes in memory, and fails at chosen calls.
#[derive(Drop)]
pub struct MemSink {
    bytes: Vec<u8>,
    room: usize,
    fail: Vec<(u64, usize)>,
    calls: u64,
    faults: u64,
}

impl Model for MemSink {
    ghost use Rattle.std.specs.Prelude.{◌≤◌, vec_len, vec_capacity};
    ghost use Rattle.host_edge.specs.MemSink.{SinkState};

    ghost Value = { SinkState };

    ghost view = { λ s. record {
      taken = s.bytes.items;
      room = s.room;
      fail = s.fail.items;
      calls = s.calls;
      faults = s.faults;
    } };

    ghost invariant = { λ s. (vec_len s.bytes ≤ s.room) × (s.room ≤ vec_capacity s.bytes) };
}

impl MemSink {
    /// A sink with room for `room` bytes, all of it taken now. The calls are counted from 1, and those whose numbers are
    /// in `fail` put as many bytes as stand beside the number, or all where there are fewer, and fail. Where a number
    /// stands twice, the first entry counts. A call whose bytes pass the room puts none and fails.
    pub fn new(alloc: Global, room: usize, fail: &[(u64, usize)]) -> Result<MemSink, AllocError>
        ensures { IfOk result (λ s. s ≡ record {
          taken = [];
          room = room;
          fail = fail.now;
          calls = 0;
          faults = 0;
        }) }
    {
        Ok(MemSink {
            bytes: Vec::with_capacity(alloc, room)?,
            room,
            fail: Vec::from_slice(alloc, fail)?,
            calls: 0,
            faults: 0,
        })
    }

    /// The bytes that were put.
    pub fn bytes(&self) -> &[u8]
        ensures { result.now ≡ self.now.taken }
    {
        &self.bytes
    }
}

// How many bytes the call with this number puts before it fails.
fn part_listed(fail: &[(u64, usize)], call: u64) -> Option<usize>
    ensures { result ≡ listed_part fail.now call }
{
    fail.iter()
        .find(|entry| entry.0 == call)
        .map(|entry| entry.1)
}

impl Sink for MemSink {
    ghost use Rattle.std.specs.Prelude.{Some};

    ghost taken = { λ s. Some s.taken };

    ghost faults = { λ s. s.faults };

    fn put(&mut self, bytes: &[u8]) -> Result<(), Failed>
        ensures bytes { Puts (Some self.old.taken) (Some self.new.taken) bytes.now result }
        ensures cause { HasCause self.old.faults self.new.faults result }

        // It fails exactly where the call's number is listed or the bytes pass the room.
        ensures fails { is_err result ≡ is_some (part_put self.old (length bytes.now)) }
        ensures ok { OnOk result (self.new ≡ after_put self.old bytes.now) }
        ensures failed { OnErr result (IfSome (part_put self.old (length bytes.now))
            (λ part. self.new ≡ after_failed_put self.old bytes.now part)) }
    {
        self.calls = self.calls.saturating_add(1);
        if bytes.len() > self.room - self.bytes.len() {
            return Err(fault(&mut self.faults));
        }
        match part_listed(&self.fail, self.calls) {
            Some(part) => {
                append(&mut self.bytes, &bytes[..part.min(bytes.len())]);
                Err(fault(&mut self.faults))
            }
            None => {
                append(&mut self.bytes, bytes);
                Ok(())
            }
        }
    }
}
