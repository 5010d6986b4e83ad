// A source in memory.
ghost use Rattle.std.specs.Prelude.{◌≡◌, ◌<◌, IfOk, OnErr, is_err, length};
ghost use Rattle.host_edge.specs.Causes.{HasCause, is_listed, raised};
ghost use Rattle.host_edge.specs.Streams.{Takes};
ghost use Rattle.host_edge.specs.MemSource.{after_failed_take, after_take, count_given};

use crate::counts::{fault, next_fails};
use crate::{Failed, Source};
use std::alloc::{AllocError, Global};
use std::marker::Model;

/// A source that gives bytes from memory, and fails at chosen calls.
#[derive(Drop)]
pub struct MemSource {
    bytes: Vec<u8>,
    at: usize,
    most: usize,
    fail: Vec<u64>,
    calls: u64,
    faults: u64,
}

impl Model for MemSource {
    ghost use Rattle.std.specs.Prelude.{◌≤◌, ◌<◌, drop, vec_len};
    ghost use Rattle.host_edge.specs.MemSource.{SourceState};

    ghost Value = { SourceState };

    ghost view = { λ s. record {
      left = drop s.at s.bytes.items;
      most = s.most;
      fail = s.fail.items;
      calls = s.calls;
      faults = s.faults;
    } };

    ghost invariant = { λ s. (s.at ≤ vec_len s.bytes) × (0 < s.most) };
}

impl MemSource {
    /// A source of these bytes that gives at most `most` of them in one call. The calls are counted from 1, and those
    /// whose numbers are in `fail` fail.
    pub fn new(
        alloc: Global,
        bytes: &[u8],
        most: usize,
        fail: &[u64],
    ) -> Result<MemSource, AllocError>
        requires { 0 < most }
        ensures { IfOk result (λ s. s ≡ record {
          left = bytes.now;
          most = most;
          fail = fail.now;
          calls = 0;
          faults = 0;
        }) }
    {
        Ok(MemSource {
            bytes: Vec::from_slice(alloc, bytes)?,
            at: 0,
            most,
            fail: Vec::from_slice(alloc, fail)?,
            calls: 0,
            faults: 0,
        })
    }
}

impl Source for MemSource {
    ghost use Rattle.std.specs.Prelude.{Some};

    ghost left = { λ s. Some s.left };

    ghost faults = { λ s. s.faults };

    fn take(&mut self, into: &mut [u8]) -> Result<usize, Failed>
        requires { 0 < length into.old }
        ensures bytes { Takes (Some self.old.left) (Some self.new.left) into.old into.new result }
        ensures cause { HasCause self.old.faults self.new.faults result }

        // It fails exactly where the call's number is listed.
        ensures fails { is_err result ≡ is_listed self.old.fail (raised self.old.calls) }
        ensures failed { OnErr result (self.new ≡ after_failed_take self.old) }
        ensures into_kept { OnErr result (into.new ≡ into.old) }
        ensures count { IfOk result (λ count. count ≡ count_given self.old (length into.old)) }
        ensures given { IfOk result (λ count. self.new ≡ after_take self.old count) }
    {
        if next_fails(&mut self.calls, &self.fail) {
            return Err(fault(&mut self.faults));
        }
        let left = &self.bytes[self.at..];
        let count = left.len().min(self.most).min(into.len());
        into[..count].copy_from_slice(&left[..count]);
        self.at += count;
        Ok(count)
    }
}
