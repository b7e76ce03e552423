//! A sink in memory, which fails at a chosen put.

ghost use Rattle.std.specs.Prelude.{◌≡◌, ◌+◌, ◌-◌, ◌<◌, ◌≤◌, [], IfOk, IsErr, MatchResult};
ghost use Rattle.std.specs.Prelude.{Some, length, min};
ghost use Rattle.std.specs.Io.KnownBytes.{WriteAppends};

use crate::failures::FailureCount;
use crate::sink::{Sink, SinkFailed};
use std::alloc::Global;
use std::marker::Model;

/// A sink that keeps its bytes, takes at most so many of them at a time, and fails at one
/// chosen put.
#[derive(Drop)]
pub struct MemSink {
    bytes: Vec<u8>,
    most: usize,
    fails_in: u32,
    failures: FailureCount,
}

impl Model for MemSink {
    ghost use Rattle.std.specs.Prelude.{◌≤◌};
    ghost use Rattle.sinks.specs.Sinks.{Memory};

    ghost Value = { Memory };

    ghost view = { λ s. record {
      bytes = s.bytes.items;
      most = s.most;
      fails_in = s.fails_in;
      failures = s.failures;
    } };

    ghost invariant = { λ s. 1 ≤ s.most };
}

impl MemSink {
    /// An empty sink. Of its puts, counted from 1, the one numbered `fail_at` fails, and none
    /// where that is 0. A put takes at most `most` bytes.
    pub fn new(alloc: Global, fail_at: u32, most: usize) -> MemSink
        requires { 1 ≤ most }
        ensures { result ≡ record { bytes = []; most = most; fails_in = fail_at; failures = 0 } }
    {
        MemSink {
            bytes: Vec::new(alloc),
            most,
            fails_in: fail_at,
            failures: FailureCount::none(),
        }
    }

    /// The bytes that were taken.
    pub fn bytes(&self) -> &[u8]
        ensures { result.now ≡ self.now.bytes }
    {
        self.bytes.as_slice()
    }
}

impl Sink for MemSink {
    ghost failures = { λ s. s.failures };

    ghost written = { λ s. Some s.bytes };

    /// A put that finds no memory fails too.
    fn put(&mut self, piece: &[u8]) -> Result<usize, SinkFailed>
        ensures most { IfOk result (λ n. n ≤ length piece.now) }
        ensures least { IfOk result (λ n. 0 < length piece.now → 0 < n) }
        ensures bytes { WriteAppends (Some self.old.bytes) (Some self.new.bytes) result piece.now }
        ensures count { MatchResult result
            (λ _. self.new.failures ≡ self.old.failures)
            (λ _. self.new.failures ≡ self.old.failures + 1) }
        ensures part { IfOk result (λ n. n ≡ min (length piece.now) self.old.most) }
        ensures chosen { self.old.fails_in ≡ 1 → IsErr result }
        ensures next { self.new.fails_in ≡ self.old.fails_in - 1 }
        ensures same { self.new.most ≡ self.old.most }
    {
        let fails = self.fails_in == 1;
        self.fails_in = self.fails_in.saturating_sub(1);
        let part = piece.len().min(self.most);
        if fails || self.bytes.extend_from_slice(&piece[..part]).is_err() {
            self.failures.fail();
            return Err(SinkFailed);
        }
        Ok(part)
    }
}
