//! A writer as a sink.

ghost use Rattle.std.specs.Prelude.{◌≡◌, ◌+◌, ◌∷◌, [], MatchResult};
ghost use Rattle.std.specs.Io.KnownBytes.{Keeps};

use crate::failures::FailureCount;
use crate::sink::{Sink, SinkFailed};
use std::io::Write;

/// A writer that is lent as a sink. It tells the bytes that the writer's own contract knows.
#[derive(Drop)]
pub struct ToWrite<'a, W> {
    pub writer: &'a mut W,
    pub failures: FailureCount,
}

impl<'a, W: Write> ToWrite<'a, W> {
    /// A sink over a writer, which has not failed yet.
    pub fn new(writer: &'a mut W) -> ToWrite<'a, W>
        ensures writer { result.writer ≡ writer.entry }
        ensures failures { result.failures ≡ 0 }
    {
        ToWrite {
            writer,
            failures: FailureCount::none(),
        }
    }

    /// Flushes the writer. A flush that fails is a failure of the sink, though it loses no byte
    /// that was taken.
    pub fn flush(&mut self) -> Result<(), SinkFailed>
        ensures bytes { Keeps
            (W.contents self.old.writer.now) (W.contents self.new.writer.now) }
        ensures count { MatchResult result
            (λ _. self.new.failures ≡ self.old.failures)
            (λ _. self.new.failures ≡ self.old.failures + 1) }
        ensures same { self.new.writer.ghost_name ≡ self.old.writer.ghost_name }
    {
        match self.writer.flush() {
            Ok(()) => Ok(()),
            Err(_) => {
                self.failures.fail();
                Err(SinkFailed)
            }
        }
    }

    /// Gives the writer back.
    pub fn into_writer(self) -> &'a mut W
        ensures { result ≡ self.entry.writer }
    {
        let ToWrite { writer, failures } = self;
        failures.end();
        writer
    }
}

impl<W: Write> Sink for ToWrite<'_, W> {
    ghost failures = { λ s. s.failures };

    ghost written = { λ s. W.contents s.writer.now };

    ghost identity = { λ s. s.writer.ghost_name ∷ [] };

    /// A write that fails, or that takes nothing of a piece that is not empty, is a failure.
    fn put(&mut self, piece: &[u8]) -> Result<usize, SinkFailed> {
        match self.writer.write(piece) {
            Ok(taken) if taken > 0 || piece.is_empty() => Ok(taken),
            _ => {
                self.failures.fail();
                Err(SinkFailed)
            }
        }
    }
}
