//! Sinks: devices that take a text in pieces, and may fail.

ghost use Rattle.std.specs.Prelude.{◌≡◌, ◌+◌, ◌<◌, ◌≤◌, ◌∷◌, ℕ, List, [], Option, None};
ghost use Rattle.std.specs.Prelude.{length, IfOk, OnOk, MatchResult};
ghost use Rattle.std.specs.Io.KnownBytes.{Appends, WriteAppends};
ghost use Rattle.sinks.specs.Sinks.{TakesPrefix};

use thiserror::Error;

/// A put failed.
#[derive(Clone, Copy, Debug, PartialEq, Eq, Error)]
#[error("the device failed")]
pub struct SinkFailed;

/// A device that takes bytes in pieces.
pub trait Sink {
    /// How many puts have failed.
    ghost failures: { Self → ℕ };

    /// The bytes that were taken, where the sink tells them.
    ghost written: { Self → Option (List ℕ) } = { λ _. None };

    /// Identity of the sink behind a `&mut`.
    ghost identity: { Self → List ℕ } = { λ _. [] };

    /// Takes the first bytes of a piece and answers how many: at least one of a piece that is
    /// not empty. A failed put takes none.
    fn put(&mut self, piece: &[u8]) -> Result<usize, SinkFailed>
        ensures most { IfOk result (λ n. n ≤ length piece.now) }
        ensures least { IfOk result (λ n. 0 < length piece.now → 0 < n) }
        ensures bytes { WriteAppends (written self.old) (written self.new) result piece.now }
        ensures count { MatchResult result
            (λ _. failures self.new ≡ failures self.old)
            (λ _. failures self.new ≡ failures self.old + 1) }
        ensures identity { identity self.new ≡ identity self.old };
}

impl<S: Sink> Sink for &mut S {
    ghost failures = { λ s. S.failures s.now };

    ghost written = { λ s. S.written s.now };

    ghost identity = { λ s. s.ghost_name ∷ S.identity s.now };

    fn put(&mut self, piece: &[u8]) -> Result<usize, SinkFailed> {
        (**self).put(piece)
    }
}

/// Puts all of a piece, whatever part each put takes of what is left.
pub fn put_whole<S: Sink>(sink: &mut S, piece: &[u8]) -> Result<(), SinkFailed>
    ensures whole { OnOk result (Appends (S.written sink.old) (S.written sink.new) piece.now) }
    ensures prefix { TakesPrefix (S.written sink.old) (S.written sink.new) piece.now }
    ensures count { MatchResult result
        (λ _. S.failures sink.new ≡ S.failures sink.old)
        (λ _. S.failures sink.new ≡ S.failures sink.old + 1) }
    ensures identity { S.identity sink.new ≡ S.identity sink.old }
{
    let mut left = piece;
    while !left.is_empty() {
        let taken = sink.put(left)?;
        left = &left[taken..];
    }
    Ok(())
}
