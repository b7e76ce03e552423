//! The text of an answer, which is made whole before a sink has its first byte: so memory that
//! runs out leaves nothing half written.

ghost use Rattle.std.specs.Prelude.{◌≡◌, ◌+◌, IfOk, IfErr, string_bytes};
ghost use Rattle.std.specs.Io.KnownBytes.{Appends};
ghost use Rattle.shown_states.specs.Endings.{failures_of, IsUnwritten};

use crate::form::Ending;
use sinks::{Sink, WriteFault, put_whole};

/// A whole answer: its text, and how it ends.
#[derive(Drop)]
pub struct Answer {
    pub text: String,
    pub ending: Ending,
}

/// Puts an answer to a sink. It takes no memory; after a fault the sink took a prefix of the text.
pub fn put_answer<S: Sink>(sink: &mut S, answer: &Answer) -> Result<Ending, WriteFault>
    ensures written { IfOk result (λ ending. (ending ≡ answer.now.ending)
        × Appends (S.written sink.old) (S.written sink.new) (string_bytes answer.now.text)) }
    ensures begun { IfErr result (IsUnwritten (λ text. text ≡ string_bytes answer.now.text)
        (S.written sink.old) (S.written sink.new)) }
    ensures failures { S.failures sink.new ≡ S.failures sink.old + failures_of result }
    ensures identity { S.identity sink.new ≡ S.identity sink.old }
{
    put_whole(sink, answer.text.as_bytes())?;
    Ok(answer.ending)
}
