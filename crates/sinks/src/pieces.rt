//! A long text in pieces: what is kept is put when another part might not fit after it.

ghost use Rattle.std.specs.Prelude.{◌≡◌, ◌+◌, ◌≤◌, OnOk, length, string_bytes};
ghost use Rattle.sinks.specs.Sinks.{TakesAllBut, TakesPrefix};
ghost use Rattle.sinks.specs.WriteFaults.{failures_of};

use crate::fault::WriteFault;
use crate::sink::{Sink, put_whole};

/// The most bytes of one put.
pub const PIECE: usize = 65_536;

/// The room that is left for another part. No part of a text, as the lines of a hart are, has more
/// bytes.
pub const PART: usize = 8_192;

/// Puts what is kept, where another part might not fit after it: then what is kept leaves room for
/// one.
pub fn make_room<S: Sink>(out: &mut String, sink: &mut S) -> Result<(), WriteFault>
    ensures room { OnOk result (length (string_bytes out.new) + PART ≤ PIECE) }
    ensures whole { OnOk result (TakesAllBut (S.written sink.old) (S.written sink.new)
        (string_bytes out.new) (string_bytes out.old)) }
    ensures prefix { TakesPrefix (S.written sink.old) (S.written sink.new)
        (string_bytes out.old) }
    ensures failures { S.failures sink.new ≡ S.failures sink.old + failures_of result }
    ensures identity { S.identity sink.new ≡ S.identity sink.old }
{
    if out.len() > PIECE - PART {
        put_whole(sink, out.as_bytes())?;
        out.clear();
    }
    Ok(())
}
