//! A text that is written whole.
#![tactic(auto, using(crate::proofs::EndingLemmas::begins_whole))]

ghost use Rattle.std.specs.Prelude.{◌≡◌, OnOk};
ghost use Rattle.std.specs.Io.KnownBytes.{Appends, Keeps};
ghost use Rattle.sinks.specs.Sinks.{TakesPrefix};

use sinks::{SinkFailed, ToWrite, put_whole};
use std::io::Write;

/// Flushes a writer.
pub fn flush<O: Write>(out: &mut O) -> Result<(), SinkFailed>
    ensures kept { Keeps (O.contents out.old) (O.contents out.new) }
{
    match out.flush() {
        Ok(()) => Ok(()),
        Err(_) => Err(SinkFailed),
    }
}

/// Ends the loan of a writer as a sink.
pub fn give_back<O: Write>(sink: ToWrite<'_, O>)
    ensures { sink.exit.0.now ≡ sink.entry.writer.now }
{
    let ToWrite { writer, failures } = sink;
    failures.end();
    // A last look at the writer tells the caller what it holds now.
    let _ = &*writer;
}

/// Writes all of a text. After a fault a prefix of it was written.
pub fn write_text<O: Write>(out: &mut O, text: &str) -> Result<(), SinkFailed>
    ensures whole { OnOk result (Appends (O.contents out.old) (O.contents out.new) text.now) }
    ensures prefix { TakesPrefix (O.contents out.old) (O.contents out.new) text.now }
{
    let mut sink = ToWrite::new(out);
    let written = put_whole(&mut sink, text.as_bytes());
    give_back(sink);
    written
}

/// Writes all of a text, and flushes. After a fault a prefix of it was written.
pub fn print<O: Write>(out: &mut O, text: &str) -> Result<(), SinkFailed>
    ensures printed { OnOk result (Appends (O.contents out.old) (O.contents out.new) text.now) }
    ensures prefix { TakesPrefix (O.contents out.old) (O.contents out.new) text.now }
{
    write_text(out, text)?;
    flush(out)
}
