//! The line of a value, made without memory.

ghost use Rattle.std.specs.Prelude.{◌≡◌, ◌++◌, ◌∷◌, [], OnOk, IfSome};
ghost use Rattle.std.specs.Io.KnownBytes.{Appends};
ghost use Rattle.sinks.specs.Sinks.{TakesPrefix};

use crate::text::write_text;
use arrayvec::ArrayString;
use sinks::SinkFailed;
use std::fmt::{Display, Write as _};
use std::io::Write;

/// More bytes than a line has that a program prints of a value.
const LINE_ROOM: usize = 128;

/// The line of a value, where it has room for it.
fn line_of<D: Display + Drop>(value: D) -> Option<ArrayString<LINE_ROOM>>
    ensures { IfSome result (λ text.
        IfSome (D.output value) (λ said. text.bytes ≡ said ++ 10 ∷ [])) }
{
    let mut text = ArrayString::new();
    match text.writeln(value) {
        Ok(()) => Some(text),
        Err(_) => None,
    }
}

/// Writes the line of a value without memory, which may have run out: a line of more than 128 bytes
/// is a fault. After a fault a prefix of the line was written.
pub fn write_line<O: Write, D: Display + Drop>(out: &mut O, value: D) -> Result<(), SinkFailed>
    ensures whole { IfSome (D.output value) (λ said.
        OnOk result (Appends (O.contents out.old) (O.contents out.new) (said ++ 10 ∷ []))) }
    ensures prefix { IfSome (D.output value) (λ said.
        TakesPrefix (O.contents out.old) (O.contents out.new) (said ++ 10 ∷ [])) }
{
    match line_of(value) {
        Some(text) => write_text(out, text.as_str()),
        None => Err(SinkFailed),
    }
}
