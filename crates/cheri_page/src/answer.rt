//! What a call leaves in the room that it is given, and what its answer says.

ghost use Rattle.std.specs.Prelude.{◌≡◌, ◌+◌, ◌-◌, ◌≤◌, ◌++◌, IfOk, length, min, take, drop};
ghost use Rattle.std.specs.Prelude.{string_bytes};
ghost use Rattle.cheri_page.specs.Answers.{Answers, IsTold, answer_in, answer_of, line_of};
ghost use Rattle.cheri_page.specs.Answers.{out_after};

use crate::fault::Fault;
use std::alloc::{AllocError, Global};

/// How a call ended, and what it wrote.
#[derive(Clone, Copy)]
#[repr(C)]
pub struct Answer {
    /// 0: it is done; 1: the listing was refused, 2: the order; 3: an operation was, and what is
    /// written is of those before it; 4: out of memory; 5: no room; 6: an argument is no number; 7:
    /// the assembly was refused, 8: the map; 9: the name of a file is no text; 10: a condition was
    /// refused, 11: items, 12: the listing's properties; 13: no state may be kept; 14: a condition
    /// or a list of items is no text.
    pub status: u32,
    /// The fault's number.
    pub kind: u32,
    /// The line, byte or operation of the fault.
    pub place: usize,
    /// The column of a fault of assembly, in bytes from 1 on; of a property the byte of its line,
    /// from 0 on; and else 0.
    pub column: usize,
    /// How many bytes the text has, which are the first of the room; of status 5 how many it needs.
    pub length: usize,
    /// How many bytes of the fault's line follow them.
    pub said: usize,
}

/// The line of a fault, or nothing.
fn line_of(alloc: Global, fault: Option<Fault>) -> Result<String, AllocError>
    ensures { IfOk result (λ text. string_bytes text ≡ line_of fault) }
{
    let mut text = String::new(alloc);
    if let Some(fault) = fault {
        writeln!(text, "{fault}")?;
    }
    Ok(text)
}

/// The answer where so many bytes were written of the text and of the fault's line.
fn answer_of(fault: Option<Fault>, length: usize, said: usize) -> Answer
    ensures { result ≡ answer_of fault length said }
{
    match fault {
        None => Answer {
            status: 0,
            kind: 0,
            place: 0,
            column: 0,
            length,
            said,
        },
        Some(fault) => Answer {
            status: fault.status(),
            kind: fault.kind(),
            place: fault.place(),
            column: fault.column(),
            length,
            said,
        },
    }
}

/// Writes a text and, after it, as much of a line as there is room for. Gives how much.
fn write_both(text: &[u8], line: &[u8], out: &mut [u8]) -> usize
    requires { length text.now ≤ length out.old }
    ensures said { result ≡ min (length line.now) (length out.old - length text.now) }
    ensures out { out.new ≡ text.now ++ (take result line.now
        ++ drop (length text.now + result) out.old) }
{
    let (first, rest) = out.split_at_mut(text.len());
    let said = line.len().min(rest.len());
    let (second, _) = rest.split_at_mut(said);
    first.copy_from_slice(text);
    second.copy_from_slice(&line[..said]);
    said
}

/// Tells a text and why there is no more, of which this is the line.
fn tell_line(text: &[u8], fault: Option<Fault>, line: &[u8], out: &mut [u8], answer: &mut Answer)
    requires { line.now ≡ line_of fault }
    ensures out { out.new ≡ out_after out.old (record { text = text.now; fault = fault }) }
    ensures answer { answer.new
        ≡ answer_in (length out.old) (record { text = text.now; fault = fault }) }
{
    if text.len() > out.len() {
        *answer = Answer {
            status: 5,
            kind: 0,
            place: 0,
            column: 0,
            length: text.len(),
            said: 0,
        };
        return;
    }
    let said = write_both(text, line, out);
    *answer = answer_of(fault, text.len(), said);
}

/// Tells a text and why there is no more, where there isn't. Out of memory there is no text.
#[tactic(auto, using(crate::proofs::AnswerLemmas::tells))]
pub(crate) fn tell(
    alloc: Global,
    text: &[u8],
    fault: Option<Fault>,
    out: &mut [u8],
    answer: &mut Answer,
)
    ensures { Answers (IsTold (record { text = text.now; fault = fault })) out.old out.new
        answer.new }
{
    match line_of(alloc, fault) {
        Ok(line) => tell_line(text, fault, line.as_bytes(), out, answer),
        Err(_) => tell_line(b"", Some(Fault::NoMemory), b"memory\n", out, answer),
    }
}
