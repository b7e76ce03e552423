//! Which statement each instruction comes from.
#![tactic(auto)]

ghost use Rattle.std.specs.Prelude.{◌≡◌, IfOk};
ghost use Rattle.asm_instructions.specs.Origins.{filled, gap_before, marked, no_origin};

use std::alloc::{AllocError, Global};

/// Where an instruction comes from.
#[derive(Clone, Copy, Debug, PartialEq, Eq)]
pub struct Origin {
    /// The number of the file, from 0 on.
    pub file: usize,
    /// The line of its statement's name.
    pub line: usize,
    /// The number of the statement in its file, from 0 on. None has an instruction that fills the
    /// gap before a chunk; its line is that of the chunk's first instruction.
    pub statement: Option<usize>,
}

/// Where an instruction comes from that fills the gap before another one.
fn gap_before(origin: Origin) -> Origin
    ensures { result ≡ gap_before origin }
{
    Origin {
        file: origin.file,
        line: origin.line,
        statement: None,
    }
}

/// Marks so many instructions, from a number on, with their origin.
pub fn mark(marks: &mut [Option<Origin>], at: usize, count: usize, origin: Origin)
    ensures { marks.new ≡ marked marks.old at count origin }
{
    let mut place = at;
    let mut left = count;
    while left > 0 {
        if place >= marks.len() {
            return;
        }
        marks[place] = Some(origin);
        place += 1;
        left -= 1;
    }
}

/// The origins of all instructions, by those that are marked; the others fill gaps before them.
/// Fails only when out of memory.
pub fn fill_gaps(alloc: Global, marks: &[Option<Origin>]) -> Result<Vec<Origin>, AllocError>
    ensures { IfOk result (λ origins. origins.items ≡ filled marks.now) }
{
    let none = Origin {
        file: 0,
        line: 0,
        statement: None,
    };
    let mut origins = vec![in alloc; none; marks.len()]?;
    let mut next = none;
    let mut at = marks.len();
    while at > 0 {
        at -= 1;
        let origin = marks[at].unwrap_or(next);
        origins[at] = origin;
        next = gap_before(origin);
    }
    Ok(origins)
}
