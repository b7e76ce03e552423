//! Which lines of a listing have its instructions.

ghost use Rattle.std.specs.Prelude.{◌≡◌, ◌≤◌, ◌++◌, [], ◌∷◌, IfOk, OnOk, if◌then◌else◌, length};
ghost use Rattle.cheri_model.specs.instructions.Names.{is_instruction};
ghost use Rattle.grammar.specs.Tokens.{tokens_of, token_at};
ghost use Rattle.listings.specs.Meaning.{listing_limit};
ghost use Rattle.listings.specs.LineNumbers.{instruction_lines_of};

use cheri_model::NoMemory;
use cheri_model::names::is_instruction;
use grammar::tokens::first_token;
use std::alloc::Global;

/// Adds the number of a line, if it has an instruction.
fn push_line(lines: &mut Vec<u32>, number: u32, line: &[u8]) -> Result<(), NoMemory>
    ensures { OnOk result (lines.new.items ≡ lines.old.items
        ++ (if is_instruction (token_at (tokens_of line.now) 0) then number ∷ [] else [])) }
{
    if is_instruction(first_token(line)) {
        lines.push(number)?;
    }
    Ok(())
}

/// The number of each instruction's line, from 1 on, in the order of the instructions, of a listing
/// that has no fault. Fails only when out of memory.
pub fn instruction_lines(alloc: Global, text: &[u8]) -> Result<Vec<u32>, NoMemory>
    requires { length text.now ≤ listing_limit }
    ensures { IfOk result (λ lines. lines.items ≡ instruction_lines_of text.now) }
{
    let mut lines = Vec::new(alloc);
    let mut number = 1;
    for line in text.split(|byte| *byte == b'\n') {
        push_line(&mut lines, number, line)?;
        number += 1;
    }
    Ok(lines)
}
