//! Expressions are read.

ghost use Rattle.std.specs.Prelude.{◌≡◌, ◌≤◌, IfOk, length, map};
ghost use Rattle.asm_tokens.specs.Faults.{Gives};
ghost use Rattle.asm_tokens.specs.Tokens.{token_parts};
ghost use Rattle.asm_expressions.specs.Expressions.{Adds, expression_at};
ghost use Rattle.asm_expressions.specs.Drafts.{read_parts};

use crate::draft::Draft;
use crate::moves::{Move, move_of};
use crate::node::Node;
use asm_tokens::{AsmFault, AsmFaultKind, Place, Token};
use std::alloc::Global;

/// The nodes of an expression, and the number of the first token behind it.
#[derive(Drop)]
struct Read {
    nodes: Vec<Node>,
    next: usize,
}

/// The expression that begins with the token of a number.
fn read_nodes(alloc: Global, tokens: &[Token], at: usize) -> Result<Read, AsmFault>
    ensures is { Gives read_parts result (expression_at (map token_parts tokens.now) at) }
    ensures room { IfOk result (λ read. read.next ≤ length tokens.now) }
{
    let mut draft = Draft::new(alloc);
    let mut next = at;
    while next < tokens.len() {
        let token = tokens[next];
        match move_of(draft.phase, draft.depth > 0, token) {
            Move::Bad(kind) => {
                let place = token.place;
                return Err(AsmFault { kind, place });
            }
            Move::End => {
                draft.settle(0)?;
                let nodes = draft.nodes;
                return Ok(Read { nodes, next });
            }
            step => draft.take(step, next)?,
        }
        next += 1;
    }
    Err(AsmFault {
        kind: AsmFaultKind::Operand,
        place: Place { line: 0, column: 0 },
    })
}

/// Reads the expression that begins with the token of a number, and appends its nodes. The result
/// is the number of the first token behind it. Fails with `Operand` or `Range` at the first token
/// that can't stand where it is, and appends nothing then.
pub fn read_expression(
    alloc: Global,
    nodes: &mut Vec<Node>,
    tokens: &[Token],
    at: usize,
) -> Result<usize, AsmFault>
    ensures read { Adds result nodes.old.items nodes.new.items
        (expression_at (map token_parts tokens.now) at) }
    ensures room { IfOk result (λ next. next ≤ length tokens.now) }
{
    let mut read = read_nodes(alloc, tokens, at)?;
    nodes.append(&mut read.nodes)?;
    Ok(read.next)
}
