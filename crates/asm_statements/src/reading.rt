//! The statements of a file are read.
#![tactic(auto, unfolding(crate::proofs::Unfold::statements))]

ghost use Rattle.std.specs.Prelude.{◌≡◌, ◌<◌, ◌≤◌, IfOk, length, map};
ghost use Rattle.asm_tokens.specs.Tokens.{token_parts};
ghost use Rattle.asm_statements.specs.Statements.{
  next_at,
  statement_of,
  statement_parts,
  statements_of,
};

use crate::draft::Draft;
use crate::reader::Reader;
use crate::statement::Statement;
use asm_tokens::{AsmFaultKind, Token, TokenKind};
use std::alloc::{AllocError, Global};

/// The statement that begins with the token of a number.
pub fn read_statement(
    alloc: Global,
    tokens: &[Token],
    first: usize,
) -> Result<Statement, AllocError>
    requires { first ≤ length tokens.now }
    ensures { IfOk result (λ statement. statement_parts statement
        ≡ statement_of (map token_parts tokens.now) first) }
{
    let reader = Reader { alloc, tokens };
    let mut draft = Draft::new(alloc);
    let at = reader.labels_end(first);
    let fault = match reader.body(&mut draft, at) {
        Ok(()) => None,
        Err(fault) => {
            if let AsmFaultKind::NoMemory = fault.kind {
                return Err(AllocError);
            }
            Some(fault)
        }
    };
    Ok(Statement {
        first,
        labels: (at - first) / 2,
        body: draft.body,
        operands: draft.operands,
        nodes: draft.nodes,
        fault,
    })
}

/// The number of the token after the end of a statement, which is at or after a token.
fn next_at(tokens: &[Token], at: usize) -> usize
    requires { at < length tokens.now }
    ensures is { result ≡ next_at (map token_parts tokens.now) at }
{
    let mut next = at;
    while next < tokens.len() {
        if let TokenKind::End = tokens[next].kind {
            return next + 1;
        }
        next += 1;
    }
    next
}

/// The statements of a file, by its tokens. An empty one, too, is a statement.
pub fn read_statements(alloc: Global, tokens: &[Token]) -> Result<Vec<Statement>, AllocError>
    ensures { IfOk result (λ statements. map statement_parts statements.items
        ≡ statements_of (map token_parts tokens.now)) }
{
    let mut statements = Vec::new(alloc);
    let mut at = 0;
    // There are no more of them than tokens.
    for _ in 0..tokens.len() {
        if at >= tokens.len() {
            return Ok(statements);
        }
        let statement = read_statement(alloc, tokens, at)?;
        statements.push(statement)?;
        at = next_at(tokens, at);
    }
    Ok(statements)
}
