//! What names mean in a file, and symbols that stand for others.
#![tactic(auto, unfolding(crate::proofs::Unfold::names))]

ghost use Rattle.std.specs.Prelude.{◌≡◌};
ghost use Rattle.asm_symbols.specs.Names.{names_of};
ghost use Rattle.asm_statements.specs.Statements.{statement_parts};
ghost use Rattle.asm_files.specs.Programs.{program_parts};
ghost use Rattle.asm_tables.specs.Names.{
  alias_of,
  behind,
  name_alone,
  named,
  named_by,
  nodes_in,
};

use asm_drafts::nodes_of;
use asm_expressions::{Node, NodeKind, text_at};
use asm_files::Program;
use asm_symbols::{Meaning, Names, symbol_named};
use asm_tokens::AsmFaultKind;

/// The number of the symbol that a name means in a file: the file's own, or else one that all files
/// see.
pub fn named(program: &Program, seen: &Names, file: usize, name: &[u8]) -> Option<u32>
    ensures { result ≡ named (program_parts program.now) (names_of seen.now) file name.now }
{
    match program.made.own.get(file) {
        Some(own) => symbol_named(own, seen, name),
        None => seen.find(name),
    }
}

/// The nodes of an operand of a statement of a file; none where there is no such statement.
pub fn nodes_in<'p>(
    program: &'p Program,
    file: usize,
    statement: usize,
    operand: usize,
) -> &'p [Node]
    ensures { result.now ≡ nodes_in (program_parts program.now) file statement operand }
{
    match program.statement_at(file, statement) {
        Some(statement) => nodes_of(statement, operand),
        None => &[],
    }
}

/// The token of the name that an expression is, if it is a name alone.
fn name_alone(nodes: &[Node]) -> Option<usize>
    ensures { result ≡ name_alone nodes.now }
{
    match nodes {
        [node] => match node.kind {
            NodeKind::Symbol => Some(node.at),
            _ => None,
        },
        _ => None,
    }
}

/// The symbol whose name an operand is alone. Fails with `Expression` where it is more than a name,
/// and with `Symbol` where there is none.
pub(crate) fn named_by(
    program: &Program,
    seen: &Names,
    file: usize,
    nodes: &[Node],
) -> Result<u32, AsmFaultKind>
    ensures { result ≡ named_by (program_parts program.now) (names_of seen.now) file nodes.now }
{
    let Some(at) = name_alone(nodes) else {
        return Err(AsmFaultKind::Expression);
    };
    let name = text_at(program.tokens_in(file), at);
    match named(program, seen, file, name) {
        Some(symbol) => Ok(symbol),
        None => Err(AsmFaultKind::Symbol),
    }
}

/// The symbol that a symbol stands for by its value, which is a name alone; `None` where it is a
/// place.
fn alias_of(program: &Program, seen: &Names, symbol: u32) -> Result<Option<u32>, AsmFaultKind>
    ensures { result ≡ alias_of (program_parts program.now) (names_of seen.now) symbol }
{
    let Some(definition) = program.made.symbols.get(symbol as usize) else {
        return Ok(None);
    };
    let Meaning::Assigned(statement) = definition.meaning else {
        return Ok(None);
    };
    let file = definition.file as usize;
    let nodes = nodes_in(program, file, statement, 0);
    match named_by(program, seen, file, nodes) {
        Ok(next) => Ok(Some(next)),
        Err(kind) => Err(kind),
    }
}

/// The place that a symbol stands for, through so many symbols. Fails with `Expression` where it
/// comes back to itself.
pub(crate) fn behind(
    program: &Program,
    seen: &Names,
    symbol: u32,
    most: usize,
) -> Result<u32, AsmFaultKind>
    ensures { result ≡ behind (program_parts program.now) (names_of seen.now) most symbol }
{
    let (mut symbol, mut left) = (symbol, most);
    while left > 0 {
        let alias = match alias_of(program, seen, symbol) {
            Ok(alias) => alias,
            Err(kind) => return Err(kind),
        };
        symbol = match alias {
            Some(next) => next,
            None => return Ok(symbol),
        };
        left -= 1;
    }
    Err(AsmFaultKind::Expression)
}
