//! Which statement says the bytes of a symbol.
#![tactic(auto, unfolding(crate::proofs::Unfold::sizes))]

ghost use Rattle.std.specs.Prelude.{◌≡◌, IfOk, map};
ghost use Rattle.asm_tokens.specs.Tokens.{token_parts};
ghost use Rattle.asm_statements.specs.Statements.{statement_parts};
ghost use Rattle.asm_symbols.specs.Names.{names_of};
ghost use Rattle.asm_files.specs.Programs.{file_parts, program_parts};
ghost use Rattle.asm_links.specs.Sizes.{
  file_sizes,
  first_sizes,
  numbered_sizes,
  size_put,
  sized_symbol,
};

use crate::replacing::put_at;
use asm_expressions::text_at;
use asm_files::{File, Program};
use asm_statements::{Body, Statement};
use asm_symbols::Names;
use asm_tokens::Token;
use std::alloc::{AllocError, Global};

/// The symbol of its file whose bytes a statement says, if it is a `.size` of one.
fn sized_symbol(own: &Names, tokens: &[Token], statement: &Statement) -> Option<u32>
    ensures { result ≡ sized_symbol (names_of own.now) (map token_parts tokens.now)
        (statement_parts statement.now) }
{
    match statement.body {
        Body::Size(at) => own.find(text_at(tokens, at)),
        _ => None,
    }
}

/// A statement says the bytes of a symbol, unless one before it does.
fn put_size(sizes: &mut Vec<Option<usize>>, symbol: Option<u32>, number: usize)
    ensures { sizes.new.items ≡ size_put symbol number sizes.old.items }
{
    let Some(symbol) = symbol else {
        return;
    };
    let known = match sizes.get(symbol as usize) {
        Some(known) => *known,
        None => return,
    };
    match known {
        Some(_) => {}
        None => put_at(sizes, symbol as usize, Some(number)),
    }
}

/// The statements of a file.
fn put_file(sizes: &mut Vec<Option<usize>>, own: &Names, file: &File)
    ensures { sizes.new.items
        ≡ file_sizes (names_of own.now) (file_parts file.now) sizes.old.items }
{
    let tokens = file.tokens.as_slice();
    for (number, statement) in file.statements.iter().enumerate() {
        let symbol = sized_symbol(own, tokens, statement);
        put_size(sizes, symbol, number);
    }
}

/// The statements of the file of a number, with its own names.
fn put_numbered(sizes: &mut Vec<Option<usize>>, program: &Program, number: usize)
    ensures { sizes.new.items
        ≡ numbered_sizes (program_parts program.now) number sizes.old.items }
{
    let Some(own) = program.made.own.get(number) else {
        return;
    };
    if let Some(file) = program.files.get(number) {
        put_file(sizes, own, file);
    }
}

/// Of each symbol the number of the first statement in its file that says its bytes, if one does.
/// Fails only when out of memory.
pub fn first_sizes(alloc: Global, program: &Program) -> Result<Vec<Option<usize>>, AllocError>
    ensures { IfOk result (λ sizes. sizes.items ≡ first_sizes (program_parts program.now)) }
{
    let mut sizes = vec![in alloc; None; program.made.symbols.len()]?;
    for number in 0..program.files.len() {
        put_numbered(&mut sizes, program, number);
    }
    Ok(sizes)
}
