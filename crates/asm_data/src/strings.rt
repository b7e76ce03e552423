//! Strings and bytes that are the same, in memory.
#![tactic(auto, using(crate::proofs::Rulesets::strings), unfolding(crate::proofs::Unfold::strings))]

ghost use Rattle.std.specs.Prelude.{◌≡◌, ◌++◌, IfOk, OnOk, map};
ghost use Rattle.std.specs.List.{flat_map};
ghost use Rattle.asm_tokens.specs.Tokens.{token_parts};
ghost use Rattle.asm_late.specs.Late.{late_parts};
ghost use Rattle.asm_statements.specs.Statements.{statement_parts};
ghost use Rattle.asm_data.specs.Strings.{bytes_of, fill_stored, strings_of, strings_stored};

use asm_code::Site;
use asm_expressions::text_at;
use asm_memory::{put_bytes, put_fill};
use asm_statements::{Operand, Statement};
use asm_tokens::{Token, push_string};
use std::alloc::{AllocError, Global};
use tagged_mem::Ram;

/// Appends the bytes of a string, and a 0 where strings end so.
fn push_bytes(
    bytes: &mut Vec<u8>,
    tokens: &[Token],
    ended: bool,
    operand: Operand,
) -> Result<(), AllocError>
    ensures { OnOk result (bytes.new.items
        ≡ bytes.old.items ++ bytes_of (map token_parts tokens.now) ended operand) }
{
    push_string(bytes, text_at(tokens, operand.first))?;
    if ended {
        bytes.push(0)?;
    }
    Ok(())
}

/// The bytes of strings, one after another.
fn strings_of(
    alloc: Global,
    tokens: &[Token],
    ended: bool,
    operands: &[Operand],
) -> Result<Vec<u8>, AllocError>
    ensures { IfOk result (λ bytes. bytes.items
        ≡ strings_of (map token_parts tokens.now) ended operands.now) }
{
    let mut bytes = Vec::new(alloc);
    for operand in operands {
        push_bytes(&mut bytes, tokens, ended, *operand)?;
    }
    Ok(bytes)
}

/// Stores a statement's strings. Fails only when out of memory.
pub(crate) fn store_strings(
    alloc: Global,
    site: Site,
    statement: &Statement,
    ended: bool,
    ram: &mut Ram,
) -> Result<(), AllocError>
    ensures { OnOk result (ram.new ≡ strings_stored (late_parts site.entry.late) site.entry.file
        site.entry.number
        (statement_parts statement.now) ended ram.old) }
{
    let tokens = site.late.program.tokens_in(site.file);
    let bytes = strings_of(alloc, tokens, ended, statement.operands.as_slice())?;
    put_bytes(ram, site.address(0, 0), bytes.as_slice());
    Ok(())
}

/// Stores a statement's padding, or its bytes that are the same. Fails only when out of memory.
pub(crate) fn store_fill(alloc: Global, site: Site, ram: &mut Ram) -> Result<(), AllocError>
    ensures { OnOk result (ram.new ≡ fill_stored (late_parts site.entry.late) site.entry.file
        site.entry.number
        ram.old) }
{
    let stand = site.stand();
    let count = stand.end.saturating_sub(stand.offset);
    put_fill(
        alloc,
        ram,
        site.address(0, 0),
        count,
        (stand.value % 256) as u8,
    )
}
