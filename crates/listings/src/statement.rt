//! What one line of a listing makes of what the lines before it made.
#![tactic(auto, using(crate::proofs::Rulesets::count), unfolding(crate::proofs::Unfold::lines))]

ghost use Rattle.std.specs.Prelude.{◌≡◌};
ghost use Rattle.grammar.specs.Tokens.{texts, token_at};
ghost use Rattle.cheri_model.specs.instructions.Names.{mnemonic_of};
ghost use Rattle.listings.specs.Faults.{FillsLine, GivesLine};
ghost use Rattle.grammar.specs.LabelMap.{label_parts};
ghost use Rattle.listings.specs.Statement.{
  ram_line,
  hart_line,
  settable_register_of,
  word_setting,
  capability_setting,
  setting_of,
  set_line,
  hex_bytes,
  bytes_line,
  cap_line,
  directive_line,
  instruction_line,
  label_line,
  other_line,
  line_from,
  tokens_meaning,
};

use crate::draft::{Data, Draft, Setting};
use crate::fault::LineFault;
use cheri_model::Reg;
use cheri_model::names::{Mnemonic, mnemonic_of};
use grammar::capability::{cap_operands_of, cap_parts_of, cap_tokens};
use grammar::directives::{Directive, directive_of};
use grammar::fault::ListingFaultKind;
use grammar::forms::{counted, form_from};
use grammar::labels::{Labels, is_label_token, label_fault, label_name};
use grammar::numerals::{at_most, number_of};
use grammar::operands::{TypeOperand, register_of};
use grammar::tokens::token_at;
use hex::FromHexError;
use std::alloc::Global;

/// `.ram N`
fn ram_line(alloc: Global, draft: &mut Draft, tokens: &[&[u8]]) -> Result<(), LineFault>
    ensures { FillsLine result draft.new (ram_line draft.old (texts tokens.now)) }
{
    counted(2, tokens)?;
    let size = number_of(token_at(tokens, 1))?;
    draft.with_ram(alloc, size)
}

/// `.hart BASE LEN ADDR PERMS`
fn hart_line(draft: &mut Draft, tokens: &[&[u8]]) -> Result<(), LineFault>
    ensures { FillsLine result draft.new (hart_line draft.old (texts tokens.now)) }
{
    counted(5, tokens)?;
    let operands = cap_operands_of(tokens, 1, TypeOperand::Unsealed)?;
    let parts = cap_parts_of(operands)?;
    draft.with_hart(parts)
}

/// A register other than `c0`.
fn settable_register_of(token: &[u8]) -> Result<Reg, ListingFaultKind>
    ensures { result ≡ settable_register_of token.now }
{
    let reg = register_of(token)?;
    if reg.number() == 0 {
        return Err(ListingFaultKind::Operand);
    }
    Ok(reg)
}

/// `V` of a line of 4 tokens, up to a limit.
fn word_setting(limit: u128, tokens: &[&[u8]]) -> Result<Setting, ListingFaultKind>
    ensures { result ≡ word_setting limit (texts tokens.now) }
{
    counted(4, tokens)?;
    let number = number_of(token_at(tokens, 3))?;
    Ok(Setting::Word(at_most(limit, number)?))
}

/// `BASE LEN ADDR PERMS [TYPE]`
fn capability_setting(tokens: &[&[u8]]) -> Result<Setting, ListingFaultKind>
    ensures { result ≡ capability_setting (texts tokens.now) }
{
    let operands = cap_tokens(tokens, 3)?;
    Ok(Setting::Capability(cap_parts_of(operands)?))
}

/// `int V`, `word V` or `cap ..`
fn setting_of(tokens: &[&[u8]]) -> Result<Setting, ListingFaultKind>
    ensures { result ≡ setting_of (texts tokens.now) }
{
    let kind = token_at(tokens, 2);
    if kind == b"int".as_slice() {
        word_setting(0xFFFF_FFFF_FFFF_FFFF, tokens)
    } else if kind == b"word".as_slice() {
        word_setting(0xFFFF_FFFF_FFFF_FFFF_FFFF_FFFF_FFFF_FFFF, tokens)
    } else if kind == b"cap".as_slice() {
        capability_setting(tokens)
    } else {
        Err(ListingFaultKind::Operand)
    }
}

/// `.set cN int V`, `.set cN word V`, `.set cN cap BASE LEN ADDR PERMS [TYPE]`
fn set_line(draft: &mut Draft, tokens: &[&[u8]]) -> Result<(), LineFault>
    ensures { FillsLine result draft.new (set_line draft.old (texts tokens.now)) }
{
    let reg = settable_register_of(token_at(tokens, 1))?;
    let setting = setting_of(tokens)?;
    draft.with_set(reg, setting)
}

/// The bytes of an even count of hexadecimal digits, not empty.
fn hex_bytes(alloc: Global, token: &[u8]) -> Result<Data, LineFault>
    ensures { GivesLine result (hex_bytes token.now) }
{
    if token.is_empty() {
        return Err(LineFault::Kind(ListingFaultKind::Operand));
    }
    match hex::decode(alloc, token) {
        Ok(bytes) => Ok(Data { bytes }),
        Err(FromHexError::OutOfMemory) => Err(LineFault::NoMemory),
        Err(_) => Err(LineFault::Kind(ListingFaultKind::Operand)),
    }
}

/// `.bytes A HEX`
fn bytes_line(alloc: Global, draft: &mut Draft, tokens: &[&[u8]]) -> Result<(), LineFault>
    ensures { FillsLine result draft.new (bytes_line draft.old (texts tokens.now)) }
{
    counted(3, tokens)?;
    let addr = number_of(token_at(tokens, 1))?;
    let bytes = hex_bytes(alloc, token_at(tokens, 2))?;
    let addr = at_most(0xFFFF_FFFF_FFFF_FFFF, addr)? as u64;
    draft.with_bytes(addr, bytes)
}

/// `.cap A BASE LEN ADDR PERMS [TYPE]`
fn cap_line(draft: &mut Draft, tokens: &[&[u8]]) -> Result<(), LineFault>
    ensures { FillsLine result draft.new (cap_line draft.old (texts tokens.now)) }
{
    let addr = number_of(token_at(tokens, 1))?;
    let operands = cap_tokens(tokens, 2)?;
    let addr = at_most(0xFFFF_FFFF_FFFF_FFFF, addr)? as u64;
    let parts = cap_parts_of(operands)?;
    draft.with_capability(addr, parts)
}

fn directive_line(
    alloc: Global,
    draft: &mut Draft,
    directive: Directive,
    tokens: &[&[u8]],
) -> Result<(), LineFault>
    ensures { FillsLine result draft.new (directive_line draft.old directive (texts tokens.now)) }
{
    match directive {
        Directive::Ram => ram_line(alloc, draft, tokens),
        Directive::Hart => hart_line(draft, tokens),
        Directive::Set => set_line(draft, tokens),
        Directive::Bytes => bytes_line(alloc, draft, tokens),
        Directive::Cap => cap_line(draft, tokens),
    }
}

/// An instruction and its operands.
fn instruction_line(
    labels: &Labels<'_>,
    draft: &mut Draft,
    mnemonic: Mnemonic,
    tokens: &[&[u8]],
) -> Result<(), LineFault>
    ensures { FillsLine result draft.new
        (instruction_line (label_parts labels.now) draft.old mnemonic (texts tokens.now)) }
{
    let form = form_from(labels, mnemonic, tokens)?;
    draft.with_instruction(form.instr())
}

/// `name:`, alone on its line, which has this number.
fn label_line(
    labels: &Labels<'_>,
    number: usize,
    draft: &mut Draft,
    tokens: &[&[u8]],
) -> Result<(), LineFault>
    ensures { FillsLine result draft.new
        (label_line (label_parts labels.now) number draft.old (texts tokens.now)) }
{
    counted(1, tokens)?;
    label_fault(labels, number, label_name(token_at(tokens, 0)))?;
    Ok(())
}

/// A line that begins with no directive: an instruction's, or a label's.
fn other_line(
    labels: &Labels<'_>,
    number: usize,
    draft: &mut Draft,
    tokens: &[&[u8]],
) -> Result<(), LineFault>
    ensures { FillsLine result draft.new (other_line (label_parts labels.now) number draft.old
        (mnemonic_of (token_at (texts tokens.now) 0)) (texts tokens.now)) }
{
    let first = token_at(tokens, 0);
    match mnemonic_of(first) {
        Some(mnemonic) => instruction_line(labels, draft, mnemonic, tokens),
        None if is_label_token(first) => label_line(labels, number, draft, tokens),
        None => Err(LineFault::Kind(ListingFaultKind::Word)),
    }
}

/// What a line's tokens make of what the lines before it made. The line has this number.
pub fn with_line(
    alloc: Global,
    labels: &Labels<'_>,
    number: usize,
    draft: &mut Draft,
    tokens: &[&[u8]],
) -> Result<(), LineFault>
    ensures { FillsLine result draft.new
        (tokens_meaning (label_parts labels.now) number draft.old (texts tokens.now)) }
{
    if tokens.is_empty() {
        return Ok(());
    }
    match directive_of(token_at(tokens, 0)) {
        Some(directive) => directive_line(alloc, draft, directive, tokens),
        None => other_line(labels, number, draft, tokens),
    }
}
