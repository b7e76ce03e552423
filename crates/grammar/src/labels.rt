//! The labels of a listing, and the targets of its jumps.
#![tactic(auto, unfolding(crate::proofs::Unfold::labels))]

ghost use Rattle.std.specs.Prelude.{
  ◌≡◌,
  ◌<◌,
  ◌^◌,
  ℕ,
  List,
  IfOk,
  OnOk,
  if◌then◌else◌,
  Some,
  None,
  bytes_eq,
  length,
};
ghost use Rattle.std.specs.List.{list_all};
ghost use Rattle.grammar.specs.Labels.{
  is_name_byte,
  is_label_name,
  is_label_token,
  label_name,
  label_of,
  count_of,
  labels_of,
  target_operand_of,
  target_of,
  label_fault,
};
ghost use Rattle.cheri_model.specs.instructions.Tables.{found_at};
ghost use Rattle.grammar.specs.Tokens.{tokens_of, token_at};
ghost use Rattle.grammar.specs.LabelMap.{label_parts, named_in, first_line};

use crate::fault::ListingFaultKind;
use crate::numerals::{at_most, number_of_digits};
use crate::tokens::first_token;
use cheri_model::Target;
use cheri_model::names::is_instruction;
use std::alloc::{AllocError, AllocFailed, Global};
use std::collections::HashMap;

/// Where a name is defined: the line's number, from 1 on, and how many instruction lines are before
/// it.
#[derive(Clone, Copy)]
pub struct LabelLine {
    pub line: usize,
    pub instructions: u32,
}

/// What the jumps of a listing may name.
#[derive(Drop)]
pub struct Labels<'a> {
    labels: HashMap<&'a [u8], LabelLine>,
    instructions: u32,
}

/// A target as a token writes it: an instruction's number, or that of a name, if a line defines it.
#[derive(Clone, Copy)]
pub enum TargetOperand {
    Number(Option<u128>),
    Named(Option<u32>),
}

/// Whether a byte may be part of a label's name.
fn is_name_byte(byte: u8) -> bool
    ensures { result ≡ is_name_byte byte }
{
    matches!(byte, b'0'..=b'9' | b'A'..=b'Z' | b'_' | b'a'..=b'z')
}

/// Whether each byte may be.
fn are_name_bytes(name: &[u8]) -> bool
    ensures { result ≡ list_all is_name_byte name.now }
{
    name.iter().all(|byte| is_name_byte(*byte))
}

/// Whether a name is 1 to 32 letters, digits and `_`, the first not a digit.
fn is_label_name(name: &[u8]) -> bool
    ensures { result ≡ is_label_name name.now }
{
    match name {
        [b'0'..=b'9', ..] | [] => false,
        _ => name.len() <= 32 && are_name_bytes(name),
    }
}

/// Whether a line that begins with this token is a label's.
pub fn is_label_token(token: &[u8]) -> bool
    ensures { result ≡ is_label_token token.now }
{
    !token.is_empty() && token[token.len() - 1] == b':'
}

/// The name that such a token defines.
pub fn label_name(token: &[u8]) -> &[u8]
    ensures { result.now ≡ label_name token.now }
{
    &token[..token.len().saturating_sub(1)]
}

/// Defines a name, unless it is defined already.
fn define<'a>(
    labels: &mut HashMap<&'a [u8], LabelLine>,
    name: &'a [u8],
    place: LabelLine,
) -> Result<(), AllocFailed<(&'a [u8], LabelLine)>>
    ensures { OnOk result ((q : List ℕ) → named_in labels.new q
        ≡ first_line (named_in labels.old q)
        (if bytes_eq name.now q then Some place else None)) }
{
    if labels.contains_key(name) {
        return Ok(());
    }
    labels.insert(name, place)?;
    Ok(())
}

/// Defines a line's name, if the line is a label's, and gives how many instructions it counts.
fn add_line<'a>(
    labels: &mut HashMap<&'a [u8], LabelLine>,
    line: &'a [u8],
    place: LabelLine,
) -> Result<u32, AllocFailed<(&'a [u8], LabelLine)>>
    ensures count { IfOk result (λ count. count ≡ count_of (token_at (tokens_of line.now) 0)) }
    ensures labels { OnOk result ((q : List ℕ) → named_in labels.new q
        ≡ first_line (named_in labels.old q)
        (found_at (label_of (token_at (tokens_of line.now) 0) place) q)) }
{
    let first = first_token(line);
    if is_instruction(first) {
        return Ok(1);
    }
    let labelled = is_label_token(first);
    if !labelled {
        return Ok(0);
    }
    define(labels, label_name(first), place)?;
    Ok(0)
}

/// What the jumps of a listing may name: the first pass over its lines.
pub fn labels_of<'a>(alloc: Global, text: &'a [u8]) -> Result<Labels<'a>, AllocError>
    requires { length text.now < 2 ^ 31 }
    ensures { IfOk result (λ labels. label_parts labels ≡ labels_of text.now) }
{
    let mut labels = HashMap::new(alloc);
    let mut number = 1;
    let mut instructions = 0;
    for line in text.split(|byte| *byte == b'\n') {
        let place = LabelLine {
            line: number,
            instructions,
        };
        instructions += add_line(&mut labels, line, place)?;
        number += 1;
    }
    Ok(Labels {
        labels,
        instructions,
    })
}

impl Labels<'_> {
    /// Where a name is first defined.
    fn label(&self, name: &[u8]) -> Option<LabelLine>
        ensures { result ≡ (label_parts self.now).label name.now }
    {
        self.labels.get(name).copied()
    }

    /// How many instruction lines there are.
    fn instructions(&self) -> u32
        ensures { result ≡ (label_parts self.now).instructions }
    {
        self.instructions
    }
}

/// The target that a token writes: `@` and decimal digits, or a label's name. Fails with `Operand`.
pub fn target_operand_of(
    labels: &Labels<'_>,
    token: &[u8],
) -> Result<TargetOperand, ListingFaultKind>
    ensures { result ≡ target_operand_of (label_parts labels.now) token.now }
{
    match token {
        [b'@', digits @ ..] => Ok(TargetOperand::Number(number_of_digits(10, digits)?)),
        _ if is_label_name(token) => {
            let place = labels.label(token);
            Ok(TargetOperand::Named(place.map(|place| place.instructions)))
        }
        _ => Err(ListingFaultKind::Operand),
    }
}

/// The instruction that a target names. The place after the last instruction line may be named.
/// Fails with `Range` past it, and with `Label` where no line defines the name.
pub fn target_of(labels: &Labels<'_>, operand: TargetOperand) -> Result<Target, ListingFaultKind>
    ensures { result ≡ target_of (label_parts labels.now) operand }
{
    match operand {
        TargetOperand::Number(number) => {
            let number = at_most(u128::from(labels.instructions()), number)?;
            Ok(Target::new(number as u32))
        }
        TargetOperand::Named(Some(number)) => Ok(Target::new(number)),
        TargetOperand::Named(None) => Err(ListingFaultKind::Label),
    }
}

/// Refuses a name that is malformed with `Label`, and one that a line before this one defines with
/// `Twice`.
pub fn label_fault(labels: &Labels<'_>, number: usize, name: &[u8]) -> Result<(), ListingFaultKind>
    ensures { result ≡ label_fault (label_parts labels.now) number name.now }
{
    if !is_label_name(name) {
        return Err(ListingFaultKind::Label);
    }
    match labels.label(name) {
        Some(place) if place.line < number => Err(ListingFaultKind::Twice),
        _ => Ok(()),
    }
}
