//! What statements are after their labels.
#![tactic(auto, unfolding(crate::proofs::Unfold::bodies))]

ghost use Rattle.std.specs.Prelude.{◌≡◌, ◌+◌, ◌<◌, ◌≤◌, IsTrue, length};
ghost use Rattle.asm_statements.specs.Drafts.{Answers, parts_of};
ghost use Rattle.asm_statements.specs.Marks.{source};
ghost use Rattle.asm_statements.specs.Statements.{
  assigned,
  begins_with_point,
  body,
  is_decimal,
  is_label,
  is_nothing,
  is_plain_name,
  is_point,
  labels_end,
  named_body,
};

use crate::draft::Draft;
use crate::reader::Reader;
use crate::statement::Body;
use asm_expressions::kind_at;
use asm_tokens::{AsmFault, AsmFaultKind, TokenKind};
use text_numbers::digit_count;

/// Whether a text is `.`.
fn is_point(text: &[u8]) -> bool
    ensures { result ≡ is_point text.now }
{
    text == b".".as_slice()
}

/// Whether a text begins with `.`.
fn begins_with_point(text: &[u8]) -> bool
    ensures { result ≡ begins_with_point text.now }
{
    matches!(text, [b'.', ..])
}

impl Reader<'_> {
    /// Whether a token is a number of decimal digits.
    fn is_decimal(&self, at: usize) -> bool
        ensures is { result ≡ is_decimal (source self.now) at }
        ensures room { IsTrue result → at < length self.now.tokens.now }
    {
        if !self.is_number(at) {
            return false;
        }
        let text = self.text(at);
        digit_count(10, text) == text.len()
    }

    /// Whether a token is a name other than `.`.
    fn is_plain_name(&self, at: usize) -> bool
        ensures is { result ≡ is_plain_name (source self.now) at }
        ensures room { IsTrue result → at < length self.now.tokens.now }
    {
        if !self.is_name(at) {
            return false;
        }
        !is_point(self.text(at))
    }

    /// Whether a token and the one after it are a label.
    fn is_label(&self, at: usize) -> bool
        ensures is { result ≡ is_label (source self.now) at }
        ensures room { IsTrue result → at + 1 < length self.now.tokens.now }
    {
        if !self.is_plain_name(at) && !self.is_decimal(at) {
            return false;
        }
        self.is_colon(at + 1)
    }

    /// The number of the token after the labels that begin with a token.
    pub(crate) fn labels_end(&self, at: usize) -> usize
        requires { at ≤ length self.now.tokens.now }
        ensures is { result ≡ labels_end (source self.now) at }
        ensures room { result ≤ length self.now.tokens.now }
        ensures after { at ≤ result }
    {
        let mut next = at;
        // There are no more of them than tokens.
        for _ in 0..self.tokens.len() {
            if !self.is_label(next) {
                return next;
            }
            next += 2;
        }
        next
    }

    /// `name = value`, whose name's token has this number.
    fn assigned(&self, draft: &mut Draft, at: usize) -> Result<(), AsmFault>
        requires { at < length self.now.tokens.now }
        ensures { Answers result (parts_of draft.new)
            (assigned (source self.now) at (parts_of draft.old)) }
    {
        let equals = self.new_name(at)?;
        draft.set_body(Body::Set(at));
        let next = self.equals(equals)?;
        self.set_value(draft, next)
    }

    /// A statement that begins with a name.
    fn named_body(&self, draft: &mut Draft, at: usize) -> Result<(), AsmFault>
        requires { at < length self.now.tokens.now }
        ensures { Answers result (parts_of draft.new)
            (named_body (source self.now) at (parts_of draft.old)) }
    {
        if self.is_equals(at + 1) {
            return self.assigned(draft, at);
        }
        let name = self.text(at);
        if is_point(name) && self.is_colon(at + 1) {
            return Err(self.fault(AsmFaultKind::Operand, at));
        }
        if begins_with_point(name) {
            self.directive(draft, at)
        } else {
            self.instruction(draft, at)
        }
    }

    /// Whether nothing is there: the statement ends, or is a request.
    fn is_nothing(&self, at: usize) -> bool
        ensures { result ≡ is_nothing (source self.now) at }
    {
        matches!(
            kind_at(self.tokens, at),
            TokenKind::End | TokenKind::Request
        )
    }

    /// What a statement is after its labels.
    pub(crate) fn body(&self, draft: &mut Draft, at: usize) -> Result<(), AsmFault>
        ensures { Answers result (parts_of draft.new)
            (body (source self.now) at (parts_of draft.old)) }
    {
        if self.is_nothing(at) {
            return Ok(());
        }
        if !self.is_name(at) {
            return Err(self.fault(AsmFaultKind::Operand, at));
        }
        self.named_body(draft, at)
    }
}
