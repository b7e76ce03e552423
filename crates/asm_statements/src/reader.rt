//! Tokens that may be somewhere, or have to be.
#![tactic(auto, unfolding(crate::proofs::Unfold::marks))]

ghost use Rattle.std.specs.Prelude.{◌≡◌, ◌<◌, IsTrue, length};
ghost use Rattle.asm_expressions.specs.Tokens.{text_at, fault_at};
ghost use Rattle.asm_statements.specs.Marks.{
  source,
  is_at,
  is_close,
  is_colon,
  is_comma,
  is_end,
  is_equals,
  is_name,
  is_number,
  is_open,
  is_percent,
  is_string,
};

use asm_expressions::{fault_at, text_at};
use asm_tokens::{AsmFault, AsmFaultKind, Mark, Token, TokenKind};
use std::alloc::Global;

/// The tokens of a file, and what its statements take their memory from.
#[derive(Clone, Copy)]
pub(crate) struct Reader<'a> {
    pub(crate) alloc: Global,
    pub(crate) tokens: &'a [Token<'a>],
}

impl<'a> Reader<'a> {
    /// The bytes of a token.
    pub(crate) fn text(&self, at: usize) -> &'a [u8]
        ensures { result.now ≡ text_at (source self.now) at }
    {
        text_at(self.tokens, at)
    }

    /// A fault at a token.
    pub(crate) fn fault(&self, kind: AsmFaultKind, at: usize) -> AsmFault
        ensures { result ≡ fault_at (source self.now) kind at }
    {
        fault_at(self.tokens, kind, at)
    }

    /// Whether a token is `,`.
    pub(crate) fn is_comma(&self, at: usize) -> bool
        ensures is { result ≡ is_comma (source self.now) at }
        ensures room { IsTrue result → at < length self.now.tokens.now }
    {
        match self.tokens.get(at) {
            Some(token) => matches!(token.kind, TokenKind::Mark(Mark::Comma)),
            None => false,
        }
    }

    /// Whether a token is `(`.
    pub(crate) fn is_open(&self, at: usize) -> bool
        ensures is { result ≡ is_open (source self.now) at }
        ensures room { IsTrue result → at < length self.now.tokens.now }
    {
        match self.tokens.get(at) {
            Some(token) => matches!(token.kind, TokenKind::Mark(Mark::Open)),
            None => false,
        }
    }

    /// Whether a token is `)`.
    pub(crate) fn is_close(&self, at: usize) -> bool
        ensures is { result ≡ is_close (source self.now) at }
        ensures room { IsTrue result → at < length self.now.tokens.now }
    {
        match self.tokens.get(at) {
            Some(token) => matches!(token.kind, TokenKind::Mark(Mark::Close)),
            None => false,
        }
    }

    /// Whether a token is `%`.
    pub(crate) fn is_percent(&self, at: usize) -> bool
        ensures is { result ≡ is_percent (source self.now) at }
        ensures room { IsTrue result → at < length self.now.tokens.now }
    {
        match self.tokens.get(at) {
            Some(token) => matches!(token.kind, TokenKind::Mark(Mark::Percent)),
            None => false,
        }
    }

    /// Whether a token is `=`.
    pub(crate) fn is_equals(&self, at: usize) -> bool
        ensures is { result ≡ is_equals (source self.now) at }
        ensures room { IsTrue result → at < length self.now.tokens.now }
    {
        match self.tokens.get(at) {
            Some(token) => matches!(token.kind, TokenKind::Mark(Mark::Equals)),
            None => false,
        }
    }

    /// Whether a token is `:`.
    pub(crate) fn is_colon(&self, at: usize) -> bool
        ensures is { result ≡ is_colon (source self.now) at }
        ensures room { IsTrue result → at < length self.now.tokens.now }
    {
        match self.tokens.get(at) {
            Some(token) => matches!(token.kind, TokenKind::Mark(Mark::Colon)),
            None => false,
        }
    }

    /// Whether a token is `@`.
    pub(crate) fn is_at(&self, at: usize) -> bool
        ensures is { result ≡ is_at (source self.now) at }
        ensures room { IsTrue result → at < length self.now.tokens.now }
    {
        match self.tokens.get(at) {
            Some(token) => matches!(token.kind, TokenKind::Mark(Mark::At)),
            None => false,
        }
    }

    /// Whether a token is a name.
    pub(crate) fn is_name(&self, at: usize) -> bool
        ensures is { result ≡ is_name (source self.now) at }
        ensures room { IsTrue result → at < length self.now.tokens.now }
    {
        match self.tokens.get(at) {
            Some(token) => matches!(token.kind, TokenKind::Name),
            None => false,
        }
    }

    /// Whether a token is a string.
    pub(crate) fn is_string(&self, at: usize) -> bool
        ensures is { result ≡ is_string (source self.now) at }
        ensures room { IsTrue result → at < length self.now.tokens.now }
    {
        match self.tokens.get(at) {
            Some(token) => matches!(token.kind, TokenKind::String),
            None => false,
        }
    }

    /// Whether a token is a number.
    pub(crate) fn is_number(&self, at: usize) -> bool
        ensures is { result ≡ is_number (source self.now) at }
        ensures room { IsTrue result → at < length self.now.tokens.now }
    {
        match self.tokens.get(at) {
            Some(token) => matches!(token.kind, TokenKind::Number(_)),
            None => false,
        }
    }

    /// Whether a statement ends at a token.
    pub(crate) fn is_end(&self, at: usize) -> bool
        ensures { result ≡ is_end (source self.now) at }
    {
        match self.tokens.get(at) {
            Some(token) => matches!(token.kind, TokenKind::End),
            None => true,
        }
    }
}
