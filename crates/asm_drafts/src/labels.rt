//! Labels.
#![tactic(auto, unfolding(crate::proofs::Unfold::labels))]

ghost use Rattle.std.specs.Prelude.{◌≡◌, map};
ghost use Rattle.asm_tokens.specs.Tokens.{token_parts};
ghost use Rattle.asm_drafts.specs.Drafts.{Drafts, draft_parts};
ghost use Rattle.asm_drafts.specs.Labels.{labelled, locally_labelled, named, labels_put};

use crate::draft::Draft;
use asm_expressions::{fault_at, kind_at, text_at};
use asm_symbols::Local;
use asm_tokens::{AsmFault, AsmFaultKind, Token, TokenKind};

impl<'a> Draft<'a> {
    /// Defines the symbol that a token names, at the place where the file is. Fails with `Twice`.
    fn put_symbol(&mut self, tokens: &[Token<'a>], at: usize) -> Result<(), AsmFault>
        ensures { Drafts result (draft_parts self.new)
            (named (map token_parts tokens.now) (draft_parts self.old) at) }
    {
        let (chunk, offset) = (self.chunks.here, self.chunks.here().size);
        let name = text_at(tokens, at);
        let free = self.symbols.define_label(name, at, chunk, offset)?;
        if free {
            Ok(())
        } else {
            Err(fault_at(tokens, AsmFaultKind::Twice, at))
        }
    }

    /// Defines the local label of a token's digits there.
    fn put_local(&mut self, tokens: &[Token<'a>], at: usize) -> Result<(), AsmFault>
        ensures { Drafts result (draft_parts self.new)
            (locally_labelled (map token_parts tokens.now) (draft_parts self.old) at) }
    {
        let (chunk, offset) = (self.chunks.here, self.chunks.here().size);
        let digits = text_at(tokens, at);
        let place = Local {
            chunk,
            offset,
            token: at,
        };
        self.locals.define(digits, place)?;
        Ok(())
    }

    /// Defines the label of a token.
    fn put_label(&mut self, tokens: &[Token<'a>], at: usize) -> Result<(), AsmFault>
        ensures { Drafts result (draft_parts self.new)
            (labelled (map token_parts tokens.now) (draft_parts self.old) at) }
    {
        match kind_at(tokens, at) {
            TokenKind::Number(_) => self.put_local(tokens, at),
            _ => self.put_symbol(tokens, at),
        }
    }

    /// Defines so many labels, of which the first is a token and each has a colon. Fails with
    /// `Twice` at a name that this file has.
    pub fn put_labels(
        &mut self,
        tokens: &[Token<'a>],
        first: usize,
        count: usize,
    ) -> Result<(), AsmFault>
        ensures { Drafts result (draft_parts self.new)
            (labels_put (map token_parts tokens.now) first count (draft_parts self.old)) }
    {
        let (mut at, mut left) = (first, count);
        while left > 0 {
            if at >= tokens.len() {
                return Ok(());
            }
            self.put_label(tokens, at)?;
            at += 2;
            left -= 1;
        }
        Ok(())
    }
}
