//! Values that are known while a file is read.
#![tactic(auto, unfolding(crate::proofs::Unfold::early))]

ghost use Rattle.std.specs.Prelude.{◌≡◌, Some, map};
ghost use Rattle.asm_tokens.specs.Faults.{Gives};
ghost use Rattle.asm_tokens.specs.Tokens.{token_parts};
ghost use Rattle.asm_drafts.specs.Drafts.{draft_parts};
ghost use Rattle.asm_drafts.specs.Early.{
  early_fault,
  early_local,
  early_named,
  early_symbol,
  early_value,
  here_place,
  not_apart,
  or_token,
};

use crate::draft::Draft;
use asm_expressions::{LookUp, Node, NodeKind, ValueFault, fault_at, text_at, value_of};
use asm_tokens::{AsmFault, AsmFaultKind, Token};
use asm_values::{Location, Value};
use std::alloc::{AllocError, Global};

impl Draft<'_> {
    /// The place where the file is.
    pub(crate) fn here_place(&self) -> Value
        ensures { result ≡ here_place (draft_parts self.now) }
    {
        Value::At(Location {
            chunk: self.chunks.here,
            offset: u64::from(self.chunks.here().size),
            symbol: None,
        })
    }

    /// The value of a name, where it is known.
    fn early_symbol(&self, name: &[u8]) -> Option<Value>
        ensures { result ≡ early_symbol (draft_parts self.now) name.now }
    {
        let number = self.symbols.own.find(name)?;
        match self.symbols.definitions.get(number as usize) {
            Some(definition) => definition.early,
            None => None,
        }
    }

    /// The place of the last local label that a token names.
    fn early_local(&self, text: &[u8]) -> Option<Value>
        ensures { result ≡ early_local (draft_parts self.now) text.now }
    {
        let [digits @ .., b'b'] = text else {
            return None;
        };
        let number = self.locals.last(digits)?;
        match self.locals.places.get(number as usize) {
            Some(place) => Some(Value::At(Location {
                chunk: place.chunk,
                offset: u64::from(place.offset),
                symbol: None,
            })),
            None => None,
        }
    }
}

/// A value, or the token that has none.
fn or_token(value: Option<Value>, at: usize) -> Result<Value, usize>
    ensures { result ≡ or_token value at }
{
    match value {
        Some(value) => Ok(value),
        None => Err(at),
    }
}

/// What names mean while a file is read.
#[derive(Clone, Copy)]
struct EarlyNames<'b, 't, 'a> {
    tokens: &'b [Token<'t>],
    draft: &'b Draft<'a>,
}

impl<'b, 't, 'a> LookUp for EarlyNames<'b, 't, 'a> {
    type Fault = usize;

    ghost named = { λ n node. early_named (map token_parts n.tokens.now) (draft_parts n.draft.now) node };

    ghost apart = { λ n to from. not_apart to from };

    fn value(&self, node: Node) -> Result<Value, usize> {
        match node.kind {
            NodeKind::Symbol => {
                let name = text_at(self.tokens, node.at);
                or_token(self.draft.early_symbol(name), node.at)
            }
            NodeKind::Local => {
                let text = text_at(self.tokens, node.at);
                or_token(self.draft.early_local(text), node.at)
            }
            NodeKind::Dot => Ok(self.draft.here_place()),
            _ => Err(node.at),
        }
    }

    fn distance(&self, _to: u32, _from: u32) -> Option<u64> {
        None
    }
}

impl Draft<'_> {
    /// The value of an expression while its file is read. Fails with `Expression` at the first
    /// token whose value isn't known then.
    pub(crate) fn early_value(
        &self,
        alloc: Global,
        tokens: &[Token],
        nodes: &[Node],
    ) -> Result<Value, AsmFault>
        ensures { Gives (λ value. value) result
            (early_value (map token_parts tokens.now) (draft_parts self.now) nodes.now) }
    {
        let names = EarlyNames {
            tokens,
            draft: self,
        };
        match value_of(alloc, &names, nodes) {
            Ok(value) => Ok(value),
            Err(ValueFault::Operator(at)) => Err(fault_at(tokens, AsmFaultKind::Expression, at)),
            Err(ValueFault::Name(at)) => Err(fault_at(tokens, AsmFaultKind::Expression, at)),
            Err(ValueFault::NoMemory) => Err(AsmFault::from(AllocError)),
        }
    }
}
