//! Capabilities of places.
#![tactic(auto, unfolding(crate::proofs::Unfold::capabilities))]

ghost use Rattle.std.specs.Prelude.{◌≡◌};
ghost use Rattle.asm_places.specs.Places.{kind_of};
ghost use Rattle.asm_places.specs.Capabilities.{
  capability_of,
  data_of,
  kept_kind,
  length_of,
  made_or,
  objects_parts,
  place_of,
};

use crate::places::Places;
use asm_capabilities::{Cap, DataKind, MakeFault, Reach, data_capability};
use asm_layout::ChunkKind;
use asm_symbols::{Definition, Meaning, Value};
use asm_tokens::AsmFaultKind;
use cheri_model::Value as Word;

/// The objects of a program: its symbols with the bytes of each, and what code reaches.
#[derive(Clone, Copy)]
pub struct Objects<'a> {
    pub places: Places<'a>,
    pub symbols: &'a [Definition<'a>],
    /// How many bytes each symbol has, by its number.
    pub lengths: &'a [u64],
    pub reach: Reach,
}

/// The value of a capability that was made, or the kind of the fault where there is none.
fn made_or(made: Result<Cap, MakeFault>) -> Result<Word, AsmFaultKind>
    ensures { result ≡ made_or made }
{
    match made {
        Ok(capability) => Ok(capability.value()),
        Err(_) => Err(AsmFaultKind::Capability),
    }
}

/// What may be done to the bytes of a symbol in a chunk of a kind.
fn kept_kind(kind: ChunkKind) -> DataKind
    ensures { result ≡ kept_kind kind }
{
    match kind {
        ChunkKind::ReadOnly => DataKind::ReadOnly,
        _ => DataKind::Writable,
    }
}

impl Objects<'_> {
    /// Where a symbol of a chunk begins, if it is a place.
    fn meaning(&self, symbol: u32) -> Option<(u32, u32)>
        ensures { result ≡ place_of (objects_parts self.now) symbol }
    {
        match self.symbols.get(symbol as usize)?.meaning {
            Meaning::Place(chunk, offset) => Some((chunk, offset)),
            Meaning::Assigned(_) => None,
        }
    }

    /// How many bytes a symbol has; none where it isn't there.
    fn length(&self, symbol: u32) -> u64
        ensures { result ≡ length_of (objects_parts self.now) symbol }
    {
        match self.lengths.get(symbol as usize) {
            Some(length) => *length,
            None => 0,
        }
    }

    /// The capability of a symbol's bytes, at an address. Fails with `Expression` where it has
    /// none, and with `Capability` where it can't be made exactly.
    fn data_of(&self, symbol: u32, address: u64) -> Result<Word, AsmFaultKind>
        ensures { result ≡ data_of (objects_parts self.now) symbol address }
    {
        let Some((chunk, offset)) = self.meaning(symbol) else {
            return Err(AsmFaultKind::Expression);
        };
        let Some(base) = self.places.address_in(chunk, u64::from(offset)) else {
            return Err(AsmFaultKind::Section);
        };
        let kind = kept_kind(self.places.kind_of(chunk));
        made_or(data_capability(kind, base, self.length(symbol), address))
    }

    /// The capability that a value is: of a number the integer, without a tag; of a place in code a
    /// sentry; of another place that of the symbol by which it was named, at its address. Fails
    /// with `Section` where nothing is kept of the place's chunk, with `Expression` where no symbol
    /// named it, and with `Capability` where there is no such capability.
    pub fn capability_of(&self, value: Value) -> Result<Word, AsmFaultKind>
        ensures { result ≡ capability_of (objects_parts self.now) value }
    {
        let location = match value {
            Value::Number(number) => return Ok(Word::raw(u128::from(number))),
            Value::At(location) => location,
        };
        let address = self.places.address_of(value)?;
        if self.places.kind_of(location.chunk).rank() == ChunkKind::Code.rank() {
            return made_or(self.reach.sentry(address));
        }
        match location.symbol {
            Some(symbol) => self.data_of(symbol, address),
            None => Err(AsmFaultKind::Expression),
        }
    }
}
