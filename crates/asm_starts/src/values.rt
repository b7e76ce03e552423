//! The values of registers that requests set, and where harts begin.
#![tactic(auto, unfolding(crate::proofs::Unfold::values))]

ghost use Rattle.std.specs.Prelude.{◌≡◌, option_map};
ghost use Rattle.asm_requests.specs.Values.{held_parts};
ghost use Rattle.asm_starts.specs.Values.{
  code_at,
  code_named,
  default_entry,
  entry_at,
  entry_named,
  entry_parts,
  held_value,
  made_or,
  moved,
  on_ok,
  place_named,
  scene_parts,
  symbol_value,
  table_value,
  written_or,
};

use crate::known::Known;
use asm_capabilities::{Cap, MakeFault, table_capability};
use asm_layout::ChunkKind;
use asm_places::{Location, Objects};
use asm_requests::{CapParts, Held};
use asm_symbols::Value;
use asm_tokens::AsmFaultKind;
use cheri_model::Value as Word;

/// A program that is laid out: its objects, its symbols by their names, how many entries the
/// capability table has, and the address of the exit, if there is one.
#[derive(Clone, Copy)]
pub struct Scene<'a> {
    pub objects: Objects<'a>,
    pub known: Known<'a>,
    pub entries: u32,
    pub exit: Option<u64>,
}

/// Where a hart begins: a symbol, and the address that it is worth.
#[derive(Clone, Copy, Debug)]
pub struct Entry<'a> {
    pub name: &'a [u8],
    pub addr: u64,
}

/// A place and so many bytes more, modulo 2^64.
fn moved(location: Location, offset: u64) -> Location
    ensures { result ≡ moved location offset }
{
    Location {
        chunk: location.chunk,
        offset: location.offset.wrapping_add(offset),
        symbol: location.symbol,
    }
}

/// The value of a capability that was made. Fails with `Capability`.
fn made_or(made: Result<Cap, MakeFault>) -> Result<Word, AsmFaultKind>
    ensures { result ≡ made_or made }
{
    match made {
        Ok(capability) => Ok(capability.value()),
        Err(_) => Err(AsmFaultKind::Capability),
    }
}

/// The capability that is written out. Fails with `Capability`.
fn written_or(parts: CapParts) -> Result<Word, AsmFaultKind>
    ensures { result ≡ written_or parts }
{
    match parts.capability() {
        Ok(capability) => Ok(capability.value()),
        Err(_) => Err(AsmFaultKind::Capability),
    }
}

impl Scene<'_> {
    /// The place that a symbol names, in a chunk that is kept.
    fn place_named(&self, name: &[u8]) -> Option<Location>
        ensures { result ≡ place_named (scene_parts self.now) name.now }
    {
        let Value::At(location) = self.known.find(name)? else {
            return None;
        };
        let kind = self.objects.places.kind_of(location.chunk);
        if kind.rank() == ChunkKind::Dropped.rank() {
            return None;
        }
        Some(location)
    }

    /// The address of a value that is a place in code.
    fn code_at(&self, value: Value) -> Option<u64>
        ensures { result ≡ code_at (scene_parts self.now) value }
    {
        let Value::At(location) = value else {
            return None;
        };
        let kind = self.objects.places.kind_of(location.chunk);
        if kind.rank() != ChunkKind::Code.rank() {
            return None;
        }
        match self.objects.places.address_of(value) {
            Ok(address) => Some(address),
            Err(_) => None,
        }
    }

    /// The address of a symbol in code.
    fn code_named(&self, name: &[u8]) -> Option<u64>
        ensures { result ≡ code_named (scene_parts self.now) name.now }
    {
        self.code_at(self.known.find(name)?)
    }

    /// The symbol in code at which a hart begins.
    fn entry_named<'a>(&self, name: &'a [u8]) -> Option<Entry<'a>>
        ensures { option_map entry_parts result ≡ entry_named (scene_parts self.now) name.now }
    {
        let addr = self.code_named(name)?;
        Some(Entry { name, addr })
    }

    /// The symbol in code at which a request lets a hart begin. Fails with `Hart` where it is none,
    /// and with `Capability` where no PCC can be made there.
    pub(crate) fn entry_at<'a>(&self, name: &'a [u8]) -> Result<Entry<'a>, AsmFaultKind>
        ensures { on_ok entry_parts result ≡ entry_at (scene_parts self.now) name.now }
    {
        let Some(entry) = self.entry_named(name) else {
            return Err(AsmFaultKind::Hart);
        };
        match self.objects.reach.pcc(entry.addr) {
            Ok(_) => Ok(entry),
            Err(_) => Err(AsmFaultKind::Capability),
        }
    }

    /// Where a hart begins of which no request says it: at `_start`, else `main`, if that is in
    /// code; else at no symbol.
    pub(crate) fn default_entry(&self) -> Option<Entry<'static>>
        ensures { option_map entry_parts result ≡ default_entry (scene_parts self.now) }
    {
        match self.entry_named(b"_start".as_slice()) {
            Some(entry) => Some(entry),
            None => self.entry_named(b"main".as_slice()),
        }
    }

    /// The capability of a symbol, moved by so many bytes. Fails with `Hart` where the symbol is no
    /// place that is kept, and with `Capability` where there is no such capability.
    fn symbol_value(&self, name: &[u8], offset: u64) -> Result<Word, AsmFaultKind>
        ensures { result ≡ symbol_value (scene_parts self.now) name.now offset }
    {
        let Some(location) = self.place_named(name) else {
            return Err(AsmFaultKind::Hart);
        };
        let value = Value::At(moved(location, offset));
        match self.objects.capability_of(value) {
            Ok(word) => Ok(word),
            Err(_) => Err(AsmFaultKind::Capability),
        }
    }

    /// The capability table. Fails with `Hart` where there is none.
    fn table_value(&self) -> Result<Word, AsmFaultKind>
        ensures { result ≡ table_value (scene_parts self.now) }
    {
        if self.entries == 0 {
            return Err(AsmFaultKind::Hart);
        }
        made_or(table_capability(self.entries))
    }

    /// What a capability register is to hold. Fails with `Hart` where that isn't there, and with
    /// `Capability` where there is no such capability.
    pub(crate) fn held_value(&self, held: &Held<'_>) -> Result<Word, AsmFaultKind>
        ensures { result ≡ held_value (scene_parts self.now) (held_parts held.now) }
    {
        match held {
            Held::Symbol(name, offset) => self.symbol_value(name, *offset),
            Held::Table => self.table_value(),
            Held::Written(parts) => written_or(*parts),
        }
    }
}
