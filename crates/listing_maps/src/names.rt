//! What conditions beside a listing may name.
#![tactic(auto, using(crate::proofs::NameLemmas::names))]

ghost use Rattle.std.specs.Prelude.{◌≡◌, map, option_and_then, option_map};
ghost use Rattle.asm_map_reader.specs.Sources.{source_parts};
ghost use Rattle.grammar.specs.Labels.{target_of, target_operand_of};
ghost use Rattle.listing_maps.specs.Names.{names_of, sources_parts, symbol_in};

use crate::symbols::symbol_at;
use asm_map_reader::Source;
use cheri_model::Target;
use grammar::fault::ListingFaultKind;
use grammar::labels::{Labels, TargetOperand, target_of, target_operand_of};

/// What conditions beside a listing may name: its labels, and, where the map of its program is
/// there, each symbol that the map has at the beginning of just one instruction.
#[derive(Clone, Copy)]
pub struct Names<'a> {
    pub labels: &'a Labels<'a>,
    pub sources: Option<&'a [Source<'a>]>,
}

impl Names<'_> {
    /// The instruction at which a symbol is.
    fn symbol(&self, name: &[u8]) -> Option<u32>
        ensures { result ≡ symbol_in name.now (option_map sources_parts self.now.sources) }
    {
        let sources = self.sources?;
        symbol_at(name, sources)
    }

    /// The target that a word writes: `@` and decimal digits, or a name. A label goes before a
    /// symbol of its name. Fails with `Operand`.
    pub fn target_operand_of(&self, word: &[u8]) -> Result<TargetOperand, ListingFaultKind>
        ensures { result ≡ target_operand_of (names_of self.now) word.now }
    {
        let operand = target_operand_of(self.labels, word)?;
        match operand {
            TargetOperand::Named(None) => Ok(TargetOperand::Named(self.symbol(word))),
            TargetOperand::Named(Some(_)) | TargetOperand::Number(_) => Ok(operand),
        }
    }

    /// The instruction that a target names. The place after the last one may be named. Fails with
    /// `Range` past it, and with `Label` where nothing has the name.
    pub fn target_of(&self, operand: TargetOperand) -> Result<Target, ListingFaultKind>
        ensures { result ≡ target_of (names_of self.now) operand }
    {
        target_of(self.labels, operand)
    }
}
