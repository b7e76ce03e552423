//! The number that code and definitions share, by its numeral: definitions take it from the code,
//! so that a wrong one would be wrong on both sides. And what a chain of plain atoms means.

ghost use Rattle.std.specs.Prelude.{◌≡◌, ◌≤◌, ℕ, List, Ok, length};
ghost use Rattle.cheri_model.specs.runs.Image.{ImageParts};
ghost use Rattle.grammar.specs.Labels.{LabelParts};
ghost use Rattle.condition_texts.specs.Chains.{HoldsAsChain, Plain, chain_of};
ghost use Rattle.condition_texts.specs.Conditions.{condition_of};
ghost use Rattle.condition_texts.specs.declared.condition.TheConstants.{MAX_BYTES};
ghost use Rattle.condition_texts.specs.declared.items.TheConstants.{MAX_ITEMS};

/// The most items of a list.
pub fn limits()
    ensures items { MAX_ITEMS ≡ 16 }
{}

/// A text that writes a chain, of plain atoms which `and` joins, is a condition, whatever labels
/// there are, and holds in the same states: in those in which all atoms of the chain hold.
pub fn chains()
    ensures { (labels : LabelParts) (image : ImageParts) (text : List ℕ) (atoms : List Plain) →
        length text ≤ MAX_BYTES → chain_of image text ≡ Ok atoms →
        HoldsAsChain (condition_of labels image text) atoms }
{}
