//! The law of the names of instructions.

ghost use Rattle.std.specs.Prelude.{◌≡◌, Some};
ghost use Rattle.cheri_model.specs.declared.names.Mnemonic.{Mnemonic};
ghost use Rattle.cheri_model.specs.instructions.Names.{mnemonic_of, name_of};

/// An instruction's name names that instruction.
#[tactic(auto, using(crate::proofs::NameLemmas::names_back))]
pub fn names_name_their_instructions()
    ensures { (mnemonic : Mnemonic) → mnemonic_of (name_of mnemonic) ≡ Some mnemonic }
{}
