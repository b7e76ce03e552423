//! The law of the forms of operands.

ghost use Rattle.std.specs.Prelude.{◌≡◌};
ghost use Rattle.cheri_model.specs.declared.instr.Instr.{Instr};
ghost use Rattle.cheri_model.specs.instructions.Form.{form_of, instr_of};

/// An instruction's form, with its operands, gives the instruction back.
#[tactic(auto, using(crate::proofs::Runs::Instructions::forms_back))]
pub fn forms_give_instructions_back()
    ensures { (i : Instr) → instr_of (form_of i) ≡ i }
{}
