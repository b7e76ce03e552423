//! The law of the table: how long an expansion is.
#![tactic(auto, using(crate::proofs::Lengths::lengths))]

ghost use Rattle.std.specs.Prelude.{◌≡◌, ℤ, length, IfSome};
ghost use Rattle.asm_expansions.specs.declared.operation.Operation.{Operation};
ghost use Rattle.asm_expansions.specs.Expansions.{count_of, expansion_of};

/// An expansion has as many instructions as the count of its instruction says.
pub fn counts_are_lengths()
    ensures { (i : Operation) (value : ℤ)
        → IfSome (expansion_of i value) (λ instrs. length instrs ≡ count_of i value) }
{}
