//! Laws of expressions. A law is a function without a body's work, whose clause is the law.

ghost use Rattle.std.specs.Prelude.{◌≡◌, ℕ, ◌+◌, List, ◌∷◌, ◌++◌, length};
ghost use Rattle.asm_tokens.specs.Tokens.{TokenParts};
ghost use Rattle.asm_expressions.specs.Expressions.{nothing_read, rest_of};
ghost use Rattle.asm_expressions.specs.Grammar.{Ends, Spells, Tree, nodes_of, tree_value};
ghost use Rattle.asm_expressions.specs.Values.{meanings_of, value_of};

use crate::values::LookUp;

/// Whatever the grammar spells is read as its tree's nodes, up to a token after which no expression
/// goes on. So the order of reading is that of the grammar's levels.
pub fn spelled_expressions_are_read()
    ensures { (tree : Tree) (at : ℕ) (spelling rest : List TokenParts) (token : TokenParts)
        → Spells 1 at tree spelling → Ends token
        → rest_of nothing_read at (spelling ++ token ∷ rest)
        ≡ Ok (nodes_of at tree, at + length spelling) }
{}

/// The value of a tree's nodes is the tree's: operators are worked out of the values of their
/// operands, the first operand before the second, and the first fault is the answer.
pub fn nodes_have_the_tree_s_value<L: LookUp>(_names: &L)
    ensures { let m = meanings_of (L.named _names.now) (L.apart _names.now) in
        (tree : Tree) (least at : ℕ) (spelling : List TokenParts)
        → Spells least at tree spelling → value_of m (nodes_of at tree) ≡ tree_value m at tree }
{}
