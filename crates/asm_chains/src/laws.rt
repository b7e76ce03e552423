//! Laws of values. A law is a function without a body's work, whose clause is the law.

ghost use Rattle.std.specs.Prelude.{◌≡◌, ℕ, List, Option};
ghost use Rattle.asm_values.specs.declared.values.Value.{Value};
ghost use Rattle.asm_expressions.specs.declared.node.Node.{Node};
ghost use Rattle.asm_chains.specs.declared.scene.Setting.{Setting};
ghost use Rattle.asm_chains.specs.Chains.{expression_value};
ghost use Rattle.asm_chains.specs.Settling.{IsSettled};
ghost use Rattle.asm_chains.specs.Tables.{late_value};

use crate::scene::Scene;

/// By a table in which each symbol has its value, an expression has the value, or the fault, that
/// it has where its names are worked out one on the way to the other.
pub fn values_by_a_table_are_values<S: Scene>(_scene: &S)
    ensures { (values : List (Option Value)) (setting : Setting) (nodes : List Node)
        → IsSettled (S.parts _scene.now) values
        → late_value (S.parts _scene.now) values setting nodes
        ≡ expression_value (S.parts _scene.now) setting nodes }
{}
