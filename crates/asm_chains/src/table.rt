//! Expressions by a table of the values of symbols.
#![tactic(auto, unfolding(crate::proofs::Unfold::tables))]

ghost use Rattle.std.specs.Prelude.{◌≡◌};
ghost use Rattle.asm_expressions.specs.Values.{GivesValue};
ghost use Rattle.asm_chains.specs.Scenes.{leaf_value, named_in};
ghost use Rattle.asm_chains.specs.Tables.{by_table, in_table, no_name, symbol_by_table, value_at};

use crate::scene::{LateFault, Leaf, Scene, Setting};
use asm_expressions::{LookUp, Node, ValueFault, value_of};
use asm_values::Value;
use std::alloc::Global;

/// Why a name has no value by a table.
#[derive(Clone, Copy, Debug, PartialEq, Eq, Drop)]
pub(crate) enum Lack {
    /// There is no such symbol, or no such local label. The number is that of its token.
    NoName(usize),
    /// The symbol of the first number has no value in the table. The second is that of its token.
    NoValue(u32, usize),
}

/// Where the fault is of an expression that has no value by a table.
#[derive(Clone, Copy, Debug, PartialEq, Eq, Drop)]
pub(crate) enum Lead {
    /// It is this one.
    Ends(LateFault),
    /// It is that of the symbol of this number, or this one where that symbol is met again.
    Leads(u32, LateFault),
}

/// The value of a symbol in a table.
pub(crate) fn value_at(values: &[Option<Value>], symbol: usize) -> Option<Value>
    ensures { result ≡ value_at values.now symbol }
{
    match values.get(symbol) {
        Some(value) => *value,
        None => None,
    }
}

/// The value of a symbol whose name is a token.
fn in_table(values: &[Option<Value>], symbol: u32, at: usize) -> Result<Value, Lack>
    ensures { result ≡ in_table values.now symbol at }
{
    match value_at(values, symbol as usize) {
        Some(value) => Ok(value),
        None => Err(Lack::NoValue(symbol, at)),
    }
}

/// What names mean where an expression stands, by a table of the values of symbols.
#[derive(Clone, Copy)]
struct TableNames<'b, S> {
    scene: &'b S,
    values: &'b [Option<Value>],
    setting: Setting,
}

impl<'b, S: Scene> LookUp for TableNames<'b, S> {
    type Fault = Lack;

    ghost named = { λ n node.
        named_in (S.parts n.scene.now) (in_table n.values.now) no_name n.setting node };

    ghost apart = { λ n to from. (S.parts n.scene.now).apart to from };

    fn value(&self, node: Node) -> Result<Value, Lack> {
        match self.scene.leaf(self.setting, node) {
            Leaf::Is(value) => Ok(value),
            Leaf::Stands(symbol) => in_table(self.values, symbol, node.at),
            Leaf::Missing => Err(Lack::NoName(node.at)),
        }
    }

    fn distance(&self, to: u32, from: u32) -> Option<u64> {
        self.scene.apart(to, from)
    }
}

/// The value of an expression where it stands, by the table.
pub(crate) fn by_table<S: Scene>(
    alloc: Global,
    scene: &S,
    values: &[Option<Value>],
    setting: Setting,
    nodes: &[Node],
) -> Result<Value, ValueFault<Lack>>
    ensures { GivesValue result (by_table (S.parts scene.now) values.now setting nodes.now) }
{
    let names = TableNames {
        scene,
        values,
        setting,
    };
    value_of(alloc, &names, nodes)
}

/// The value of a symbol, by the table.
pub(crate) fn symbol_by_table<S: Scene>(
    alloc: Global,
    scene: &S,
    values: &[Option<Value>],
    symbol: usize,
) -> Result<Value, ValueFault<Lack>>
    ensures { GivesValue result (symbol_by_table (S.parts scene.now) values.now symbol) }
{
    match scene.own(symbol) {
        Some(value) => Ok(value),
        None => by_table(
            alloc,
            scene,
            values,
            scene.setting(symbol),
            scene.nodes(symbol),
        ),
    }
}
