//! The values of all symbols.

ghost use Rattle.std.specs.Prelude.{◌≡◌, ◌||◌, IfOk};
ghost use Rattle.asm_chains.specs.Chains.{known_values};
ghost use Rattle.asm_chains.specs.Settling.{IsSound, IsSettled, Passes, Tries};

use crate::order::order_of;
use crate::scene::Scene;
use crate::table::{symbol_by_table, value_at};
use asm_expressions::ValueFault;
use asm_values::Value;
use std::alloc::{AllocError, Global};

/// Works out a symbol by the table, where it has no value there. Says whether it has one now that
/// it hadn't.
fn try_symbol<S: Scene>(
    alloc: Global,
    scene: &S,
    values: &mut Vec<Option<Value>>,
    symbol: usize,
) -> Result<bool, AllocError>
    ensures { Tries result (S.parts scene.now) values.old.items values.new.items symbol }
{
    if symbol >= values.len() {
        return Ok(false);
    }
    if let Some(_) = value_at(values, symbol) {
        return Ok(false);
    }
    match symbol_by_table(alloc, scene, values, symbol) {
        Ok(value) => {
            values[symbol] = Some(value);
            Ok(true)
        }
        Err(ValueFault::NoMemory) => Err(AllocError),
        Err(_) => Ok(false),
    }
}

/// Works out the symbols of an order, one after another.
fn try_order<S: Scene>(
    alloc: Global,
    scene: &S,
    values: &mut Vec<Option<Value>>,
    order: &[usize],
) -> Result<(), AllocError>
    requires { IsSound (S.parts scene.now) values.old.items }
    ensures { IfOk result (λ done. IsSound (S.parts scene.now) values.new.items) }
{
    for symbol in order {
        let _ = try_symbol(alloc, scene, values, *symbol)?;
    }
    Ok(())
}

/// Whether one of two is so.
fn either(first: bool, second: bool) -> bool
    ensures { result ≡ (first || second) }
{
    first || second
}

/// Works out all symbols once. Says whether some has a value now that hadn't.
fn pass<S: Scene>(
    alloc: Global,
    scene: &S,
    values: &mut Vec<Option<Value>>,
) -> Result<bool, AllocError>
    requires { IsSound (S.parts scene.now) values.old.items }
    ensures { Passes result (S.parts scene.now) values.old.items values.new.items }
{
    let mut changed = false;
    for symbol in 0..scene.count() {
        let found = try_symbol(alloc, scene, values, symbol)?;
        changed = either(changed, found);
    }
    Ok(changed)
}

/// Works out all symbols until there is nothing more to find.
fn settle<S: Scene>(
    alloc: Global,
    scene: &S,
    values: &mut Vec<Option<Value>>,
) -> Result<(), AllocError>
    requires { IsSound (S.parts scene.now) values.old.items }
    ensures { IfOk result (λ done. IsSettled (S.parts scene.now) values.new.items) }
{
    loop {
        let changed = pass(alloc, scene, values)?;
        if !changed {
            return Ok(());
        }
    }
}

/// The value of each symbol, if it has one. Fails only when out of memory.
pub fn known_values<S: Scene>(alloc: Global, scene: &S) -> Result<Vec<Option<Value>>, AllocError>
    ensures values { IfOk result (λ values. values.items ≡ known_values (S.parts scene.now)) }
    ensures settled { IfOk result (λ values. IsSettled (S.parts scene.now) values.items) }
{
    let mut values = vec![in alloc; None; scene.count()]?;
    let order = order_of(alloc, scene)?;
    try_order(alloc, scene, &mut values, &order)?;
    settle(alloc, scene, &mut values)?;
    Ok(values)
}
