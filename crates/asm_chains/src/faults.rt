//! The faults of expressions without a value.
#![tactic(auto, unfolding(crate::proofs::Unfold::faults))]

ghost use Rattle.std.specs.Prelude.{◌≡◌, IfOk, false, replicate};
ghost use Rattle.asm_chains.specs.Chains.{if_value};
ghost use Rattle.asm_chains.specs.Faults.{GivesLate, fault_in};
ghost use Rattle.asm_chains.specs.Marks.{Meets};
ghost use Rattle.asm_chains.specs.Tables.{LeadsBy, late_symbol, late_value, lead_of, symbol_fault};

use crate::scene::{LateFault, Scene, Setting};
use crate::table::{Lack, Lead, by_table, symbol_by_table, value_at};
use asm_expressions::{Node, ValueFault};
use asm_tokens::AsmFaultKind;
use asm_values::Value;
use std::alloc::{AllocError, Global};

/// A fault at a token of an expression.
fn fault_in(setting: Setting, kind: AsmFaultKind, at: usize) -> LateFault
    ensures { result ≡ fault_in setting kind at }
{
    LateFault {
        file: setting.file,
        kind,
        at,
    }
}

/// Marks a symbol as met. Says whether it is there and wasn't.
fn meet(met: &mut Vec<bool>, symbol: usize) -> bool
    ensures { Meets result met.old.items met.new.items symbol }
{
    let Some(was_met) = met.get(symbol).copied() else {
        return false;
    };
    if was_met {
        return false;
    }
    met[symbol] = true;
    true
}

/// Where the fault is of an expression, by the table; `told` where it has a value.
fn lead_by(
    setting: Setting,
    told: LateFault,
    outcome: Result<Value, ValueFault<Lack>>,
) -> Result<Lead, AllocError>
    ensures { LeadsBy result setting told outcome }
{
    match outcome {
        Ok(_) => Ok(Lead::Ends(told)),
        Err(ValueFault::Operator(at)) => {
            Ok(Lead::Ends(fault_in(setting, AsmFaultKind::Expression, at)))
        }
        Err(ValueFault::Name(Lack::NoName(at))) => {
            Ok(Lead::Ends(fault_in(setting, AsmFaultKind::Symbol, at)))
        }
        Err(ValueFault::Name(Lack::NoValue(symbol, at))) => {
            Ok(Lead::Leads(symbol, fault_in(setting, AsmFaultKind::Expression, at)))
        }
        Err(ValueFault::NoMemory) => Err(AllocError),
    }
}

/// Where the fault of a symbol is, by the table.
fn lead_of<S: Scene>(
    alloc: Global,
    scene: &S,
    values: &[Option<Value>],
    symbol: usize,
    told: LateFault,
) -> Result<Lead, AllocError>
    ensures { IfOk result (λ lead. lead ≡ lead_of (S.parts scene.now) values.now symbol told) }
{
    let outcome = symbol_by_table(alloc, scene, values, symbol);
    lead_by(scene.setting(symbol), told, outcome)
}

/// No symbol is met yet, of so many.
fn no_marks(alloc: Global, count: usize) -> Result<Vec<bool>, AllocError>
    ensures { IfOk result (λ met. met.items ≡ replicate count false) }
{
    Ok(vec![in alloc; false; count]?)
}

/// The fault of a symbol that has no value in the table: its expression's own, or that of the first
/// symbol without a value there, and so on; `again` where this leads back to a symbol.
fn symbol_fault<S: Scene>(
    alloc: Global,
    scene: &S,
    values: &[Option<Value>],
    symbol: usize,
    again: LateFault,
) -> Result<LateFault, AllocError>
    ensures { IfOk result (λ fault.
        fault ≡ symbol_fault (S.parts scene.now) values.now symbol again) }
{
    let count = scene.count();
    let mut met = no_marks(alloc, count)?;
    let (mut at, mut told) = (symbol, again);
    for _step in 0..count {
        let is_new = meet(&mut met, at);
        if !is_new {
            return Ok(told);
        }
        let lead = lead_of(alloc, scene, values, at, told)?;
        match lead {
            Lead::Ends(fault) => return Ok(fault),
            Lead::Leads(next, fault) => {
                at = next as usize;
                told = fault;
            }
        }
    }
    Ok(told)
}

/// The value of an expression where it stands, by the table of symbols' values; or its fault. Fails
/// with `Expression` at an operator that has no value and at a name that is met again while it is
/// worked out, and with `Symbol` at a name that there isn't; in the file of that token.
pub fn late_value<S: Scene>(
    alloc: Global,
    scene: &S,
    values: &[Option<Value>],
    setting: Setting,
    nodes: &[Node],
) -> Result<Value, LateFault>
    ensures { GivesLate result (late_value (S.parts scene.now) values.now setting nodes.now) }
{
    let outcome = by_table(alloc, scene, values, setting, nodes);
    if let Ok(value) = outcome {
        return Ok(value);
    }
    let nowhere = LateFault::from(AllocError);
    match lead_by(setting, nowhere, outcome)? {
        Lead::Ends(fault) => Err(fault),
        Lead::Leads(symbol, again) => {
            Err(symbol_fault(alloc, scene, values, symbol as usize, again)?)
        }
    }
}

/// The value of a symbol by the table, or its fault. The last argument is the fault where the
/// symbol is met again.
pub fn late_symbol<S: Scene>(
    alloc: Global,
    scene: &S,
    values: &[Option<Value>],
    symbol: usize,
    again: LateFault,
) -> Result<Value, LateFault>
    ensures { GivesLate result (late_symbol (S.parts scene.now) values.now symbol again) }
{
    match value_at(values, symbol) {
        Some(value) => Ok(value),
        None => Err(symbol_fault(alloc, scene, values, symbol, again)?),
    }
}

/// The value of an expression where it stands, by the table of symbols' values, if it has one.
/// Fails only when out of memory.
pub fn value_if_known<S: Scene>(
    alloc: Global,
    scene: &S,
    values: &[Option<Value>],
    setting: Setting,
    nodes: &[Node],
) -> Result<Option<Value>, AllocError>
    ensures { IfOk result (λ value.
        value ≡ if_value (late_value (S.parts scene.now) values.now setting nodes.now)) }
{
    match by_table(alloc, scene, values, setting, nodes) {
        Ok(value) => Ok(Some(value)),
        Err(ValueFault::NoMemory) => Err(AllocError),
        Err(_) => Ok(None),
    }
}
