//! Whether runs can go on for ever, as text and in JSON.

ghost use Rattle.std.specs.Prelude.{◌≡◌, ◌++◌, IfOk, OnOk, codes, string_bytes};
ghost use Rattle.serde_json.specs.View.{view as data_of};
ghost use Rattle.order_texts.specs.OrderTexts.{order_text};
ghost use Rattle.outcome_texts.specs.EndlessTexts.{
  endless_data,
  endless_line,
  lasso_data,
  lasso_line,
};

use cheri_model::{NoMemory, Op};
use order_texts::write_order;
use serde_json::{Value, json};
use state_loops::{Endless, Lasso};
use std::alloc::Global;

/// Appends the line of an answer with a loop.
fn write_lasso_line(out: &mut String, word: &str, lasso: &Lasso) -> Result<(), NoMemory>
    ensures { OnOk result (string_bytes out.new
        ≡ string_bytes out.old ++ lasso_line word.now lasso.now) }
{
    write!(out, "endless {word} order=")?;
    write_order(out, lasso.order.as_slice())?;
    out.push_str(" loop=")?;
    write_order(out, lasso.cycle.as_slice())?;
    out.push_str("\n")
}

/// Appends the line of an answer.
pub fn write_endless_line(out: &mut String, endless: &Endless) -> Result<(), NoMemory>
    ensures { OnOk result (string_bytes out.new
        ≡ string_bytes out.old ++ endless_line endless.now) }
{
    match endless {
        Endless::Yes(lasso) => write_lasso_line(out, "yes", lasso),
        Endless::Unknown => out.push_str("endless unknown\n"),
        Endless::Unfair(lasso) => write_lasso_line(out, "unfair", lasso),
        Endless::No => out.push_str("endless no\n"),
    }
}

/// The text of an order.
fn order_text(alloc: Global, order: &[Op]) -> Result<String, NoMemory>
    ensures { IfOk result (λ text. string_bytes text ≡ order_text order.now) }
{
    let mut text = String::new(alloc);
    write_order(&mut text, order)?;
    Ok(text)
}

/// An answer with a loop.
fn lasso_json(alloc: Global, word: &str, lasso: &Lasso) -> Result<Value, NoMemory>
    ensures { IfOk result (λ v. data_of v ≡ lasso_data word.now lasso.now) }
{
    let cycle = order_text(alloc, lasso.cycle.as_slice())?;
    let order = order_text(alloc, lasso.order.as_slice())?;
    json!(in alloc; {"answer": word, "loop": cycle, "order": order})
}

/// An answer.
pub fn endless_json(alloc: Global, endless: &Endless) -> Result<Value, NoMemory>
    ensures { IfOk result (λ v. data_of v ≡ endless_data endless.now) }
{
    match endless {
        Endless::Yes(lasso) => lasso_json(alloc, "yes", lasso),
        Endless::Unknown => json!(in alloc; {"answer": "unknown"}),
        Endless::Unfair(lasso) => lasso_json(alloc, "unfair", lasso),
        Endless::No => json!(in alloc; {"answer": "no"}),
    }
}
