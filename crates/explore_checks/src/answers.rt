//! The answer.

ghost use Rattle.std.specs.Prelude.{◌≡◌, ◌++◌, ◌∷◌, [], IfOk, OnOk, string_bytes};
ghost use Rattle.explore_checks.specs.Checks.{
  are_known,
  ending_of,
  first_violated,
  is_known,
  is_violated,
  IsCheckAnswer,
  IsFound,
  order_against,
  orders_against,
};
ghost use Rattle.explore_checks.specs.ReducedChecks.{said_checked};
ghost use Rattle.order_texts.specs.OrderTexts.{orders_of};
ghost use Rattle.states.specs.Searches.{IsSearchable, search_of};

use crate::head::Head;
use crate::json::write_json;
use crate::searching::{Searched, search_properties};
use crate::texts::write_text;
use cheri_model::{NoMemory, Op};
use explore_properties::Property;
use explore_verdicts::{PropertyVerdict, Verdict, judge_all};
use found_texts::{Told, opened};
use graph_search::Progress;
use shown_states::{Answer, Ending, Format};
use state_loops::Lasso;
use states::Search;
use std::alloc::Global;

/// Whether a property is violated.
fn is_violated(verdict: &Verdict) -> bool
    ensures { result ≡ is_violated verdict.now }
{
    match verdict {
        Verdict::Violated | Verdict::ViolatedAfter(_) | Verdict::ViolatedBy(_) => true,
        Verdict::Holds | Verdict::HoldsAfter(_) | Verdict::Unknown => false,
    }
}

/// Whether it is known whether a property holds.
fn is_known(verdict: &Verdict) -> bool
    ensures { result ≡ is_known verdict.now }
{
    match verdict {
        Verdict::Unknown => false,
        Verdict::Violated | Verdict::ViolatedAfter(_) | Verdict::ViolatedBy(_) => true,
        Verdict::Holds | Verdict::HoldsAfter(_) => true,
    }
}

/// The line of the first property that is violated.
fn first_violated(told: &[PropertyVerdict<'_, '_>]) -> Option<usize>
    ensures { result ≡ first_violated told.now }
{
    for property in told {
        if is_violated(&property.verdict) {
            return Some(property.property.line());
        }
    }
    None
}

/// Whether it is known of each.
fn are_known(told: &[PropertyVerdict<'_, '_>]) -> bool
    ensures { result ≡ are_known told.now }
{
    for property in told {
        if !is_known(&property.verdict) {
            return false;
        }
    }
    true
}

/// How the answer ends.
pub fn ending_of(told: &[PropertyVerdict<'_, '_>]) -> Ending
    ensures { result ≡ ending_of told.now }
{
    match first_violated(told) {
        Some(line) => Ending::Violated(line),
        None => Ending::of_search(are_known(told)),
    }
}

/// Verdicts as text, or in JSON. Fails only when out of memory.
pub fn checked(
    alloc: Global,
    format: Format,
    head: Head<'_>,
    told: &[PropertyVerdict<'_, '_>],
) -> Result<String, NoMemory>
    ensures { IfOk result (λ text. string_bytes text ≡ said_checked head.entry.reduced format
        head.entry.complete head.entry.image.now head.entry.states told.now) }
{
    let mut out = String::new(alloc);
    match format {
        Format::Text => write_text(alloc, &mut out, head, told)?,
        Format::Json => write_json(alloc, &mut out, head, told)?,
    }
    Ok(out)
}

/// The order of a run that goes on for ever, and once its loop.
fn once_around(alloc: Global, lasso: &Lasso) -> Result<Vec<Op>, NoMemory>
    ensures { IfOk result (λ order.
        order.items ≡ lasso.now.order.items ++ lasso.now.cycle.items) }
{
    let mut order = Vec::from_slice(alloc, lasso.order.as_slice())?;
    order.extend_from_slice(lasso.cycle.as_slice())?;
    Ok(order)
}

/// Adds an order.
fn push_order(orders: &mut Vec<Vec<Op>>, order: Vec<Op>) -> Result<(), NoMemory>
    ensures { OnOk result (orders_of orders.new.items
        ≡ orders_of orders.old.items ++ order.items ∷ []) }
{
    orders.push(order)?;
    Ok(())
}

/// Adds the order that violates a property, if one does.
fn add_order(alloc: Global, orders: &mut Vec<Vec<Op>>, verdict: &Verdict) -> Result<(), NoMemory>
    ensures { OnOk result (orders_of orders.new.items
        ≡ orders_of orders.old.items ++ order_against verdict.now) }
{
    match verdict {
        Verdict::ViolatedAfter(order) => {
            let order = Vec::from_slice(alloc, order.as_slice())?;
            push_order(orders, order)
        }
        Verdict::ViolatedBy(lasso) => {
            let order = once_around(alloc, lasso)?;
            push_order(orders, order)
        }
        Verdict::Holds | Verdict::HoldsAfter(_) | Verdict::Violated | Verdict::Unknown => Ok(()),
    }
}

/// The orders that violate properties, in the order of their lines. Fails only when out of memory.
pub fn orders_against(
    alloc: Global,
    told: &[PropertyVerdict<'_, '_>],
) -> Result<Vec<Vec<Op>>, NoMemory>
    ensures { IfOk result (λ orders. orders_of orders.items ≡ orders_against told.now) }
{
    let mut orders = Vec::new(alloc);
    for property in told {
        add_order(alloc, &mut orders, &property.verdict)?;
    }
    Ok(orders)
}

/// The answer by what a search found.
fn answer_of(
    alloc: Global,
    search: &Search<'_>,
    properties: &[Property<'_>],
    format: Format,
    searched: &Searched,
) -> Result<Told, NoMemory>
    requires found { IsFound (search_of search.now) properties.now searched.now }
    ensures { IfOk result (λ told. IsCheckAnswer (search_of search.now) properties.now format
        (orders_of told.orders.items) (string_bytes told.answer.text) told.answer.ending) }
{
    let told = judge_all(alloc, &searched.kept, &searched.endless, properties)?;
    let text = checked(alloc, format, searched.head(), told.as_slice())?;
    let orders = orders_against(alloc, told.as_slice())?;
    let ending = ending_of(told.as_slice());
    Ok(Told {
        answer: Answer { text, ending },
        orders,
    })
}

/// Searches the states that an image reaches, once. The answer is what they say of each property of
/// its listing. Fails only when out of memory, or of numbers past 2^32.
pub fn check<P: Progress>(
    alloc: Global,
    search: &Search<'_>,
    properties: &[Property<'_>],
    format: Format,
    progress: &mut P,
) -> Result<Told, NoMemory>
    requires { IsSearchable (search_of search.now) }
    ensures { IfOk result (λ told. IsCheckAnswer (search_of search.now) properties.now format
        (orders_of told.orders.items) (string_bytes told.answer.text) told.answer.ending) }
{
    let core = opened(alloc, search.image)?;
    let searched = search_properties(alloc, search, &core, properties, progress)?;
    answer_of(alloc, search, properties, format, &searched)
}
