//! The numbers of a line's runs.
#![tactic(auto, using(crate::proofs::NumberLemmas::spans), unfolding(crate::proofs::Unfold::numbers))]

ghost use Rattle.std.specs.Prelude.{◌≡◌, ◌≤◌, ◌+◌, IfSome, IfOk};
ghost use Rattle.serde_json.specs.View.{items_view, view as data_of};
ghost use Rattle.sample_slices.specs.Members.{GivesSeen, Steps, all_steps};
ghost use Rattle.sample_slices.specs.Numbers.{has_number, is_in, no_numbers, numbers_in, span_in};
ghost use Rattle.sample_slices.specs.Numbers.{count_of, span_step, NumbersParts};

use crate::fault::LineFault;
use crate::members::{list_in, number_at};
use sample_draws::MAX_RUN;
use sample_texts::Span;
use serde_json::Value;
use std::alloc::Global;
use std::marker::Model;

/// Numbers of runs, ascending and apart, how many they are, and the least that a number after them
/// may have.
#[derive(Drop)]
pub(crate) struct Numbers {
    spans: Vec<Span>,
    least: u64,
    count: u64,
}

impl Model for Numbers {
    ghost use Rattle.sample_slices.specs.Numbers.{AreNumbers, NumbersParts};

    ghost Value = { NumbersParts };

    ghost view = { λ n. record { spans = n.spans.items; least = n.least } };

    ghost invariant = { λ n. AreNumbers n.spans.items n.least n.count };
}

/// Two numbers of runs that ascend.
fn span_in(value: &Value) -> Option<Span>
    ensures span { result ≡ span_in (data_of value.now) }
    ensures within { IfSome result (λ span. span.last ≤ MAX_RUN) }
    ensures ascending { IfSome result (λ span. span.first ≤ span.last) }
{
    let first = number_at(value, 0, MAX_RUN)?;
    let last = number_at(value, 1, MAX_RUN)?;
    if first <= last {
        Some(Span { first, last })
    } else {
        None
    }
}

/// Whether a number is in a span.
fn is_in(span: Span, number: u64) -> bool
    ensures { result ≡ is_in span number }
{
    span.first <= number && number <= span.last
}

impl Numbers {
    /// None.
    fn new(alloc: Global) -> Numbers
        ensures { result ≡ no_numbers }
    {
        Numbers {
            spans: Vec::new(alloc),
            least: 0,
            count: 0,
        }
    }

    /// One span more.
    fn add(&mut self, value: &Value) -> Result<(), LineFault>
        ensures { Steps result self.new (span_step (data_of value.now) self.old) }
    {
        let span = span_in(value).ok_or(LineFault::Form)?;
        if span.first < self.least {
            return Err(LineFault::Form);
        }
        self.spans.push(span)?;
        self.count += span.last + 1 - span.first;
        self.least = span.last + 2;
        Ok(())
    }

    /// Those of a list.
    fn add_all(&mut self, list: &[Value]) -> Result<(), LineFault>
        ensures { Steps result self.new (all_steps span_step (items_view list.now) self.old) }
    {
        for item in list {
            self.add(item)?;
        }
        Ok(())
    }

    /// The numbers.
    pub fn spans(&self) -> &[Span]
        ensures { result.now ≡ self.now.spans }
    {
        self.spans.as_slice()
    }

    /// How many they are.
    pub fn count(&self) -> u64
        ensures { result ≡ count_of self.now.spans }
    {
        self.count
    }

    /// The numbers alone.
    pub fn into_spans(self) -> Vec<Span>
        ensures { result.items ≡ self.spans }
    {
        self.spans
    }

    /// Whether a number is among them.
    #[tactic(auto, using(crate::proofs::NumberLemmas::has))]
    pub fn has(&self, number: u64) -> bool
        ensures { result ≡ has_number self.now.spans number }
    {
        for span in self.spans.as_slice() {
            if is_in(*span, number) {
                return true;
            }
        }
        false
    }
}

/// The numbers of the runs, of which there is at least one.
pub(crate) fn numbers_in(alloc: Global, value: &Value) -> Result<Numbers, LineFault>
    ensures { GivesSeen (λ (numbers : NumbersParts). numbers.spans) result
        (numbers_in (data_of value.now)) }
{
    let list = list_in(value, "numbers").ok_or(LineFault::Form)?;
    let mut numbers = Numbers::new(alloc);
    numbers.add_all(list)?;
    if numbers.spans.is_empty() {
        return Err(LineFault::Form);
    }
    Ok(numbers)
}
