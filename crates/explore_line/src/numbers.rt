//! The numbers that options give.
#![tactic(auto, using(crate::proofs::NumberLemmas::no_more, crate::proofs::NumberLemmas::run_is, crate::proofs::NumberLemmas::no_run))]

ghost use Rattle.std.specs.Prelude.{◌≡◌, ◌≤◌, IfSome, option_map};
ghost use Rattle.command_line.specs.Numbers.{decimal_within, number_or, within};

use command_line::numbers;
use text_numbers::number_in;

/// The greatest number that a run may have.
pub const GREATEST_RUN: u64 = 99_999_999_999;

/// The number in these bounds that an argument writes, by decimal digits alone.
pub fn decimal_within(least: u32, greatest: u32, arg: &str) -> Option<u32>
    ensures value { result ≡ decimal_within least greatest arg.now }
    ensures least { IfSome result (λ number. least ≤ number) }
    ensures greatest { IfSome result (λ number. number ≤ greatest) }
{
    numbers::decimal_within(least, greatest, arg)
}

/// The number in these bounds that an option gives, or what holds where it isn't there.
pub fn number_or(otherwise: u32, least: u32, greatest: u32, arg: Option<&str>) -> Option<u32>
    requires least { least ≤ otherwise }
    requires greatest { otherwise ≤ greatest }
    ensures value { result
        ≡ number_or otherwise least greatest (option_map (λ arg. arg.now) arg.entry) }
    ensures least { IfSome result (λ number. least ≤ number) }
    ensures greatest { IfSome result (λ number. number ≤ greatest) }
{
    match arg {
        Some(arg) => decimal_within(least, greatest, arg),
        None => Some(otherwise),
    }
}

/// A number of a run.
fn run_within(number: u128) -> Option<u64>
    ensures value { result ≡ within 0 GREATEST_RUN number }
    ensures greatest { IfSome result (λ run. run ≤ GREATEST_RUN) }
{
    if number <= u128::from(GREATEST_RUN) {
        Some(number as u64)
    } else {
        None
    }
}

/// The number of a run that an argument writes, by decimal digits alone.
fn run_written(arg: &str) -> Option<u64>
    ensures value { result ≡ decimal_within 0 GREATEST_RUN arg.now }
    ensures greatest { IfSome result (λ run. run ≤ GREATEST_RUN) }
{
    let number = number_in(10, arg.as_bytes()).flatten()?;
    run_within(number)
}

/// The number of a run that an option gives, or 0 where it isn't there.
pub fn run_or_first(arg: Option<&str>) -> Option<u64>
    ensures value { result
        ≡ number_or 0 0 GREATEST_RUN (option_map (λ arg. arg.now) arg.entry) }
    ensures greatest { IfSome result (λ run. run ≤ GREATEST_RUN) }
{
    match arg {
        Some(arg) => run_written(arg),
        None => Some(0),
    }
}
