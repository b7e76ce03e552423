//! Numbers in the arguments of a command line.
#![tactic(auto, using(crate::proofs::Rulesets::numbers))]

ghost use Rattle.std.specs.Prelude.{◌≡◌, ◌≤◌, IfSome, option_map};
ghost use Rattle.command_line.specs.Numbers.{decimal_within, number_or, within};

use text_numbers::number_in;

/// A number from a least one to a greatest one.
fn within(least: u32, greatest: u32, number: u128) -> Option<u32>
    ensures value { result ≡ within least greatest number }
    ensures least { IfSome result (λ number. least ≤ number) }
{
    if number >= u128::from(least) && number <= u128::from(greatest) {
        Some(number as u32)
    } else {
        None
    }
}

/// The number in these bounds that an argument writes, by decimal digits alone.
pub fn decimal_within(least: u32, greatest: u32, arg: &str) -> Option<u32>
    ensures value { result ≡ decimal_within least greatest arg.now }
    ensures least { IfSome result (λ number. least ≤ number) }
{
    let number = number_in(10, arg.as_bytes()).flatten()?;
    within(least, greatest, number)
}

/// The number in these bounds that an option gives, or what holds where it isn't there.
pub fn number_or(otherwise: u32, least: u32, greatest: u32, arg: Option<&str>) -> Option<u32>
    requires { least ≤ otherwise }
    ensures value { result
        ≡ number_or otherwise least greatest (option_map (λ arg. arg.now) arg.entry) }
    ensures least { IfSome result (λ number. least ≤ number) }
{
    match arg {
        Some(arg) => decimal_within(least, greatest, arg),
        None => Some(otherwise),
    }
}
