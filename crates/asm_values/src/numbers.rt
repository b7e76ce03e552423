//! Operators on numbers of 64 bits.
#![tactic(auto, unfolding(crate::specs::Numbers::quotient, crate::specs::Numbers::remainder))]

ghost use Rattle.std.specs.Prelude.{◌≡◌, ◌^◌, ◌<◌};
ghost use Rattle.asm_values.specs.Numbers.{
  is_negative,
  magnitude,
  with_sign,
  inverted,
  quotient,
  remainder,
  shifted_left,
  shifted_right,
};

/// Whether a number of 64 bits is below 0, with its sign.
fn is_negative(n: u64) -> bool
    ensures { result ≡ is_negative n }
{
    n >= 1 << 63
}

/// A number without its sign.
fn magnitude(n: u64) -> u64
    ensures { result ≡ magnitude n }
{
    if is_negative(n) { n.wrapping_neg() } else { n }
}

/// A number with this sign.
fn with_sign(negative: bool, n: u64) -> u64
    ensures { result ≡ with_sign negative n }
{
    if negative { n.wrapping_neg() } else { n }
}

/// A number with each bit inverted.
pub fn inverted(n: u64) -> u64
    ensures { result ≡ inverted n }
{
    u64::MAX - n
}

/// The quotient of two numbers with their signs, towards 0; `None` for a divisor 0.
pub fn quotient(a: u64, b: u64) -> Option<u64>
    ensures { result ≡ quotient a b }
{
    let divisor = magnitude(b);
    if divisor == 0 {
        return None;
    }
    let negative = is_negative(a) != is_negative(b);
    Some(with_sign(negative, magnitude(a) / divisor))
}

/// The remainder of such a division; `None` for a divisor 0.
pub fn remainder(a: u64, b: u64) -> Option<u64>
    ensures { result ≡ remainder a b }
{
    let divisor = magnitude(b);
    if divisor == 0 {
        return None;
    }
    Some(with_sign(is_negative(a), magnitude(a) % divisor))
}

/// A number shifted to the left; `None` unless by 0 to 63.
pub fn shifted_left(a: u64, b: u64) -> Option<u64>
    ensures { result ≡ shifted_left a b }
{
    if b < 64 { Some(a << b) } else { None }
}

/// A number without its sign shifted to the right; `None` unless by 0 to 63.
pub fn shifted_right(a: u64, b: u64) -> Option<u64>
    ensures { result ≡ shifted_right a b }
{
    if b < 64 { Some(a >> b) } else { None }
}
