//! Sweeps as texts: `LO,HI`, two numbers in the address space.
#![tactic(auto, using(crate::proofs::SweepLemmas::sweep_parts))]

ghost use Rattle.std.specs.Prelude.{◌≡◌, ◌<◌, ◌==◌, ◌+◌, IfSome, drop, length};
ghost use Rattle.std.specs.List.{position};
ghost use Rattle.explore_sweeps.specs.Sweeps.{sweep_of, sweep_within};

use text_numbers::number_of;

/// The most sweeps that a search may take.
pub const MAX_SWEEPS: usize = 8;

/// A sweep of the addresses from `lo` up to, not including, `hi`.
#[derive(Clone, Copy, Debug, PartialEq, Eq)]
pub struct Sweep {
    pub lo: u64,
    pub hi: u128,
}

/// The sweep of a range, where `lo` is no greater than `hi`, and both lie in the address space.
fn sweep_within(lo: u128, hi: u128) -> Option<Sweep>
    ensures { result ≡ sweep_within lo hi }
{
    let end = 1 << 64;
    if lo <= hi && hi <= end && lo < end {
        Some(Sweep { lo: lo as u64, hi })
    } else {
        None
    }
}

/// Where the first comma of a text is.
fn comma_at(bytes: &[u8]) -> Option<usize>
    ensures place { result ≡ position (λ b. b == 0x2C) bytes.now }
    ensures inside { IfSome result (λ place. place < length bytes.now) }
{
    bytes.iter().position(|byte| *byte == b',')
}

/// The bytes of a text after the one at a place.
fn after(bytes: &[u8], place: usize) -> &[u8]
    requires { place < length bytes.now }
    ensures { result.now ≡ drop (place + 1) bytes.now }
{
    &bytes[place + 1..]
}

/// The sweep that a text writes, `LO,HI`.
pub fn sweep_of(text: &[u8]) -> Option<Sweep>
    ensures { result ≡ sweep_of text.now }
{
    let comma = comma_at(text)?;
    let lo = number_of(&text[..comma]).flatten()?;
    let hi = number_of(after(text, comma)).flatten()?;
    sweep_within(lo, hi)
}
