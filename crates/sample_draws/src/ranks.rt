//! The ranks of harts: the least goes first.
#![tactic(auto, unfolding(crate::proofs::Unfold::ranks))]

ghost use Rattle.std.specs.Prelude.{◌≡◌, ◌-◌, ◌<◌, ◌≤◌, All, IfSome, length};
ghost use Rattle.sample_draws.specs.Ranks.{first_ranks, shuffled, drawn_places, better_of};
ghost use Rattle.sample_draws.specs.Ranks.{least, first, changed_ranks};

use crate::drawing::MAX_DEPTH;
use crate::words::Words;
use arrayvec::ArrayVec;
use cheri_model::MAX_HARTS;

/// A rank for each hart.
pub type Ranks = [u32; 8];

/// The places of the change points, fewer than the greatest depth.
pub type Changes = ArrayVec<u32, 15>;

/// Ranks of so many harts in an order that is drawn.
pub fn drawn_ranks(harts: usize, words: &mut Words) -> Ranks
    requires some { 1 ≤ harts }
    requires few { harts ≤ MAX_HARTS }
    ensures { (result, words.new) ≡ shuffled (harts - 1) first_ranks words.old }
{
    let mut ranks = [0, 1, 2, 3, 4, 5, 6, 7];
    let mut place = harts - 1;
    while place > 0 {
        let other = words.draw(place as u32 + 1);
        ranks.swap(place, other as usize);
        place -= 1;
    }
    ranks
}

/// So many numbers below `length`.
pub fn drawn_places(count: usize, length: u32, words: &mut Words) -> Changes
    requires { count < MAX_DEPTH }
    ensures { (result.items, words.new) ≡ drawn_places count length words.old }
{
    let mut places = ArrayVec::new();
    let mut left = count;
    while left > 0 {
        places.push(words.draw(length));
        left -= 1;
    }
    places
}

/// Of a hart and the best so far, the one of lesser rank.
fn better_of(ranks: &Ranks, best: Option<u8>, hart: u8) -> Option<u8>
    requires best { IfSome best (λ best. best < MAX_HARTS) }
    requires hart { hart < MAX_HARTS }
    ensures value { result ≡ better_of ranks.now best hart }
    ensures there { IfSome result (λ hart. hart < MAX_HARTS) }
{
    match best {
        Some(best) if ranks[usize::from(best)] <= ranks[usize::from(hart)] => Some(best),
        _ => Some(hart),
    }
}

/// The hart of the least rank among those that don't wait.
fn least(ranks: &Ranks, waiting: &[bool; 8], harts: &[u8]) -> Option<u8>
    requires { All (λ hart. hart < MAX_HARTS) harts.now }
    ensures value { result ≡ least ranks.now waiting.now harts.now }
    ensures there { IfSome result (λ hart. hart < MAX_HARTS) }
{
    let mut best = None;
    for hart in harts {
        if !waiting[usize::from(*hart)] {
            best = better_of(ranks, best, *hart);
        }
    }
    best
}

/// The hart that steps: of those that run and don't wait; where all wait, of those that run.
pub fn first(ranks: &Ranks, waiting: &[bool; 8], running: &[u8]) -> u8
    requires { All (λ hart. hart < MAX_HARTS) running.now }
    ensures value { result ≡ first ranks.now waiting.now running.now }
    ensures there { result < MAX_HARTS }
{
    match least(ranks, waiting, running) {
        Some(hart) => hart,
        None => match least(ranks, &[false; 8], running) {
            Some(hart) => hart,
            None => 0,
        },
    }
}

/// At each change point that is the place of this step, the hart that would step gets a rank past
/// those of all harts.
pub fn change_ranks(
    ranks: &mut Ranks,
    waiting: &[bool; 8],
    running: &[u8],
    changes: &[u32],
    steps: u32,
    harts: u32,
)
    requires running { All (λ hart. hart < MAX_HARTS) running.now }
    requires few { length changes.now < MAX_DEPTH }
    requires harts { harts ≤ MAX_HARTS }
    ensures { ranks.new
        ≡ changed_ranks steps harts waiting.now running.now 0 changes.now ranks.old }
{
    let mut number = harts;
    for place in changes {
        if *place == steps {
            let hart = first(ranks, waiting, running);
            ranks[usize::from(hart)] = number;
        }
        number += 1;
    }
}
