//! In which part a row is kept.

ghost use Rattle.std.specs.Prelude.{◌≡◌, ◌^◌, ◌<◌};
ghost use Rattle.graph_nodes.specs.Homes.{hash_from, home_of};

/// By what the hash of a row is multiplied after each number.
pub const FACTOR: u32 = 0x9E37_79B1;

/// The hash of a row.
#[tactic(auto, using(crate::proofs::HomeLemmas::hash_more, crate::proofs::HomeLemmas::hash_end))]
fn hash_of(row: &[u32]) -> u32
    ensures { result ≡ hash_from 0 row.now }
{
    let mut hash = 0u32;
    for number in row {
        hash = hash.wrapping_add(*number).wrapping_mul(FACTOR);
    }
    hash
}

/// The part of a row, of so many.
#[tactic(auto, unfolding(crate::specs::Homes::home_of))]
pub fn home_of(row: &[u32], parts: usize) -> u32
    requires { 0 < parts }
    ensures home { result ≡ home_of parts row.now }
    ensures within { result < parts }
{
    let upper = hash_of(row) >> 16;
    (upper as usize % parts) as u32
}
