//! Where a row is looked for: its tag says from where on.

ghost use Rattle.std.specs.Prelude.{◌≡◌, ◌≤◌, ◌^◌, [], ◌∷◌};
ghost use Rattle.interner.specs.Hashes.{mixed, hash_of, tag_of, home_of};

/// What is multiplied by: odd, its bits without a pattern (2^64 over the golden ratio).
const FACTOR: u64 = 0x9E37_79B9_7F4A_7C15;

/// The hash of a row of no numbers.
const SEED: u64 = 0xCBF2_9CE4_8422_2325;

/// The hash after one more number.
fn mixed(hash: u64, number: u64) -> u64
    ensures { result ≡ mixed hash number }
{
    (hash ^ number).wrapping_mul(FACTOR)
}

/// The hash of a row. It may be that of other rows too.
fn hash_of(row: &[u32]) -> u64
    ensures { result ≡ hash_of row.now }
{
    row.iter()
        .fold(SEED, |hash, number| { mixed(hash, u64::from(*number)) })
}

/// The tag of a row: the upper half of its hash.
pub fn tag_of(row: &[u32]) -> u32
    ensures { result ≡ tag_of row.now }
{
    (hash_of(row) >> 32) as u32
}

/// The tag of a row of one number.
pub fn tag_of_word(word: u64) -> u32
    ensures { result ≡ tag_of (word ∷ []) }
{
    (mixed(SEED, word) >> 32) as u32
}

/// The place from which on a row with this tag is looked for, where there are so many homes.
pub fn home_of(tag: u32, homes: usize) -> usize
    requires few { homes ≤ 2 ^ 32 }
    ensures value { result ≡ home_of tag homes }
    ensures within { result ≤ homes }
{
    ((u64::from(tag) * homes as u64) >> 32) as usize
}
