//! A table with an entry for each number and actor.

ghost use Rattle.std.specs.Prelude.{
  ◌≡◌,
  ℕ,
  ◌+◌,
  ◌*◌,
  ◌<◌,
  length,
  slice_set,
  Bool,
  true,
  false,
  IsTrue,
};
ghost use Rattle.graph_loops.specs.Scans.{entry, IsStarved};

/// Where the entry of an actor at a number is, in a table of `numbers` numbers.
pub fn place(number: u32, numbers: usize, actors: u32, actor: u32) -> usize
    requires number { number < numbers }
    requires actor { actor < actors }
    ensures value { result ≡ number * actors + actor }
    ensures within { result < numbers * actors }
{
    number as usize * actors as usize + actor as usize
}

/// Whether nobody moves.
pub fn is_still(moves: &[bool]) -> bool
    ensures { result ≡ true → (number actor actors : ℕ) →
        entry moves.now actors number actor ≡ false }
{
    moves.iter().all(|moves| !*moves)
}

/// Whether nobody moves within a number, or one who has a step in all of its nodes doesn't.
pub fn is_starved(moves: &[bool], runs: &[bool], numbers: usize, actors: u32, number: u32) -> bool
    requires number { number < numbers }
    requires moves { length moves.now ≡ numbers * actors }
    requires runs { length runs.now ≡ numbers * actors }
    ensures { result ≡ true → IsStarved moves.now runs.now actors number }
{
    let mut still = true;
    for actor in 0..actors {
        let at = place(number, numbers, actors, actor);
        if moves[at] {
            still = false;
        } else if runs[at] {
            return true;
        }
    }
    still
}

/// Whether each number is starved.
pub fn all_starved(moves: &[bool], runs: &[bool], numbers: u32, actors: u32) -> bool
    requires moves { length moves.now ≡ numbers * actors }
    requires runs { length runs.now ≡ numbers * actors }
    ensures { result ≡ true → (number : ℕ) → number < numbers →
        IsStarved moves.now runs.now actors number }
{
    for number in 0..numbers {
        if !is_starved(moves, runs, numbers as usize, actors, number) {
            return false;
        }
    }
    true
}
