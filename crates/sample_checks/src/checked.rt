//! What many runs gave, and what they say of properties.

ghost use Rattle.std.specs.Prelude.{◌≡◌, ◌≤◌, length, None, All, IfOk, OnOk};
ghost use Rattle.sample_tallies.specs.Tables.{either};
ghost use Rattle.sample_tallies.specs.Tallies.{empty, add};
ghost use Rattle.sample_tallies.specs.Within.{IsWithin};
ghost use Rattle.sample_checks.specs.Checks.{either_each, none_each, is_drawn};

use cheri_model::MAX_HARTS;
use sample_tallies::{Seen, Tally};
use shown_states::Loaded;
use std::alloc::{AllocError, Global};
use std::marker::Model;

/// A tally of runs of one machine, and of each property which runs decide it. The first runs of all
/// that is counted can be drawn again.
#[derive(Drop)]
pub struct Checked {
    tally: Tally,
    decided: Vec<Option<Seen>>,
}

impl Model for Checked {
    ghost use Rattle.sample_checks.specs.Checks.{CheckedParts, AreWithin};

    ghost Value = { CheckedParts };

    ghost view = { λ c. record {
      harts = c.tally.harts;
      granules = c.tally.granules;
      sum = c.tally.sum;
      decided = c.decided.items;
    } };

    ghost invariant = { λ c. AreWithin c.tally.sum c.decided.items };
}

/// Nothing of so many properties. Fails only when out of memory.
pub(crate) fn none_each(alloc: Global, properties: usize) -> Result<Vec<Option<Seen>>, AllocError>
    ensures { IfOk result (λ decided. decided.items ≡ none_each properties) }
{
    vec![in alloc; None; properties]
}

/// What is seen in runs and in others, if it is.
pub(crate) fn either(one: Option<Seen>, other: Option<Seen>) -> Result<Option<Seen>, AllocError>
    ensures { IfOk result (λ seen. seen ≡ either one other) }
{
    match (one, other) {
        (None, _) => Ok(other),
        (Some(_), None) => Ok(one),
        (Some(seen), Some(more)) => Ok(Some(seen.and(more)?)),
    }
}

/// Adds what other runs say of each property. Fails only where a count reaches 2^64.
fn see_each(decided: &mut [Option<Seen>], others: &[Option<Seen>]) -> Result<(), AllocError>
    requires { length others.now ≡ length decided.old }
    ensures seen { OnOk result (decided.new ≡ either_each decided.old others.now) }
{
    for place in 0..others.len() {
        decided[place] = either(decided[place], others[place])?;
    }
    Ok(())
}

impl Checked {
    /// Of no run of a machine with so many harts and granules, and of so many properties. Fails
    /// only when out of memory.
    pub fn new(
        alloc: Global,
        harts: usize,
        granules: usize,
        properties: usize,
    ) -> Result<Checked, AllocError>
        requires { harts ≤ MAX_HARTS }
        ensures sum { IfOk result (λ checked. checked.sum ≡ empty) }
        ensures decided { IfOk result (λ checked. checked.decided ≡ none_each properties) }
        ensures harts { IfOk result (λ checked. checked.harts ≡ harts) }
        ensures granules { IfOk result (λ checked. checked.granules ≡ granules) }
    {
        Ok(Checked {
            tally: Tally::new(alloc, harts, granules),
            decided: none_each(alloc, properties)?,
        })
    }

    /// Of a tally, and of what its runs say of each property.
    pub fn of_claims(tally: Tally, decided: Vec<Option<Seen>>) -> Checked
        requires within { IsWithin tally.sum }
        requires drawn { All is_drawn decided.items }
        ensures { result ≡ record {
          harts = tally.harts;
          granules = tally.granules;
          sum = tally.sum;
          decided = decided.items;
        } }
    {
        Checked { tally, decided }
    }

    /// What the runs gave.
    pub fn tally(&self) -> &Tally
        ensures harts { result.now.harts ≡ self.now.harts }
        ensures granules { result.now.granules ≡ self.now.granules }
        ensures sum { result.now.sum ≡ self.now.sum }
        ensures within { IsWithin result.now.sum }
    {
        &self.tally
    }

    /// Of each property which runs decide it.
    pub fn decided(&self) -> &[Option<Seen>]
        ensures decided { result.now ≡ self.now.decided }
        ensures drawn { All is_drawn result.now }
    {
        self.decided.as_slice()
    }

    /// Adds other runs of this machine, of which as many properties are known; their ends are
    /// loaded into a state of it. Fails only when out of memory or of numbers, or where a count
    /// reaches 2^64.
    pub fn add(
        self,
        alloc: Global,
        other: &Checked,
        blank: &mut Loaded,
    ) -> Result<Checked, AllocError>
        requires harts { other.now.harts ≡ self.harts }
        requires granules { other.now.granules ≡ self.granules }
        requires properties { length other.now.decided ≡ length self.decided }
        requires blank_harts { length blank.old.harts ≡ self.harts }
        requires blank_granules { length blank.old.memory ≡ self.granules }
        ensures sum { IfOk result (λ both. both.sum ≡ add self.sum other.now.sum) }
        ensures decided { IfOk result (λ both.
            both.decided ≡ either_each self.decided other.now.decided) }
        ensures same_harts { IfOk result (λ both. both.harts ≡ self.harts) }
        ensures same_granules { IfOk result (λ both. both.granules ≡ self.granules) }
        ensures blank_harts { length blank.new.harts ≡ self.harts }
        ensures blank_granules { length blank.new.memory ≡ self.granules }
    {
        let Checked {
            mut tally,
            mut decided,
        } = self;
        tally.add(alloc, &other.tally, blank)?;
        see_each(&mut decided, other.decided.as_slice())?;
        Ok(Checked { tally, decided })
    }
}
