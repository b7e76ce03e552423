//! Whether a state decides what a property claims.
#![tactic(auto, unfolding(crate::proofs::Unfold::running))]

ghost use Rattle.std.specs.Prelude.{◌≡◌, ◌<◌, ◌≤◌, length};
ghost use Rattle.sample_draws.specs.Orders.{is_over};
ghost use Rattle.sample_checks.specs.Deciding.{decides_when};

use cap_ops::Cap;
use cheri_model::{MAX_HARTS, Reg, Status};
use conditions::{Condition, StateView};
use explore_properties::When;
use hart::Hart;
use sample_steps::list_running;
use tagged_mem::Ram;

/// The harts and the memory of a machine, as conditions see them.
#[derive(Clone, Copy)]
pub(crate) struct Shown<'a> {
    pub harts: &'a [Hart],
    pub ram: &'a Ram,
}

impl StateView for Shown<'_> {
    ghost state = { λ shown. record { harts = shown.harts.now; memory = shown.ram.now } };

    fn hart_count(&self) -> usize {
        self.harts.len()
    }

    fn granule_count(&self) -> usize {
        self.ram.granule_count()
    }

    fn register(&self, hart: usize, reg: Reg) -> Cap {
        self.harts[hart].register(reg)
    }

    fn pcc(&self, hart: usize) -> Cap {
        self.harts[hart].pcc()
    }

    fn status(&self, hart: usize) -> Status {
        self.harts[hart].status()
    }

    fn granule(&self, number: usize) -> Cap {
        self.ram.granule(number)
    }
}

/// Whether no hart runs.
fn is_over(shown: Shown<'_>) -> bool
    requires { length shown.harts.now ≤ MAX_HARTS }
    ensures { result ≡ is_over (record {
      harts = shown.entry.harts.now;
      memory = shown.entry.ram.now;
    }) }
{
    list_running(shown.harts).as_slice().is_empty()
}

/// Whether a state decides when a condition holds.
pub(crate) fn decides_when(shown: Shown<'_>, when: When, condition: &Condition) -> bool
    requires { length shown.harts.now ≤ MAX_HARTS }
    ensures { result ≡ decides_when when condition.now (record {
      harts = shown.entry.harts.now;
      memory = shown.entry.ram.now;
    }) }
{
    match when {
        When::Never => condition.holds(&shown),
        When::Always => !condition.holds(&shown),
        When::Sometimes => condition.holds(&shown),
        When::Finally => is_over(shown) && !condition.holds(&shown),
    }
}
