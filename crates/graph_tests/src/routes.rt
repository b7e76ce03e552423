//! The graphs of the tests, as tables.

ghost use Rattle.std.specs.Prelude.{◌≡◌, length};
ghost use Rattle.graph_search.specs.Graphs.{LeadsTo};
ghost use Rattle.graph_tests.specs.Tables.{number_of, target_of};

use graph_search::Graph;
use std::alloc::{AllocError, Global};

/// For each state two targets, one for each label: 0 for none, or one more than a state.
#[derive(Drop)]
pub struct Routes {
    targets: Vec<u32>,
}

impl Graph for Routes {
    ghost use Rattle.std.specs.Prelude.{ℕ};
    ghost use Rattle.graph_tests.specs.Tables.{number_of, routed, routed_beyond};

    ghost State = { ℕ };

    ghost meaning = { λ g. number_of };

    ghost next = { λ g. routed g.targets.items };

    ghost width = { λ g. 1 };

    ghost label_count = { λ g. 2 };

    fn width(&self) -> usize {
        1
    }

    fn label_count(&self) -> u32 {
        2
    }

    #[tactic(auto, using(crate::specs::Tables::number_of_one))]
    fn step(&mut self, node: &[u32], label: u32, to: &mut [u32]) -> Result<bool, AllocError> {
        let &[number] = node else { unreachable!() };
        let at = number as usize * 2 + label as usize;
        if at >= self.targets.len() {
            return Ok(false);
        }
        Ok(put_target(self.targets[at], to))
    }

    ghost none_beyond = { λ g. routed_beyond g.targets.items };
}

/// Writes the state of a target, if it is one.
#[tactic(auto, using(crate::proofs::TableLemmas::number_of_set))]
fn put_target(target: u32, to: &mut [u32]) -> bool
    requires { length to.old ≡ 1 }
    ensures { LeadsTo number_of result to.new (target_of target) }
{
    if target == 0 {
        return false;
    }
    to[0] = target - 1;
    true
}

impl Routes {
    /// A graph of these targets.
    pub fn new(alloc: Global, targets: &[u32]) -> Result<Routes, AllocError> {
        Ok(Routes {
            targets: Vec::from_slice(alloc, targets)?,
        })
    }

    /// The numbers below `size`. Label 0 doubles a number, label 1 adds 1 to it.
    pub fn doubling(alloc: Global, size: u32) -> Result<Routes, AllocError> {
        let mut targets = Vec::new(alloc);
        for number in 0..size {
            targets.push(target_below(size, u64::from(number) * 2))?;
            targets.push(target_below(size, u64::from(number) + 1))?;
        }
        Ok(Routes { targets })
    }
}

/// The target of a number, where it is below the size.
fn target_below(size: u32, number: u64) -> u32 {
    if number >= u64::from(size) {
        return 0;
    }
    number as u32 + 1
}
