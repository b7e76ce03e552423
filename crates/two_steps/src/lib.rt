//! Two steps of a machine, and what a caller knows of them: a small caller of `cores`.
#![tactic(auto)]

ghost use Rattle.std.specs.Prelude.{◌≡◌, ◌≤◌, ◌++◌, ◌∷◌, [], IfOk, OnErr, length};
ghost use Rattle.cheri_model.specs.declared.operation.Event.TheVariants as Event;
ghost use Rattle.cheri_model.specs.runs.Authority.{IsConfined};
ghost use Rattle.cores.specs.Cores.{IsCore};
ghost use Rattle.two_steps.specs.TwoSteps.{IsUnstepped, IsStepTwice};

use cheri_model::Entry;
use cores::{Core, StepFault};

/// Takes a step of one hart and then one of another, or of the same, and gives their entries, which
/// are the last two of the trace now. Where the second is refused, the first was taken.
pub fn two_steps(core: &mut Core, first: u8, second: u8) -> Result<(Entry, Entry), StepFault>
    ensures entries { IfOk result (λ entries.
        core.new.trace ≡ core.old.trace ++ Event.Step entries.0 ∷ Event.Step entries.1 ∷ []) }
    ensures steps { IfOk result (λ entries. IsStepTwice core.old first second entries core.new) }
    ensures refused { OnErr result (IsUnstepped core.old first core.new) }
    ensures core { IsCore core.new }
    ensures confined { IsConfined core.new.image core.new.state }
{
    match core.step(first) {
        Ok(earlier) => match core.step(second) {
            Ok(later) => Ok((earlier, later)),
            Err(fault) => Err(fault),
        },
        Err(fault) => Err(fault),
    }
}
