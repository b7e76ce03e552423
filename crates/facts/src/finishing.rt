//! The second half of a step's facts: what is there after it.
#![tactic(auto, using(crate::proofs::Tables::tables), unfolding(crate::proofs::Unfold::stepping))]

ghost use Rattle.std.specs.Prelude.{◌≡◌, ℕ, ◌+◌, ◌^◌, ◌<◌, List, length};
ghost use Rattle.cap_model.specs.values.CapValue.{CapValue};
ghost use Rattle.cheri_model.specs.declared.instr.Instr.{Instr};
ghost use Rattle.cheri_model.specs.declared.trace.Trap.{Trap};
ghost use Rattle.cheri_model.specs.steps.Hart.{HartState};
ghost use Rattle.cheri_model.specs.steps.HartStep.{hart_step};
ghost use Rattle.cheri_model.specs.steps.Memory.{ram_base, granule_number};
ghost use Rattle.origins.specs.Origins.{Origins};
ghost use Rattle.origins.specs.Flows.{AreSpots, flows_at, step_flows};
ghost use Rattle.origins.specs.Table.{list_of};
ghost use Rattle.facts.specs.Stepping.{
  HasTable,
  Tells,
  IsPlaced,
  IsSeen,
  IsSeenBefore,
  IsStopped,
  IsNotTrap,
  address_accessed,
  stepped_to,
};
ghost use Rattle.facts.specs.declared.step_facts.StepFacts.{StepFacts};
ghost use Rattle.facts.specs.StepFacts.{
  blank_facts,
  trapped_by,
  fetch_trap,
  fetch_facts,
  trapped_facts,
  done_facts,
  instruction_facts,
  facts_by,
  fetched_of,
};

use crate::names::{is_store, sets_of};
use crate::step_facts::{Extent, StepFacts, Trapped, UpToTwo};
use crate::stepping::{Moment, Seen, each_named, found_at};
use crate::trapping::trap_why;
use cheri_model::{Entry, Instr, Outcome, Trap};
use hart::Hart;
use origins::{StepFlows, flows};
use tagged_mem::Ram;

/// A trap of a step of this hart, and why.
fn trapped_by(fetched: &Option<Instr>, hart: &Hart, trap: Trap) -> Trapped
    ensures { result ≡ trapped_by fetched.now hart.now trap }
{
    Trapped {
        trap,
        why: trap_why(fetched, hart, trap),
    }
}

/// The trap of a fetch, if it trapped.
fn fetch_trap(outcome: Outcome, hart: &Hart) -> Option<Trapped>
    ensures { result ≡ fetch_trap outcome hart.now }
{
    match outcome {
        Outcome::Done | Outcome::Halt => None,
        Outcome::Trap(trap) => Some(trapped_by(&None, hart, trap)),
    }
}

/// The facts of a step whose fetch trapped, by the hart after it, which has the values before it.
/// All facts are filled in where they stay: they are wide, and each move of them counts.
fn fetch_facts(number: u8, outcome: Outcome, after: &Hart, facts: &mut StepFacts)
    ensures { (hart : HartState) → IsStopped hart after.now →
        facts.new ≡ fetch_facts number hart outcome }
{
    facts.entry = Entry {
        hart: number,
        pc: after.pcc().addr(),
        outcome,
    };
    facts.fetched = None;
    facts.reads = UpToTwo::Zero;
    facts.at = None;
    facts.finds = None;
    facts.traps = fetch_trap(outcome, after);
    facts.leaves = None;
    facts.sets = UpToTwo::Zero;
    facts.clears = None;
}

/// The facts of an instruction that trapped, by the hart after it, which has the values before it.
fn trapped_facts(seen: &Seen, number: u8, trap: Trap, after: &Hart, facts: &mut StepFacts)
    ensures { (hart : HartState) (memory : List CapValue) (from : Origins) →
        IsSeen seen.now facts.old number hart memory from → IsStopped hart after.now →
        facts.new ≡ trapped_facts number hart memory from seen.now.fetched trap }
{
    facts.entry = Entry {
        hart: number,
        pc: seen.pc,
        outcome: Outcome::Trap(trap),
    };
    facts.fetched = Some(seen.fetched);
    facts.at = seen.at;
    facts.finds = None;
    facts.traps = Some(trapped_by(&Some(seen.fetched.instr), after, trap));
    facts.leaves = None;
    facts.sets = UpToTwo::Zero;
    facts.clears = None;
}

/// The facts of an instruction that was done, with the hart, the memory and the origins after it.
fn done_facts(seen: &Seen, outcome: Outcome, after: Moment<'_>, facts: &mut StepFacts)
    requires { HasTable after }
    ensures { (hart : HartState) (memory : List CapValue) (from later : Origins) →
        IsSeen seen.now facts.old after.entry.number hart memory from →
        Tells after.entry.origins.now later → IsPlaced memory seen.now.at →
        IsPlaced after.entry.ram.now seen.now.at →
        facts.new ≡ done_facts after.entry.number hart memory from seen.now.fetched
        (stepped_to after.entry outcome) later }
{
    facts.entry = Entry {
        hart: after.number,
        pc: seen.pc,
        outcome,
    };
    facts.fetched = Some(seen.fetched);
    facts.at = seen.at;
    facts.traps = None;
    facts.leaves = if is_store(&seen.action) {
        found_at(seen.at, after)
    } else {
        None
    };
    facts.sets = each_named(sets_of(&seen.action), after);
}

/// The address of an access, where it is aligned and in RAM; else that of the first byte of RAM.
fn address_in(at: Option<Extent>, ram: &Ram) -> u64
    ensures value { IsPlaced ram.now at → result ≡ address_accessed at }
    ensures below { result < ram_base + 2 ^ 20 }
    ensures granule { granule_number result < length ram.now }
{
    // The count's clause says that memory has a granule, and ends below RAM's greatest size.
    let _count = ram.granule_count();
    let Some(extent) = at else {
        return 0;
    };
    if !ram.fits(extent.address, extent.bytes) {
        return 0;
    }
    extent.address
}

/// The flows of an instruction that was done, in the memory after it.
fn instruction_flows(seen: &Seen, ram: &Ram) -> StepFlows
    ensures value { IsPlaced ram.now seen.now.at →
        list_of result ≡ flows_at seen.now.fetched.instr (address_accessed seen.now.at) }
    ensures spots { AreSpots (length ram.now) (list_of result) }
{
    flows(&seen.fetched.instr, address_in(seen.at, ram))
}

/// The flows of a step, by what was seen before it.
pub fn flows_of_step(seen: &Option<Seen>, outcome: Outcome, ram: &Ram) -> StepFlows
    ensures value { (program : List Instr) (number : ℕ) (hart after : HartState)
        (memory : List CapValue) (from : Origins) (facts : StepFacts) →
        IsSeenBefore seen.now facts program number hart memory from →
        hart_step program hart memory
        ≡ record { hart = after; memory = ram.now; outcome = outcome } →
        list_of result ≡ step_flows program hart memory }
    ensures spots { AreSpots (length ram.now) (list_of result) }
{
    match outcome {
        Outcome::Done => match seen {
            Some(seen) => instruction_flows(seen, ram),
            None => StepFlows::Nothing,
        },
        Outcome::Halt => StepFlows::Nothing,
        Outcome::Trap(_) => StepFlows::Nothing,
    }
}

/// The facts of an instruction, by its outcome.
fn instruction_facts(seen: &Seen, outcome: Outcome, after: Moment<'_>, facts: &mut StepFacts)
    requires { HasTable after }
    ensures { (hart : HartState) (memory : List CapValue) (from later : Origins) →
        IsSeen seen.now facts.old after.entry.number hart memory from →
        Tells after.entry.origins.now later →
        (IsNotTrap outcome → IsPlaced memory seen.now.at) →
        (IsNotTrap outcome → IsPlaced after.entry.ram.now seen.now.at) →
        ((trap : Trap) → outcome ≡ Outcome.Trap trap → IsStopped hart after.entry.hart.now) →
        facts.new ≡ instruction_facts outcome after.entry.number hart memory from
        seen.now.fetched (stepped_to after.entry outcome) later }
{
    match outcome {
        Outcome::Done => done_facts(seen, Outcome::Done, after, facts),
        Outcome::Halt => done_facts(seen, Outcome::Halt, after, facts),
        Outcome::Trap(trap) => trapped_facts(seen, after.number, trap, after.hart, facts),
    }
}

/// Fills in the facts of a step, by what was seen before it and what is there after it.
pub fn after_step(seen: &Option<Seen>, outcome: Outcome, after: Moment<'_>, facts: &mut StepFacts)
    requires { HasTable after }
    ensures { (program : List Instr) (hart : HartState) (memory : List CapValue)
        (from later : Origins) →
        IsSeenBefore seen.now facts.old program after.entry.number hart memory from →
        Tells after.entry.origins.now later →
        hart_step program hart memory ≡ stepped_to after.entry outcome →
        facts.new ≡ facts_by (fetched_of program hart.pcc) after.entry.number hart memory from
        (stepped_to after.entry outcome) later }
{
    match seen {
        None => fetch_facts(after.number, outcome, after.hart, facts),
        Some(seen) => instruction_facts(seen, outcome, after, facts),
    }
}

impl StepFacts {
    /// Facts that are still to be filled in: those of a step that did nothing.
    pub fn blank() -> StepFacts
        ensures { result ≡ blank_facts }
    {
        StepFacts {
            entry: Entry {
                hart: 0,
                pc: 0,
                outcome: Outcome::Done,
            },
            fetched: None,
            reads: UpToTwo::Zero,
            at: None,
            finds: None,
            traps: None,
            leaves: None,
            sets: UpToTwo::Zero,
            clears: None,
        }
    }
}
