//! The states that a whole search kept, which can be asked several questions.

ghost use Rattle.std.specs.Prelude.{
  ◌≡◌,
  ℕ,
  ◌<◌,
  [],
  length,
  slice_get,
  IsSome,
  Some,
  IfOk,
};
ghost use Rattle.cheri_model.specs.runs.Machine.{MachineState};
ghost use Rattle.explore_turns.specs.Orders.{AreOfHarts, order_of_turns};
ghost use Rattle.forgotten_states.specs.Nodes.{IsFirstPassing};
ghost use Rattle.forgotten_states.specs.Sought.{IsOrderTo};
ghost use Rattle.forgotten_states.specs.Surveys.{AreTurnsTo, IsSurvey, at, count};
ghost use Rattle.hart_order.specs.GroupedTurns.{grouped_turn};
ghost use Rattle.loop_search.specs.Verdicts.{IsVerdict};
ghost use Rattle.schedules.specs.Schedules.{AreLabelsOf};
ghost use Rattle.state_store.specs.Stores.{state_of};

use crate::nodes::{Nodes, Turns, steps_of};
use cheri_model::{Image, Op};
use explore_turns::order_of_turns;
use loop_search::{Verdict, search_loops};
use state_store::State;
use states::{Room, StateTest};
use std::alloc::{AllocError, Global};
use std::marker::Model;

/// The states that turns lead to from an image's opening state, after each of which harts forget
/// the registers that don't matter, and those of one group are put in order: the first ones, or
/// all. They are numbered from 0 in the order of their witnesses, and can be asked several
/// questions, to none of which these registers or the order of such harts matter.
#[derive(Drop)]
pub struct Survey<'a> {
    pub(crate) turns: Turns<'a>,
    pub(crate) nodes: Nodes<'a>,
}

impl<'a> Model for Survey<'a> {
    ghost use Rattle.forgotten_states.specs.Surveys.{IsKeptSurvey, SurveyParts, survey_of};

    ghost Value = { SurveyParts };

    ghost view = { λ a. survey_of a.turns.image.now a.turns.sees.now a.turns.live.now
        a.turns.groups a.nodes.graph a.nodes.reached a.nodes.limit };

    ghost invariant = { λ a. IsKeptSurvey a.turns.image.now a.turns.sees.now a.turns.live.now
        a.turns.groups a.nodes.graph a.nodes.reached a.nodes.limit };
}

/// What was found of the loops of a survey's states, and the survey.
#[derive(Drop)]
pub struct Looped<'a> {
    pub survey: Survey<'a>,
    pub verdict: Verdict,
}

impl<'a> Survey<'a> {
    /// The image.
    pub fn image(&self) -> &Image
        ensures { result.now ≡ self.now.image }
    {
        self.turns.image
    }

    /// How many states there are.
    pub fn len(&self) -> u32
        ensures count { result ≡ count self.now }
        ensures survey { IsSurvey self.now }
    {
        self.nodes.reached.len()
    }

    /// Whether these are all states that any order leads to.
    pub fn is_complete(&self) -> bool
        ensures { result ≡ self.now.complete }
    {
        self.nodes.reached.is_complete()
    }

    /// The number of the first state that passes a test.
    pub fn first_passing<T: StateTest>(&self, test: &T) -> Option<u32>
        ensures { IsFirstPassing (at self.now) (count self.now) (T.passing test.now) result }
    {
        self.nodes.first_passing(0, test)
    }

    /// The state of this number, whose row is written to `room`.
    pub fn state<'b>(&'b self, number: u32, room: &'b mut Room) -> State<'b>
        requires there { number < count self.now }
        ensures state { at self.now number ≡ state_of result.store.now result.row.now }
        ensures meant { IsSome (state_of result.store.now result.row.now) }
    {
        self.nodes.state(number, room)
    }

    /// The order that tells the turns of the witness of the state of this number, step by step. The
    /// machine takes it, and the state that it leaves forgets to be this one, but for the order of
    /// harts of one group. Fails only when out of memory, or of numbers past 2^32.
    pub fn order_to(&self, alloc: Global, number: u32) -> Result<Vec<Op>, AllocError>
        requires there { number < count self.now }
        ensures { IfOk result (λ order. (s : MachineState) → at self.now number ≡ Some s →
            IsOrderTo self.now.image self.now.sight self.now.live self.now.groups s order.items) }
    {
        self.nodes.order_to(alloc, self.turns, number)
    }

    /// The operations with which the turns of that witness begin, without the quiet steps, by the
    /// numbers that the harts have in the machine. Fails as `order_to` does.
    pub fn turns_to(&self, alloc: Global, number: u32) -> Result<Vec<Op>, AllocError>
        requires there { number < count self.now }
        ensures { IfOk result (λ ops. (s : MachineState) → at self.now number ≡ Some s →
            AreTurnsTo self.now.image self.now.sight self.now.live self.now.groups s ops.items) }
    {
        self.nodes.turns_to(alloc, self.turns, number)
    }

    /// The operations of labels, each of which is a hart's number. Fails only when out of memory.
    pub fn operations(&self, alloc: Global, labels: &[u32]) -> Result<Vec<Op>, AllocError>
        requires { (i label : ℕ) → slice_get labels.now i ≡ Some label →
            label < length self.now.image.harts }
        ensures { IfOk result (λ ops. AreLabelsOf self.now.image [] labels.now ops.items) }
    {
        steps_of(alloc, self.turns.image, labels)
    }

    /// The order of turns that begin with these operations: each of them, and all quiet steps.
    /// Fails only when out of memory.
    pub fn order_of(&self, alloc: Global, ops: &[Op]) -> Result<Vec<Op>, AllocError>
        requires { AreOfHarts self.now.image ops.now }
        ensures { IfOk result (λ order. order.items
            ≡ order_of_turns self.now.image [] self.now.sight ops.now) }
    {
        order_of_turns(alloc, self.turns.image, &[], self.turns.sees, ops)
    }

    /// Looks for loops of the states, fair ones first. What was learned of single steps is kept.
    /// Fails only when out of memory, or of numbers past 2^32, and then drops the survey.
    pub fn loops(self, alloc: Global) -> Result<Looped<'a>, AllocError>
        ensures verdict { IfOk result (λ looped. IsVerdict
            (grouped_turn looped.survey.image looped.survey.sight looped.survey.live
            looped.survey.groups) (length looped.survey.image.harts) (at looped.survey)
            looped.survey.complete looped.verdict) }
        ensures same { IfOk result (λ looped. looped.survey ≡ self.entry) }
    {
        let turns = self.turns;
        let limit = self.nodes.limit;
        let mut graph = self.nodes.graph;
        let reached = self.nodes.reached;
        let harts = turns.image.harts().len() as u32;
        let verdict = search_loops(alloc, &mut graph, &reached, harts)?;
        let nodes = Nodes {
            graph,
            reached,
            limit,
        };
        Ok(Looped {
            survey: Survey { turns, nodes },
            verdict,
        })
    }
}
