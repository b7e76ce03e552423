//! The rows of a survey's states.

ghost use Rattle.std.specs.Prelude.{◌≡◌, ◌+◌, length};
ghost use Rattle.forgotten_states.specs.Surveys.{at, count};
ghost use Rattle.graph_search.specs.Trees.{state_at};
ghost use Rattle.states.specs.Graphs.{state_in};

use crate::surveys::Survey;
use graph_search::Reached;
use states::MachineGraph;

/// The states of a survey as rows, and the graph that says what a row means: for questions that
/// look at each part of a state once, however many states have it.
#[derive(Clone, Copy)]
pub struct SurveyRows<'a> {
    pub graph: &'a MachineGraph,
    pub reached: &'a Reached,
}

impl<'a> Survey<'a> {
    /// The rows of its states.
    pub fn rows(&self) -> SurveyRows<'_>
        ensures states { state_at (state_in result.graph.now) result.reached.now.nodes
            ≡ at self.now }
        ensures count { length result.reached.now.nodes ≡ count self.now }
        ensures harts { length result.graph.now.image.harts ≡ length self.now.image.harts }
        ensures width { result.reached.now.width ≡ length self.now.image.harts + 1 }
    {
        SurveyRows {
            graph: self.nodes.graph.machine(),
            reached: &self.nodes.reached,
        }
    }
}
