//! What a graph is.

ghost use Rattle.std.specs.Prelude.{
  ◌≡◌,
  ℕ,
  ◌<◌,
  ◌≤◌,
  List,
  length,
  Option,
  Some,
  None,
  IsSome,
  IfOk,
};
ghost use Rattle.graph_search.specs.Graphs.{LeadsTo};

use std::alloc::AllocError;

/// A graph whose nodes are rows of numbers. A node has a state as its meaning, and edges go from
/// state to state: each state has at most one edge of each label.
///
/// A step may number new things, as the parts that rows are made of, and so give rows a meaning
/// that had none. What a row means never changes after that, and no two rows mean the same.
pub trait Graph {
    /// What nodes mean.
    ghost State: { Type 0 };

    /// The state that a row of numbers means, if any.
    ghost meaning: { Self → List ℕ → Option State };

    /// The state to which the edge with this label leads, if there is one.
    ghost next: { Self → State → ℕ → Option State };

    /// How many numbers a node has.
    ghost width: { Self → ℕ };

    /// Labels are the numbers below this one.
    ghost label_count: { Self → ℕ };

    /// How many numbers a node has.
    fn width(&self) -> usize
        ensures { result ≡ width self.now };

    /// How many labels there are.
    fn label_count(&self) -> u32
        ensures { result ≡ label_count self.now };

    /// Follows a node's edge with this label, and writes the node to which it leads. False where
    /// there is no such edge; `to` may be written then, too. Fails only when out of memory or of
    /// numbers.
    fn step(&mut self, node: &[u32], label: u32, to: &mut [u32]) -> Result<bool, AllocError>
        requires meant { IsSome (meaning self.old node.now) }
        requires labelled { label < label_count self.old }
        requires room { length to.old ≡ width self.old }
        ensures same_graph { next self.new ≡ next self.old }
        ensures same_labels { label_count self.new ≡ label_count self.old }
        ensures same_width { width self.new ≡ width self.old }
        ensures kept { (n : List ℕ) (s : State) → meaning self.old n ≡ Some s →
            meaning self.new n ≡ Some s }
        ensures one_node { (m n : List ℕ) (s : State) → meaning self.new m ≡ Some s →
            meaning self.new n ≡ Some s → m ≡ n }
        ensures value { IfOk result (λ leads. (s : State) → meaning self.old node.now ≡ Some s →
            LeadsTo (meaning self.new) leads to.new (next self.old s label)) };

    /// Every edge has a label.
    ghost none_beyond: { (g : Self) (s : State) (l : ℕ) → label_count g ≤ l → next g s l ≡ None };
}
