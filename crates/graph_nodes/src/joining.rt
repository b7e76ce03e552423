//! Rows that are being added.

ghost use Rattle.std.specs.Prelude.{
  ◌≡◌,
  ◌++◌,
  ◌∷◌,
  [],
  ◌*◌,
  ◌≤◌,
  ℕ,
  List,
  Option,
  true,
  false,
  Some,
  length,
  slice_get,
  IfOk,
};
ghost use Rattle.interner.specs.Rows.{Rows};
ghost use Rattle.graph_nodes.specs.Tasks.{IsReady, IsTakenIn};
ghost use Rattle.graph_nodes.specs.Parted.{nodes_in, IsFoundFor, IsParted};
ghost use Rattle.graph_nodes.specs.Sending.{ArePairs, IsTarget};
ghost use Rattle.graph_nodes.specs.Joined.{targets_of, AreJoined};
ghost use Rattle.graph_nodes.specs.declared.tasks.Task.{Task};
ghost use Rattle.graph_nodes.specs.declared.parted.Sent.{Sent};
ghost use Rattle.graph_nodes.specs.Joining.{AreBegun, IsBatch, IsJoining};

use crate::crew::Crew;
use crate::nodes::Nodes;
use crate::parted::{Parted, Place, Sent};
use crate::tasks::Task;
use std::alloc::{AllocError, Global};

/// Nodes to which rows were added; for each, whether it was new.
#[derive(Drop)]
pub struct Joined {
    pub nodes: Nodes,
    pub fresh: Vec<bool>,
}

/// Nodes in parts whose tasks were begun.
#[derive(Drop)]
pub struct Batch<B> {
    width: usize,
    order: Vec<Place>,
    /// The parts' tasks, the last one first.
    begun: Vec<B>,
    /// For each target, where it was sent.
    sent: Vec<Option<Sent>>,
    alloc: Global,
}

/// How far it is.
#[derive(Drop)]
pub enum Stage<B> {
    Over(Joined),
    Begun(Batch<B>),
}

/// Nodes to which rows are being added.
#[derive(Drop)]
pub struct Joining<B> {
    pub(crate) stage: Stage<B>,
}

/// Begins the tasks, the last one first. Fails only when out of memory, and then before the first.
fn begin_all<C: Crew>(
    alloc: Global,
    crew: &C,
    tasks: Vec<Task>,
) -> Result<Vec<C::Begun>, AllocError>
    requires { (p : ℕ) (task : Task) → slice_get tasks.items p ≡ Some task → IsReady task }
    ensures { IfOk result (λ begun. AreBegun C.is_of begun.items tasks.items) }
{
    let mut tasks = tasks;
    // There is room for each before the first one begins.
    let mut begun = Vec::with_capacity(alloc, tasks.len())?;
    while let Some(task) = tasks.pop() {
        begun.push(crew.start(task))?;
    }
    Ok(begun)
}

/// Sends the targets to their parts, and begins the parts' tasks. Fails only when out of memory, or
/// of numbers after 2^32 - 1 rows.
pub fn begin<C: Crew>(
    alloc: Global,
    crew: &C,
    parted: Parted,
    leads: &[bool],
    rows: &[u32],
) -> Result<Joining<C::Begun>, AllocError>
    requires whole { IsParted parted }
    requires room { length leads.now * parted.width ≤ length rows.now }
    ensures { IfOk result (λ joining. IsJoining C.is_of joining (nodes_in parted)
        (targets_of parted.width leads.now rows.now (length leads.now))) }
{
    let mut parted = parted;
    let sent = parted.send(alloc, leads, rows)?;
    let Parted {
        width,
        tasks,
        order,
    } = parted;
    let begun = begin_all(alloc, crew, tasks)?;
    Ok(Joining {
        stage: Stage::Begun(Batch {
            width,
            order,
            begun,
            sent,
            alloc,
        }),
    })
}

/// Puts a task that is done to the others, unless memory ran out. Whether it is there.
fn keep(tasks: &mut Vec<Task>, task: Task) -> bool
    ensures { result ≡ true →
        (tasks.new.items ≡ tasks.old.items ++ task ∷ []) × (task.failed ≡ false) }
{
    if task.failed {
        return false;
    }
    tasks.push(task).is_ok()
}

/// Waits until all tasks are done. Fails only when out of memory, or of numbers after 2^32 - 1
/// rows.
fn finish_all<C: Crew>(
    alloc: Global,
    crew: &C,
    begun: Vec<C::Begun>,
) -> Result<Vec<Task>, AllocError>
    ensures { IfOk result (λ done. (tasks : List Task) →
        AreBegun C.is_of begun.items tasks → ArePairs IsTakenIn tasks done.items) }
{
    let mut begun = begun;
    let mut tasks = Vec::new(alloc);
    let mut whole = true;
    // Each is waited for, also after memory ran out.
    while let Some(task) = begun.pop() {
        let kept = keep(&mut tasks, crew.finish(task));
        whole = whole && kept;
    }
    if !whole {
        return Err(AllocError);
    }
    Ok(tasks)
}

impl Parted {
    /// Gives the row of a target its number, unless it has one. Whether it was new.
    fn join_one(&mut self, sent: Option<Sent>) -> Result<bool, AllocError>
        requires whole { IsParted self.old }
        requires there { (target : Option (List ℕ))
            × IsTarget (IsFoundFor self.old.tasks.items) sent target }
        ensures whole { IsParted self.new }
        ensures same_width { self.new.width ≡ self.old.width }
        ensures others { (other : Sent) (row : List ℕ) → IsFoundFor self.old.tasks.items other row →
            IsFoundFor self.new.tasks.items other row }
        ensures joined { IfOk result (λ fresh. (target : Option (List ℕ)) →
            IsTarget (IsFoundFor self.old.tasks.items) sent target →
            AreJoined (target ∷ []) (fresh ∷ [])
            (nodes_in self.old).rows (nodes_in self.new).rows) }
    {
        let Some(sent) = sent else {
            return Ok(false);
        };
        let task = &self.tasks[sent.part as usize];
        let place = task.places[sent.row as usize];
        let before = self.len();
        self.number(Place {
            part: sent.part,
            row: place,
        })?;
        Ok(before < self.len())
    }
}

impl<B> Batch<B> {
    /// Waits until all tasks are done, and gives new rows their numbers.
    fn finish<C: Crew<Begun = B>>(self, crew: &C) -> Result<Joined, AllocError>
        requires begun { (nodes : Rows) × (targets : List (Option (List ℕ)))
            × IsBatch C.is_of self nodes targets }
        ensures joined { IfOk result (λ joined. (nodes : Rows) (targets : List (Option (List ℕ))) →
            IsBatch C.is_of self nodes targets →
            AreJoined targets joined.fresh.items nodes.rows joined.nodes.rows) }
        ensures width { IfOk result (λ joined. (nodes : Rows) (targets : List (Option (List ℕ))) →
            IsBatch C.is_of self nodes targets → joined.nodes.width ≡ nodes.width) }
    {
        let tasks = finish_all(self.alloc, crew, self.begun)?;
        let mut parted = Parted {
            width: self.width,
            tasks,
            order: self.order,
        };
        let mut fresh = Vec::new(self.alloc);
        for k in 0..self.sent.len() {
            let new = parted.join_one(self.sent[k])?;
            fresh.push(new)?;
        }
        Ok(Joined {
            nodes: Nodes::from_parts(parted),
            fresh,
        })
    }
}

impl<B> Joining<B> {
    /// Waits until all rows are added. Fails only when out of memory, or of numbers after 2^32 - 1
    /// rows.
    pub fn finish<C: Crew<Begun = B>>(self, crew: &C) -> Result<Joined, AllocError>
        requires begun { (nodes : Rows) × (targets : List (Option (List ℕ)))
            × IsJoining C.is_of self nodes targets }
        ensures joined { IfOk result (λ joined. (nodes : Rows) (targets : List (Option (List ℕ))) →
            IsJoining C.is_of self nodes targets →
            AreJoined targets joined.fresh.items nodes.rows joined.nodes.rows) }
        ensures width { IfOk result (λ joined. (nodes : Rows) (targets : List (Option (List ℕ))) →
            IsJoining C.is_of self nodes targets → joined.nodes.width ≡ nodes.width) }
    {
        match self.stage {
            Stage::Over(joined) => Ok(joined),
            Stage::Begun(batch) => batch.finish(crew),
        }
    }
}
