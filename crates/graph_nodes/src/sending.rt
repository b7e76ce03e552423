//! Rows that are sent to the parts in which they belong.

ghost use Rattle.std.specs.Prelude.{
  ◌≡◌,
  ◌*◌,
  ◌≤◌,
  ◌<◌,
  ℕ,
  List,
  Option,
  Some,
  None,
  if◌then◌else◌,
  length,
  IfOk,
};
ghost use Rattle.graph_nodes.specs.Homes.{home_of};
ghost use Rattle.graph_nodes.specs.declared.parted.Sent.{Sent};
ghost use Rattle.graph_nodes.specs.Parted.{nodes_in, IsParted, IsSentTo};
ghost use Rattle.graph_nodes.specs.Sending.{ArePairs, IsTarget};
ghost use Rattle.graph_nodes.specs.Joined.{targets_of};

use crate::homes::home_of;
use crate::parted::{Parted, Sent};
use crate::tasks::row_at;
use std::alloc::{AllocError, Global};

impl Parted {
    /// Sends each target's row to the part in which it belongs, and says where it went. Fails only
    /// when out of memory, or of numbers after 2^32 - 1 rows.
    pub fn send(
        &mut self,
        alloc: Global,
        leads: &[bool],
        rows: &[u32],
    ) -> Result<Vec<Option<Sent>>, AllocError>
        requires whole { IsParted self.old }
        requires room { length leads.now * self.old.width ≤ length rows.now }
        ensures whole { IsParted self.new }
        ensures same_width { self.new.width ≡ self.old.width }
        ensures same_nodes { nodes_in self.new ≡ nodes_in self.old }
        ensures sent { IfOk result (λ sent. ArePairs
            (IsTarget (IsSentTo self.new.tasks.items)) sent.items
            (targets_of self.old.width leads.now rows.now (length leads.now))) }
    {
        let width = self.width;
        let mut sent = Vec::with_capacity(alloc, leads.len())?;
        for k in 0..leads.len() {
            let target = self.send_target(leads[k], row_at(rows, width, k))?;
            sent.push(target)?;
        }
        Ok(sent)
    }

    /// The same for one target.
    fn send_target(&mut self, leads: bool, row: &[u32]) -> Result<Option<Sent>, AllocError>
        requires whole { IsParted self.old }
        requires wide { length row.now ≡ self.old.width }
        ensures whole { IsParted self.new }
        ensures same_width { self.new.width ≡ self.old.width }
        ensures same_nodes { nodes_in self.new ≡ nodes_in self.old }
        ensures others { (sent : Sent) (other : List ℕ) → IsSentTo self.old.tasks.items sent other →
            IsSentTo self.new.tasks.items sent other }
        ensures sent { IfOk result (λ sent. IsTarget (IsSentTo self.new.tasks.items) sent
            (if leads then Some row.now else None)) }
    {
        if !leads {
            return Ok(None);
        }
        let part = home_of(row, self.tasks.len());
        let row = self.send_row(part, row)?;
        Ok(Some(Sent { part, row }))
    }

    /// Sends a row to this part, where it belongs, and says which of the rows sent there it is.
    fn send_row(&mut self, part: u32, row: &[u32]) -> Result<u32, AllocError>
        requires whole { IsParted self.old }
        requires wide { length row.now ≡ self.old.width }
        requires within { part < length self.old.tasks.items }
        requires home { part ≡ home_of (length self.old.tasks.items) row.now }
        ensures whole { IsParted self.new }
        ensures same_width { self.new.width ≡ self.old.width }
        ensures same_nodes { nodes_in self.new ≡ nodes_in self.old }
        ensures others { (sent : Sent) (other : List ℕ) → IsSentTo self.old.tasks.items sent other →
            IsSentTo self.new.tasks.items sent other }
        ensures sent { IfOk result (λ k.
            IsSentTo self.new.tasks.items (record { part = part; row = k }) row.now) }
    {
        let task = &mut self.tasks[part as usize];
        task.send(row)
    }
}
