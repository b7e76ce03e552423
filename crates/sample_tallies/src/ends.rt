//! The states in which runs ended.

ghost use Rattle.std.specs.Prelude.{◌≡◌, ◌<◌, ◌+◌, ◌^◌, ◌≤◌, ℕ, List, [], ◌∷◌};
ghost use Rattle.std.specs.Prelude.{Some, None, length, IfSome, IfOk, OnOk, OnErr, slice_get};
ghost use Rattle.cap_model.specs.values.CapValue.{CapValue};
ghost use Rattle.cheri_model.specs.runs.Machine.{MachineState};
ghost use Rattle.interner.specs.Rows.{IsRow, IsDistinct};
ghost use Rattle.state_store.specs.Stores.{state_of, memory_at, Keeps};
ghost use Rattle.sample_tallies.specs.Tables.{Entry, with_entry, with_entries};
ghost use Rattle.sample_tallies.specs.SameStates.{same_state};
ghost use Rattle.sample_tallies.specs.Tallies.{ended_by};
ghost use Rattle.sample_tallies.specs.Counts.{IsSeen};

use crate::numbering::Numbering;
use crate::seen::Seen;
use cheri_model::MAX_HARTS;
use hart::Hart;
use interner::Interner;
use sample_runs::{RunEnd, RunMemory};
use shown_states::Loaded;
use state_store::State;
use std::alloc::{AllocError, Global};
use std::marker::Model;
use tagged_mem::Ram;

/// States in which runs of a machine ended, each once, in the order in which they came.
#[derive(Drop)]
pub struct Ends {
    harts: usize,
    numbering: Numbering,
    /// For each state the numbers of its memory and of its harts.
    rows: Interner,
    /// For each of them the runs.
    seen: Vec<Seen>,
    /// A row to work in.
    blank: Vec<u32>,
}

impl Model for Ends {
    ghost use Rattle.std.specs.Prelude.{map};
    ghost use Rattle.sample_tallies.specs.Tables.{table_of};
    ghost use Rattle.sample_tallies.specs.Counts.{EndsParts, meant, AreEnds};

    ghost Value = { EndsParts };

    ghost view = { λ e. record {
      harts = e.harts;
      granules = e.numbering.store.granules;
      opening = e.numbering.opening;
      table = table_of (map (meant e.numbering.store) e.rows.rows) e.seen.items;
    } };

    ghost invariant = { λ e. AreEnds e.numbering.store e.harts e.rows e.seen.items };
}

/// Writes the row of a state whose memory has this number. Fails only when out of memory, or of
/// numbers.
fn put_row(
    numbering: &mut Numbering,
    row: &mut Vec<u32>,
    memory: u32,
    harts: &[Hart],
) -> Result<(), AllocError>
    ensures state { OnOk result ((m : List CapValue) →
        memory_at numbering.old.store memory ≡ Some m →
        state_of numbering.new.store row.new.items
        ≡ Some (record { harts = harts.now; memory = m })) }
    ensures kept { Keeps numbering.old.store numbering.new.store }
    ensures opening { numbering.new.opening ≡ numbering.old.opening }
{
    row.clear();
    row.push(memory)?;
    for hart in harts {
        let number = numbering.number_hart(hart)?;
        row.push(number)?;
    }
    Ok(())
}

/// Adds what was seen of a row. Fails only when out of memory or of numbers, or where a count
/// reaches 2^64; then nothing changes.
fn see_row(
    rows: &mut Interner,
    ended: &mut Vec<Seen>,
    row: &[u32],
    seen: Seen,
) -> Result<(), AllocError>
    requires width { length row.now ≡ rows.old.width }
    requires as_many { length ended.old.items ≡ length rows.old.rows }
    ensures seen { OnOk result
        (IsSeen rows.old rows.new row.now seen ended.old.items ended.new.items) }
    ensures same_width { rows.new.width ≡ rows.old.width }
    ensures as_many { length ended.new.items ≡ length rows.new.rows }
    ensures same_rows { OnErr result (rows.new ≡ rows.old) }
    ensures unchanged { OnErr result (ended.new.items ≡ ended.old.items) }
{
    if let Some(number) = rows.find(row) {
        let place = number as usize;
        let sum = ended[place].and(seen)?;
        ended[place] = sum;
        return Ok(());
    }
    ended.push(seen)?;
    match rows.insert(row) {
        Ok(_) => Ok(()),
        Err(fault) => {
            ended.pop();
            Err(fault)
        }
    }
}

impl Ends {
    /// None, of a machine with so many harts and granules.
    pub fn new(alloc: Global, harts: usize, granules: usize) -> Ends
        requires { harts ≤ MAX_HARTS }
        ensures { result
            ≡ record { harts = harts; granules = granules; opening = None; table = [] } }
    {
        Ends {
            harts,
            numbering: Numbering::new(alloc, granules),
            rows: Interner::new(alloc, harts + 1),
            seen: Vec::new(alloc),
            blank: Vec::new(alloc),
        }
    }

    /// How many there are.
    pub fn len(&self) -> usize
        ensures count { result ≡ length self.now.table }
        ensures few { result < 2 ^ 32 }
    {
        self.rows.len()
    }

    /// The state of this number.
    pub fn state(&self, number: u32) -> State<'_>
        requires { number < length self.now.table }
        ensures state { (end : Entry MachineState) → slice_get self.now.table number ≡ Some end →
            state_of result.store.now result.row.now ≡ Some end.key }
        ensures harts { length result.row.now ≡ self.now.harts + 1 }
        ensures granules { result.store.now.granules ≡ self.now.granules }
    {
        let Some(row) = self.rows.row(number) else {
            unreachable!()
        };
        State {
            store: self.numbering.store(),
            row,
        }
    }

    /// The runs that ended in it.
    pub fn seen(&self, number: u32) -> Seen
        requires { number < length self.now.table }
        ensures { (end : Entry MachineState) → slice_get self.now.table number ≡ Some end →
            result ≡ end.seen }
    {
        self.seen[number as usize]
    }

    /// Adds what was seen of the end in this state. Fails only when out of memory or of numbers, or
    /// where a count reaches 2^64.
    pub fn see(
        &mut self,
        alloc: Global,
        harts: &[Hart],
        ram: &Ram,
        seen: Seen,
    ) -> Result<(), AllocError>
        requires harts { length harts.now ≡ self.old.harts }
        requires granules { length ram.now ≡ self.old.granules }
        ensures table { OnOk result (self.new.table ≡ with_entry same_state self.old.table
            (record { key = record { harts = harts.now; memory = ram.now }; seen = seen })) }
        ensures same_harts { self.new.harts ≡ self.old.harts }
        ensures same_granules { self.new.granules ≡ self.old.granules }
        ensures same_opening { self.new.opening ≡ self.old.opening }
    {
        let memory = self.numbering.number_memory(alloc, ram)?;
        put_row(&mut self.numbering, &mut self.blank, memory, harts)?;
        // Their clauses say that no state is two rows, and no row is there twice.
        let _counts = (self.numbering.store().granules(), self.rows.len());
        see_row(&mut self.rows, &mut self.seen, self.blank.as_slice(), seen)
    }

    /// The same of a run that ended in this state, whose memory opened as those before.
    fn see_left(
        &mut self,
        alloc: Global,
        harts: &[Hart],
        memory: &RunMemory,
        seen: Seen,
    ) -> Result<(), AllocError>
        requires harts { length harts.now ≡ self.old.harts }
        requires granules { length memory.now.now ≡ self.old.granules }
        requires opening { IfSome self.old.opening (λ o. o ≡ memory.now.opening) }
        ensures table { OnOk result (self.new.table ≡ with_entry same_state self.old.table
            (record { key = record { harts = harts.now; memory = memory.now.now }; seen = seen })) }
        ensures same_harts { self.new.harts ≡ self.old.harts }
        ensures same_granules { self.new.granules ≡ self.old.granules }
        ensures opening { IfSome self.new.opening (λ o. o ≡ memory.now.opening) }
    {
        let number = self.numbering.number_left(alloc, memory)?;
        put_row(&mut self.numbering, &mut self.blank, number, harts)?;
        // Their clauses say that no state is two rows, and no row is there twice.
        let _counts = (self.numbering.store().granules(), self.rows.len());
        see_row(&mut self.rows, &mut self.seen, self.blank.as_slice(), seen)
    }

    /// Adds the end of a run that came to this state, where it ended.
    pub fn see_run(
        &mut self,
        alloc: Global,
        end: RunEnd,
        harts: &[Hart],
        memory: &RunMemory,
        seen: Seen,
    ) -> Result<(), AllocError>
        requires harts { length harts.now ≡ self.old.harts }
        requires granules { length memory.now.now ≡ self.old.granules }
        requires opening { IfSome self.old.opening (λ o. o ≡ memory.now.opening) }
        ensures table { OnOk result (self.new.table ≡ with_entries same_state self.old.table
            (ended_by end (record { harts = harts.now; memory = memory.now.now }) seen)) }
        ensures same_harts { self.new.harts ≡ self.old.harts }
        ensures same_granules { self.new.granules ≡ self.old.granules }
        ensures opening { IfSome self.new.opening (λ o. o ≡ memory.now.opening) }
    {
        match end {
            RunEnd::Ended => self.see_left(alloc, harts, memory, seen),
            RunEnd::Hung => Ok(()),
            RunEnd::Cut => Ok(()),
        }
    }

    /// Adds all ends of others, each of which is loaded into a state of the machine.
    pub fn see_all(
        &mut self,
        alloc: Global,
        others: &Ends,
        blank: &mut Loaded,
    ) -> Result<(), AllocError>
        requires harts { others.now.harts ≡ self.old.harts }
        requires granules { others.now.granules ≡ self.old.granules }
        requires blank_harts { length blank.old.harts ≡ self.old.harts }
        requires blank_granules { length blank.old.memory ≡ self.old.granules }
        ensures table { OnOk result
            (self.new.table ≡ with_entries same_state self.old.table others.now.table) }
        ensures same_harts { self.new.harts ≡ self.old.harts }
        ensures same_granules { self.new.granules ≡ self.old.granules }
        ensures same_opening { self.new.opening ≡ self.old.opening }
        ensures blank_harts { length blank.new.harts ≡ self.old.harts }
        ensures blank_granules { length blank.new.memory ≡ self.old.granules }
    {
        for number in 0..others.len() as u32 {
            blank.load(others.state(number));
            self.see(alloc, blank.harts(), blank.ram(), others.seen(number))?;
        }
        Ok(())
    }
}
