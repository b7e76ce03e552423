//! Who holds capabilities.

ghost use Rattle.std.specs.Prelude.{◌≡◌, ◌<◌, length, Some};
ghost use Rattle.authorities.specs.Holders.{place_of, part_in, part_numbers, HasPart};

use states::MachineGraph;

/// Who holds capabilities: the hart with this number, or memory.
#[derive(Clone, Copy)]
pub enum Holder {
    Hart(u32),
    Memory,
}

impl Holder {
    /// The number of its part of a state, in the state's row.
    pub fn part(self, row: &[u32]) -> u32
        requires { place_of self < length row.now }
        ensures { result ≡ part_in self row.now }
    {
        match self {
            Holder::Hart(number) => row[number as usize + 1],
            Holder::Memory => row[0],
        }
    }

    /// The numbers of the values that it holds in the state of a row.
    pub fn numbers<'a>(self, graph: &'a MachineGraph, row: &[u32]) -> &'a [u32]
        requires { HasPart graph.now self row.now }
        ensures { part_numbers self graph.now.store (part_in self row.now) ≡ Some result.now }
    {
        match self {
            Holder::Hart(number) => hart_numbers(graph, row, number),
            Holder::Memory => memory_numbers(graph, row),
        }
    }
}

/// The numbers of a hart's values: its row without the first one, its status.
fn hart_numbers<'a>(graph: &'a MachineGraph, row: &[u32], number: u32) -> &'a [u32]
    requires { HasPart graph.now (Holder.Hart number) row.now }
    ensures { part_numbers (Holder.Hart number) graph.now.store
        (part_in (Holder.Hart number) row.now) ≡ Some result.now }
{
    let hart = graph.store().hart(Holder::Hart(number).part(row));
    match hart.split_first() {
        Some((_status, numbers)) => numbers,
        None => hart,
    }
}

/// The numbers of memory's values.
fn memory_numbers<'a>(graph: &'a MachineGraph, row: &[u32]) -> &'a [u32]
    requires { HasPart graph.now Holder.Memory row.now }
    ensures { part_numbers Holder.Memory graph.now.store (part_in Holder.Memory row.now)
        ≡ Some result.now }
{
    graph.store().memory(Holder::Memory.part(row))
}
