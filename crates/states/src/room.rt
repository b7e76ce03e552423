//! Room for a state's row.

ghost use Rattle.std.specs.Prelude.{◌≡◌, ◌<◌, ◌≤◌, length, slice_get, replicate, Some};

use graph_search::Reached;

/// The most numbers that a state's row has: one for its memory, and one for each hart.
const MOST_NUMBERS: usize = 9;

/// Room for the row of a state.
#[derive(Clone, Copy)]
pub struct Room {
    row: [u32; MOST_NUMBERS],
}

impl Room {
    /// Room in which nothing was read yet: all of its numbers are 0.
    pub fn new() -> Room
        ensures { result.row ≡ replicate 9 0 }
    {
        Room {
            row: [0; MOST_NUMBERS],
        }
    }

    /// Reads a node that was found.
    pub fn read(&mut self, found: &Reached, number: u32) -> &[u32]
        requires few { found.now.width ≤ 9 }
        requires there { number < length found.now.nodes }
        ensures { slice_get found.now.nodes number ≡ Some result.now }
    {
        let row = &mut self.row[..found.width()];
        if !found.read(number, row) {
            unreachable!()
        }
        row
    }
}
