//! The row of a state with its harts in order.

ghost use Rattle.std.specs.Prelude.{◌≡◌, ◌+◌, ◌≤◌, Some, length, IsSome};
ghost use Rattle.cheri_model.specs.runs.Machine.{MachineState};
ghost use Rattle.hart_order.specs.Arrangements.{arranged, arranged_state};
ghost use Rattle.state_store.specs.Stores.{state_of};

use crate::arranging::{HartGroups, arrange};
use state_store::Store;

/// Puts the harts of a state in order, by its row in a store, each group for itself. With each hart
/// goes what stands in its place in `places`.
pub fn arrange_row(store: &Store, groups: &HartGroups, row: &mut [u32], places: &mut [u32])
    requires meant { IsSome (state_of store.now row.old) }
    requires places { length places.old + 1 ≡ length row.old }
    ensures state { (s : MachineState) → state_of store.now row.old ≡ Some s →
        (state_of store.now row.new ≡ Some (arranged_state groups.now s))
        × (places.new ≡ (arranged groups.now (length s.harts)
        (record { harts = s.harts; places = places.old })).places) }
    ensures row { length row.new ≡ length row.old }
    ensures places { length places.new ≡ length places.old }
{
    arrange(store, groups, &mut row[1..], places);
}

/// The same of at most 8 harts, where it doesn't matter where they stood.
pub fn put_in_order(store: &Store, groups: &HartGroups, row: &mut [u32])
    requires meant { IsSome (state_of store.now row.old) }
    requires few { length row.old ≤ 9 }
    ensures state { (s : MachineState) → state_of store.now row.old ≡ Some s →
        state_of store.now row.new ≡ Some (arranged_state groups.now s) }
    ensures row { length row.new ≡ length row.old }
{
    let mut places = [0; 8];
    let count = row.len() - 1;
    arrange_row(store, groups, row, &mut places[..count]);
}
