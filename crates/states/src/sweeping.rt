//! Sweeps of memories as rows of numbers.

ghost use Rattle.std.specs.Prelude.{◌≡◌, ℕ, ◌<◌, List, length, slice_get, Some, IsSome, IfOk};
ghost use Rattle.cap_model.specs.results.Swept.{swept};
ghost use Rattle.cap_model.specs.values.CapValue.{CapValue};
ghost use Rattle.cheri_model.specs.runs.Sweeps.{swept_memory};
ghost use Rattle.state_store.specs.Numbered.{each};
ghost use Rattle.state_store.specs.Stores.{Keeps};

use cap_ops::Cap;
use schedules::SweepRange;
use state_store::Store;
use std::alloc::AllocError;

/// The number of a value after a sweep. Fails only when out of memory, or of numbers.
fn swept_value(store: &mut Store, id: u32, range: SweepRange) -> Result<u32, AllocError>
    requires { id < length store.old.values }
    ensures kept { Keeps store.old store.new }
    ensures same_harts { store.new.harts ≡ store.old.harts }
    ensures numbered { IfOk result (λ after. (v : CapValue) →
        slice_get store.old.values id ≡ Some v →
        slice_get store.new.values after ≡ Some (swept range.lo range.hi v)) }
{
    let value = Cap::of_value(store.value(id));
    if !value.is_in_sweep(range.lo, range.hi) {
        return Ok(id);
    }
    store.number_value(value.clear_tag().value())
}

/// Sweeps the memory whose granules' values have these numbers. Fails only when out of memory, or
/// of numbers.
pub fn sweep_row(store: &mut Store, row: &mut [u32], range: SweepRange) -> Result<(), AllocError>
    requires { IsSome (each (slice_get store.old.values) row.old) }
    ensures kept { Keeps store.old store.new }
    ensures same_harts { store.new.harts ≡ store.old.harts }
    ensures size { length row.new ≡ length row.old }
    ensures swept { IfOk result (λ _. (m : List CapValue) →
        each (slice_get store.old.values) row.old ≡ Some m →
        each (slice_get store.new.values) row.new ≡ Some (swept_memory range.lo range.hi m)) }
{
    for place in 0..row.len() {
        let id = swept_value(store, row[place], range)?;
        row[place] = id;
    }
    Ok(())
}
