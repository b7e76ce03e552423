//! A hart as a row of numbers, and back.

ghost use Rattle.std.specs.Prelude.{◌≡◌, ℕ, ◌<◌, Some, length, slice_get, IsSome, IfOk};
ghost use Rattle.cheri_model.specs.steps.Hart.{HartState};
ghost use Rattle.state_store.specs.Numbered.{Extends};
ghost use Rattle.state_store.specs.Stores.{hart_of};

use crate::codes::{code_of, status_of};
use crate::values::Values;
use cap_ops::Cap;
use cheri_model::Reg;
use hart::Hart;
use std::alloc::AllocError;

/// How many numbers a hart has: its status, PCC, and the registers from c1 on.
pub const HART_WIDTH: usize = 33;

/// The row of a hart. Fails only when out of memory, or of numbers.
pub fn row_of_hart(values: &mut Values, hart: &Hart) -> Result<[u32; 33], AllocError>
    ensures row { IfOk result (λ row. hart_of values.new row ≡ Some hart.now) }
    ensures kept { Extends values.old values.new }
{
    let mut row = [0; 33];
    row[0] = code_of(hart.status());
    row[1] = values.number(hart.pcc().value())?;
    for number in 1..32u8 {
        let value = hart.register(Reg::new(number)).value();
        row[usize::from(number) + 1] = values.number(value)?;
    }
    Ok(row)
}

/// Writes the hart of a row.
pub fn load_hart(values: &Values, row: &[u32], hart: &mut Hart)
    requires { IsSome (hart_of values.now row.now) }
    ensures { hart_of values.now row.now ≡ Some hart.new }
{
    // Its clause says that there are 32 registers, of which c0 is null, here and below.
    let _pcc = hart.pcc();
    hart.set_status(status_of(row[0]));
    hart.set_pcc(Cap::of_value(values.value(row[1])));
    for number in 1..32u8 {
        let value = values.value(row[usize::from(number) + 1]);
        hart.put(Reg::new(number), Cap::of_value(value));
    }
    let _pcc = hart.pcc();
}
