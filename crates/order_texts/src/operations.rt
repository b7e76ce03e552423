//! Orders as text.

ghost use Rattle.std.specs.Prelude.{◌≡◌, ◌++◌, OnOk, Some, string_bytes};
ghost use Rattle.std.specs.Fmt.{DisplaysOnOk};
ghost use Rattle.order_texts.specs.OrderTexts.{operation_text, operations_text, order_text};

use cheri_model::{NoMemory, Op};
use std::fmt;
use text_numbers::NumberText;

/// An operation of an order: the digit of a hart, or a sweep `[LO,HI]`.
#[derive(Clone, Copy)]
pub struct OperationText(pub Op);

impl fmt::Display for OperationText {
    ghost output = { λ o. Some (operation_text o.0) };

    fn fmt<W: fmt::Write>(&self, f: &mut fmt::Formatter<W>) -> fmt::Result {
        match self.0 {
            Op::Step(hart) => write!(f, "{hart}"),
            Op::Sweep { lo, hi } => {
                let (lo, hi) = (NumberText(u128::from(lo)), NumberText(hi));
                write!(f, "[{lo},{hi}]")
            }
        }
    }
}

/// Appends the operations of an order.
fn write_operations(out: &mut String, order: &[Op]) -> Result<(), NoMemory>
    ensures { OnOk result (string_bytes out.new
        ≡ string_bytes out.old ++ operations_text order.now) }
{
    for op in order {
        write!(out, "{}", OperationText(*op))?;
    }
    Ok(())
}

/// Appends an order: its operations, or `-` where it has none.
pub fn write_order(out: &mut String, order: &[Op]) -> Result<(), NoMemory>
    ensures { OnOk result (string_bytes out.new ≡ string_bytes out.old ++ order_text order.now) }
{
    if order.is_empty() {
        return out.push_str("-");
    }
    write_operations(out, order)
}
