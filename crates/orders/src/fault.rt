//! What is wrong with an order.

ghost use Rattle.std.specs.Prelude.{◌≡◌};

use std::alloc::AllocError;
use std::fmt;
use thiserror::Error;

/// What is wrong with an order.
#[derive(Clone, Copy, Debug, PartialEq, Eq)]
pub enum OrderFaultKind {
    /// A byte that no order can have after the bytes before it, or a text that ends inside a sweep.
    Byte = 1,
    /// More than 100,000 operations.
    Size,
    /// Out of memory, which says nothing of the order.
    NoMemory,
    /// A sweep that ends before it begins, or beyond the address space, at its `[`.
    Range,
}

impl OrderFaultKind {
    ghost use Rattle.orders.specs.Faults.{order_fault_number, order_fault_name};

    /// The number by which reports of faults name the kind.
    pub fn number(self) -> u8
        ensures { result ≡ order_fault_number self }
    {
        self as u8
    }

    /// The kind's name.
    pub fn name(self) -> &'static str
        ensures { result.now ≡ order_fault_name self }
    {
        match self {
            OrderFaultKind::Byte => "Byte",
            OrderFaultKind::Size => "Size",
            OrderFaultKind::NoMemory => "NoMemory",
            OrderFaultKind::Range => "Range",
        }
    }
}

impl fmt::Display for OrderFaultKind {
    ghost use Rattle.std.specs.Prelude.{Some};
    ghost use Rattle.orders.specs.Faults.{order_fault_text};

    ghost output = { λ kind. Some (order_fault_text kind) };

    fn fmt<W: fmt::Write>(&self, f: &mut fmt::Formatter<W>) -> fmt::Result {
        write!(f, "{} {}", self.number(), self.name())
    }
}

/// Why an order was refused, and the offset of the faulty byte: 0 where no single byte is at fault.
#[derive(Clone, Copy, Debug, PartialEq, Eq, Error)]
#[error("order byte {offset}: {kind}")]
pub struct OrderFault {
    pub offset: usize,
    pub kind: OrderFaultKind,
}

impl OrderFault {
    ghost use Rattle.orders.specs.Faults.{byte_fault};

    /// The fault of a byte at this offset, or of a text that ends there.
    pub(crate) fn byte(offset: usize) -> OrderFault
        ensures { result ≡ byte_fault offset }
    {
        OrderFault {
            offset,
            kind: OrderFaultKind::Byte,
        }
    }
}

impl From<AllocError> for OrderFault {
    ghost use Rattle.orders.specs.Faults.{no_memory};

    ghost from_gives = { λ _ fault. fault ≡ no_memory };

    fn from(_: AllocError) -> OrderFault {
        OrderFault {
            offset: 0,
            kind: OrderFaultKind::NoMemory,
        }
    }
}
