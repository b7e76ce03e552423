//! Values, each kept once.
#![tactic(auto, unfolding(crate::specs::Values::row_of))]

ghost use Rattle.std.specs.Prelude.{
  ◌≡◌,
  ◌≢◌,
  ℕ,
  ◌<◌,
  ◌^◌,
  [],
  Some,
  None,
  length,
  slice_get,
  IfOk,
  IfSome,
};
ghost use Rattle.cap_model.specs.values.CapValue.{IsLawfulValue};
ghost use Rattle.state_store.specs.Numbered.{Extends, IsDistinct, IsNumbered};
ghost use Rattle.state_store.specs.Values.{row_of};

use cheri_model::Value;
use interner::Interner;
use std::alloc::{AllocError, Global};
use std::marker::Model;

/// The bits of a row's number.
const HALF: u128 = 1 << 32;

/// Values, each kept once, numbered from 0 on in the order in which they came.
#[derive(Drop)]
pub struct Values {
    rows: Interner,
    values: Vec<Value>,
}

impl Model for Values {
    ghost use Rattle.std.specs.Prelude.{List};
    ghost use Rattle.cap_model.specs.values.CapValue.{CapValue};
    ghost use Rattle.state_store.specs.Values.{IsValues};

    ghost Value = { List CapValue };

    ghost view = { λ a. a.values.items };

    ghost invariant = { λ a. IsValues a.rows a.values.items };
}

/// A value as a row of numbers.
fn row_of(value: Value) -> [u32; 5]
    ensures row { result ≡ row_of value }
    ensures lawful { IsLawfulValue value }
{
    let bits = value.bits();
    [
        u32::from(value.tag()),
        (bits % HALF) as u32,
        (bits / HALF % HALF) as u32,
        (bits / HALF / HALF % HALF) as u32,
        (bits / HALF / HALF / HALF) as u32,
    ]
}

impl Values {
    /// No values.
    pub fn new(alloc: Global) -> Values
        ensures { result ≡ [] }
    {
        Values {
            rows: Interner::new(alloc, 5),
            values: Vec::new(alloc),
        }
    }

    /// How many values there are, no two of them the same.
    pub fn len(&self) -> usize
        ensures count { result ≡ length self.now }
        ensures distinct { IsDistinct self.now }
    {
        self.values.len()
    }

    /// The value of this number.
    pub fn value(&self, number: u32) -> Value
        requires { number < length self.now }
        ensures { slice_get self.now number ≡ Some result }
    {
        self.values[number as usize]
    }

    /// The number of a value, which becomes the last one where it is not there. Fails only when out
    /// of memory, or of numbers.
    pub fn number(&mut self, value: Value) -> Result<u32, AllocError>
        ensures numbered { IfOk result (λ number. IsNumbered self.old self.new value number) }
        ensures kept { Extends self.old self.new }
    {
        let row = row_of(value);
        if let Some(number) = self.rows.find(&row) {
            return Ok(number);
        }
        self.values.push(value)?;
        match self.rows.insert(&row) {
            Ok(number) => Ok(number),
            Err(fault) => {
                self.values.pop();
                Err(fault)
            }
        }
    }
}
