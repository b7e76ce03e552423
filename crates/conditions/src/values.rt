//! What places are in a state.
#![tactic(auto, unfolding(crate::proofs::Unfold::values))]

ghost use Rattle.std.specs.Prelude.{◌≡◌, ◌<◌};
ghost use Rattle.cheri_model.specs.steps.Memory.{
  bytes_of,
  bytes_at,
  granule_at,
  granule_number,
  load_data,
};
ghost use Rattle.cheri_model.specs.steps.Hart.{register};
ghost use Rattle.cheri_model.specs.runs.Machine.{hart_at};
ghost use Rattle.conditions.specs.Values.{
  field_value,
  value_in,
  number_at,
  number_of,
  own_value,
  source_number,
  term_number,
};

use crate::parts::{Field, Holder, Own, Place, Source, Subject, Term};
use crate::view::StateView;
use bitflags::Flags;
use cap_ops::Cap;
use cheri_model::{GRANULE_BYTES, RAM_BASE, Reg, Status, Width};

impl Field {
    /// What this field of a value is.
    pub fn value(self, held: Cap) -> u128
        ensures { result ≡ field_value self held }
    {
        match self {
            Field::Addr => u128::from(held.addr()),
            Field::Tag => u128::from(held.tag()),
            Field::Base => u128::from(held.base()),
            Field::Len => u128::from(held.len()),
            Field::Perms => u128::from(held.perm().bits()),
            Field::Sealed => u128::from(held.sealed()),
            Field::Top => held.bounds().1,
            Field::Type => u128::from(held.object_type().number()),
            Field::Word => held.bits(),
        }
    }
}

/// A register of the hart of a number; null where there is no such hart.
pub(crate) fn register_of_hart<V: StateView>(view: &V, hart: usize, reg: Reg) -> Cap
    ensures { result ≡ register (hart_at (V.state view.now) hart) reg }
{
    if hart < view.hart_count() {
        view.register(hart, reg)
    } else {
        Cap::null()
    }
}

/// PCC of the hart of a number; null where there is no such hart.
pub(crate) fn pcc_of_hart<V: StateView>(view: &V, hart: usize) -> Cap
    ensures { result ≡ (hart_at (V.state view.now) hart).pcc }
{
    if hart < view.hart_count() {
        view.pcc(hart)
    } else {
        Cap::null()
    }
}

/// Whether the hart of a number runs; halted where there is no such hart.
pub(crate) fn status_of_hart<V: StateView>(view: &V, hart: usize) -> Status
    ensures { result ≡ (hart_at (V.state view.now) hart).status }
{
    if hart < view.hart_count() {
        view.status(hart)
    } else {
        Status::Halted
    }
}

/// The granule of a number; null past the end of memory.
fn granule_of_memory<V: StateView>(view: &V, number: usize) -> Cap
    ensures { result ≡ granule_at (V.state view.now).memory number }
{
    if number < view.granule_count() {
        view.granule(number)
    } else {
        Cap::null()
    }
}

impl Holder {
    /// The value that it holds in a state.
    pub fn value<V: StateView>(self, view: &V) -> Cap
        ensures { result ≡ value_in self (V.state view.now) }
    {
        match self {
            Holder::Register(hart, reg) => register_of_hart(view, usize::from(hart), reg),
            Holder::Pcc(hart) => pcc_of_hart(view, usize::from(hart)),
            Holder::Granule(addr) => granule_of_memory(view, granule_number(addr)),
        }
    }
}

/// The number of the granule that the byte at an address is in.
fn granule_number(addr: u64) -> usize
    ensures { result ≡ granule_number addr }
{
    (addr.saturating_sub(RAM_BASE) / u64::from(GRANULE_BYTES)) as usize
}

/// The number that the bytes of a word are, from the byte `offset` on, the least significant first.
fn bytes_at(word: u128, offset: u32, width: Width) -> u64
    requires { offset < 16 }
    ensures { result ≡ bytes_at word offset (bytes_of width) }
{
    let shifted = word >> (8 * offset);
    match width {
        Width::Byte => (shifted % 0x100) as u64,
        Width::Half => (shifted % 0x1_0000) as u64,
        Width::Word => (shifted % 0x1_0000_0000) as u64,
        Width::Double => (shifted % 0x1_0000_0000_0000_0000) as u64,
    }
}

/// The number that the bytes at an address are.
fn data<V: StateView>(view: &V, addr: u64, width: Width) -> u64
    ensures { result ≡ load_data (V.state view.now).memory addr (bytes_of width) }
{
    let offset = (addr.saturating_sub(RAM_BASE) % u64::from(GRANULE_BYTES)) as u32;
    let held = granule_of_memory(view, granule_number(addr));
    bytes_at(held.bits(), offset, width)
}

impl Place {
    /// The number at this place in a state.
    pub fn number<V: StateView>(self, view: &V) -> u128
        ensures { result ≡ number_at self (V.state view.now) }
    {
        match self {
            // The address needs no bounds to be decoded.
            Place::Value(holder, Field::Addr) => u128::from(holder.value(view).addr()),
            Place::Value(holder, field) => field.value(holder.value(view)),
            Place::Data(addr, width) => u128::from(data(view, addr, width)),
        }
    }
}

impl Subject {
    /// The number of the hart, where each hart in turn is this one.
    pub(crate) fn hart(self, each: usize) -> usize
        ensures { result ≡ number_of self each }
    {
        match self {
            Subject::Numbered(number) => usize::from(number),
            Subject::Each => each,
        }
    }
}

impl Own {
    /// The value that the hart of a number holds there.
    fn value<V: StateView>(self, view: &V, hart: usize) -> Cap
        ensures { result ≡ own_value self (hart_at (V.state view.now) hart) }
    {
        match self {
            Own::Register(reg) => register_of_hart(view, hart, reg),
            Own::Pcc => pcc_of_hart(view, hart),
        }
    }
}

impl Source {
    /// The number that is read in a state, where `h` is the hart of a number.
    pub(crate) fn number<V: StateView>(self, view: &V, each: usize) -> u128
        ensures { result ≡ source_number (V.state view.now) each self }
    {
        match self {
            Source::Value(held, field) => Place::Value(held, field).number(view),
            Source::Data(addr, width) => Place::Data(addr, width).number(view),
            Source::Each(own, Field::Addr) => u128::from(own.value(view, each).addr()),
            Source::Each(own, field) => field.value(own.value(view, each)),
        }
    }
}

impl Term {
    /// The number that is compared with in a state, where `h` is the hart of a number.
    pub(crate) fn number<V: StateView>(self, view: &V, each: usize) -> u128
        ensures { result ≡ term_number (V.state view.now) each self }
    {
        match self {
            Term::Number(number) => number,
            Term::Source(source) => source.number(view, each),
        }
    }
}
