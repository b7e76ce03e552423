//! A machine's handle, as C has it.

ghost use Rattle.std.specs.Prelude.{◌≡◌, true, Option, Some, None, option_map};
ghost use Rattle.cheri_machine.specs.declared.machine.Machine.{Machine};
ghost use Rattle.cheri_machine.specs.Handle.{is_held};
ghost use Rattle.cheri_machine.specs.Handle.Heaps.{held_coded, held_owns};

use crate::machine::Machine;
use crate::parts::Parts;
use std::alloc::Global;
use std::marker::Model;
use std::{mem, ptr};

/// A pointer to the machine that it owns, or to nothing.
#[repr(C)]
#[derive(Drop)]
pub struct Held {
    at: *mut u8,
    pub ghost machine: { Option Machine } by { held_coded },
}

impl Model for Held {
    ghost also_owns = { λ held. held_owns held.at held.machine };
}

impl Held {
    /// A pointer to nothing.
    fn nothing() -> Held
        ensures { result.machine ≡ None }
    {
        Held {
            at: ptr::null_mut(),
        }
    }

    /// The pointer of a box.
    fn of_parts(parts: Parts<Machine, Global>) -> Held
        ensures { result.machine ≡ Some parts.value }
    {
        let Parts { ptr, alloc: _ } = parts;
        Held { at: ptr as *mut u8 }
    }

    /// The box again.
    fn into_parts(self, alloc: Global) -> Parts<Machine, Global>
        requires { is_held self.machine ≡ true }
        ensures { Some result.value ≡ self.machine }
    {
        let Held { at } = self;
        Parts {
            ptr: at as *mut Machine,
            alloc,
        }
    }
}

/// A handle: whether it is open, and what it then owns.
#[repr(C)]
pub struct CheriMachine {
    pub held: Held,
    is_open: bool,
    ghost agrees: { is_open ≡ is_held held.machine },
}

impl CheriMachine {
    /// A closed handle.
    fn closed() -> CheriMachine
        ensures { result.held.machine ≡ None }
    {
        CheriMachine {
            held: Held::nothing(),
            is_open: false,
        }
    }

    /// An open handle.
    fn of(machine: Box<Machine>) -> CheriMachine
        ensures { result.held.machine ≡ Some machine.value }
    {
        CheriMachine {
            held: Held::of_parts(Parts::of(machine)),
            is_open: true,
        }
    }

    /// What a handle owns.
    fn into_box(self, alloc: Global) -> Option<Box<Machine>>
        ensures { option_map (λ machine. machine.value) result ≡ self.held.machine }
    {
        let CheriMachine { held, is_open } = self;
        if is_open {
            return Some(held.into_parts(alloc).into_box());
        }
        None
    }

    /// Takes what the handle owns, and leaves it closed.
    pub(crate) fn take(&mut self, alloc: Global) -> Option<Box<Machine>>
        ensures taken { option_map (λ machine. machine.value) result ≡ self.old.held.machine }
        ensures closed { self.new.held.machine ≡ None }
    {
        mem::replace(self, CheriMachine::closed()).into_box(alloc)
    }

    /// Opens the handle, and frees what it owned.
    pub(crate) fn put(&mut self, alloc: Global, machine: Box<Machine>)
        ensures { self.new.held.machine ≡ Some machine.value }
    {
        drop(mem::replace(self, CheriMachine::of(machine)).into_box(alloc));
    }
}
