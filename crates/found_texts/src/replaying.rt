//! The state that an order of steps leaves.

ghost use Rattle.std.specs.Prelude.{◌≡◌, ◌<◌, [], IfOk, length, slice_set, true};
ghost use Rattle.cheri_model.specs.runs.Machine.{opening_state, state_after_one};
ghost use Rattle.cheri_model.specs.runs.Replay.{is_legal, replayed_state, state_after};
ghost use Rattle.schedules.specs.Schedules.{AreAllowed};

use crate::finding::opened;
use cheri_model::{Image, NoMemory, Op};
use hart::Hart;
use hart_step::step;
use shown_states::Loaded;
use std::alloc::{AllocError, Global};
use tagged_mem::Ram;

/// Takes a step of the hart with a number.
fn take_step(image: &Image, harts: &mut [Hart], ram: &mut Ram, number: usize)
    requires { number < length harts.old }
    ensures { record { harts = harts.new; memory = ram.new } ≡ state_after_one image.now
        (record { harts = harts.old; memory = ram.old }) (Op.Step number) }
{
    step(image.program(), &mut harts[number], ram);
}

/// Takes an order of steps, however many there are.
fn take_steps(image: &Image, harts: &mut [Hart], ram: &mut Ram, order: &[Op])
    requires allowed { AreAllowed [] order.now }
    requires legal { is_legal image.now (record { harts = harts.old; memory = ram.old })
        order.now ≡ true }
    ensures { record { harts = harts.new; memory = ram.new } ≡ state_after image.now
        (record { harts = harts.old; memory = ram.old }) order.now }
{
    for op in order {
        match *op {
            Op::Step(number) => take_step(image, harts, ram, usize::from(number)),
            // The clause `allowed` says that there is none.
            Op::Sweep { .. } => {}
        }
    }
}

/// The state that an order of steps leaves, however many there are. Fails only when out of memory.
pub fn replayed(alloc: Global, image: &Image, order: &[Op]) -> Result<Loaded, NoMemory>
    requires allowed { AreAllowed [] order.now }
    requires legal { is_legal image.now (opening_state image.now) order.now ≡ true }
    ensures { IfOk result (λ state. state ≡ replayed_state image.now order.now) }
{
    let core = opened(alloc, image)?;
    let view = core.view();
    let mut harts = Vec::from_slice(alloc, view.harts)?;
    let Ok(mut ram) = view.ram.copy(alloc) else {
        return Err(AllocError);
    };
    take_steps(image, harts.as_mut_slice(), &mut ram, order);
    Loaded::new(alloc, harts.as_slice(), &ram)
}
