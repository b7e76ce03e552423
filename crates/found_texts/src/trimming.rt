//! Orders without last steps that a condition doesn't need. Nothing here is proved but that it is
//! safe and ends: what comes of it is run and tested.

use cheri_model::{Image, Instr, NoMemory, Op};
use conditions::Condition;
use cores::{Core, GREATEST_TRACE_LIMIT};
use explore_turns::asks_memory;
use hart::Hart;
use shown_states::Loaded;
use std::alloc::{AllocError, Global};

/// An order that is trimmed, the state that it leaves, and of each hart the states before its last
/// steps: those behind the last sweep, and behind its last step that asks for memory.
#[derive(Drop)]
struct Trimming {
    order: Vec<Op>,
    state: Loaded,
    tails: Vec<Vec<Hart>>,
}

/// A step that can be left out: its place in the order, and its hart.
#[derive(Clone, Copy)]
struct NeedlessStep {
    place: usize,
    hart: usize,
}

/// So many lists with no states.
fn empty_tails(alloc: Global, count: usize) -> Result<Vec<Vec<Hart>>, AllocError> {
    let mut tails = Vec::new(alloc);
    for _ in 0..count {
        tails.push(Vec::new(alloc))?;
    }
    Ok(tails)
}

/// Notes the state before a step of a hart, or that it asks for memory.
fn note_step(program: &[Instr], hart: &Hart, tail: &mut Vec<Hart>) -> Result<(), AllocError> {
    if asks_memory(program, hart) {
        tail.clear();
        return Ok(());
    }
    tail.push(*hart)?;
    Ok(())
}

/// Forgets all states.
fn forget(tails: &mut Vec<Vec<Hart>>) {
    for tail in tails.iter_mut() {
        tail.clear();
    }
}

/// Notes what comes before an operation.
fn note(
    program: &[Instr],
    harts: &[Hart],
    tails: &mut Vec<Vec<Hart>>,
    op: Op,
) -> Result<(), AllocError> {
    match op {
        Op::Step(number) => {
            let number = usize::from(number);
            if number >= harts.len() || number >= tails.len() {
                return Ok(());
            }
            note_step(program, &harts[number], &mut tails[number])
        }
        Op::Sweep { .. } => {
            forget(tails);
            Ok(())
        }
    }
}

/// Takes an order, and notes of each hart the states before its last steps.
fn noted(
    alloc: Global,
    image: &Image,
    core: &mut Core,
    order: &[Op],
) -> Result<Vec<Vec<Hart>>, AllocError> {
    let mut tails = empty_tails(alloc, core.view().harts.len())?;
    for op in order {
        note(image.program(), core.view().harts, &mut tails, *op)?;
        let _ = core.apply(*op);
    }
    Ok(tails)
}

/// Where the last step of a hart is in an order.
fn last_step(order: &[Op], hart: usize) -> Option<usize> {
    let mut last = None;
    for (place, op) in order.iter().enumerate() {
        if let Op::Step(number) = *op {
            if usize::from(number) == hart {
                last = Some(place);
            }
        }
    }
    last
}

/// The later of two steps.
fn later(first: Option<NeedlessStep>, second: Option<NeedlessStep>) -> Option<NeedlessStep> {
    match (first, second) {
        (Some(one), Some(other)) => {
            if one.place < other.place {
                Some(other)
            } else {
                Some(one)
            }
        }
        (None, _) => second,
        (_, None) => first,
    }
}

impl Trimming {
    /// The last step of a hart, if the condition holds without it.
    fn step_of(&mut self, condition: &Condition, hart: usize) -> Option<NeedlessStep> {
        if hart >= self.tails.len() || hart >= self.state.harts().len() {
            return None;
        }
        let before = *self.tails[hart].last()?;
        let now = self.state.harts()[hart];
        self.state.put_hart(hart, &before);
        let holds = condition.holds(&self.state);
        self.state.put_hart(hart, &now);
        if !holds {
            return None;
        }
        let place = last_step(self.order.as_slice(), hart)?;
        Some(NeedlessStep { place, hart })
    }

    /// The last step without which the condition holds.
    fn last_of_all(&mut self, condition: &Condition) -> Option<NeedlessStep> {
        let mut last = None;
        for hart in 0..self.tails.len() {
            last = later(last, self.step_of(condition, hart));
        }
        last
    }

    /// Leaves a step out.
    fn leave_out(&mut self, step: NeedlessStep) {
        if step.place < self.order.len() {
            self.order.remove(step.place);
        }
        if step.hart >= self.tails.len() || step.hart >= self.state.harts().len() {
            return;
        }
        if let Some(before) = self.tails[step.hart].pop() {
            self.state.put_hart(step.hart, &before);
        }
    }

    /// Leaves steps out, again and again, while the condition holds without one.
    fn trim(&mut self, condition: &Condition) {
        for _ in 0..self.order.len() {
            let Some(step) = self.last_of_all(condition) else {
                return;
            };
            self.leave_out(step);
        }
    }
}

/// An order without last steps that the condition doesn't need: of the steps behind the last sweep
/// that are their hart's last and ask for no memory, the last one without which the condition still
/// holds, again and again. Fails only when out of memory.
pub(crate) fn trimmed(
    alloc: Global,
    image: &Image,
    condition: &Condition,
    order: &[Op],
) -> Result<Vec<Op>, NoMemory> {
    let copy = Vec::from_slice(alloc, order)?;
    if order.len() > GREATEST_TRACE_LIMIT as usize {
        return Ok(copy);
    }
    let limit = order.len().max(1) as u32;
    let Ok(mut core) = Core::boot(alloc, image.copy(alloc)?, limit) else {
        return Err(AllocError);
    };
    let tails = noted(alloc, image, &mut core, order)?;
    let state = Loaded::new(alloc, core.view().harts, core.view().ram)?;
    let mut trimming = Trimming {
        order: copy,
        state,
        tails,
    };
    trimming.trim(condition);
    Ok(trimming.order)
}
