//! Viewers of the tests: one that compares its looks, one that a gate waits for, and one that keeps
//! a look.

use super::gates::Flag;
use crate::common::shows_the_same;
use cheri_model::Event;
use harts::{Calls, Gate, Turn, Viewer};
use machine::{Look, Naming, Watch};
use std::alloc::Global;
use std::thread;

/// How often a viewer looks before it gives up.
const LOOKS: u32 = 1_000_000;

/// How often a viewer yields while it keeps a look.
const YIELDS: u32 = 1_000;

/// A look of a watch, tried again while there is none.
pub(super) fn look_of<J: Naming>(watch: Watch<J>) -> Result<Look<J>, Watch<J>> {
    let mut watch = watch;
    for _ in 0..LOOKS {
        match watch.look() {
            Ok(look) => return Ok(look),
            Err(back) => watch = back,
        }
        thread::yield_now();
    }
    Err(watch)
}

/// A viewer that looks until it sees a whole race, and compares each look with the one before.
#[derive(Drop)]
pub(super) struct Follower {
    whole: usize,
    seen: Vec<Event>,
    pub(super) was_called: bool,
    pub(super) saw_all: bool,
    pub(super) went_back: bool,
    pub(super) had_no_memory: bool,
}

impl Follower {
    /// A viewer of a race that ends with this many entries.
    pub(super) fn new(alloc: Global, whole: usize) -> Follower {
        Follower {
            whole,
            seen: Vec::new(alloc),
            was_called: false,
            saw_all: false,
            went_back: false,
            had_no_memory: false,
        }
    }

    /// Keeps the entries of a look, which begin with those of the look before.
    fn follow(&mut self, entries: &[Event]) {
        if !entries.starts_with(self.seen.as_slice()) {
            self.went_back = true;
        }
        self.seen.clear();
        if self.seen.extend_from_slice(entries).is_err() {
            self.had_no_memory = true;
        }
        self.saw_all = entries.len() == self.whole;
    }
}

impl Viewer for Follower {
    fn view<J: Naming>(&mut self, watch: Watch<J>) -> Watch<J> {
        self.was_called = true;
        let mut watch = watch;
        for _ in 0..LOOKS {
            match watch.look() {
                Ok(look) => {
                    self.follow(look.core().view().entries);
                    watch = look.end();
                }
                Err(back) => watch = back,
            }
            if self.saw_all {
                return watch;
            }
            thread::yield_now();
        }
        watch
    }
}

/// A gate at which each hart waits before its second turn until a viewer has seen a step.
#[derive(Drop)]
pub(super) struct Viewed {
    pub(super) step_seen: Flag,
    pub(super) gave_up: Flag,
}

impl Viewed {
    pub(super) fn new() -> Viewed {
        Viewed {
            step_seen: Flag::new(),
            gave_up: Flag::new(),
        }
    }
}

impl Gate for Viewed {
    ghost made = { λ calls. calls };

    fn before(&self, calls: &mut Calls, hart: u8, turn: u32) -> Turn {
        if turn == 1 && !self.step_seen.comes() {
            self.gave_up.set();
            return calls.before(hart, turn, Turn::End);
        }
        calls.before(hart, turn, Turn::Go)
    }

    fn after(&self, calls: &mut Calls, hart: u8, turn: u32) {
        calls.after(hart, turn);
    }
}

/// A viewer that looks until it sees a step, and tells the gate.
#[derive(Drop)]
pub(super) struct Spotter<'a> {
    pub(super) gate: &'a Viewed,
    pub(super) was_called: bool,
}

impl Viewer for Spotter<'_> {
    fn view<J: Naming>(&mut self, watch: Watch<J>) -> Watch<J> {
        self.was_called = true;
        let mut watch = watch;
        for _ in 0..LOOKS {
            match watch.look() {
                Ok(look) => {
                    let is_seen = !look.core().view().entries.is_empty();
                    watch = look.end();
                    if is_seen {
                        self.gate.step_seen.set();
                        return watch;
                    }
                }
                Err(back) => watch = back,
            }
            thread::yield_now();
        }
        self.gate.gave_up.set();
        watch
    }
}

/// A gate at which each hart waits before its first turn until a look is kept, and which says when
/// a hart has stepped.
#[derive(Drop)]
pub(super) struct Kept {
    pub(super) look_kept: Flag,
    pub(super) stepped: Flag,
    pub(super) gave_up: Flag,
}

impl Kept {
    pub(super) fn new() -> Kept {
        Kept {
            look_kept: Flag::new(),
            stepped: Flag::new(),
            gave_up: Flag::new(),
        }
    }
}

impl Gate for Kept {
    ghost made = { λ calls. calls };

    fn before(&self, calls: &mut Calls, hart: u8, turn: u32) -> Turn {
        if turn == 0 && !self.look_kept.comes() {
            self.gave_up.set();
            return calls.before(hart, turn, Turn::End);
        }
        calls.before(hart, turn, Turn::Go)
    }

    fn after(&self, calls: &mut Calls, hart: u8, turn: u32) {
        self.stepped.set();
        calls.after(hart, turn);
    }
}

/// A viewer that keeps one look while a hart is seen to step and for a while after, and compares
/// what it shows before and after.
#[derive(Drop)]
pub(super) struct Keeper<'a> {
    alloc: Global,
    gate: &'a Kept,
    pub(super) was_called: bool,
    pub(super) was_kept: bool,
    pub(super) has_changed: bool,
}

impl<'a> Keeper<'a> {
    pub(super) fn new(alloc: Global, gate: &'a Kept) -> Keeper<'a> {
        Keeper {
            alloc,
            gate,
            was_called: false,
            was_kept: false,
            has_changed: false,
        }
    }
}

impl Viewer for Keeper<'_> {
    fn view<J: Naming>(&mut self, watch: Watch<J>) -> Watch<J> {
        self.was_called = true;
        let look = match look_of(watch) {
            Ok(look) => look,
            Err(watch) => return watch,
        };
        let before = look.core().copy(self.alloc);
        self.gate.look_kept.set();
        self.was_kept = self.gate.stepped.comes();
        for _ in 0..YIELDS {
            thread::yield_now();
        }
        self.has_changed = match before {
            Ok(before) => !shows_the_same(&before, look.core()),
            Err(_) => true,
        };
        look.end()
    }
}
