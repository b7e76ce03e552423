//! Gates of the tests: one at which two harts meet, one that ends each hart at a turn of its own,
//! and one that counts its calls.

use harts::{Calls, Gate, Turn};
use std::sync::atomic::{AtomicBool, AtomicU32, Ordering};
use std::thread;

/// How often a gate looks for a flag before it gives up.
const LOOKS: u32 = 1_000_000;

/// A flag that one thread sets and others look for.
#[derive(Drop)]
pub(super) struct Flag(AtomicBool);

impl Flag {
    pub(super) fn new() -> Flag {
        Flag(AtomicBool::new(false))
    }

    pub(super) fn set(&self) {
        self.0.store(true, Ordering::SeqCst);
    }

    pub(super) fn is_set(&self) -> bool {
        self.0.load(Ordering::SeqCst)
    }

    /// Waits until the flag is set, and gives up after a number of looks.
    pub(super) fn comes(&self) -> bool {
        for _ in 0..LOOKS {
            if self.is_set() {
                return true;
            }
            thread::yield_now();
        }
        false
    }
}

/// A gate at which two harts meet: each waits before its first turn until the other has come, and
/// then the second waits until the first has stepped. After its first turn the first waits until
/// the second has stepped.
#[derive(Drop)]
pub(super) struct Meeting {
    first: u8,
    zero_came: Flag,
    one_came: Flag,
    first_stepped: Flag,
    second_stepped: Flag,
    gave_up: Flag,
}

impl Meeting {
    pub(super) fn new(first: u8) -> Meeting {
        Meeting {
            first,
            zero_came: Flag::new(),
            one_came: Flag::new(),
            first_stepped: Flag::new(),
            second_stepped: Flag::new(),
            gave_up: Flag::new(),
        }
    }

    /// Whether both harts came and stepped, and none gave up.
    pub(super) fn is_met(&self) -> bool {
        let flags = [
            &self.zero_came,
            &self.one_came,
            &self.first_stepped,
            &self.second_stepped,
        ];
        for flag in flags {
            if !flag.is_set() {
                return false;
            }
        }
        !self.gave_up.is_set()
    }

    /// Whether the other hart came, and where it goes first has stepped.
    fn meets(&self, hart: u8) -> bool {
        let both = if hart == 0 {
            self.zero_came.set();
            self.one_came.comes()
        } else {
            self.one_came.set();
            self.zero_came.comes()
        };
        both && (hart == self.first || self.first_stepped.comes())
    }
}

impl Gate for Meeting {
    ghost made = { λ calls. calls };

    fn before(&self, calls: &mut Calls, hart: u8, turn: u32) -> Turn {
        if turn == 0 && !self.meets(hart) {
            self.gave_up.set();
            return calls.before(hart, turn, Turn::End);
        }
        calls.before(hart, turn, Turn::Go)
    }

    fn after(&self, calls: &mut Calls, hart: u8, turn: u32) {
        calls.after(hart, turn);
        if turn > 0 {
            return;
        }
        if hart != self.first {
            self.second_stepped.set();
            return;
        }
        self.first_stepped.set();
        if !self.second_stepped.comes() {
            self.gave_up.set();
        }
    }
}

/// A gate that ends each hart before the turn that stands at its number, and no other hart.
#[derive(Drop)]
pub(super) struct EndsAt<'a>(pub(super) &'a [u32]);

impl Gate for EndsAt<'_> {
    ghost made = { λ calls. calls };

    fn before(&self, calls: &mut Calls, hart: u8, turn: u32) -> Turn {
        let answer = match self.0.get(usize::from(hart)) {
            Some(end) if *end == turn => Turn::End,
            _ => Turn::Go,
        };
        calls.before(hart, turn, answer)
    }

    fn after(&self, calls: &mut Calls, hart: u8, turn: u32) {
        calls.after(hart, turn);
    }
}

/// A gate that ends no hart, and counts how often it is asked and told.
#[derive(Drop)]
pub(super) struct Tally {
    asked: AtomicU32,
    told: AtomicU32,
}

impl Tally {
    pub(super) fn new() -> Tally {
        Tally {
            asked: AtomicU32::new(0),
            told: AtomicU32::new(0),
        }
    }

    /// How often a turn was asked for.
    pub(super) fn asked(&self) -> u32 {
        self.asked.load(Ordering::SeqCst)
    }

    /// How often a step was told.
    pub(super) fn told(&self) -> u32 {
        self.told.load(Ordering::SeqCst)
    }
}

impl Gate for Tally {
    ghost made = { λ calls. calls };

    fn before(&self, calls: &mut Calls, hart: u8, turn: u32) -> Turn {
        self.asked.fetch_add(1, Ordering::SeqCst);
        calls.before(hart, turn, Turn::Go)
    }

    fn after(&self, calls: &mut Calls, hart: u8, turn: u32) {
        self.told.fetch_add(1, Ordering::SeqCst);
        calls.after(hart, turn);
    }
}
