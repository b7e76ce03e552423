//! The machine that threads share: a core that watchers read, and books that count the steps of
//! each hart.

ghost use Rattle.std.specs.Prelude.{◌≡◌, ◌≢◌, ◌+◌, ◌<◌, ◌≤◌, ◌++◌, ◌∷◌, [], List, length, All};
ghost use Rattle.std.specs.Prelude.{slice_index, slice_set, replicate, IfOk, OnOk, OnErr, Err};
ghost use Rattle.std.specs.Prelude.{None, true, false};
ghost use Rattle.cheri_model.specs.runs.Authority.{EachOfState};
ghost use Rattle.cheri_model.specs.runs.Machine.{swept_state, cleared};
ghost use Rattle.cheri_model.specs.runs.Replay.{is_step_of, step_count};
ghost use Rattle.cap_model.specs.results.Swept.{is_in_sweep};
ghost use Rattle.cores.specs.Cores.{answered, answered_step, applied, refused};
ghost use Rattle.shared_machine.specs.Machines.{unwatched};
ghost use Rattle.shared_machine.specs.Shares.{share_at, shares_of, IsCounted};
ghost use Rattle.shared_machine.specs.Shares.{is_sweep, sweep_count};
ghost use Rattle.shared_machine.specs.Watches.{watch_of};
ghost use Rattle.cheri_model.specs.declared.operation.Event.{Event};
ghost use Rattle.cheri_model.specs.declared.trace.Entry.{Entry};

use crate::faults::{OpenFault, WatchFault};
use crate::shares::{Blanks, Books, Naming, Opening, Share, Tokens};
use crate::sweeps::{SweepLane, Sweeper};
use crate::watching::watch::{Receipt, Watch};
use crate::watching::watched::Watched;
use cheri_model::{Entry, Event, Image, NoMemory, Op};
use cores::{Core, StepFault};
use std::alloc::Global;
use std::marker::Model;
use std::sync::Wait;
use std::sync::ledger::Book;

/// A core that threads may share under a lock, each stepping the hart of its share, and one
/// sweeping by its sweeper. At every moment its books have counted the steps of each hart in the
/// trace, and the sweeps. Contracts see its core, and whether watchers have two copies of it.
///
/// Close a machine that was watched. Where it is dropped, its two copies of the core are never
/// freed: a watcher may still look at one, and a drop waits for nobody.
#[derive(Drop)]
pub struct Machine<J: Naming> {
    watched: Watched<J>,
    books: Books<J>,
    sweeps: Book<SweepLane<J>>,
}

impl<J: Naming> Model for Machine<J> {
    ghost use Rattle.shared_machine.specs.Machines.{MachineParts};

    ghost Value = { MachineParts };

    ghost use Rattle.std.specs.Prelude.{◌≡◌, length};
    ghost use Rattle.shared_machine.specs.Shares.{IsCounted, sweep_count};

    ghost view = { λ m. m.watched };

    ghost invariant = { λ m.
        IsCounted m.books m.watched.core.trace (length J.image.harts)
        × (m.watched.core.image ≡ J.image)
        × (m.sweeps.total ≡ sweep_count m.watched.core.trace) };
}

impl<J: Naming> Machine<J> {
    /// The machine of a core, its shares, one for each hart, in hart order, and its sweeper, which
    /// have counted what the trace holds. Fails only when out of memory, and then the core is given
    /// up.
    pub fn open(
        alloc: Global,
        core: Core,
        blanks: Blanks,
    ) -> Result<(Machine<J>, Vec<Share<J>>, Sweeper<J>), OpenFault>
        requires names { blanks ≡ J.names }
        requires image { core.image ≡ J.image }
        ensures machine { IfOk result (λ opened. opened.0 ≡ unwatched core) }
        ensures shares { IfOk result (λ opened.
            opened.1.items ≡ shares_of core.trace (length J.image.harts)) }
        ensures sweeper { IfOk result (λ opened. opened.2 ≡ sweep_count core.trace) }
    {
        let Opening {
            mut books,
            tokens,
            mut sweeps,
            mut sweeper,
            order,
        } = blanks.open::<J>();
        let view = core.view();
        let harts = hart_count(view.image);
        let shares = draw_shares(alloc, &mut books, tokens, view.entries, harts)?;
        sweeper.count(&mut sweeps, sweep_count(view.entries));
        let watched = Watched::<J>::open(alloc, core, order);
        let machine = Machine {
            watched,
            books,
            sweeps,
        };
        Ok((machine, shares, sweeper))
    }

    /// One step of the share's hart. It is refused exactly where the core refuses it, or when out
    /// of memory, and then machine and share are unchanged; otherwise the trace grows by the entry
    /// that is answered, and the share counts it. Waits for a watcher that still looks at what was
    /// shown before.
    pub fn step<R: Wait>(&mut self, rt: &R, share: &mut Share<J>) -> Result<Entry, StepFault>
        ensures answered { result ≢ Err StepFault.NoMemory
            → result ≡ answered_step self.old.core share.old.hart }
        ensures memory { result ≡ Err StepFault.NoMemory
            → refused self.old.core (Op.Step share.old.hart) ≡ None }
        ensures hart_exists { result ≢ Err StepFault.NoSuchHart }
        ensures of_a_step { result ≢ Err StepFault.BadRange }
        ensures applied { OnOk result
            (self.new.core ≡ applied self.old.core (Op.Step share.old.hart)) }
        ensures counted { OnOk result (share.new
            ≡ record { hart = share.old.hart; amount = share.old.amount + 1 }) }
        ensures kept { OnErr result ((self.new.core ≡ self.old.core) × (share.new ≡ share.old)) }
        ensures copied { self.new.is_copied ≡ self.old.is_copied }
    {
        let hart = share.hart();
        match self.watched.core().refusal(Op::Step(hart)) {
            Some(fault) => return Err(fault),
            None => {}
        }
        let Ok(()) = self.watched.take(rt, Op::Step(hart)) else {
            return Err(StepFault::NoMemory);
        };
        self.books.add(share, 1);
        Ok(newest_entry(self.watched.core()))
    }

    /// Clears the tag of every capability whose base lies from `lo` up to, not including, `hi`, as
    /// `Core::sweep` does. It is refused exactly where the core refuses it, or when out of memory,
    /// and then nothing changes; otherwise the trace grows by the event that is answered, and the
    /// sweeper counts it, and no share. Waits for a watcher that still looks at what was shown
    /// before.
    pub fn sweep<R: Wait>(
        &mut self,
        rt: &R,
        sweeper: &mut Sweeper<J>,
        lo: u64,
        hi: u128,
    ) -> Result<Event, StepFault>
        ensures answered { result ≢ Err StepFault.NoMemory
            → result ≡ answered self.old.core (Op.Sweep lo hi) }
        ensures memory { result ≡ Err StepFault.NoMemory
            → refused self.old.core (Op.Sweep lo hi) ≡ None }
        ensures event { IfOk result (λ event.
            event ≡ Event.Sweep (cleared lo hi self.old.core.state) lo hi) }
        ensures swept { OnOk result
            (self.new.core.state ≡ swept_state lo hi self.old.core.state) }
        ensures none_left { OnOk result
            (EachOfState (λ v. is_in_sweep lo hi v ≡ false) self.new.core.state) }
        ensures applied { OnOk result (self.new.core ≡ applied self.old.core (Op.Sweep lo hi)) }
        ensures counted { OnOk result (sweeper.new ≡ sweeper.old + 1) }
        ensures kept { OnErr result
            ((self.new.core ≡ self.old.core) × (sweeper.new ≡ sweeper.old)) }
        ensures copied { self.new.is_copied ≡ self.old.is_copied }
    {
        match self.watched.core().refusal(Op::Sweep { lo, hi }) {
            Some(fault) => return Err(fault),
            None => {}
        }
        let Ok(()) = self.watched.take(rt, Op::Sweep { lo, hi }) else {
            return Err(StepFault::NoMemory);
        };
        sweeper.count(&mut self.sweeps, 1);
        Ok(newest(self.watched.core()))
    }

    /// A watch of the machine, which has seen its trace of now. The first one makes two copies of
    /// the core; the core stays as it is. Fails with `NoMemory` only where there are no copies yet
    /// and no memory for them. Fails with `NoPlace` only where there are copies, and none of their
    /// places is free: there are places for eight watches at once, and some may not be free yet
    /// while watches come and go. Where it fails, nothing changes.
    pub fn watch(&mut self) -> Result<Watch<J>, WatchFault>
        ensures watch { IfOk result (λ watch.
            watch ≡ watch_of self.old.core.image self.old.core.trace) }
        ensures same { self.new.core ≡ self.old.core }
        ensures copied { OnOk result (self.new.is_copied ≡ true) }
        ensures unchanged { OnErr result (self.new ≡ self.old) }
        ensures place { result ≡ Err WatchFault.NoPlace → self.old.is_copied ≡ true }
        ensures memory { result ≡ Err WatchFault.NoMemory → self.old.is_copied ≡ false }
    {
        self.watched.watch()
    }

    /// A receipt for the machine's trace of now, which a watch may learn.
    pub fn receipt(&mut self) -> Receipt<J>
        ensures receipt { result ≡ self.old.core.trace }
        ensures same { self.new ≡ self.old }
    {
        self.watched.receipt()
    }

    /// The machine's core.
    pub fn core(&self) -> &Core
        ensures core { result.now ≡ self.now.core }
        ensures image { self.now.core.image ≡ J.image }
    {
        self.watched.core()
    }

    /// The machine's core. Each share has counted the steps of its hart in the core's trace, and
    /// the sweeper its sweeps. Waits for watchers that still look.
    pub fn close<R: Wait>(self, rt: &R, shares: Vec<Share<J>>, sweeper: Sweeper<J>) -> Core
        ensures core { result ≡ self.core }
        ensures image { self.core.image ≡ J.image }
        ensures counts { All
            (λ share. share.amount ≡ step_count self.core.trace share.hart) shares.items }
        ensures sweeps { sweeper ≡ sweep_count self.core.trace }
    {
        self.audited(shares, sweeper).close(rt)
    }

    /// The core that is watched. Each share has counted the steps of its hart in its trace, and the
    /// sweeper its sweeps.
    fn audited(self, shares: Vec<Share<J>>, sweeper: Sweeper<J>) -> Watched<J>
        ensures core { result ≡ self }
        ensures counts { All
            (λ share. share.amount ≡ step_count self.core.trace share.hart) shares.items }
        ensures sweeps { sweeper ≡ sweep_count self.core.trace }
    {
        let Machine {
            watched,
            mut books,
            mut sweeps,
        } = self;
        let mut shares = shares;
        for place in 0..shares.len() {
            books.audit(&mut shares[place]);
        }
        let mut sweeper = sweeper;
        sweeper.audit(&mut sweeps);
        watched
    }
}

/// The newest event of a core's trace.
fn newest(core: &Core) -> Event
    requires { 0 < length core.now.trace }
    ensures { (before : List Event) (event : Event) → core.now.trace ≡ before ++ event ∷ []
        → result ≡ event }
{
    let events = core.view().entries;
    events[events.len() - 1]
}

/// The entry of the newest event of a core's trace, which is a step.
fn newest_entry(core: &Core) -> Entry
    requires { (before : List Event) × (entry : Entry)
        × (core.now.trace ≡ before ++ Event.Step entry ∷ []) }
    ensures { (before : List Event) (entry : Entry)
        → core.now.trace ≡ before ++ Event.Step entry ∷ [] → result ≡ entry }
{
    match newest(core) {
        Event::Step(entry) => entry,
        Event::Sweep { .. } => unreachable!("the newest event is a step"),
    }
}

/// The number of harts of an image, which is at most 8.
fn hart_count(image: &Image) -> u8
    ensures count { result ≡ length image.now.harts }
    ensures room { result ≤ 8 }
{
    // the granules' contract says that the parts make an image
    let _granules = image.granules();
    image.harts().len() as u8
}

/// Draws the shares of so many harts, each of which has counted its hart's steps among these
/// events.
fn draw_shares<J: Naming>(
    alloc: Global,
    books: &mut Books<J>,
    tokens: Tokens<J>,
    events: &[Event],
    harts: u8,
) -> Result<Vec<Share<J>>, NoMemory>
    requires harts { (harts ≤ 8) × (harts ≡ length J.image.harts) }
    requires books { books.old ≡ replicate 8 0 }
    requires parts { tokens.parts ≡ replicate 8 1 }
    requires amounts { tokens.amounts ≡ replicate 8 0 }
    ensures shares { IfOk result (λ shares. shares.items ≡ shares_of events.now harts) }
    ensures books { OnOk result (IsCounted books.new events.now harts) }
{
    let mut tokens = tokens;
    let mut shares = Vec::with_capacity(alloc, usize::from(harts))?;
    for hart in 0..harts {
        let share = draw_share(books, &mut tokens, events, hart);
        shares.push(share)?;
    }
    Ok(shares)
}

/// Draws the share of a hart, which has counted the hart's steps among these events.
fn draw_share<J: Naming>(
    books: &mut Books<J>,
    tokens: &mut Tokens<J>,
    events: &[Event],
    hart: u8,
) -> Share<J>
    requires below { (hart < 8) × (hart < length J.image.harts) }
    requires whole { slice_index tokens.old.parts hart ≡ 1 }
    requires none { slice_index tokens.old.amounts hart ≡ 0 }
    requires fresh { slice_index books.old hart ≡ 0 }
    ensures share { result ≡ share_at events.now hart }
    ensures books { books.new ≡ slice_set books.old hart (step_count events.now hart) }
    ensures lanes { length books.old ≡ 8 }
    ensures parts { tokens.new.parts ≡ slice_set tokens.old.parts hart 0 }
    ensures amounts { tokens.new.amounts ≡ tokens.old.amounts }
{
    let mut share = tokens.draw(hart);
    books.add(&mut share, step_count(events, hart));
    share
}

/// How many of these events are a hart's steps.
#[tactic(auto, unfolding(cheri_model::specs::runs::Replay::step_count))]
fn step_count(events: &[Event], hart: u8) -> u64
    ensures { result ≡ step_count events.now hart }
{
    events
        .iter()
        .filter(|event| is_step_of(**event, hart))
        .count() as u64
}

/// Whether an event is a step of this hart.
fn is_step_of(event: Event, hart: u8) -> bool
    ensures { result ≡ is_step_of hart event }
{
    match event {
        Event::Step(entry) => entry.hart == hart,
        Event::Sweep { .. } => false,
    }
}

/// How many of these events are sweeps.
#[tactic(auto, unfolding(crate::specs::Shares::sweep_count))]
fn sweep_count(events: &[Event]) -> u64
    ensures { result ≡ sweep_count events.now }
{
    events.iter().filter(|event| is_sweep(**event)).count() as u64
}

/// Whether an event is a sweep.
fn is_sweep(event: Event) -> bool
    ensures { result ≡ is_sweep event }
{
    match event {
        Event::Step(_) => false,
        Event::Sweep { .. } => true,
    }
}
