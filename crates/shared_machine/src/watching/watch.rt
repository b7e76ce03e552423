//! Watches: who looks at a machine takes no lock, and never sees its time go back.

ghost use Rattle.std.specs.Prelude.{◌≡◌, ◌<◌, ◌⊎◌, None, length, IfOk, IfErr, IfSome};
ghost use Rattle.cheri_model.specs.runs.Replay.{IsPrefixOf, operations_of};
ghost use Rattle.shared_machine.specs.Copies.{IsShown};
ghost use Rattle.shared_machine.specs.Names.{order_named};
ghost use Rattle.shared_machine.specs.Watches.{watch_of};

use crate::shares::Naming;
use crate::watching::copies::{CopyReader, CopyReading, OrderOf, Sees};
use crate::watching::shown::Shown;
use cores::Core;
use seen_order::Seen;
use std::marker::Model;

/// What somebody has seen of a machine's trace. Contracts see that trace.
#[derive(Drop)]
pub struct Receipt<J: Naming> {
    events: usize,
    seen: Seen<OrderOf<J>>,
}

impl<J: Naming> Model for Receipt<J> {
    ghost use Rattle.std.specs.Prelude.{List};
    ghost use Rattle.cheri_model.specs.declared.operation.Event.{Event};

    ghost Value = { List Event };

    ghost use Rattle.std.specs.Prelude.{◌≡◌, length};
    ghost use Rattle.cheri_model.specs.runs.Replay.{replayed_events};

    ghost view = { λ r. replayed_events J.image r.seen };

    ghost invariant = { λ r. r.events ≡ length r.seen };
}

impl<J: Naming> Receipt<J> {
    /// The receipt for the trace of a core, all of whose order was seen.
    pub(crate) fn of_core(core: &Core, seen: Seen<OrderOf<J>>) -> Receipt<J>
        requires image { core.now.image ≡ J.image }
        requires order { seen ≡ operations_of core.now.trace }
        ensures { result ≡ core.now.trace }
    {
        Receipt {
            events: core.view().entries.len(),
            seen,
        }
    }

    /// A copy.
    pub fn again(&self) -> Receipt<J>
        ensures { result ≡ self.now }
    {
        Receipt {
            events: self.events,
            seen: self.seen.again(),
        }
    }

    /// The longer of two, which the other begins.
    fn longer(self, other: Receipt<J>) -> Receipt<J>
        ensures one { (result ≡ self) ⊎ (result ≡ other) }
        ensures this { IsPrefixOf self result }
        ensures that { IsPrefixOf other result }
    {
        self.seen.meet(&other.seen);
        other.seen.meet(&self.seen);
        if self.events < other.events {
            other
        } else {
            self
        }
    }

    /// The receipt for the trace of a copy, where it goes on from this one: it is no shorter.
    fn followed(&self, shown: &Shown) -> Option<Receipt<J>>
        requires { IsShown J.image (order_named J.names) shown.now }
        ensures trace { IfSome result (λ now. now ≡ shown.now.core.trace) }
        ensures later { IfSome result (λ now. IsPrefixOf self.now now) }
        ensures older { result ≡ None → length shown.now.core.trace < length self.now }
    {
        let now = Receipt::of_core(&shown.core, shown.token.tied::<OrderOf<J>>());
        if now.events < self.events {
            return None;
        }
        self.seen.meet(&now.seen);
        Some(now)
    }
}

/// A watch of a machine: it looks at the machine and takes no lock. Contracts see the machine's
/// image, and the trace that the watch has seen.
#[derive(Drop)]
pub struct Watch<J: Naming> {
    reader: CopyReader<J>,
    seen: Receipt<J>,
}

impl<J: Naming> Model for Watch<J> {
    ghost use Rattle.shared_machine.specs.Watches.{WatchParts, watch_of};

    ghost Value = { WatchParts };

    ghost view = { λ w. watch_of J.image w.seen };
}

impl<J: Naming> Watch<J> {
    pub(crate) fn over(reader: CopyReader<J>, seen: Receipt<J>) -> Watch<J>
        ensures { result ≡ watch_of J.image seen }
    {
        Watch { reader, seen }
    }

    /// Adds the receipt's trace: the longer of the two is kept, and the shorter is its prefix.
    pub fn learn(self, receipt: Receipt<J>) -> Watch<J>
        ensures image { result.image ≡ self.image }
        ensures one { (result.trace ≡ self.trace) ⊎ (result.trace ≡ receipt) }
        ensures seen { IsPrefixOf self.trace result.trace }
        ensures told { IsPrefixOf receipt result.trace }
    {
        let Watch { reader, seen } = self;
        Watch {
            reader,
            seen: seen.longer(receipt),
        }
    }

    /// Looks at the machine. The trace of the core that is shown begins with all that this watch
    /// saw or learnt. Where no copy can be read, or the one that is shown is older than what this
    /// watch knows, the watch comes back as it was. Takes no lock and no memory, and waits for
    /// nobody.
    pub fn look(self) -> Result<Look<J>, Watch<J>>
        ensures image { IfOk result (λ look. look.image ≡ self.image) }
        ensures later { IfOk result (λ look. IsPrefixOf self.trace look.trace) }
        ensures same { IfErr result (λ watch. watch ≡ self) }
    {
        let Watch { reader, seen } = self;
        match reader.enter_as::<Sees<J>>() {
            Err(reader) => Err(Watch { reader, seen }),
            Ok(reading) => match seen.followed(reading.get()) {
                Some(now) => Ok(Look { reading, seen: now }),
                None => Err(Watch {
                    reader: reading.leave(),
                    seen,
                }),
            },
        }
    }
}

/// A look at a machine: the core that it lends stays as it is until the look ends. Contracts see
/// the core.
pub struct Look<J: Naming> {
    reading: CopyReading<J>,
    seen: Receipt<J>,
}

impl<J: Naming> Model for Look<J> {
    ghost use Rattle.cores.specs.Cores.{CoreParts};

    ghost Value = { CoreParts };

    ghost use Rattle.std.specs.Prelude.{◌≡◌};

    ghost view = { λ l. l.reading.part.value.core };

    ghost invariant = { λ l. (l.reading.part.value.core.image ≡ J.image)
        × (l.seen ≡ l.reading.part.value.core.trace) };
}

impl<J: Naming> Look<J> {
    /// The core that is shown.
    pub fn core(&self) -> &Core
        ensures { result.now ≡ self.now }
    {
        &self.reading.get().core
    }

    /// Ends the look. The watch has seen its core's trace.
    pub fn end(self) -> Watch<J>
        ensures { result ≡ watch_of self.image self.trace }
    {
        let Look { reading, seen } = self;
        Watch {
            reader: reading.leave(),
            seen,
        }
    }
}

impl<J: Naming> Drop for Look<J> {
    fn drop(self) {
        let Self { reading, seen: _ } = self;
        drop(reading.leave());
    }
}
