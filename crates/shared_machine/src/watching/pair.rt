//! Two copies of a core: watchers read one, while the other takes in what came.

ghost use Rattle.std.specs.Prelude.{◌≡◌, ◌<◌, [], None, IfOk, IfErr, OnOk, OnErr};
ghost use Rattle.cheri_model.specs.runs.Replay.{operations_of};
ghost use Rattle.cores.specs.Cores.{core_after, refused};
ghost use Rattle.shared_machine.specs.Names.{order_named};
ghost use Rattle.shared_machine.specs.Watches.{watch_of};

use crate::faults::WatchFault;
use crate::shares::Naming;
use crate::watching::copies::{Copies, OrderOf, publish, tell};
use crate::watching::shown::{Shown, Ticket};
use crate::watching::watch::{Receipt, Watch};
use cheri_model::{NoMemory, Op};
use core::mem::replace_with;
use cores::Core;
use left_right::writer::Writer;
use seen_order::{Keeper, Seen};
use std::alloc::{AllocError, Global};
use std::marker::Model;
use std::mem::ManuallyDrop;
use std::sync::Wait;

/// How many watches of one machine there may be at once.
const PLACES: usize = 8;

/// Two copies of a core that watchers read. Contracts see the core.
pub struct Pair<J: Naming> {
    copies: Copies<J>,
}

impl<J: Naming> Model for Pair<J> {
    ghost use Rattle.cores.specs.Cores.{CoreParts};

    ghost Value = { CoreParts };

    ghost use Rattle.std.specs.Prelude.{◌≡◌, [], drop};

    ghost view = { λ p. p.copies.desk.shown.value.core };

    ghost invariant = { λ p. (p.copies.desk.shown.value.core.image ≡ J.image)
        × (drop p.copies.behind p.copies.log.items ≡ []) };
}

impl<J: Naming> Pair<J> {
    /// Two copies of a core, all of whose order was seen. Fails only when out of memory.
    pub fn of(alloc: Global, core: &Core, seen: &Seen<OrderOf<J>>) -> Result<Pair<J>, NoMemory>
        requires image { core.now.image ≡ J.image }
        requires order { seen.now ≡ operations_of core.now.trace }
        ensures { IfOk result (λ pair. pair ≡ core.now) }
    {
        let token = seen.token();
        let first = Shown {
            core: core.copy(alloc)?,
            token: token.again(),
        };
        let second = Shown {
            core: core.copy(alloc)?,
            token: token.again(),
        };
        let copies: Copies<J> = Writer::new(alloc, first, second, PLACES)?;
        Ok(Pair { copies })
    }

    /// The core.
    pub fn core(&self) -> &Core
        ensures core { result.now ≡ self.now }
        ensures image { self.now.image ≡ J.image }
    {
        &self.copies.published().core
    }

    /// Takes an operation that is not refused, adds it to the order, and shows it to watchers, who
    /// then know the order with it. Fails only when out of memory, and then nothing changes: the
    /// order grows only once there is room for the operation and for what is then told of the
    /// order. Waits for a watcher that still looks at the other copy.
    pub fn take<R: Wait>(
        &mut self,
        rt: &R,
        op: Op,
        keeper: &mut Keeper<OrderOf<J>>,
    ) -> Result<(), NoMemory>
        requires none { refused self.old op ≡ None }
        requires order { keeper.old ≡ operations_of self.old.trace }
        ensures ok { OnOk result (self.new ≡ core_after self.old op) }
        ensures order { keeper.new ≡ operations_of self.new.trace }
        ensures image { self.new.image ≡ J.image }
        ensures err { OnErr result (self.new ≡ self.old) }
    {
        let Ok(()) = self.copies.append(Ticket::Take(op)) else {
            return Err(AllocError);
        };
        keeper.add(op);
        tell(&mut self.copies, rt, keeper.seen().token());
        replace_with(&mut self.copies, rt, publish::<J, R>);
        Ok(())
    }

    /// A watch of the copies, which has seen what this receipt names. Fails where each of the eight
    /// places is taken, and takes no memory.
    pub fn watch(&self, receipt: Receipt<J>) -> Result<Watch<J>, WatchFault>
        ensures watch { IfOk result (λ watch. watch ≡ watch_of J.image receipt) }
        ensures full { IfErr result (λ fault. fault ≡ WatchFault.NoPlace) }
    {
        match self.copies.factory().reader() {
            Ok(reader) => Ok(Watch::over(reader, receipt)),
            Err(_) => Err(WatchFault::NoPlace),
        }
    }

    /// The core, once nobody looks at either copy.
    pub fn close<R: Wait>(self, rt: &R) -> Core
        ensures core { result ≡ self }
        ensures image { self.image ≡ J.image }
    {
        let Pair { copies } = self;
        let shown = copies.take(rt);
        let Shown { core, token: _ } = Box::into_inner(shown);
        core
    }
}

impl<J: Naming> Drop for Pair<J> {
    fn drop(self) {
        let Self { copies } = self;
        // nothing frees the copies: a watcher may still look at one, and a drop waits for nobody
        let _kept = unsafe { ManuallyDrop::new_unchecked(copies) };
    }
}
