//! The registers that conditions and items ask for, of whichever hart.
#![tactic(auto, unfolding(crate::proofs::Unfold::asked))]

ghost use Rattle.std.specs.Prelude.{◌||◌, nat_lt};
ghost use Rattle.asked_registers.specs.Asked.{
  IsWith,
  atom_asks,
  condition_asks,
  holder_asks,
  item_asks,
  items_ask,
  node_asks,
  own_asks,
  source_asks,
  term_asks,
};

use cheri_model::Reg;
use conditions::{Atom, Holder, Node, Own, Place, Shown, Source, Term};
use live_registers::RegisterSet;

/// How many registers there are.
const COUNT: u8 = 32;

/// A set with all registers.
fn with_all(set: RegisterSet) -> RegisterSet
    ensures { IsWith set (λ reg. nat_lt reg 32) result }
{
    let mut all = set;
    for number in 0..COUNT {
        all = all.with(Reg::new(number));
    }
    all
}

/// A set with the register that a holder is.
fn with_holder(set: RegisterSet, holder: Holder) -> RegisterSet
    ensures { IsWith set (holder_asks holder) result }
{
    match holder {
        Holder::Register(_, reg) => set.with(reg),
        Holder::Pcc(_) | Holder::Granule(_) => set,
    }
}

/// A set with the register of each hart in turn.
fn with_own(set: RegisterSet, own: Own) -> RegisterSet
    ensures { IsWith set (own_asks own) result }
{
    match own {
        Own::Register(reg) => set.with(reg),
        Own::Pcc => set,
    }
}

/// A set with the register that a number is read of.
fn with_source(set: RegisterSet, source: Source) -> RegisterSet
    ensures { IsWith set (source_asks source) result }
{
    match source {
        Source::Value(holder, _) => with_holder(set, holder),
        Source::Data(..) => set,
        Source::Each(own, _) => with_own(set, own),
    }
}

/// A set with the register that a number is compared with.
fn with_term(set: RegisterSet, term: Term) -> RegisterSet
    ensures { IsWith set (term_asks term) result }
{
    match term {
        Term::Number(_) => set,
        Term::Source(source) => with_source(set, source),
    }
}

/// A set with the registers that two numbers are read of.
fn with_compared(set: RegisterSet, source: Source, term: Term) -> RegisterSet
    ensures { IsWith set (λ reg. source_asks source reg || term_asks term reg) result }
{
    let first = with_source(set, source);
    with_term(first, term)
}

/// A set with the registers that an atom asks for: `reaches` looks at all.
fn with_atom(set: RegisterSet, atom: Atom) -> RegisterSet
    ensures { IsWith set (atom_asks atom) result }
{
    match atom {
        Atom::Compares(source, _, term) => with_compared(set, source, term),
        Atom::Reaches(..) => with_all(set),
        Atom::HasStatus(..) | Atom::IsAt(..) | Atom::IsIn(..) => set,
    }
}

/// A set with the registers that a node asks for.
fn with_node(set: RegisterSet, node: Node) -> RegisterSet
    ensures { IsWith set (node_asks node) result }
{
    match node {
        Node::Says(atom) => with_atom(set, atom),
        Node::Not | Node::Enclosed | Node::Joined(..) | Node::Counted(..) => set,
    }
}

/// A set with the registers that a condition of these nodes asks for.
pub fn with_nodes(set: RegisterSet, nodes: &[Node]) -> RegisterSet
    ensures { IsWith set (condition_asks nodes.now) result }
{
    let mut asked = set;
    for node in nodes.iter() {
        asked = with_node(asked, *node);
    }
    asked
}

/// A set with the register that an item shows.
fn with_item(set: RegisterSet, item: Shown) -> RegisterSet
    ensures { IsWith set (item_asks item) result }
{
    match item {
        Shown::Number(Place::Value(holder, _)) => with_holder(set, holder),
        Shown::Number(Place::Data(..)) | Shown::Status(_) => set,
    }
}

/// A set with the registers that items show.
pub fn with_items(set: RegisterSet, items: &[Shown]) -> RegisterSet
    ensures { IsWith set (items_ask items.now) result }
{
    let mut asked = set;
    for item in items.iter() {
        asked = with_item(asked, *item);
    }
    asked
}
