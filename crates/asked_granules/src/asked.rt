//! The granules that a condition looks at, and those that are shared already.
#![tactic(auto, unfolding(crate::proofs::Unfold::asked))]

ghost use Rattle.std.specs.Prelude.{◌≡◌, ℕ, ◌==◌, ◌||◌, length, slice_index_or, true};
ghost use Rattle.asked_granules.specs.AskedGranules.{
  AreReadShared,
  IsWith,
  atom_reads,
  condition_reads,
  holder_reads,
  node_reads,
  source_reads,
  term_reads,
};
ghost use Rattle.cheri_model.specs.steps.Memory.{granule_number};

use cheri_model::{GRANULE_BYTES, RAM_BASE};
use conditions::{Atom, Holder, Node, Source, Term};

/// The number of the granule that the byte at an address is in.
fn granule_number(addr: u64) -> usize
    ensures { result ≡ granule_number addr }
{
    (addr.saturating_sub(RAM_BASE) / u64::from(GRANULE_BYTES)) as usize
}

/// The list with the granule of an address.
fn with_address(shared: Vec<bool>, addr: u64) -> Vec<bool>
    ensures { IsWith shared.items (λ granule. granule == granule_number addr) result.items }
{
    let mut all = shared;
    let granule = granule_number(addr);
    if granule < all.len() {
        all[granule] = true;
    }
    all
}

/// The list with the granule that a holder is.
fn with_holder(shared: Vec<bool>, holder: Holder) -> Vec<bool>
    ensures { IsWith shared.items (holder_reads holder) result.items }
{
    match holder {
        Holder::Granule(addr) => with_address(shared, addr),
        Holder::Register(..) | Holder::Pcc(_) => shared,
    }
}

/// The list with the granule that a number is read of.
fn with_source(shared: Vec<bool>, source: Source) -> Vec<bool>
    ensures { IsWith shared.items (source_reads source) result.items }
{
    match source {
        Source::Value(holder, _) => with_holder(shared, holder),
        Source::Data(addr, _) => with_address(shared, addr),
        Source::Each(..) => shared,
    }
}

/// The list with the granule of what a number is compared with.
fn with_term(shared: Vec<bool>, term: Term) -> Vec<bool>
    ensures { IsWith shared.items (term_reads term) result.items }
{
    match term {
        Term::Number(_) => shared,
        Term::Source(source) => with_source(shared, source),
    }
}

/// The list with the granules that two numbers are read of.
fn with_compared(shared: Vec<bool>, source: Source, term: Term) -> Vec<bool>
    ensures { IsWith shared.items (λ number. source_reads source number || term_reads term number)
        result.items }
{
    let first = with_source(shared, source);
    with_term(first, term)
}

/// The list with the granules that an atom looks at.
fn with_atom(shared: Vec<bool>, atom: Atom) -> Vec<bool>
    ensures { IsWith shared.items (atom_reads atom) result.items }
{
    match atom {
        Atom::Compares(source, _, term) => with_compared(shared, source, term),
        Atom::HasStatus(..) | Atom::Reaches(..) | Atom::IsAt(..) | Atom::IsIn(..) => shared,
    }
}

/// The list with the granules that a node looks at.
fn with_node(shared: Vec<bool>, node: Node) -> Vec<bool>
    ensures { IsWith shared.items (node_reads node) result.items }
{
    match node {
        Node::Says(atom) => with_atom(shared, atom),
        Node::Not | Node::Enclosed | Node::Joined(..) | Node::Counted(..) => shared,
    }
}

/// The list in which each granule that a condition of these nodes looks at is shared, and each that
/// was. Granules past the end of a list count as shared.
pub fn with_nodes(shared: Vec<bool>, nodes: &[Node]) -> Vec<bool>
    ensures exact { IsWith shared.items (condition_reads nodes.now) result.items }
    ensures asked { AreReadShared (condition_reads nodes.now) result.items }
    ensures kept { (granule : ℕ) → slice_index_or shared.items granule true ≡ true →
        slice_index_or result.items granule true ≡ true }
    ensures same_length { length result.items ≡ length shared.items }
{
    let mut all = shared;
    for node in nodes.iter() {
        all = with_node(all, *node);
    }
    all
}
