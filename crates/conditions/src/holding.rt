//! Whether conditions hold in a state.
#![tactic(auto, unfolding(crate::proofs::Unfold::holding))]

ghost use Rattle.std.specs.Prelude.{◌≡◌, ◌+◌, ◌<◌, ◌^◌, if◌then◌else◌, length};
ghost use Rattle.cap_model.specs.results.Addresses.{address_of};
ghost use Rattle.cheri_model.specs.runs.Machine.{hart_at};
ghost use Rattle.conditions.specs.Formulas.{Formula};
ghost use Rattle.conditions.specs.Entries.{entries_of};
ghost use Rattle.conditions.specs.Holding.{decides, how_many, is_so};
ghost use Rattle.conditions.specs.Values.{
  compares,
  has_status,
  grants,
  registers_grant,
  reaches,
  is_between,
  atom_holds,
};

use crate::entries::Entry;
use crate::formulas::{Parts, parts_of};
use crate::parts::{Atom, Comparison, Joint, StatusTest, Subject};
use crate::values::{pcc_of_hart, register_of_hart, status_of_hart};
use crate::view::StateView;
use bitflags::Flags;
use cap_ops::Cap;
use cheri_model::{Perms, Reg, Status};

impl Comparison {
    /// Whether two numbers compare so.
    pub fn holds(self, first: u128, second: u128) -> bool
        ensures { result ≡ compares self first second }
    {
        match self {
            Comparison::Equal => first == second,
            Comparison::NotEqual => first != second,
            Comparison::Less => first < second,
            Comparison::AtMost => first <= second,
            Comparison::Greater => first > second,
            Comparison::AtLeast => first >= second,
        }
    }
}

impl StatusTest {
    /// Whether a status is such a one.
    pub fn holds(self, status: Status) -> bool
        ensures { result ≡ has_status self status }
    {
        match (self, status) {
            (StatusTest::Running, Status::Running) => true,
            (StatusTest::Halted, Status::Halted) => true,
            (StatusTest::Trapped, Status::Trapped(_)) => true,
            (StatusTest::TrappedBy(cause), Status::Trapped(trap)) => trap.cause == cause,
            _ => false,
        }
    }
}

/// Whether a value is a tagged capability, sealed or not, with this address in its bounds and all
/// of these permissions.
fn grants(addr: u64, perms: Perms, held: Cap) -> bool
    ensures { result ≡ grants addr perms held }
{
    if !held.tag() {
        return false;
    }
    let (base, top) = held.bounds();
    if addr < base || top <= u128::from(addr) {
        return false;
    }
    held.perm().bits() & perms.bits() == perms.bits()
}

/// Whether one of the registers c1 to c31 of a hart holds such a capability.
fn registers_grant<V: StateView>(view: &V, hart: usize, addr: u64, perms: Perms) -> bool
    ensures { result ≡ registers_grant addr perms (hart_at (V.state view.now) hart) 1 31 }
{
    for number in 1..32 {
        if grants(addr, perms, register_of_hart(view, hart, Reg::new(number))) {
            return true;
        }
    }
    false
}

/// Whether a hart holds such a capability in PCC or a register.
fn reaches<V: StateView>(view: &V, hart: usize, addr: u64, perms: Perms) -> bool
    ensures { result ≡ reaches addr perms (hart_at (V.state view.now) hart) }
{
    grants(addr, perms, pcc_of_hart(view, hart)) || registers_grant(view, hart, addr, perms)
}

/// Whether an address is at least the first one and below the second.
fn is_between(first: u64, second: u64, addr: u64) -> bool
    ensures { result ≡ is_between first second addr }
{
    first <= addr && addr < second
}

impl Atom {
    /// Whether this holds in a state, where `h` is the hart of a number.
    pub(crate) fn holds<V: StateView>(&self, view: &V, each: usize) -> bool
        ensures { result ≡ atom_holds (V.state view.now) each self.now }
    {
        match self {
            Atom::Compares(source, comparison, term) => {
                (*comparison).holds((*source).number(view, each), (*term).number(view, each))
            }
            Atom::HasStatus(who, test) => { (*test).holds(status_of_hart(view, (*who).hart(each))) }
            Atom::Reaches(who, addr, perms) => reaches(view, (*who).hart(each), *addr, *perms),
            Atom::IsAt(who, addr) => pcc_of_hart(view, (*who).hart(each)).addr() == *addr,
            Atom::IsIn(who, first, second) => {
                is_between(*first, *second, pcc_of_hart(view, (*who).hart(each)).addr())
            }
        }
    }
}

impl Joint {
    /// What two answers are together, of which the second is worked out where it decides.
    pub(crate) fn decides(self, first: bool) -> bool
        ensures { result ≡ decides self first }
    {
        match self {
            Joint::And => !first,
            Joint::Or => first,
        }
    }
}

/// A count, with one more where something holds.
fn one_more(count: usize, holds: bool) -> usize
    requires { count + 1 < 2 ^ 64 }
    ensures { result ≡ count + (if holds then 1 else 0) }
{
    if holds { count + 1 } else { count }
}

/// Of how many harts the address of PCC is at least the first one and below the second. Locks are
/// asked this of each state, so it looks at nothing else.
fn how_many_between<V: StateView>(view: &V, first: u64, second: u64) -> usize
    ensures { result ≡ how_many
        (λ hart. is_between first second (address_of (hart_at (V.state view.now) hart).pcc))
        (length (V.state view.now).harts) }
{
    let mut count = 0;
    for hart in 0..view.hart_count() {
        let addr = view.pcc(hart).addr();
        count = one_more(count, is_between(first, second, addr));
    }
    count
}

/// Of how many harts one thing of any kind is so, each being `h` in turn.
fn how_many_hold<V: StateView>(view: &V, atom: &Atom) -> usize
    ensures { result ≡ how_many (λ hart. atom_holds (V.state view.now) hart atom.now)
        (length (V.state view.now).harts) }
{
    let mut count = 0;
    for hart in 0..view.hart_count() {
        count = one_more(count, atom.holds(view, hart));
    }
    count
}

/// Of how many harts one thing is so, each being `h` in turn.
fn how_many_say<V: StateView>(view: &V, atom: &Atom) -> usize
    ensures { result ≡ how_many (λ hart. atom_holds (V.state view.now) hart atom.now)
        (length (V.state view.now).harts) }
{
    match *atom {
        Atom::IsIn(Subject::Each, first, second) => how_many_between(view, first, second),
        _ => how_many_hold(view, atom),
    }
}

/// Of how many harts the condition of some entries holds, each being `h` in turn. One thing alone,
/// which most ask for, is looked at without its entries.
#[cycle(holding)]
fn how_many<V: StateView>(view: &V, entries: &[Entry]) -> usize
    ensures { (formula : Formula) → entries.now ≡ entries_of formula → result
        ≡ how_many (λ hart. is_so (V.state view.now) hart formula)
        (length (V.state view.now).harts) }
{
    if let Some(Parts::Says(atom)) = parts_of(entries) {
        return how_many_say(view, atom);
    }
    let mut count = 0;
    for hart in 0..view.hart_count() {
        count = one_more(count, is_so(view, hart, entries));
    }
    count
}

/// Whether the condition of some entries holds in a state, where `h` is the hart of a number.
#[cycle(holding)]
pub(crate) fn is_so<V: StateView>(view: &V, each: usize, entries: &[Entry]) -> bool
    ensures { (formula : Formula) → entries.now ≡ entries_of formula → result
        ≡ is_so (V.state view.now) each formula }
{
    match parts_of(entries) {
        None => false,
        Some(Parts::Says(atom)) => atom.holds(view, each),
        Some(Parts::Not(denied)) => !is_so(view, each, denied),
        Some(Parts::Enclosed(inner)) => is_so(view, each, inner),
        Some(Parts::Joined(joint, first, second)) => {
            let answer = is_so(view, each, second);
            if joint.decides(answer) {
                return answer;
            }
            is_so(view, each, first)
        }
        Some(Parts::Counted(part, comparison, number)) => {
            comparison.holds(how_many(view, part) as u128, number)
        }
    }
}
