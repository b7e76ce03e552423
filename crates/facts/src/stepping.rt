//! The facts of one step of a hart: what is read before it, and what is there after it.
#![tactic(auto, using(crate::proofs::Tables::tables), unfolding(crate::proofs::Unfold::stepping))]

ghost use Rattle.std.specs.Prelude.{◌≡◌, length};
ghost use Rattle.std.specs.Option.{option_map, ForSome};
ghost use Rattle.origins.specs.Places.{value_at_spot, place_of};
ghost use Rattle.origins.specs.Flows.{IsSpot};
ghost use Rattle.origins.specs.Origins.{Origins};
ghost use Rattle.facts.specs.Names.{EachIs, each_of, reads_of};
ghost use Rattle.facts.specs.Stepping.{HasTable, IsTableFor, Tells, IsPlaced, IsSeen, IsSeenBefore};
ghost use Rattle.facts.specs.TrapsLaw.{ReadsRegisters};
ghost use Rattle.cheri_model.specs.instructions.Form.{form_of};
ghost use Rattle.facts.specs.StepFacts.{
  named_at,
  fetched_of,
  granule_accessed,
};

use crate::clearing::clears_of;
use crate::names::{access_of, granule_at, reads_of};
use crate::step_facts::{Extent, Fetched, NamedValue, StepFacts, UpToTwo};
use cap_ops::Cap;
use cheri_model::{CODE_BASE, INSTRUCTION_BYTES, Instr, Reg};
use hart::Hart;
use hart_step::fetch;
use instructions::{Action, instr_action};
use origins::{OriginTable, Place, Spot};
use tagged_mem::Ram;

/// The instruction at PCC, where its fetch passes, and its number.
fn fetched(program: &[Instr], pcc: Cap) -> Option<Fetched>
    ensures { result ≡ fetched_of program.now pcc }
{
    match fetch(program, pcc) {
        Ok(instr) => Some(Fetched {
            number: (pcc.addr().saturating_sub(CODE_BASE) / INSTRUCTION_BYTES) as usize,
            instr,
        }),
        Err(_) => None,
    }
}

/// What is in a place that a hart names.
fn value_at(spot: Spot, hart: &Hart, ram: &Ram) -> Cap
    requires { IsSpot (length ram.now) spot }
    ensures { result ≡ value_at_spot hart.now ram.now spot }
{
    match spot {
        Spot::Pcc => hart.pcc(),
        Spot::Register(number) => hart.register(Reg::new(number)),
        Spot::Granule(number) => ram.granule(number as usize),
    }
}

/// The origin of what is in a place that a hart names.
fn origin_at(spot: Spot, number: u8, granules: usize, origins: &OriginTable) -> Place
    requires spot { IsSpot granules spot }
    requires table { IsTableFor origins.now number granules }
    ensures { (from : Origins) → Tells origins.now from → result ≡ from (place_of number spot) }
{
    origins.origin(spot.of(number))
}

/// A hart at one moment, with its number, its memory, and the table of where all values are from.
#[derive(Clone, Copy)]
pub struct Moment<'a> {
    pub number: u8,
    pub hart: &'a Hart,
    pub ram: &'a Ram,
    pub origins: &'a OriginTable,
}

/// What a hart names so, with its origin where it is tagged.
fn named_at(spot: Spot, now: Moment<'_>) -> NamedValue
    requires spot { IsSpot (length now.ram.now) spot }
    requires table { HasTable now }
    ensures { (from : Origins) → Tells now.entry.origins.now from → result
        ≡ named_at now.entry.hart.now now.entry.ram.now from now.entry.number spot }
{
    let value = value_at(spot, now.hart, now.ram);
    let place = origin_at(spot, now.number, now.ram.granule_count(), now.origins);
    let origin = if value.tag() { Some(place) } else { None };
    NamedValue {
        name: spot,
        value,
        origin,
    }
}

/// The same of up to two.
pub fn each_named(spots: UpToTwo<Spot>, now: Moment<'_>) -> UpToTwo<NamedValue>
    requires spots { EachIs (IsSpot (length now.ram.now)) spots }
    requires table { HasTable now }
    ensures { (from : Origins) → Tells now.entry.origins.now from → result
        ≡ each_of (named_at now.entry.hart.now now.entry.ram.now from now.entry.number) spots }
{
    match spots {
        UpToTwo::Zero => UpToTwo::Zero,
        UpToTwo::One(only) => UpToTwo::One(named_at(only, now)),
        UpToTwo::Two(first, second) => { UpToTwo::Two(named_at(first, now), named_at(second, now)) }
    }
}

/// The granule that an access lies in, where it is aligned and in RAM.
fn granule_in(at: Option<Extent>, ram: &Ram) -> Option<Spot>
    ensures value { IsPlaced ram.now at → result ≡ granule_accessed at }
    ensures spot { ForSome result (IsSpot (length ram.now)) }
{
    let extent = at?;
    // The count's clause says that memory ends below RAM's greatest size.
    let _count = ram.granule_count();
    if !ram.fits(extent.address, extent.bytes) {
        return None;
    }
    Some(granule_at(extent.address))
}

/// The same as a hart finds it.
pub fn found_at(at: Option<Extent>, now: Moment<'_>) -> Option<NamedValue>
    requires { HasTable now }
    ensures { (from : Origins) → Tells now.entry.origins.now from →
        IsPlaced now.entry.ram.now at → result
        ≡ option_map (named_at now.entry.hart.now now.entry.ram.now from now.entry.number)
        (granule_accessed at) }
{
    match granule_in(at, now.ram) {
        Some(granule) => Some(named_at(granule, now)),
        None => None,
    }
}

/// What is seen of an instruction before its step, beside the facts that are known by then.
#[derive(Clone, Copy)]
pub struct Seen {
    pub fetched: Fetched,
    pub pc: u64,
    pub action: Action,
    pub at: Option<Extent>,
}

/// The first half of a step's facts, before it: what is read, found and cleared.
fn seen_before(fetched: &Fetched, now: Moment<'_>, facts: &mut StepFacts) -> Seen
    requires { HasTable now }
    ensures same { result.fetched ≡ fetched.now }
    ensures registers { EachIs (IsSpot 0) (reads_of (form_of fetched.now.instr)) }
    ensures seen { (from : Origins) → Tells now.entry.origins.now from →
        IsSeen result facts.new now.entry.number now.entry.hart.now now.entry.ram.now from }
{
    let action = instr_action(fetched.instr, now.hart);
    let at = access_of(&action);
    facts.reads = each_named(reads_of(&fetched.instr.form()), now);
    facts.finds = found_at(at, now);
    facts.clears = clears_of(&fetched.instr, &action, now.hart, &facts.finds);
    Seen {
        fetched: *fetched,
        pc: now.hart.pcc().addr(),
        action,
        at,
    }
}

/// What is seen before a step of a hart: nothing where its fetch traps. The registers that its
/// instruction reads are registers, which the laws of traps ask.
pub fn before_step(program: &[Instr], now: Moment<'_>, facts: &mut StepFacts) -> Option<Seen>
    requires { HasTable now }
    ensures seen { (from : Origins) → Tells now.entry.origins.now from →
        IsSeenBefore result facts.new program.now now.entry.number now.entry.hart.now
        now.entry.ram.now from }
    ensures registers { ReadsRegisters program.now now.entry.hart.now }
{
    match fetched(program, now.hart.pcc()) {
        Some(fetched) => Some(seen_before(&fetched, now, facts)),
        None => None,
    }
}
