//! The search, and its answer.

ghost use Rattle.std.specs.Prelude.{
  ◌≡◌,
  ℕ,
  ◌<◌,
  string_bytes,
  true,
  [],
  ◌∷◌,
  None,
  Some,
  IfOk,
  IfSome,
};
ghost use Rattle.cheri_model.specs.runs.Machine.{MachineState, opening_state};
ghost use Rattle.conditions.specs.Holding.{holds};
ghost use Rattle.found_texts.specs.Find.{
  IsFindAnswer,
  IsLed,
  IsNowhere,
  IsShortened,
  Says,
};
ghost use Rattle.found_texts.specs.FoundTexts.{absent, absent_ending};
ghost use Rattle.found_texts.specs.ReducedTexts.{said_absent, said_found};
ghost use Rattle.shown_states.specs.declared.form.Ending.{Ending};
ghost use Rattle.order_texts.specs.OrderTexts.{orders_of};
ghost use Rattle.states.specs.Kept.{at, count, IsFirstPassing, IsKeptOf, IsWitnessOrder};
ghost use Rattle.states.specs.Searches.{IsSearchable, search_of};

use crate::absent::absent_text;
use crate::running::{are_allowed, ran};
use crate::shown::found_text;
use crate::trimming::trimmed;
use cheri_model::{Image, NoMemory, Op};
use conditions::Condition;
use cores::Core;
use explore_sights::Sight;
use graph_search::Progress;
use reductions::LeftOut;
use shown_states::{Answer, ConditionTest, Ending, Format, Loaded};
use states::{Found, Kept, Room, Search, find_from};
use std::alloc::{AllocError, Global};

/// An answer, and the orders that it tells of.
#[derive(Drop)]
pub struct Told {
    pub answer: Answer,
    pub orders: Vec<Vec<Op>>,
}

/// An order, and the state that it leaves.
#[derive(Drop)]
pub(crate) struct Led {
    pub(crate) order: Vec<Op>,
    pub(crate) state: Loaded,
}

/// The witness of a kept state, and this state.
fn witnessed(alloc: Global, core: &Core, kept: &Kept, number: u32) -> Result<Led, NoMemory>
    requires there { number < count kept.now }
    requires opening { core.now.state ≡ opening_state kept.now.image }
    ensures { IfOk result (λ led. (at kept.now number ≡ Some led.state)
        × IsWitnessOrder kept.now.image kept.now.sweeps kept.now.sight led.state
        led.order.items) }
{
    // Its clause says that the image is one.
    let _granules = kept.image().granules();
    let view = core.view();
    let mut state = Loaded::new(alloc, view.harts, view.ram)?;
    state.load(kept.state(number, &mut Room::new()));
    let order = kept.witness(alloc, number)?;
    Ok(Led { order, state })
}

/// An order without steps that the condition doesn't need, and the state that it leaves, by the
/// machine's own run; none where the condition doesn't hold there.
pub(crate) fn shortened(
    alloc: Global,
    search: &Search<'_>,
    condition: &Condition,
    order: &[Op],
) -> Result<Option<Led>, NoMemory>
    ensures { IfOk result (λ found. IfSome found (λ led.
        IsShortened search.now.image.now condition.now search.now.sweeps.now led.order.items
        led.state)) }
{
    let order = trimmed(alloc, search.image, condition, order)?;
    if !are_allowed(search.sweeps, order.as_slice()) {
        return Ok(None);
    }
    let Some(core) = ran(alloc, search.image, order.as_slice())? else {
        return Ok(None);
    };
    let view = core.view();
    let state = Loaded::new(alloc, view.harts, view.ram)?;
    if !condition.holds(&state) {
        return Ok(None);
    }
    Ok(Some(Led { order, state }))
}

/// What leads to a state in which the condition holds, where it holds in this kept state: its
/// witness, without steps that the condition doesn't need where not every step is asked for.
fn led_to(
    alloc: Global,
    search: &Search<'_>,
    condition: &Condition,
    core: &Core,
    kept: &Kept,
    number: u32,
) -> Result<Led, NoMemory>
    requires there { number < count kept.now }
    requires opening { core.now.state ≡ opening_state kept.now.image }
    requires image { kept.now.image ≡ search.now.image.now }
    requires sweeps { kept.now.sweeps ≡ search.now.sweeps.now }
    requires passing { (s : MachineState) → at kept.now number ≡ Some s →
        holds s condition.now ≡ true }
    ensures { IfOk result (λ led. IsLed search.now.every_step condition.now kept.now number
        led.order.items led.state) }
{
    let witness = witnessed(alloc, core, kept, number)?;
    if search.every_step {
        return Ok(witness);
    }
    match shortened(alloc, search, condition, witness.order.as_slice())? {
        Some(led) => Ok(led),
        None => Ok(witness),
    }
}

/// How the answer ends that no kept state is one that was looked for.
fn absent_ending(complete: bool) -> Ending
    ensures { result ≡ absent_ending complete }
{
    if complete {
        Ending::Nowhere
    } else {
        Ending::Unfinished
    }
}

/// That answer, which tells of no order.
pub(crate) fn absent_told(
    alloc: Global,
    format: Format,
    left_out: Option<LeftOut>,
    complete: bool,
    image: &Image,
    states: u32,
) -> Result<Told, NoMemory>
    ensures says { IfOk result (λ told. (orders_of told.orders.items ≡ [])
        × (string_bytes told.answer.text ≡ said_absent left_out format complete image.now states)
        × (told.answer.ending ≡ absent_ending complete)) }
    ensures complete { IfOk result (λ told. told.answer.ending ≡ Ending.Nowhere
        → complete ≡ true) }
{
    let text = absent_text(alloc, format, left_out, complete, image, states)?;
    let ending = absent_ending(complete);
    Ok(Told {
        answer: Answer { text, ending },
        orders: Vec::new(alloc),
    })
}

/// The same of what a search kept.
fn none_found(alloc: Global, format: Format, kept: &Kept) -> Result<Told, NoMemory>
    ensures says { IfOk result (λ told. (orders_of told.orders.items ≡ [])
        × (string_bytes told.answer.text
        ≡ absent format kept.now.complete kept.now.image (count kept.now))
        × (told.answer.ending ≡ absent_ending kept.now.complete)) }
    ensures complete { IfOk result (λ told. told.answer.ending ≡ Ending.Nowhere
        → kept.now.complete ≡ true) }
{
    let complete = kept.is_complete();
    absent_told(alloc, format, None, complete, kept.image(), kept.len())
}

/// The answer that a state was found, which tells of the order that leads there.
pub(crate) fn found_told(
    alloc: Global,
    format: Format,
    left_out: Option<LeftOut>,
    image: &Image,
    led: Led,
) -> Result<Told, NoMemory>
    ensures says { IfOk result (λ told. (orders_of told.orders.items ≡ led.order.items ∷ [])
        × (string_bytes told.answer.text
        ≡ said_found left_out format image.now led.order.items led.state)) }
    ensures done { IfOk result (λ told. told.answer.ending ≡ Ending.Done) }
{
    let text = found_text(
        alloc,
        format,
        left_out,
        image,
        led.order.as_slice(),
        &led.state,
    )?;
    let mut orders = Vec::new(alloc);
    orders.push(led.order)?;
    Ok(Told {
        answer: Answer {
            text,
            ending: Ending::Done,
        },
        orders,
    })
}

/// The answer that a search found.
fn answer_of(
    alloc: Global,
    search: &Search<'_>,
    condition: &Condition,
    format: Format,
    core: &Core,
    found: &Found,
) -> Result<Told, NoMemory>
    requires opening { core.now.state ≡ opening_state found.now.kept.image }
    requires kept_of { IsKeptOf (search_of search.now) (Sight.Condition condition.now)
        found.now.kept }
    requires first { IsFirstPassing found.now.kept (λ s. holds s condition.now)
        found.now.state }
    ensures says { IfOk result (λ told. Says search.now.every_step condition.now
        format found.now.kept found.now.state (orders_of told.orders.items)
        (string_bytes told.answer.text) told.answer.ending) }
    ensures nowhere { IfOk result (λ told. told.answer.ending ≡ Ending.Nowhere
        → (found.now.state ≡ None) × (found.now.kept.complete ≡ true)) }
{
    match found.state {
        Some(number) => {
            let led = led_to(alloc, search, condition, core, &found.kept, number)?;
            found_told(alloc, format, None, found.kept.image(), led)
        }
        None => none_found(alloc, format, &found.kept),
    }
}

/// The machine of an image before its first step.
pub fn opened(alloc: Global, image: &Image) -> Result<Core, NoMemory>
    ensures { IfOk result (λ core. core.state ≡ opening_state image.now) }
{
    match Core::boot(alloc, image.copy(alloc)?, 1) {
        Ok(core) => Ok(core),
        Err(_) => Err(AllocError),
    }
}

/// Searches the states that an image reaches for one in which a condition holds. The answer is such
/// a state with an order that leads to it; or that none was found, of so many states. Fails only
/// when out of memory, or of numbers past 2^32.
pub fn find<P: Progress>(
    alloc: Global,
    search: &Search<'_>,
    condition: &Condition,
    format: Format,
    progress: &mut P,
) -> Result<Told, NoMemory>
    requires { IsSearchable (search_of search.now) }
    ensures says { IfOk result (λ told. IsFindAnswer (search_of search.now) condition.now format
        (orders_of told.orders.items) (string_bytes told.answer.text) told.answer.ending) }
    ensures nowhere { IfOk result (λ told. told.answer.ending ≡ Ending.Nowhere
        → IsNowhere (search_of search.now) condition.now) }
{
    let core = opened(alloc, search.image)?;
    let seen = condition.copy(alloc)?;
    let sees = Sight::Condition(seen);
    let test = ConditionTest { condition };
    let found = find_from(alloc, search, &sees, &core, &test, progress)?;
    // Its clause says that this is a search.
    let _count = found.kept.len();
    answer_of(alloc, search, condition, format, &core, &found)
}
