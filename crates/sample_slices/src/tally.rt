//! What a line claims that its runs gave.
#![tactic(auto, using(crate::proofs::ClaimLemmas::tallies), unfolding(crate::proofs::Unfold::tally))]

ghost use Rattle.std.specs.Prelude.{◌≡◌, IfOk, IfSome, OnOk, option_map};
ghost use Rattle.sample_checks.specs.Checks.{is_drawn};
ghost use Rattle.sample_tallies.specs.Claims.{claimed as tally_of};
ghost use Rattle.sample_tallies.specs.Counts.{Counted, entry_of};
ghost use Rattle.sample_tallies.specs.Within.{IsWithin, is_drawable};
ghost use Rattle.sample_texts.specs.SampleParts.{IsTold};
ghost use Rattle.serde_json.specs.View.{items_view, view as data_of};
ghost use Rattle.sample_slices.specs.Claimed.{claims_in, end_step, ends_name, ends_of, tally_in};
ghost use Rattle.sample_slices.specs.Claimed.{trap_in, trap_step, unended_in, with_ends};
ghost use Rattle.sample_slices.specs.Claimed.{with_traps};
ghost use Rattle.sample_slices.specs.Members.{Gives, GivesSeen, Steps, all_steps};

use crate::again::{Again, runs_in};
use crate::counts::adds_up;
use crate::fault::LineFault;
use crate::members::{list_in, member, number_in};
use sample_draws::MAX_LENGTH;
use sample_runs::RunEnd;
use sample_tallies::{Claims, Seen, Tally, TrapPlace, TrapSeen};
use serde_json::Value;

/// So many runs that ended so, if they are some.
fn ends_of(
    again: &mut Again<'_>,
    end: RunEnd,
    runs: u64,
    value: &Value,
) -> Result<Option<Seen>, LineFault>
    ensures ends { Gives result (ends_of again.old end runs (data_of value.now)) }
    ensures drawn { IfOk result is_drawn }
    ensures same { again.new ≡ again.old }
{
    if runs == 0 {
        return Ok(None);
    }
    let seen = again.seen_of(runs, value).ok_or(LineFault::Form)?;
    if again.ends_so(end, seen.first)? {
        Ok(Some(seen))
    } else {
        Err(LineFault::Form)
    }
}

/// The runs of a member, which ended so.
fn unended_in(
    again: &mut Again<'_>,
    end: RunEnd,
    name: &str,
    value: &Value,
) -> Result<Option<Seen>, LineFault>
    ensures ends { Gives result (unended_in again.old end name.now (data_of value.now)) }
    ensures drawn { IfOk result is_drawn }
    ensures same { again.new ≡ again.old }
{
    let found = member(value, name).ok_or(LineFault::Form)?;
    let runs = runs_in(found).ok_or(LineFault::Form)?;
    ends_of(again, end, runs, found)
}

/// What is claimed, but for traps and ends.
fn claims_in(again: &mut Again<'_>, value: &Value) -> Result<Claims, LineFault>
    ensures claims { Gives result (claims_in again.old (data_of value.now)) }
    ensures within { IfOk result (λ claims. IsWithin (tally_of claims)) }
    ensures same { again.new ≡ again.old }
{
    let longest = number_in(value, "longest", u64::from(MAX_LENGTH)).ok_or(LineFault::Form)?;
    let cut = unended_in(again, RunEnd::Cut, "cut", value)?;
    let hung = unended_in(again, RunEnd::Hung, "hung", value)?;
    Ok(Claims {
        runs: again.numbers().count(),
        longest: longest as u32,
        cut,
        hung,
    })
}

/// A trap, and the runs that left it.
fn trap_in(again: &Again<'_>, value: &Value) -> Option<TrapSeen>
    ensures trap { option_map entry_of result ≡ trap_in again.now.numbers (data_of value.now) }
    ensures within { IfSome result (λ trap. is_drawable trap.seen) }
{
    let seen = again.seen_in(value)?;
    let hart = number_in(value, "hart", 255)?;
    let cause = number_in(value, "cause", 255)?;
    let place = TrapPlace {
        hart: hart as usize,
        cause: cause as u8,
    };
    Some(TrapSeen { place, seen })
}

/// Adds a trap.
fn add_trap(again: &mut Again<'_>, value: &Value, tally: &mut Tally) -> Result<(), LineFault>
    requires { IsTold again.old.image tally.old }
    ensures sum { Steps result tally.new.sum
        (trap_step again.old (data_of value.now) tally.old.sum) }
    ensures told { OnOk result (IsTold again.old.image tally.new) }
    ensures same { again.new ≡ again.old }
{
    let trap = trap_in(again, value).ok_or(LineFault::Form)?;
    if !again.leaves_trap(trap)? {
        return Err(LineFault::Form);
    }
    tally.claim_trap(trap)?;
    Ok(())
}

/// Adds the traps of a list.
fn add_list(again: &mut Again<'_>, list: &[Value], tally: &mut Tally) -> Result<(), LineFault>
    requires { IsTold again.old.image tally.old }
    ensures sum { Steps result tally.new.sum
        (all_steps (trap_step again.old) (items_view list.now) tally.old.sum) }
    ensures told { OnOk result (IsTold again.old.image tally.new) }
    ensures same { again.new ≡ again.old }
{
    for item in list {
        add_trap(again, item, tally)?;
    }
    Ok(())
}

/// Adds all traps.
fn add_traps(again: &mut Again<'_>, value: &Value, tally: &mut Tally) -> Result<(), LineFault>
    requires { IsTold again.old.image tally.old }
    ensures sum { Steps result tally.new.sum
        (with_traps again.old (data_of value.now) tally.old.sum) }
    ensures told { OnOk result (IsTold again.old.image tally.new) }
    ensures same { again.new ≡ again.old }
{
    let list = list_in(value, "traps").ok_or(LineFault::Form)?;
    add_list(again, list, tally)
}

/// Adds an end.
fn add_end(again: &mut Again<'_>, value: &Value, tally: &mut Tally) -> Result<(), LineFault>
    requires { IsTold again.old.image tally.old }
    ensures sum { Steps result tally.new.sum
        (end_step again.old (data_of value.now) tally.old.sum) }
    ensures told { OnOk result (IsTold again.old.image tally.new) }
    ensures same { again.new ≡ again.old }
{
    let seen = again.seen_in(value).ok_or(LineFault::Form)?;
    again.add_end(seen, tally)
}

/// Adds the ends of a list.
fn add_rows(again: &mut Again<'_>, list: &[Value], tally: &mut Tally) -> Result<(), LineFault>
    requires { IsTold again.old.image tally.old }
    ensures sum { Steps result tally.new.sum
        (all_steps (end_step again.old) (items_view list.now) tally.old.sum) }
    ensures told { OnOk result (IsTold again.old.image tally.new) }
    ensures same { again.new ≡ again.old }
{
    for item in list {
        add_end(again, item, tally)?;
    }
    Ok(())
}

/// The member that has the ends: where items are shown, the rows of them.
fn ends_name(is_shown: bool) -> &'static str
    ensures { result.now ≡ ends_name is_shown }
{
    if is_shown { "shown" } else { "outcomes" }
}

/// Adds all ends.
fn add_ends(
    again: &mut Again<'_>,
    is_shown: bool,
    value: &Value,
    tally: &mut Tally,
) -> Result<(), LineFault>
    requires { IsTold again.old.image tally.old }
    ensures sum { Steps result tally.new.sum
        (with_ends again.old is_shown (data_of value.now) tally.old.sum) }
    ensures told { OnOk result (IsTold again.old.image tally.new) }
    ensures same { again.new ≡ again.old }
{
    let list = list_in(value, ends_name(is_shown)).ok_or(LineFault::Form)?;
    add_rows(again, list, tally)
}

/// What the runs gave.
pub(crate) fn tally_in(
    again: &mut Again<'_>,
    is_shown: bool,
    value: &Value,
) -> Result<Tally, LineFault>
    ensures sum { GivesSeen (λ (tally : Counted). tally.sum) result
        (tally_in again.old is_shown (data_of value.now)) }
    ensures told { IfOk result (λ tally. IsTold again.old.image tally) }
    ensures same { again.new ≡ again.old }
{
    let claims = claims_in(again, value)?;
    let mut tally = again.tally_of(claims);
    add_traps(again, value, &mut tally)?;
    add_ends(again, is_shown, value, &mut tally)?;
    if adds_up(again.alloc(), &tally)? {
        Ok(tally)
    } else {
        Err(LineFault::Form)
    }
}
