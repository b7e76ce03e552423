//! The question, which is answered as without equal harts where none are of a group.

ghost use Rattle.std.specs.Prelude.{◌≡◌, ◌+◌, IfErr, IfOk};
ghost use Rattle.alike_authority.specs.AlikeAuthority.{IsAlikeAuthority};
ghost use Rattle.alike_authority.specs.Grouped.{IsGrouping, keeps_of};
ghost use Rattle.shown_states.specs.Endings.{IsUnwritten, IsWritten, failures_of};
ghost use Rattle.shown_states.specs.declared.form.Ending.{Ending};
ghost use Rattle.states.specs.Searches.{IsSearchable, search_of};

use crate::answers::answer_alike;
use authority_texts::authority;
use graph_search::Progress;
use hart_groups::any_grouped;
use live_registers::RegisterSet;
use named_harts::{HartSet, nobody};
use reductions::{Keeps, Reduction, reduction_of};
use shown_states::{Ending, Format, put_answer};
use sinks::{Sink, WriteFault};
use states::Search;
use std::alloc::{AllocError, Global};

/// How rights are told, and whether equal harts are told apart all the same.
#[derive(Clone, Copy)]
pub struct Manner {
    pub format: Format,
    pub keeps_harts: bool,
}

/// What is kept: all registers, and harts where they are to be.
fn keeps_of(keeps_harts: bool) -> Keeps
    ensures { result ≡ keeps_of keeps_harts }
{
    Keeps {
        registers: true,
        harts: keeps_harts,
    }
}

/// What is left out of a search, if any hart is of a group. Fails only when out of memory.
fn grouping_of(
    alloc: Global,
    search: &Search<'_>,
    keeps_harts: bool,
    asked: RegisterSet,
    named: &HartSet,
) -> Result<Option<Reduction>, AllocError>
    ensures { IfOk result (λ found.
        IsGrouping keeps_harts (search_of search.now) asked named.now found) }
{
    match reduction_of(alloc, search, keeps_of(keeps_harts), asked, named)? {
        Some(reduction) => {
            if any_grouped(&reduction.groups) {
                Ok(Some(reduction))
            } else {
                Ok(None)
            }
        }
        None => Ok(None),
    }
}

/// Searches the states that an image reaches, and writes the greatest rights that each hart and
/// memory ever hold, each with an order after which just these are held, as `authority`. Of states
/// that differ only in which of several equal harts stands where one is kept, if harts are not to
/// be kept and the search allows it, and the answer says so where it is done: what one of equal
/// harts comes to hold, each does, by an order in which the two have each other's numbers. Where
/// memory runs out, nothing is written; where the sink fails, it took a prefix of the answer.
pub fn authority_alike<P: Progress, S: Sink>(
    alloc: Global,
    search: &Search<'_>,
    manner: Manner,
    progress: &mut P,
    sink: &mut S,
) -> Result<Ending, WriteFault>
    requires { IsSearchable (search_of search.now) }
    ensures written { IfOk result (λ ending. IsWritten (λ text.
        IsAlikeAuthority manner.keeps_harts (search_of search.now) manner.format text ending)
        (S.written sink.old) (S.written sink.new)) }
    ensures begun { IfErr result (IsUnwritten (λ text. (ending : Ending)
        × IsAlikeAuthority manner.keeps_harts (search_of search.now) manner.format text ending)
        (S.written sink.old) (S.written sink.new)) }
    ensures failures { S.failures sink.new ≡ S.failures sink.old + failures_of result }
    ensures identity { S.identity sink.new ≡ S.identity sink.old }
{
    let asked = RegisterSet::none();
    let found = grouping_of(alloc, search, manner.keeps_harts, asked, &nobody())?;
    let Some(reduction) = found else {
        return authority(alloc, search, manner.format, progress, sink);
    };
    let answer = answer_alike(alloc, search, &reduction, manner.format, progress)?;
    put_answer(sink, &answer)
}
