//! What is written of the run of two texts, a listing and an order.

ghost use Rattle.std.specs.Prelude.{◌≡◌, ◌+◌, ◌≤◌, ℕ, List, IfOk, IfErr, OnOk, length, false};
ghost use Rattle.std.specs.Io.KnownBytes.{Appends};
ghost use Rattle.cores.specs.Cores.{CoreParts};
ghost use Rattle.listings.specs.Meaning.{listing_limit};
ghost use Rattle.sinks.specs.Sinks.{TakesPrefix};
ghost use Rattle.sinks.specs.WriteFaults.{failures_of};
ghost use Rattle.simulation.specs.Simulation.{IsRunUnwritten, IsRunWritten, run_of_texts};
ghost use Rattle.simulation.specs.Simulation.{is_reported, failures_of_run};

use crate::faults::SimFault;
use crate::runs::run_texts;
use cores::{Core, StepFault};
use sinks::{Sink, WriteFault};
use std::alloc::Global;

/// What can be written of a run: of a listing, and of the core that took an order of it.
pub trait RunText {
    /// The text, by the listing and by what the core took.
    ghost text: { Self → List ℕ → CoreParts → List ℕ };

    /// Writes it. After a fault the sink took a prefix of it.
    fn write<S: Sink>(
        &self,
        alloc: Global,
        listing: &[u8],
        core: &Core,
        sink: &mut S,
    ) -> Result<(), WriteFault>
        requires { length listing.now ≤ listing_limit }
        ensures whole { OnOk result (Appends (S.written sink.old) (S.written sink.new)
            (text self.now listing.now core.now)) }
        ensures prefix { TakesPrefix (S.written sink.old) (S.written sink.new)
            (text self.now listing.now core.now) }
        ensures failures { S.failures sink.new ≡ S.failures sink.old + failures_of result }
        ensures identity { S.identity sink.new ≡ S.identity sink.old };
}

/// Runs the machine of a listing in an order, with a trace of at most `limit` events, and writes a
/// text of the run. Answers the operation that was refused, if one was, with its place in the order
/// counted from 0; what is written is of the operations before it. Nothing is written before both
/// texts are good; the listing is judged first, then the order, then the limit, which is from 1 to
/// 100,000. After a fault of the writing the sink took a prefix of the text.
pub fn run_and_write<T: RunText, S: Sink>(
    alloc: Global,
    listing: &[u8],
    order: &[u8],
    limit: u32,
    text: &T,
    out: &mut S,
) -> Result<Option<(usize, StepFault)>, SimFault>
    ensures shown { IfOk result (IsRunWritten (run_of_texts listing.now order.now limit)
        (λ run. T.text text.now listing.now run.0) (S.written out.old) (S.written out.new)) }
    ensures refused { IfErr result (IsRunUnwritten (run_of_texts listing.now order.now limit)
        (λ run. T.text text.now listing.now run.0) (S.written out.old) (S.written out.new)) }
    ensures untouched { IfErr result (λ fault. is_reported fault ≡ false → out.new ≡ out.old) }
    ensures failures { S.failures out.new ≡ S.failures out.old + failures_of_run result }
    ensures identity { S.identity out.new ≡ S.identity out.old }
{
    let (core, refused) = run_texts(alloc, listing, order, limit)?;
    text.write(alloc, listing, &core, out)?;
    Ok(refused)
}
