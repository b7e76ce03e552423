//! The program: answers one question, or reports why it cannot.

ghost use Rattle.std.specs.Prelude.{◌≡◌, ◌<◌, ◌≤◌, length, None, Ok, Some, IfOk, IfErr, option_map};
ghost use Rattle.explore_line.specs.Requests.{asked_by, explore_asked, search_asked_by};
ghost use Rattle.explore_line.specs.Requests.{IsBounded, Sample};
ghost use Rattle.explore_line.specs.Samples.{sample_asked_by, IsSampleBounded};
ghost use Rattle.grammar.specs.LabelMap.{label_parts};
ghost use Rattle.grammar.specs.Labels.{labels_of};
ghost use Rattle.listings.specs.Meaning.{listing_meaning};
ghost use Rattle.printing.specs.Endings.{HasWhole, FailsBy};
ghost use Rattle.explore_program.specs.Faults.{failure_of};
ghost use Rattle.explore_program.specs.Listings.{bytes_in, listed_of};
ghost use Rattle.explore_program.specs.Program.{Concludes, Ends, IsAnswer, IsMapAnswer};
ghost use Rattle.explore_program.specs.Program.{IsPut, IsRequestAnswer, IsTextsAnswer};
ghost use Rattle.explore_program.specs.Program.{command_line, IsSearched};

use crate::answers::{Asking, answer_question};
use crate::faults::{Fault, OwnFault};
use crate::listing::{Listed, read_map_text, read_mapped_image};
use crate::merging::merge;
use crate::progress::{Counted, QuietProgress, TerminalProgress};
use crate::questions::format_of;
use crate::ranges::ranges_of;
use crate::sampling::sample;
use crate::threads::threads_for;
use cheri_model::Image;
use explore_line::{ExploreRequest, Request, SampleRequest, explore_request};
use grammar::labels::Labels;
use graph_nodes::Team;
use graph_search::Progress;
use inputs::{Files, command_args, read_listing_text};
use listing_labels::labels_of;
use printing::give_back;
use program_io::{finish, report_fault};
use reductions::Keeps;
use shown_states::{Answer, Ending, put_answer};
use sinks::{Sink, ToWrite};
use states::{MAX_SWEEPS, Search};
use std::alloc::{AllocGlobal, Global};
use std::io::Write;
use std::thread::Threads;
use std::time::Clock;

/// A good listing, and its image.
#[derive(Clone, Copy)]
struct Listing<'t, 'i> {
    listed: Listed<'t>,
    image: &'i Image,
}

/// Answers a request about a good listing, with the listing's labels.
fn answer_labelled<S: Sink, P: Progress>(
    alloc: Global,
    request: &ExploreRequest<'_>,
    listing: Listing<'_, '_>,
    labels: &Labels<'_>,
    progress: &mut P,
    sink: &mut S,
) -> Result<Ending, Fault>
    requires meaning { listing_meaning listing.listed.text.now ≡ Ok listing.image.now }
    requires some { 1 ≤ request.now.states }
    requires few { length request.now.sweeps.items ≤ MAX_SWEEPS }
    ensures printed { IfOk result (λ ending. HasWhole
        (IsRequestAnswer (label_parts labels.now) (listed_of listing.entry.listed)
        listing.entry.image.now (search_asked_by request.now)) ending
        (S.written sink.old) (S.written sink.new)) }
    ensures failed { IfErr result (λ fault. FailsBy (failure_of fault)
        (IsRequestAnswer (label_parts labels.now) (listed_of listing.entry.listed)
        listing.entry.image.now (search_asked_by request.now)) fault
        (S.written sink.old) (S.written sink.new)) }
    ensures identity { S.identity sink.new ≡ S.identity sink.old }
{
    let sweeps = ranges_of(alloc, request.sweeps.as_slice())?;
    let Listing { listed, image } = listing;
    let search = Search {
        image,
        sweeps: sweeps.as_slice(),
        every_step: request.every_step,
        limit: request.states,
    };
    let asking = Asking {
        labels,
        listed,
        search,
        format: format_of(request.form),
        explained: request.explained,
        keeps: Keeps {
            registers: request.keeps_registers,
            harts: request.keeps_harts,
        },
    };
    answer_question(alloc, request.question, asking, progress, sink)
}

/// Answers a request about a good listing of this image.
fn answer_listed<S: Sink, P: Progress>(
    alloc: Global,
    request: &ExploreRequest<'_>,
    image: &Image,
    listed: Listed<'_>,
    progress: &mut P,
    sink: &mut S,
) -> Result<Ending, Fault>
    requires meaning { listing_meaning listed.text.now ≡ Ok image.now }
    requires some { 1 ≤ request.now.states }
    requires few { length request.now.sweeps.items ≤ MAX_SWEEPS }
    ensures printed { IfOk result (λ ending. HasWhole
        (IsRequestAnswer (labels_of listed.entry.text.now) (listed_of listed.entry) image.now
        (search_asked_by request.now)) ending
        (S.written sink.old) (S.written sink.new)) }
    ensures failed { IfErr result (λ fault. FailsBy (failure_of fault)
        (IsRequestAnswer (labels_of listed.entry.text.now) (listed_of listed.entry) image.now
        (search_asked_by request.now)) fault
        (S.written sink.old) (S.written sink.new)) }
    ensures identity { S.identity sink.new ≡ S.identity sink.old }
{
    let labels = labels_of(alloc, image, listed.text)?;
    let listing = Listing { listed, image };
    answer_labelled(alloc, request, listing, &labels, progress, sink)
}

/// Answers a request about the texts of a listing and its map, which are judged in this order.
fn answer_texts<S: Sink, P: Progress>(
    alloc: Global,
    request: &ExploreRequest<'_>,
    listing: &[u8],
    map: Option<&[u8]>,
    progress: &mut P,
    sink: &mut S,
) -> Result<Ending, Fault>
    requires some { 1 ≤ request.now.states }
    requires few { length request.now.sweeps.items ≤ MAX_SWEEPS }
    ensures printed { IfOk result (λ ending. HasWhole
        (IsTextsAnswer listing.now (option_map bytes_in map.entry)
        (search_asked_by request.now)) ending
        (S.written sink.old) (S.written sink.new)) }
    ensures failed { IfErr result (λ fault. FailsBy (failure_of fault)
        (IsTextsAnswer listing.now (option_map bytes_in map.entry)
        (search_asked_by request.now)) fault
        (S.written sink.old) (S.written sink.new)) }
    ensures identity { S.identity sink.new ≡ S.identity sink.old }
{
    let mapped = read_mapped_image(alloc, listing, map)?;
    let sources = mapped.sources();
    let listed = Listed {
        text: listing,
        sources,
    };
    answer_listed(alloc, request, &mapped.image, listed, progress, sink)
}

/// Answers a request about a listing with this text, whose map is read first, if one is named.
fn answer_mapped<F: Files, S: Sink, P: Progress>(
    alloc: Global,
    request: &ExploreRequest<'_>,
    listing: &[u8],
    files: &mut F,
    progress: &mut P,
    sink: &mut S,
) -> Result<Ending, Fault>
    requires some { 1 ≤ request.now.states }
    requires few { length request.now.sweeps.items ≤ MAX_SWEEPS }
    ensures printed { IfOk result (λ ending. HasWhole
        (IsMapAnswer (option_map (F.bytes_of files.old) (search_asked_by request.now).map)
        listing.now (search_asked_by request.now)) ending
        (S.written sink.old) (S.written sink.new)) }
    ensures failed { IfErr result (λ fault. FailsBy (failure_of fault)
        (IsMapAnswer (option_map (F.bytes_of files.old) (search_asked_by request.now).map)
        listing.now (search_asked_by request.now)) fault
        (S.written sink.old) (S.written sink.new)) }
    ensures identity { S.identity sink.new ≡ S.identity sink.old }
{
    match request.map {
        None => answer_texts(alloc, request, listing, None, progress, sink),
        Some(name) => {
            let map = read_map_text(files, name)?;
            let text = Some(map.as_slice());
            answer_texts(alloc, request, listing, text, progress, sink)
        }
    }
}

/// Answers a search. All files are read before one is judged.
fn answer_search<F: Files, S: Sink, P: Progress>(
    alloc: Global,
    request: &ExploreRequest<'_>,
    files: &mut F,
    progress: &mut P,
    sink: &mut S,
) -> Result<Ending, Fault>
    requires some { 1 ≤ request.now.states }
    requires few { length request.now.sweeps.items ≤ MAX_SWEEPS }
    ensures printed { IfOk result (λ ending. HasWhole
        (IsSearched (F.bytes_of files.old) (search_asked_by request.now)) ending
        (S.written sink.old) (S.written sink.new)) }
    ensures failed { IfErr result (λ fault. FailsBy (failure_of fault)
        (IsSearched (F.bytes_of files.old) (search_asked_by request.now)) fault
        (S.written sink.old) (S.written sink.new)) }
    ensures identity { S.identity sink.new ≡ S.identity sink.old }
{
    let text = read_listing_text(files, request.listing)?;
    answer_mapped(alloc, request, text.as_slice(), files, progress, sink)
}

/// Puts what was made of an answer, or fails by its fault.
fn put_made<S: Sink>(sink: &mut S, made: Result<Answer, Fault>) -> Result<Ending, Fault>
    ensures put { IsPut made result (S.written sink.old) (S.written sink.new) }
    ensures identity { S.identity sink.new ≡ S.identity sink.old }
{
    let answer = made?;
    let ending = put_answer(sink, &answer)?;
    Ok(ending)
}

/// Answers a request.
fn answer_request<F: Files, S: Sink, R: Threads + Sync, P: Progress>(
    rt: &R,
    alloc: Global,
    request: &Request<'_>,
    files: &mut F,
    progress: &mut P,
    sink: &mut S,
) -> Result<Ending, Fault>
    requires { IsBounded request.now }
    ensures printed { IfOk result (λ ending. HasWhole
        (IsAnswer (F.bytes_of files.old) (Some (asked_by request.now))) ending
        (S.written sink.old) (S.written sink.new)) }
    ensures failed { IfErr result (λ fault. FailsBy (failure_of fault)
        (IsAnswer (F.bytes_of files.old) (Some (asked_by request.now))) fault
        (S.written sink.old) (S.written sink.new)) }
    ensures identity { S.identity sink.new ≡ S.identity sink.old }
{
    match request {
        Request::Search(request) => answer_search(alloc, request, files, progress, sink),
        Request::Sample(request) => {
            let made = sample(rt, alloc, request, files, progress);
            put_made(sink, made)
        }
        Request::Merge(request) => {
            let made = merge(alloc, request, files);
            put_made(sink, made)
        }
    }
}

/// What is counted as a request is answered.
fn counted_for(request: &Request<'_>) -> Counted {
    match request {
        Request::Search(_) => Counted::States,
        Request::Sample(_) | Request::Merge(_) => Counted::Runs,
    }
}

/// By how many threads states are searched as a request is answered.
fn threads_of<R: Threads>(rt: &R, request: &Request<'_>) -> u16
    requires { IsBounded request.now }
    ensures { 0 < result }
{
    match request {
        Request::Search(request) => threads_for(rt, request.jobs),
        Request::Sample(_) | Request::Merge(_) => 1,
    }
}

/// Answers a request. In a terminal, which is given by its clock, how far it is is reported on
/// `err`, where this takes long; elsewhere nothing is.
fn answer_at<F: Files, S: Sink, R: AllocGlobal + Threads + Sync, E: Write, C: Clock>(
    rt: &R,
    request: &Request<'_>,
    files: &mut F,
    terminal: Option<&C>,
    sink: &mut S,
    err: &mut E,
) -> Result<Ending, Fault>
    requires { IsBounded request.now }
    ensures printed { IfOk result (λ ending. HasWhole
        (IsAnswer (F.bytes_of files.old) (Some (asked_by request.now))) ending
        (S.written sink.old) (S.written sink.new)) }
    ensures failed { IfErr result (λ fault. FailsBy (failure_of fault)
        (IsAnswer (F.bytes_of files.old) (Some (asked_by request.now))) fault
        (S.written sink.old) (S.written sink.new)) }
    ensures silent { terminal.entry ≡ None → E.contents err.new ≡ E.contents err.old }
    ensures identity { S.identity sink.new ≡ S.identity sink.old }
{
    let alloc = rt.alloc();
    let threads = threads_of(rt, request);
    let crew = Team { rt, threads };
    match terminal {
        Some(clock) => {
            let mut progress = TerminalProgress::new(clock, err, counted_for(request), crew);
            answer_request(rt, alloc, request, files, &mut progress, sink)
        }
        None => {
            let mut progress = QuietProgress { crew };
            answer_request(rt, alloc, request, files, &mut progress, sink)
        }
    }
}

/// Answers what the arguments ask for. The command line is judged first.
fn answer<F: Files, S: Sink, R: AllocGlobal + Threads + Sync, E: Write, C: Clock>(
    rt: &R,
    args: &[String],
    files: &mut F,
    terminal: Option<&C>,
    sink: &mut S,
    err: &mut E,
) -> Result<Ending, Fault>
    ensures printed { IfOk result (λ ending. HasWhole
        (IsAnswer (F.bytes_of files.old) (explore_asked (command_line args.now))) ending
        (S.written sink.old) (S.written sink.new)) }
    ensures failed { IfErr result (λ fault. FailsBy (failure_of fault)
        (IsAnswer (F.bytes_of files.old) (explore_asked (command_line args.now))) fault
        (S.written sink.old) (S.written sink.new)) }
    ensures silent { terminal.entry ≡ None → E.contents err.new ≡ E.contents err.old }
    ensures identity { S.identity sink.new ≡ S.identity sink.old }
{
    let args = command_args(rt.alloc(), "cheri_explore", args)?;
    let request = explore_request(rt.alloc(), args.as_slice())?;
    answer_at(rt, &request, files, terminal, sink, err)
}

/// The exit status of a command that ended so: that of its ending, or of a violation or a fault,
/// which is reported.
fn conclude<E: Write>(err: &mut E, ended: Result<Ending, Fault>) -> u8
    ensures { Concludes ended result (E.contents err.old) (E.contents err.new) }
{
    match ended {
        Ok(Ending::Violated(line)) => report_fault(err, Fault::Own(OwnFault::Violated(line))),
        Ok(Ending::Done) => Ending::Done.status(),
        Ok(Ending::Unfinished) => Ending::Unfinished.status(),
        Ok(Ending::Nowhere) => Ending::Nowhere.status(),
        Err(fault) => report_fault(err, fault),
    }
}

/// Answers what the arguments of a command line ask for, which are those after the program's name,
/// and gives the exit status: 0 where all was answered, 4 where not all states could be kept, 5
/// where no state is one that was looked for, and then `out` got the whole answer and `err`
/// nothing. Else `err` got the line of a fault, whether it took it or not: 1 where a text was
/// refused, or where the whole answer tells of a property that is violated, 2 where the command
/// line was, and 3 for every other fault. Where `err` is a terminal, `terminal` is the clock by
/// which lines of how far a long search or a sample is come there before. Searches and `sample`
/// start threads.
pub fn perform<F: Files, R: AllocGlobal + Threads + Sync, O: Write, E: Write, C: Clock>(
    rt: &R,
    args: &[String],
    files: &mut F,
    terminal: Option<&C>,
    out: &mut O,
    err: &mut E,
) -> u8
    ensures { Ends terminal.entry (F.bytes_of files.old) (explore_asked (command_line args.now))
        result (O.contents out.old) (O.contents out.new)
        (E.contents err.old) (E.contents err.new) }
{
    let mut sink = ToWrite::new(out);
    let answered = answer(rt, args, files, terminal, &mut sink, err);
    let ended = finish(&mut sink, answered);
    give_back(sink);
    conclude(err, ended)
}
