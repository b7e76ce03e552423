//! Loops of small graphs of one or two actors.

ghost use Rattle.std.specs.Prelude.{◌<◌, ◌≤◌};

use crate::routes::Routes;
use graph_loops::{Loops, judge_loops};
use graph_search::{NoProgress, explore};
use loop_search::{Verdict, search_loops};
use std::alloc::{AllocError, Global};
use std::io;
use std::test::Fail;

/// A lock: actor 1 spins in state 0 until actor 0 leads on to state 1, and then ends in state 2.
const LOCK: &[u32] = &[2, 1, 0, 3, 0, 0];

/// The same without spinning.
const WITHOUT: &[u32] = &[2, 0, 0, 3, 0, 0];

/// Both wait for each other for ever.
const BOTH: &[u32] = &[2, 1, 1, 2];

/// What the numbers of the nodes show of a graph's loops.
fn judge(alloc: Global, targets: &[u32], numbers: &[u32]) -> Result<Loops, AllocError> {
    let mut graph = Routes::new(alloc, targets)?;
    let found = explore(alloc, &mut graph, &[0], 100, &mut NoProgress)?;
    judge_loops(alloc, &mut graph, &found, numbers, 2)
}

/// What a search for loops finds after a search for states.
fn find(alloc: Global, targets: &[u32], actors: u32, limit: u32) -> Result<Verdict, AllocError>
    requires some { 0 < limit }
    requires few { actors ≤ 2 }
{
    let mut graph = Routes::new(alloc, targets)?;
    let found = explore(alloc, &mut graph, &[0], limit, &mut NoProgress)?;
    search_loops(alloc, &mut graph, &found, actors)
}

/// A verdict in short: a word, the node, and the labels.
fn shown(alloc: Global, verdict: &Verdict) -> io::Result<String> {
    let text = match verdict {
        Verdict::Fair(given) => format!(in alloc; "fair {} {:?}", given.node, given.labels)?,
        Verdict::Unfair(given) => format!(in alloc; "unfair {} {:?}", given.node, given.labels)?,
        Verdict::Unknown => format!(in alloc; "unknown")?,
        Verdict::NoLoop => format!(in alloc; "none")?,
    };
    Ok(text)
}

/// What numbers that never rise along an edge show.
#[test]
fn numbers_show_loops(rt: HostRuntime) -> Result<(), Fail> {
    for (targets, numbers, want) in [
        (LOCK, [2, 1, 0].as_slice(), Loops::Unfair),
        (LOCK, [0, 0, 0].as_slice(), Loops::Unknown),
        (LOCK, [0, 1, 2].as_slice(), Loops::Unknown),
        (LOCK, [2, 1].as_slice(), Loops::Unknown),
        (LOCK, [3, 1, 0].as_slice(), Loops::Unknown),
        (WITHOUT, [2, 1, 0].as_slice(), Loops::NoLoop),
        (BOTH, [0, 0].as_slice(), Loops::Unknown),
    ] {
        assert_eq!(rt;
            judge(rt.alloc(), targets, numbers)?,
            want,
            "of {numbers:?}"
        );
    }
    Ok(())
}

/// What is found of loops, with so many actors.
#[test]
fn loops_are_found(rt: HostRuntime) -> Result<(), Fail> {
    for (targets, is_one, want) in [
        (LOCK, false, "unfair 0 [1]"),
        (WITHOUT, false, "none"),
        (BOTH, false, "fair 0 [0, 0, 1]"),
        // label 1 belongs to nobody: a part of a loop, and alone none
        ([2, 0, 0, 1].as_slice(), true, "fair 0 [0, 1]"),
        ([2, 0, 0, 2].as_slice(), true, "none"),
        // the first state that has a loop: this one begins with nobody's label
        ([0, 2, 1, 2].as_slice(), true, "fair 0 [1, 0]"),
        // in state 1 actor 0 rests, and need not step
        ([2, 1, 0, 2].as_slice(), false, "fair 1 [1]"),
        // an edge to an earlier state, and no loop
        ([2, 3, 4, 0, 0, 0, 3, 0].as_slice(), false, "none"),
    ] {
        let verdict = find(rt.alloc(), targets, if is_one { 1 } else { 2 }, 100)?;
        let got = shown(rt.alloc(), &verdict)?;
        assert_eq!(rt; got.as_str(), want, "of {targets:?}");
    }
    // searches for states that did not end tell of the states that they kept
    let verdict = find(rt.alloc(), BOTH, 2, 1)?;
    assert_eq!(rt; shown(rt.alloc(), &verdict)?.as_str(), "unknown");
    let verdict = find(rt.alloc(), &[1, 2, 3, 0, 0, 0], 1, 2)?;
    assert_eq!(rt; shown(rt.alloc(), &verdict)?.as_str(), "fair 0 [0]");
    Ok(())
}
