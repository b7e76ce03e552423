//! Searches of a graph whose distances are known: from 1, by doubling and by adding 1.

ghost use Rattle.std.specs.Prelude.{◌<◌};

use crate::routes::Routes;
use graph_search::{CountedProgress, NoProgress, Reached, explore, explore_more};
use std::alloc::{AllocError, Global};
use std::fmt::Write;
use std::io;
use std::test::Fail;

/// A search of the numbers below a size, from 1.
fn search(alloc: Global, size: u32, limit: u32) -> Result<Reached, AllocError>
    requires { 0 < limit }
{
    let mut graph = Routes::doubling(alloc, size)?;
    explore(alloc, &mut graph, &[1], limit, &mut NoProgress)
}

/// How many steps of doubling and adding 1 lead from 1 to this number: each binary digit but the
/// first takes a doubling, and each 1 among them one more step.
fn distance(number: u32) -> u32 {
    31u32.saturating_sub(number.leading_zeros()) + number.count_ones().saturating_sub(1)
}

/// The number that a node is.
fn number_at(found: &Reached, node: u32) -> Option<u32> {
    let mut row = [0];
    if found.width() != row.len() {
        return None;
    }
    if !found.read(node, &mut row) {
        return None;
    }
    Some(row[0])
}

/// The first node whose walk is not as long as its number's distance, or shorter than the walk of
/// the node before it.
fn first_wrong(alloc: Global, found: &Reached) -> Result<Option<u32>, AllocError> {
    let mut before = 0;
    for node in 0..found.len() {
        let length = found.witness(alloc, node)?.len();
        let number = number_at(found, node).unwrap_or(0);
        if length != distance(number) as usize || length < before {
            return Ok(Some(node));
        }
        before = length;
    }
    Ok(None)
}

/// The numbers of the nodes in their order, and whether they are all.
fn shown(alloc: Global, found: &Reached) -> io::Result<String> {
    let mut out = String::new(alloc);
    for node in 0..=found.len() {
        if let Some(number) = number_at(found, node) {
            write!(out, "{number} ")?;
        }
    }
    let end = if found.is_complete() { "all" } else { "more" };
    write!(out, "{end} {}", found.len())?;
    Ok(out)
}

/// Each number below 300 is found, by a walk as long as its distance, the nearest ones first.
#[test]
fn walks_are_shortest(rt: HostRuntime) -> Result<(), Fail> {
    let found = search(rt.alloc(), 300, 1000)?;
    assert_eq!(rt; (found.len(), found.is_complete()), (299, true));
    assert_eq!(rt; first_wrong(rt.alloc(), &found)?, None);
    Ok(())
}

/// Nodes are in the order of their witnesses, of which 10's is 1, 2, 4, 5, 10: 2 is 1 doubled.
#[test]
fn witnesses_are_least(rt: HostRuntime) -> Result<(), Fail> {
    let found = search(rt.alloc(), 11, 100)?;
    assert_eq!(rt;
        shown(rt.alloc(), &found)?.as_str(),
        "1 2 4 3 8 5 6 9 10 7 all 10"
    );
    if found.len() > 8 {
        let walk = found.witness(rt.alloc(), 8)?;
        assert_eq!(rt; walk.as_slice(), [0, 0, 1, 0].as_slice());
    }
    Ok(())
}

/// How many nodes a search of the numbers below 11 finds, whether they are all, and whether no node
/// comes after them.
fn counts(alloc: Global, limit: u32) -> Result<(u32, bool, bool), AllocError>
    requires { 0 < limit }
{
    let found = search(alloc, 11, limit)?;
    let count = found.len();
    Ok((
        count,
        found.is_complete(),
        number_at(&found, count).is_none(),
    ))
}

/// A search stops at its limit, and not before it.
#[test]
fn limits_are_kept(rt: HostRuntime) -> Result<(), Fail> {
    for limit in 1..12u32 {
        let got = counts(rt.alloc(), limit)?;
        assert_eq!(rt; got, (limit.min(10), limit >= 10, true), "{limit}");
    }
    Ok(())
}

/// A search that was cut goes on at the edge at which it was, and ends as one with the last limit.
#[test]
fn searches_go_on(rt: HostRuntime) -> Result<(), Fail> {
    let mut graph = Routes::doubling(rt.alloc(), 11)?;
    let found = explore(rt.alloc(), &mut graph, &[1], 4, &mut NoProgress)?;
    assert_eq!(rt; found.len(), 4);
    let found = explore_more(rt.alloc(), &mut graph, found, 7, &mut NoProgress)?;
    assert_eq!(rt; (found.len(), found.is_complete()), (7, false));
    let found = explore_more(rt.alloc(), &mut graph, found, 100, &mut NoProgress)?;
    assert_eq!(rt;
        shown(rt.alloc(), &found)?.as_str(),
        "1 2 4 3 8 5 6 9 10 7 all 10"
    );
    Ok(())
}

/// Progress is reported once for every 4,096 nodes.
#[test]
fn progress_is_reported(rt: HostRuntime) -> Result<(), Fail> {
    let mut graph = Routes::doubling(rt.alloc(), 10_000)?;
    let mut progress = CountedProgress {
        reports: 0,
        found: 0,
    };
    let found = explore(rt.alloc(), &mut graph, &[1], 20_000, &mut progress)?;
    assert_eq!(rt; (found.len(), progress.reports), (9_999, 3));
    assert!(rt; progress.found > 8192 && progress.found <= 9_999);
    Ok(())
}
