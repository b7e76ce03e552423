//! Nodes that fit into words, and some that don't.

ghost use Rattle.std.specs.Prelude.{◌≡◌};

use graph_nodes::Nodes;
use std::alloc::AllocError;
use std::test::Fail;

/// Rows of five numbers: three of at most 16 bits and four times 12, and three that are wider.
const ROWS: [[u32; 5]; 6] = [
    [0, 0, 0, 0, 0],
    [65_535, 4_095, 0, 4_095, 1],
    [1, 0, 0, 0, 0],
    [65_536, 1, 2, 3, 4],
    [1, 4_096, 0, 0, 0],
    [0, 0, 0, 0, 4_294_967_295],
];

/// Whether this row has this number, and is read by it.
fn is_there(nodes: &Nodes, number: u32, row: &[u32; 5]) -> bool
    requires { nodes.now.width ≡ 5 }
{
    let mut room = [0; 5];
    if nodes.find(row) != Some(number) {
        return false;
    }
    nodes.read(number, &mut room) && room == *row
}

/// Whether the first rows are there, so many, and the others not.
fn are_there(nodes: &Nodes, count: u32) -> bool
    requires { nodes.now.width ≡ 5 }
{
    for number in 0..6u32 {
        if is_there(nodes, number, &ROWS[number as usize]) != (number < count) {
            return false;
        }
    }
    nodes.len() == count as usize
}

/// Whether each row gets its number, and those before it keep theirs.
fn insert_all(nodes: &mut Nodes) -> Result<bool, AllocError>
    requires { nodes.old.width ≡ 5 }
    ensures { nodes.new.width ≡ 5 }
{
    for number in 0..6u32 {
        if nodes.insert(&ROWS[number as usize])? != number || !are_there(nodes, number + 1) {
            return Ok(false);
        }
    }
    Ok(true)
}

#[test]
fn nodes_are_kept_once(rt: HostRuntime) -> Result<(), Fail> {
    let mut nodes = Nodes::new(rt.alloc(), 5);
    assert!(rt; are_there(&nodes, 0));
    assert!(rt; insert_all(&mut nodes)?);
    assert_eq!(rt; nodes.insert(&ROWS[1])?, 1);
    assert!(rt; nodes.find(&[1, 0]).is_none());
    assert!(rt; are_there(&nodes, 6));
    Ok(())
}
