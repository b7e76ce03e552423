//! How a node was found.

/// The edge by which a node was found: the number of the node that it leaves, and its label.
#[derive(Clone, Copy)]
pub struct Edge {
    pub from: u32,
    pub label: u32,
}
