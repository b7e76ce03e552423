//! What an order consists of.

use cheri_model::Op;

/// A link of an order: the key of the pen that wrote it, the operation, and the key of the pen that
/// may write the next one. No value of it is made.
#[derive(Clone, Copy)]
pub struct Link {
    pub pen: u64,
    pub operation: Op,
    pub next: u64,
}
