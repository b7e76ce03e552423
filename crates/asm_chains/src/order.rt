//! The order in which symbols are worked out: mostly, those that an expression names come before
//! it. It makes a difference to speed alone.
#![tactic(auto, unfolding(crate::proofs::Unfold::orders))]

ghost use Rattle.std.specs.Prelude.{◌≡◌, ◌+◌, ◌≤◌, IfOk, IfSome, false, slice_get};
ghost use Rattle.asm_chains.specs.Orders.{work_of};

use crate::scene::{Leaf, Scene};
use std::alloc::{AllocError, Global};

/// A symbol whose expression is looked through, and the number of the node that is next.
#[derive(Clone, Copy)]
struct Frame {
    symbol: usize,
    next: usize,
}

/// What was met so far, the symbols that wait for those after them, and those that are done.
#[derive(Drop)]
struct Order {
    met: Vec<bool>,
    way: Vec<Frame>,
    done: Vec<usize>,
}

impl Order {
    /// The first symbol that an expression names and that wasn't met, and the number of the node
    /// behind its name.
    fn next_of<S: Scene>(&self, scene: &S, frame: Frame) -> Option<(usize, usize)>
        ensures { IfSome result (λ found. slice_get self.now.met.items found.0 ≡ Some false) }
    {
        let nodes = scene.nodes(frame.symbol);
        let setting = scene.setting(frame.symbol);
        for at in frame.next..nodes.len() {
            if let Leaf::Stands(symbol) = scene.leaf(setting, nodes[at]) {
                if let Some(false) = self.met.get(symbol as usize).copied() {
                    return Some((symbol as usize, at + 1));
                }
            }
        }
        None
    }

    /// Begins to look through the expression of a symbol that wasn't met.
    fn begin(&mut self, symbol: usize) -> Result<(), AllocError>
        ensures { IfOk result (λ done. slice_get self.old.met.items symbol ≡ Some false
            → work_of self.new + 1 ≤ work_of self.old) }
    {
        if let Some(met) = self.met.get_mut(symbol) {
            if !*met {
                *met = true;
                self.way.push(Frame { symbol, next: 0 })?;
            }
        }
        Ok(())
    }

    /// Looks on through the last expression, which is no more on the way: for a symbol that wasn't
    /// met, or to its end.
    fn look_on<S: Scene>(&mut self, scene: &S, frame: Frame) -> Result<(), AllocError>
        ensures { IfOk result (λ done. work_of self.new ≤ work_of self.old) }
    {
        match self.next_of(scene, frame) {
            Some((symbol, next)) => {
                self.way.push(Frame {
                    symbol: frame.symbol,
                    next,
                })?;
                self.begin(symbol)
            }
            None => Ok(self.done.push(frame.symbol)?),
        }
    }

    /// Looks through all expressions that are on the way.
    fn finish<S: Scene>(&mut self, scene: &S) -> Result<(), AllocError> {
        while let Some(frame) = self.way.pop() {
            self.look_on(scene, frame)?;
        }
        Ok(())
    }
}

/// The symbols of a scene in such an order.
pub(crate) fn order_of<S: Scene>(alloc: Global, scene: &S) -> Result<Vec<usize>, AllocError> {
    let count = scene.count();
    let mut order = Order {
        met: vec![in alloc; false; count]?,
        way: Vec::new(alloc),
        done: Vec::new(alloc),
    };
    for symbol in 0..count {
        order.begin(symbol)?;
        order.finish(scene)?;
    }
    Ok(order.done)
}
