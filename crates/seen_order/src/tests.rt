//! An order that two operations are added to, at a concrete type parameter. What it then is, and
//! what was seen of it, is proved: the contract of `grown` says it, and no run could look at it.

ghost use Rattle.std.specs.Prelude.{◌≡◌, ◌∷◌, []};
ghost use Rattle.cheri_model.specs.declared.operation.Op.TheVariants.{Step, Sweep};

use crate::keeper::{Blank, Keeper};
use crate::seen::{Order, Seen, Token};
use cheri_model::Op;
use std::marker::Brand;
use std::mem::size_of;
use std::test::Fail;

/// What was seen of the order takes no memory.
#[test]
fn tokens_of_a_grown_order_take_no_bytes(rt: HostRuntime) -> Result<(), Fail> {
    grow::<Brand>(Blank::new());
    assert_eq!(rt; size_of::<Token>(), 0);
    Ok(())
}

/// Adds two operations to a new order.
fn grow<J: Order>(blank: Blank)
    requires { blank ≡ J.name }
{
    let (_early, _late) = grown::<J>(blank);
}

/// Adds two operations, and has seen the order each time.
fn grown<J: Order>(blank: Blank) -> (Seen<J>, Seen<J>)
    requires { blank ≡ J.name }
    ensures first { result.0 ≡ Step 1 ∷ [] }
    ensures second { result.1 ≡ Step 1 ∷ Sweep 16 32 ∷ [] }
{
    let mut keeper: Keeper<J> = blank.named::<J>();
    keeper.add(Op::Step(1));
    let early = keeper.seen();
    keeper.add(Op::Sweep { lo: 16, hi: 32 });
    let late = keeper.seen();
    early.meet(&late);
    (early, late)
}
