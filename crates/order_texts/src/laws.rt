//! The laws of orders as text: they are read as the orders that they are.

ghost use Rattle.std.specs.Prelude.{◌≡◌, ℕ, ◌≤◌, List, ◌∷◌, ◌++◌, Ok, length};
ghost use Rattle.cheri_model.specs.declared.operation.Op.{Op};
ghost use Rattle.orders.specs.Orders.{header, order_limit, order_of};
ghost use Rattle.order_texts.specs.OrderTexts.{order_text, AreOperations, AreSteps};

/// The text of an order that has an operation is an order of just these operations: after the
/// header of version 2, or as it is where it has steps alone.
pub fn texts_are_orders()
    ensures sweeps { (op : Op) (ops : List Op) → AreOperations (op ∷ ops)
        → length (op ∷ ops) ≤ order_limit
        → order_of (header ++ order_text (op ∷ ops)) ≡ Ok (op ∷ ops) }
    ensures steps { (op : Op) (ops : List Op) → AreSteps (op ∷ ops)
        → length (op ∷ ops) ≤ order_limit → order_of (order_text (op ∷ ops)) ≡ Ok (op ∷ ops) }
{}
