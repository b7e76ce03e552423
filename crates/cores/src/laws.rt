//! What every run of an order is; and the numbers that code and definitions share, each by its
//! numeral. Definitions take those from the code, so that a wrong one would be wrong on both sides;
//! these laws hold them to what the documents say.

ghost use Rattle.std.specs.Prelude.{◌≡◌};
ghost use Rattle.cores.specs.declared.cores.TheConstants.{GREATEST_TRACE_LIMIT};
ghost use Rattle.cores.specs.Runs.{RunsTakeAll, RunsAreReplays};
ghost use Rattle.orders.specs.declared.reader.TheConstants.{ORDER_LIMIT};

/// The greatest limit of a trace, and the most operations of an order.
pub fn limits()
    ensures trace { GREATEST_TRACE_LIMIT ≡ 100000 }
    ensures order { ORDER_LIMIT ≡ 100000 }
{}

/// Every run of an order, which definitions give as a function, takes the order as far as it can be
/// taken; and what it leaves is the replay of what it took.
pub fn runs()
    ensures taken { RunsTakeAll }
    ensures replays { RunsAreReplays }
{}
