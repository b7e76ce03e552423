//! What is said of orders.
#![tactic(auto, unfolding(crate::proofs::Unfold::explained))]

ghost use Rattle.std.specs.Prelude.{◌≡◌, ◌++◌, Ok, IfOk, OnOk, option_map, string_bytes};
ghost use Rattle.explained_orders.specs.ExplainedOrders.{
  explained_order,
  explained_orders,
  explanation_of,
  order_head,
  run_explained,
};
ghost use Rattle.listing_maps.specs.Names.{sources_parts};
ghost use Rattle.listings.specs.Meaning.{listing_meaning};
ghost use Rattle.order_texts.specs.OrderTexts.{orders_of};

use asm_map_reader::Source;
use cheri_model::{Image, NoMemory, Op};
use cores::{GREATEST_TRACE_LIMIT, run_order};
use explanations::{Explanation, Filter, Format, Selection};
use order_texts::write_order;
use simulation::RunText;
use sinks::{MemSink, PIECE, put_whole};
use std::alloc::{AllocError, Global};

/// Puts bytes in memory.
fn put(out: &mut MemSink, bytes: &[u8]) -> Result<(), NoMemory>
    ensures { OnOk result (out.new.bytes ≡ out.old.bytes ++ bytes.now) }
{
    match put_whole(out, bytes) {
        Ok(()) => Ok(()),
        Err(_) => Err(AllocError),
    }
}

/// Puts an empty line and the order.
fn put_head(alloc: Global, out: &mut MemSink, order: &[Op]) -> Result<(), NoMemory>
    ensures { OnOk result (out.new.bytes ≡ out.old.bytes ++ order_head order.now) }
{
    let mut text = String::new(alloc);
    text.push_str("\norder ")?;
    write_order(&mut text, order)?;
    text.push_str("\n")?;
    put(out, text.as_bytes())
}

/// Puts the explanation of the run of an order, with each of its events.
fn put_run(
    alloc: Global,
    out: &mut MemSink,
    listing: &[u8],
    sources: Option<&[Source<'_>]>,
    image: &Image,
    order: &[Op],
) -> Result<(), NoMemory>
    requires { listing_meaning listing.now ≡ Ok image.now }
    ensures { OnOk result (out.new.bytes
        ≡ out.old.bytes ++ run_explained listing.now
        (option_map sources_parts sources.entry) image.now order.now) }
{
    let image = image.copy(alloc)?;
    let Ok((core, _)) = run_order(alloc, image, order, GREATEST_TRACE_LIMIT) else {
        return Err(AllocError);
    };
    let explanation = Explanation {
        selection: Selection {
            first: 0,
            last: GREATEST_TRACE_LIMIT,
            filter: Filter::All,
        },
        format: Format::Text,
        sources,
    };
    match explanation.write(alloc, listing, &core, out) {
        Ok(()) => Ok(()),
        Err(_) => Err(AllocError),
    }
}

/// Puts the explanation of an order, which may be too long for one.
fn put_explanation(
    alloc: Global,
    out: &mut MemSink,
    listing: &[u8],
    sources: Option<&[Source<'_>]>,
    image: &Image,
    order: &[Op],
) -> Result<(), NoMemory>
    requires { listing_meaning listing.now ≡ Ok image.now }
    ensures { OnOk result (out.new.bytes
        ≡ out.old.bytes ++ explanation_of listing.now
        (option_map sources_parts sources.entry) image.now order.now) }
{
    if order.len() > GREATEST_TRACE_LIMIT as usize {
        return put(out, b"order too long to explain\n");
    }
    put_run(alloc, out, listing, sources, image, order)
}

/// Puts an order and its explanation.
fn put_order(
    alloc: Global,
    out: &mut MemSink,
    listing: &[u8],
    sources: Option<&[Source<'_>]>,
    image: &Image,
    order: &[Op],
) -> Result<(), NoMemory>
    requires { listing_meaning listing.now ≡ Ok image.now }
    ensures { OnOk result (out.new.bytes
        ≡ out.old.bytes ++ explained_order listing.now
        (option_map sources_parts sources.entry) image.now order.now) }
{
    put_head(alloc, out, order)?;
    put_explanation(alloc, out, listing, sources, image, order)
}

/// An answer, and after it each of the orders that it tells of, with its explanation: what
/// `cheri_explain` prints of it and the listing, which is the one of this image, by what a map says
/// that its instructions come from, if there is one. It is made whole in memory, and fails only
/// when out of it.
pub fn explain_orders(
    alloc: Global,
    listing: &[u8],
    sources: Option<&[Source<'_>]>,
    image: &Image,
    answer: &[u8],
    orders: &[Vec<Op>],
) -> Result<MemSink, NoMemory>
    requires { listing_meaning listing.now ≡ Ok image.now }
    ensures { IfOk result (λ out. out.bytes
        ≡ answer.now ++ explained_orders listing.now
        (option_map sources_parts sources.entry) image.now (orders_of orders.now)) }
{
    let mut out = MemSink::new(alloc, 0, PIECE);
    put(&mut out, answer)?;
    for order in orders {
        put_order(alloc, &mut out, listing, sources, image, order.as_slice())?;
    }
    Ok(out)
}
