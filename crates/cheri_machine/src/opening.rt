//! Handles are opened by a listing, and closed.
#![tactic(auto, using(crate::proofs::OpeningLemmas::openings))]

ghost use Rattle.std.specs.Prelude.{
  ◌≡◌,
  ◌≤◌,
  IfOk,
  IfSome,
  OnOk,
  length,
  None,
  MatchResult,
  Ok,
  Err,
  ◌⊎◌,
};
ghost use Rattle.listings.specs.Faults.{Gives};
ghost use Rattle.listings.specs.Meaning.{listing_limit, listing_meaning};
ghost use Rattle.cheri_machine.specs.Machines.{core_of, listing_of};
ghost use Rattle.cheri_machine.specs.Openings.{
  IsOpening,
  opened_by_fault,
  opening_meant,
};
ghost use Rattle.cheri_machine.specs.declared.fault.OpenFault.TheVariants.{NoMemory};

use crate::fault::OpenFault;
use crate::handle::CheriMachine;
use crate::machine::Machine;
use crate::status;
use crate::structs::CheriOpened;
use cheri_model::Image;
use cores::Core;
use listings::{ListingFault, read_listing};
use std::alloc::{AllocError, Global};

/// A core in a box, beside a copy of the listing that it is from. Fails only when out of memory.
fn boxed(alloc: Global, listing: &[u8], core: Core) -> Result<Box<Machine>, AllocError>
    requires { length listing.now ≤ listing_limit }
    ensures core { IfOk result (λ machine. machine.value.core ≡ core) }
    ensures listing { IfOk result (λ machine. machine.value.listing.items ≡ listing.now) }
{
    let listing = Vec::from_slice(alloc, listing)?;
    match Box::new(alloc, Machine { core, listing }) {
        Ok(machine) => Ok(machine),
        Err(_) => Err(AllocError),
    }
}

/// The image of a listing, which is then short enough to be explained.
fn read(alloc: Global, listing: &[u8]) -> Result<Image, ListingFault>
    ensures meant { Gives result (listing_meaning listing.now) }
    ensures fits { OnOk result (length listing.now ≤ listing_limit) }
{
    read_listing(alloc, listing)
}

/// The machine of a listing before its first step, in a box.
fn booted(alloc: Global, listing: &[u8], limit: u32) -> Result<Box<Machine>, OpenFault>
    ensures meant { MatchResult result
        (λ machine. opening_meant listing.now limit ≡ Ok machine.value.core)
        (λ fault. (fault ≡ NoMemory) ⊎ (opening_meant listing.now limit ≡ Err fault)) }
    ensures listing { IfOk result (λ machine. machine.value.listing.items ≡ listing.now) }
{
    let image = read(alloc, listing)?;
    let core = Core::boot(alloc, image, limit)?;
    match boxed(alloc, listing, core) {
        Ok(machine) => Ok(machine),
        Err(_) => Err(OpenFault::NoMemory),
    }
}

/// The answer of a refused opening.
fn refused(fault: OpenFault) -> CheriOpened
    ensures { result ≡ opened_by_fault fault }
{
    let (status, kind, line) = match fault {
        OpenFault::Listing(refused) => (
            status::LISTING,
            u32::from(refused.kind.number()),
            refused.line as u64,
        ),
        OpenFault::Limit => (status::LIMIT, 0, 0),
        OpenFault::NoMemory => (status::NO_MEMORY, 0, 0),
    };
    CheriOpened { status, kind, line }
}

/// Opens a handle: it then owns the machine of a listing before its first step, whose trace may
/// have `limit` events, from 1 to 100,000. What it owned before is freed. Where the listing or then
/// the limit is refused, or memory runs out, the handle is closed.
#[unsafe(no_mangle)]
pub extern "C" fn cheri_machine_new(
    alloc: Global,
    machine: &mut CheriMachine,
    listing: &[u8],
    limit: u32,
) -> CheriOpened
    ensures opened { IsOpening (opening_meant listing.now limit) result (core_of machine.new) }
    ensures listing { IfSome (listing_of machine.new) (λ text. text ≡ listing.now) }
{
    drop(machine.take(alloc));
    match booted(alloc, listing, limit) {
        Ok(opened) => {
            machine.put(alloc, opened);
            CheriOpened {
                status: status::DONE,
                kind: 0,
                line: 0,
            }
        }
        Err(fault) => refused(fault),
    }
}

/// Closes a handle, and frees what it owned. A closed one stays closed.
#[unsafe(no_mangle)]
pub extern "C" fn cheri_machine_free(alloc: Global, machine: &mut CheriMachine)
    ensures { core_of machine.new ≡ None }
{
    if let Some(owned) = machine.take(alloc) {
        drop(owned);
    }
}
