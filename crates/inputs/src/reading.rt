//! The texts that a program reads: a listing, or a listing and an order.

ghost use Rattle.std.specs.Prelude.{◌≡◌, IfOk, IfErr};
ghost use Rattle.inputs.specs.Files.{AreBytesOf};
ghost use Rattle.inputs.specs.Reading.{AreTextsUnread, IsImageRefused, IsListingUnread};
ghost use Rattle.inputs.specs.Reading.{IsOrderUnread, MeansImage};

use crate::fault::InputFault;
use crate::files::{FileFault, Files};
use cheri_model::Image;
use listings::{LISTING_LIMIT, read_listing};
use std::alloc::Global;

/// One byte more than a listing has at most: where a file has more, its first bytes say so.
const LISTING_READ: u64 = LISTING_LIMIT as u64 + 1;

/// An order may have any number of bytes.
const ORDER_READ: u64 = u64::MAX;

/// The bytes of a listing and of an order.
#[derive(Debug, Drop)]
pub struct Texts {
    pub listing: Vec<u8>,
    pub order: Vec<u8>,
}

/// The bytes of a listing's file. Of a file that is larger than any listing, its beginning.
pub fn read_listing_text<F: Files>(files: &mut F, name: &str) -> Result<Vec<u8>, InputFault>
    ensures bytes { IfOk result (λ bytes. AreBytesOf (F.bytes_of files.old name.now) bytes.items) }
    ensures refused { IfErr result (IsListingUnread (F.bytes_of files.old name.now)) }
    ensures kept { F.bytes_of files.new ≡ F.bytes_of files.old }
{
    match files.read(name, LISTING_READ) {
        Ok(bytes) => Ok(bytes),
        Err(FileFault::CannotRead) => Err(InputFault::CannotReadListing),
        Err(FileFault::NoMemory) => Err(InputFault::NoMemory),
    }
}

/// The bytes of an order's file.
fn read_order_text<F: Files>(files: &mut F, name: &str) -> Result<Vec<u8>, InputFault>
    ensures bytes { IfOk result (λ bytes. AreBytesOf (F.bytes_of files.old name.now) bytes.items) }
    ensures refused { IfErr result (IsOrderUnread (F.bytes_of files.old name.now)) }
    ensures kept { F.bytes_of files.new ≡ F.bytes_of files.old }
{
    match files.read(name, ORDER_READ) {
        Ok(bytes) => Ok(bytes),
        Err(FileFault::CannotRead) => Err(InputFault::CannotReadOrder),
        Err(FileFault::NoMemory) => Err(InputFault::NoMemory),
    }
}

/// The bytes of a listing and then of an order, neither of which is judged.
pub fn read_texts<F: Files>(files: &mut F, listing: &str, order: &str) -> Result<Texts, InputFault>
    ensures listing { IfOk result (λ texts.
        AreBytesOf (F.bytes_of files.old listing.now) texts.listing.items) }
    ensures order { IfOk result (λ texts.
        AreBytesOf (F.bytes_of files.old order.now) texts.order.items) }
    ensures refused { IfErr result
        (AreTextsUnread (F.bytes_of files.old listing.now) (F.bytes_of files.old order.now)) }
    ensures kept { F.bytes_of files.new ≡ F.bytes_of files.old }
{
    let listing = read_listing_text(files, listing)?;
    let order = read_order_text(files, order)?;
    Ok(Texts { listing, order })
}

/// The image that a listing's file means.
pub fn read_image<F: Files>(alloc: Global, files: &mut F, name: &str) -> Result<Image, InputFault>
    ensures meaning { IfOk result (MeansImage (F.bytes_of files.old name.now)) }
    ensures refused { IfErr result (IsImageRefused (F.bytes_of files.old name.now)) }
    ensures kept { F.bytes_of files.new ≡ F.bytes_of files.old }
{
    let bytes = read_listing_text(files, name)?;
    Ok(read_listing(alloc, bytes.as_slice())?)
}
