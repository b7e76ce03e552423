//! Laws over listings: the functions do nothing, and their contracts are the laws.

ghost use Rattle.std.specs.Prelude.{◌≡◌, ◌≤◌, ℕ, List, length, Ok};
ghost use Rattle.cheri_model.specs.runs.Image.{ImageParts};
ghost use Rattle.canonical.specs.Listable.{IsListable};
ghost use Rattle.canonical.specs.Canon.{canon};
ghost use Rattle.listings.specs.Meaning.{listing_limit, listing_meaning};

/// The canonical listing of an image that some listing means, where it is not longer than a listing
/// may be, means that image again. Such images hold only what listings can write.
pub fn canonical_listing_reads_back()
    ensures meant { (text : List ℕ) (image : ImageParts) → listing_meaning text ≡ Ok image →
        length (canon image) ≤ listing_limit → listing_meaning (canon image) ≡ Ok image }
    ensures listable { (text : List ℕ) (image : ImageParts) → listing_meaning text ≡ Ok image →
        IsListable image }
    ensures written { (image : ImageParts) → IsListable image →
        length (canon image) ≤ listing_limit → listing_meaning (canon image) ≡ Ok image }
{}
