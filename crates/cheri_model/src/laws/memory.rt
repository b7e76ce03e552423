//! Laws of tagged memory: a load gives what the last store to its bytes left (CHERI ISA v9,
//! "tags").

ghost use Rattle.std.specs.Prelude.{◌≡◌, ◌≢◌, ℕ, ◌+◌, ◌*◌, ◌%◌, ◌^◌, ◌≤◌, List, false, IsTrue};
ghost use Rattle.cheri_model.specs.declared.width.Width.{Width};
ghost use Rattle.cap_model.specs.values.CapValue.{CapValue, tag_of};
ghost use Rattle.cheri_model.specs.steps.Memory.{
  bytes_of,
  granule_number,
  granule_at,
  fits,
  bytes_at,
  with_bytes,
  load_data,
  store_data,
};

/// A store of some bytes of a word replaces just these: among them a read gives the stored
/// number's, below and above them what was there.
pub fn stored_bytes_read_back()
    ensures inside { (word offset bytes number place count : ℕ) → place + count ≤ bytes →
        bytes_at (with_bytes word offset bytes number) (offset + place) count ≡
        bytes_at number place count }
    ensures below { (word offset bytes number place count : ℕ) → place + count ≤ offset →
        bytes_at (with_bytes word offset bytes number) place count ≡ bytes_at word place count }
    ensures above { (word offset bytes number place count : ℕ) → offset + bytes ≤ place →
        bytes_at (with_bytes word offset bytes number) place count ≡ bytes_at word place count }
{}

/// A load of what a data store wrote gives the number's low bytes, and a load of bytes above or
/// below them gives what it gave before.
pub fn loads_give_what_was_stored()
    ensures stored { (granules : List CapValue) (addr number : ℕ) (width : Width) →
        IsTrue (fits granules addr (bytes_of width)) →
        load_data (store_data granules addr (bytes_of width) number) addr (bytes_of width)
        ≡ number % 2 ^ (8 * bytes_of width) }
    ensures above { (granules : List CapValue) (addr number other : ℕ) (width load_width : Width) →
        IsTrue (fits granules addr (bytes_of width)) →
        IsTrue (fits granules other (bytes_of load_width)) →
        addr + bytes_of width ≤ other →
        load_data (store_data granules addr (bytes_of width) number) other (bytes_of load_width)
        ≡ load_data granules other (bytes_of load_width) }
    ensures below { (granules : List CapValue) (addr number other : ℕ) (width load_width : Width) →
        IsTrue (fits granules addr (bytes_of width)) →
        IsTrue (fits granules other (bytes_of load_width)) →
        other + bytes_of load_width ≤ addr →
        load_data (store_data granules addr (bytes_of width) number) other (bytes_of load_width)
        ≡ load_data granules other (bytes_of load_width) }
{}

/// A data store leaves its granule without a tag, and every other granule, tag and all, as it was.
pub fn data_stores_clear_one_tag()
    ensures cleared { (granules : List CapValue) (addr number : ℕ) (width : Width) →
        IsTrue (fits granules addr (bytes_of width)) →
        tag_of (granule_at (store_data granules addr (bytes_of width) number) (granule_number addr))
        ≡ false }
    ensures others { (granules : List CapValue) (addr number bytes k : ℕ) →
        k ≢ granule_number addr →
        granule_at (store_data granules addr bytes number) k ≡ granule_at granules k }
{}
