//! Sweeps of RAM: one pass over the bitmap of tags. A byte of the bitmap that is 0 costs one test,
//! and each tag that is set one decoding of its granule.

ghost use Rattle.std.specs.Prelude.{◌≡◌, ◌+◌, ◌-◌, ◌*◌, ◌/◌, ◌<◌, ◌≤◌, length, min};
ghost use Rattle.cap_model.specs.results.Readings.{number_of};
ghost use Rattle.cap_model.specs.results.Swept.{is_in_sweep};
ghost use Rattle.tagged_mem.specs.Packed.{packed_at, IsPackedRam};
ghost use Rattle.tagged_mem.specs.SweptTags.{cleared_between, IsSweptBetween};

use crate::packed::{put_tag, tag_at, unpacked, word_at};

/// Clears the tag of one granule where a sweep of the addresses from `lo` up to `hi` does, and says
/// how many tags that is: 0 or 1.
fn sweep_granule(bytes: &[u8], tags: &mut [u8], granule: usize, lo: u64, hi: u128) -> u32
    requires packed { IsPackedRam bytes.now tags.old }
    requires inside { granule < length bytes.now / 16 }
    ensures swept { IsSweptBetween lo hi bytes.now tags.old tags.new granule (granule + 1) }
    ensures cleared { result ≡ number_of
        (is_in_sweep lo hi (packed_at bytes.now tags.old granule)) }
{
    let tag = tag_at(tags, granule);
    if !tag {
        return 0;
    }
    let value = unpacked(tag, word_at(bytes, 16 * granule));
    if !value.is_in_sweep(lo, hi) {
        return 0;
    }
    put_tag(tags, granule, false);
    1
}

/// Sweeps the granules from `from` up to `to`, and says how many tags that clears.
fn sweep_granules(bytes: &[u8], tags: &mut [u8], from: usize, to: usize, lo: u64, hi: u128) -> u32
    requires packed { IsPackedRam bytes.now tags.old }
    requires order { from ≤ to }
    requires inside { to ≤ length bytes.now / 16 }
    ensures swept { IsSweptBetween lo hi bytes.now tags.old tags.new from to }
    ensures cleared { result ≡ cleared_between lo hi bytes.now tags.old from to }
{
    let mut cleared = 0;
    for granule in from..to {
        cleared += sweep_granule(bytes, tags, granule, lo, hi);
    }
    cleared
}

/// Sweeps the granules whose tags one byte of the bitmap has: eight, or fewer at the end of RAM.
fn sweep_byte(bytes: &[u8], tags: &mut [u8], index: usize, lo: u64, hi: u128) -> u32
    requires packed { IsPackedRam bytes.now tags.old }
    requires inside { 8 * index < length bytes.now / 16 }
    ensures swept { let end = min (8 * (index + 1)) (length bytes.now / 16) in
        IsSweptBetween lo hi bytes.now tags.old tags.new (8 * index) end }
    ensures cleared { let end = min (8 * (index + 1)) (length bytes.now / 16) in
        result ≡ cleared_between lo hi bytes.now tags.old (8 * index) end }
{
    if tags[index] == 0 {
        return 0;
    }
    let end = (8 * (index + 1)).min(bytes.len() / 16);
    sweep_granules(bytes, tags, 8 * index, end, lo, hi)
}

/// Sweeps all granules, and says how many tags that clears.
pub fn sweep_tags(bytes: &[u8], tags: &mut [u8], lo: u64, hi: u128) -> u32
    requires packed { IsPackedRam bytes.now tags.old }
    ensures swept { IsSweptBetween lo hi bytes.now tags.old tags.new 0 (length bytes.now / 16) }
    ensures cleared { result ≡ cleared_between lo hi bytes.now tags.old 0 (length bytes.now / 16) }
{
    let mut cleared = 0;
    for index in 0..bytes.len().div_ceil(128) {
        cleared += sweep_byte(bytes, tags, index, lo, hi);
    }
    cleared
}
