//! The bytes of RAM, in the order of their addresses, and a bitmap with one tag for each granule.
#![tactic(auto, unfolding(crate::proofs::Unfold::packed))]

ghost use Rattle.std.specs.Prelude.{◌≡◌, ◌≢◌, ◌+◌, ◌/◌, ◌%◌, ◌^◌, ◌*◌, ◌<◌, ◌≤◌, ℕ, length};
ghost use Rattle.std.specs.Int.{bit_at};
ghost use Rattle.cap_model.specs.values.CapValue.{value_at, IsLawfulValue, IsTaggedWord};
ghost use Rattle.cheri_model.specs.steps.Memory.{bytes_of};
ghost use Rattle.cap_model.specs.results.Readings.{number_of};
ghost use Rattle.tagged_mem.specs.Packed.{number_at, with_number, tag_at};

use cap_ops::Cap;
use cheri_model::{Value, Width};

/// The word of the sixteen bytes from `index` on.
pub fn word_at(bytes: &[u8], index: usize) -> u128
    requires { index + 16 ≤ length bytes.now }
    ensures { result ≡ number_at bytes.now index 16 }
{
    u128::from(double_at(bytes, index)) | u128::from(double_at(bytes, index + 8)) << 64
}

/// The number of the eight bytes from `index` on.
pub fn double_at(bytes: &[u8], index: usize) -> u64
    requires { index + 8 ≤ length bytes.now }
    ensures { result ≡ number_at bytes.now index 8 }
{
    u64::from_le_bytes([
        bytes[index],
        bytes[index + 1],
        bytes[index + 2],
        bytes[index + 3],
        bytes[index + 4],
        bytes[index + 5],
        bytes[index + 6],
        bytes[index + 7],
    ])
}

/// The number of the bytes from `index` on, as many as `width` has.
pub fn data_at(bytes: &[u8], index: usize, width: Width) -> u64
    requires { index + bytes_of width ≤ length bytes.now }
    ensures { result ≡ number_at bytes.now index (bytes_of width) }
{
    match width {
        Width::Byte => u64::from(bytes[index]),
        Width::Half => u64::from(u16::from_le_bytes([bytes[index], bytes[index + 1]])),
        Width::Word => u64::from(u32::from_le_bytes([
            bytes[index],
            bytes[index + 1],
            bytes[index + 2],
            bytes[index + 3],
        ])),
        Width::Double => double_at(bytes, index),
    }
}

/// Replaces the bytes from `index` on, `count` of them, by the low ones of a number.
pub fn put_bytes(bytes: &mut [u8], index: usize, count: usize, number: u128)
    requires { index + count ≤ length bytes.old }
    ensures { bytes.new ≡ with_number bytes.old index count number }
{
    let mut rest = number;
    for k in 0..count {
        bytes[index + k] = (rest % 256) as u8;
        rest /= 256;
    }
}

/// The byte with one bit replaced.
fn with_bit(byte: u8, index: usize, set: bool) -> u8
    requires { index < 8 }
    ensures there { bit_at result index ≡ number_of set }
    ensures others { (k : ℕ) → k < 8 → k ≢ index → bit_at result k ≡ bit_at byte k }
{
    if set {
        byte | 1 << index
    } else {
        byte & !(1 << index)
    }
}

/// The tag of a granule.
pub fn tag_at(tags: &[u8], granule: usize) -> bool
    requires { granule / 8 < length tags.now }
    ensures { result ≡ tag_at tags.now granule }
{
    (tags[granule / 8] >> (granule % 8)) % 2 == 1
}

/// Replaces the tag of a granule.
pub fn put_tag(tags: &mut [u8], granule: usize, tag: bool)
    requires { granule / 8 < length tags.old }
    ensures size { length tags.new ≡ length tags.old }
    ensures there { tag_at tags.new granule ≡ tag }
    ensures others { (k : ℕ) → k ≢ granule → tag_at tags.new k ≡ tag_at tags.old k }
{
    let byte = tags[granule / 8];
    tags[granule / 8] = with_bit(byte, granule % 8, tag);
}

/// The value of a word with its tag.
pub fn unpacked(tag: bool, word: u128) -> Cap
    requires { IsTaggedWord tag word }
    ensures value { result ≡ value_at tag word }
    ensures lawful { IsLawfulValue result }
{
    let value = if tag {
        Cap::of_value(Value::tagged(word))
    } else {
        Cap::from_word(word)
    };
    // The contract of `bits` says that the value is lawful.
    let _bits = value.bits();
    value
}
