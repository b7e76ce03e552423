//! Places: the numbers that a condition compares and an item shows.
#![tactic(auto, using(crate::proofs::Rulesets::point), unfolding(crate::proofs::Unfold::places))]

ghost use Rattle.std.specs.Prelude.{
  ◌≡◌,
  ◌<◌,
  ◌≤◌,
  ◌^◌,
  ◌==◌,
  IsTrue,
  length,
  slice_index,
  position,
};
ghost use Rattle.std.specs.List.{before_first};
ghost use Rattle.condition_texts.specs.Places.{
  hart_numbered,
  field_of,
  width_of,
  holder_named,
  fits_image,
  number_in,
  address_in,
  hart_place,
  granule_place,
  data_place,
  begins_hart,
  begins_granule,
  is_data,
  place_of,
  begins_each,
  own_named,
  own_place,
  source_of,
};

use cheri_model::table::found_at;
use cheri_model::{Image, RAM_BASE, Width};
use conditions::{Field, Holder, Own, Place, Source};
use grammar::numerals::number_of;
use grammar::operands::register_of;

const FIELDS: &[(&str, Field)] = &[
    ("", Field::Addr),
    (".addr", Field::Addr),
    (".tag", Field::Tag),
    (".base", Field::Base),
    (".len", Field::Len),
    (".perms", Field::Perms),
    (".sealed", Field::Sealed),
    (".top", Field::Top),
    (".type", Field::Type),
    (".word", Field::Word),
];

/// The field that the end of a place names: the address where nothing is written.
fn field_of(suffix: &[u8]) -> Option<Field>
    ensures { result ≡ field_of suffix.now }
{
    found_at(FIELDS, suffix)
}

/// The hart of this number, if the image has it.
pub(crate) fn hart_numbered(image: &Image, number: u8) -> Option<u8>
    ensures { result ≡ hart_numbered image.now number }
{
    if usize::from(number) < image.harts().len() {
        Some(number)
    } else {
        None
    }
}

/// The number that a word writes, below 2^128.
pub(crate) fn number_in(word: &[u8]) -> Option<u128>
    ensures { result ≡ number_in word.now }
{
    match number_of(word) {
        Ok(number) => number,
        Err(_) => None,
    }
}

/// Whether so many bytes at an address are aligned to their count and in the RAM of an image.
fn fits_image(image: &Image, addr: u128, bytes: u64) -> bool
    requires { 0 < bytes }
    ensures fits { result ≡ fits_image image.now addr bytes }
    ensures within { IsTrue result → addr < 2 ^ 64 }
{
    let base = u128::from(RAM_BASE);
    let end = base + u128::from(image.ram());
    if addr < base || end <= addr || end < addr + u128::from(bytes) {
        return false;
    }
    addr % u128::from(bytes) == 0
}

/// The address of so many bytes in the RAM of an image, as a word writes it.
fn address_in(image: &Image, bytes: u64, word: &[u8]) -> Option<u64>
    requires { 0 < bytes }
    ensures { result ≡ address_in image.now bytes word.now }
{
    let addr = number_in(word)?;
    if fits_image(image, addr, bytes) {
        Some(addr as u64)
    } else {
        None
    }
}

/// The register or PCC of a hart: `cN` or `pcc`.
fn holder_named(hart: u8, name: &[u8]) -> Option<Holder>
    ensures { result ≡ holder_named hart name.now }
{
    if name == b"pcc".as_slice() {
        return Some(Holder::Pcc(hart));
    }
    match register_of(name) {
        Ok(reg) => Some(Holder::Register(hart, reg)),
        Err(_) => None,
    }
}

/// Where the first point of a text is.
pub(crate) fn point(text: &[u8]) -> Option<usize>
    ensures { result ≡ position (λ b. b == 0x2E) text.now }
{
    text.iter().position(|byte| *byte == b'.')
}

/// Where the first `]` of a text is.
fn closing_bracket(text: &[u8]) -> Option<usize>
    ensures { result ≡ position (λ b. b == 0x5D) text.now }
{
    text.iter().position(|byte| *byte == b']')
}

/// A text up to its first point, or all of it.
fn before_point(text: &[u8]) -> &[u8]
    ensures { result.now ≡ before_first (λ b. b == 0x2E) text.now }
{
    match point(text) {
        Some(end) => &text[..end],
        None => text,
    }
}

/// `H.cN` or `H.pcc` with an optional field, after `H.`.
fn hart_place(image: &Image, number: u8, rest: &[u8]) -> Option<Place>
    ensures { result ≡ hart_place image.now number rest.now }
{
    let name = before_point(rest);
    let hart = hart_numbered(image, number)?;
    let holder = holder_named(hart, name)?;
    let field = field_of(&rest[name.len()..])?;
    Some(Place::Value(holder, field))
}

/// `mem[A]` with an optional field, after `mem[`.
fn granule_place(image: &Image, rest: &[u8]) -> Option<Place>
    ensures { result ≡ granule_place image.now rest.now }
{
    let end = closing_bracket(rest)?;
    let addr = address_in(image, 16, &rest[..end])?;
    let field = field_of(&rest[end + 1..])?;
    Some(Place::Value(Holder::Granule(addr), field))
}

/// The width of `mem1`, `mem2`, `mem4` and `mem8`, by the digit.
fn width_of(digit: u8) -> Option<Width>
    ensures { result ≡ width_of digit }
{
    match digit {
        b'1' => Some(Width::Byte),
        b'2' => Some(Width::Half),
        b'4' => Some(Width::Word),
        b'8' => Some(Width::Double),
        _ => None,
    }
}

/// `mem1[A]`, `mem2[A]`, `mem4[A]` or `mem8[A]`.
fn data_place(image: &Image, digit: u8, address: &[u8]) -> Option<Place>
    ensures { result ≡ data_place image.now digit address.now }
{
    let width = width_of(digit)?;
    let addr = address_in(image, width.bytes(), address)?;
    Some(Place::Data(addr, width))
}

/// Whether a word begins with a digit and a point.
fn begins_hart(word: &[u8]) -> bool
    ensures begins { result ≡ begins_hart word.now }
    ensures digit { IsTrue result → 48 ≤ slice_index word.now 0 }
    ensures room { IsTrue result → 2 ≤ length word.now }
{
    matches!(word, [b'0'..=b'9', b'.', ..])
}

/// Whether a word begins with `mem[`.
fn begins_granule(word: &[u8]) -> bool
    ensures begins { result ≡ begins_granule word.now }
    ensures room { IsTrue result → 4 ≤ length word.now }
{
    word.starts_with(b"mem[")
}

/// Whether a word is `mem`, a byte, and brackets around the rest.
fn is_data(word: &[u8]) -> bool
    ensures data { result ≡ is_data word.now }
    ensures room { IsTrue result → 6 ≤ length word.now }
{
    if word.len() < 6 || !word.starts_with(b"mem") {
        return false;
    }
    word[4] == b'[' && word[word.len() - 1] == b']'
}

/// The place that a word names, of this image.
pub(crate) fn place_of(image: &Image, word: &[u8]) -> Option<Place>
    ensures { result ≡ place_of image.now word.now }
{
    if begins_hart(word) {
        return hart_place(image, word[0] - b'0', &word[2..]);
    }
    if begins_granule(word) {
        return granule_place(image, &word[4..]);
    }
    if is_data(word) {
        return data_place(image, word[3], &word[5..word.len() - 1]);
    }
    None
}

/// Whether a word begins with `h.`.
fn begins_each(word: &[u8]) -> bool
    ensures begins { result ≡ begins_each word.now }
    ensures room { IsTrue result → 2 ≤ length word.now }
{
    word.starts_with(b"h.")
}

/// What each hart in turn holds: `cN` or `pcc`.
fn own_named(name: &[u8]) -> Option<Own>
    ensures { result ≡ own_named name.now }
{
    if name == b"pcc".as_slice() {
        return Some(Own::Pcc);
    }
    match register_of(name) {
        Ok(reg) => Some(Own::Register(reg)),
        Err(_) => None,
    }
}

/// `h.cN` or `h.pcc` with an optional field, after `h.`.
fn own_place(rest: &[u8]) -> Option<Source>
    ensures { result ≡ own_place rest.now }
{
    let name = before_point(rest);
    let own = own_named(name)?;
    let field = field_of(&rest[name.len()..])?;
    Some(Source::Each(own, field))
}

/// The number that a word names, of this image. `h` may stand where each hart is spoken of.
pub(crate) fn source_of(image: &Image, each: bool, word: &[u8]) -> Option<Source>
    ensures { result ≡ source_of image.now each word.now }
{
    if begins_each(word) {
        return if each { own_place(&word[2..]) } else { None };
    }
    match place_of(image, word)? {
        Place::Value(held, field) => Some(Source::Value(held, field)),
        Place::Data(addr, width) => Some(Source::Data(addr, width)),
    }
}
