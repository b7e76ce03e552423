//! Object types, words and values as texts.

ghost use Rattle.std.specs.Prelude.{◌≡◌, ◌++◌, OnOk, Some, string_bytes};
ghost use Rattle.std.specs.Fmt.{DisplaysOnOk};
ghost use Rattle.cap_model.specs.values.CapValue.{parts_of};
ghost use Rattle.cheri_model.specs.runs.ImageRules.{is_listed};
ghost use Rattle.report_lines.specs.ValueText.{
  bounds_text,
  parts_text,
  tagged_word_text,
  type_text,
  value_text,
  word_text,
};

use crate::digits::{Hex, most_digits, put_before};
use bitflags::Flags;
use cap_ops::Cap;
use cheri_model::{NoMemory, OType, SENTRY_TYPE, UNSEALED_TYPE};
use itoa::{Buffer, Integer};
use std::fmt;
use text_numbers::{BUFFER, Hex64, word_digits};

/// Whether a value is tagged or not all 0: the others have no line in a report.
pub fn is_listed(value: Cap) -> bool
    ensures { result ≡ is_listed value }
{
    value.tag() || value.bits() != 0
}

/// An object type: `unsealed`, `sentry`, or its number in decimal.
#[derive(Clone, Copy)]
pub struct TypeText(pub OType);

impl fmt::Display for TypeText {
    ghost output = { λ t. Some (type_text t.0) };

    fn fmt<W: fmt::Write>(&self, f: &mut fmt::Formatter<W>) -> fmt::Result {
        match self.0.number() {
            UNSEALED_TYPE => f.write_str("unsealed"),
            SENTRY_TYPE => f.write_str("sentry"),
            number => write!(f, "{number}"),
        }
    }
}

/// A word of 128 bits, in two halves.
#[derive(Clone, Copy)]
pub struct Word(pub u128);

impl fmt::Display for Word {
    ghost output = { λ w. Some (word_text w.0) };

    fn fmt<W: fmt::Write>(&self, f: &mut fmt::Formatter<W>) -> fmt::Result {
        f.write_str(Buffer::new().format(*self))
    }
}

/// Written into `itoa`'s buffer, so that its three parts are appended at once.
impl Integer for Word {
    const MAX_STR_LEN: usize = 33;

    ghost MAX_STR_LEN = { 33 };

    ghost text = { λ w. word_text w.0 };

    fn write(self, buf: &mut [u8; BUFFER]) -> usize {
        let upper = word_digits((self.0 >> 64) as u64);
        let lower = word_digits((self.0 & u128::from(u64::MAX)) as u64);
        let end = put_before(buf, BUFFER, &lower);
        let end = put_before(buf, end, b"_");
        put_before(buf, end, &upper)
    }
}

/// The bounds and the permissions of a value.
#[derive(Clone, Copy)]
struct Bounds(Cap);

/// At once, too.
impl Integer for Bounds {
    const MAX_STR_LEN: usize = 40;

    ghost MAX_STR_LEN = { 40 };

    ghost text = { λ b. bounds_text (parts_of b.0) };

    fn write(self, buf: &mut [u8; BUFFER]) -> usize {
        let (base, top) = self.0.bounds();
        let perms = word_digits(u64::from(self.0.perm().bits()));
        let end = put_before(buf, BUFFER, &perms[11..]);
        let end = put_before(buf, end, b" ");
        let end = put_before(buf, end, &most_digits(top));
        let end = put_before(buf, end, b" ");
        put_before(buf, end, &word_digits(base))
    }
}

/// The bounds, permissions and object type of a value.
#[derive(Clone, Copy)]
struct Parts(Cap);

impl fmt::Display for Parts {
    ghost output = { λ p. Some (parts_text (parts_of p.0)) };

    fn fmt<W: fmt::Write>(&self, f: &mut fmt::Formatter<W>) -> fmt::Result {
        let (base, top) = self.0.bounds();
        let (base, top) = (Hex64(base), Hex::of_top(top));
        let perms = Hex::of_perms(self.0.perm());
        let otype = TypeText(self.0.object_type());
        write!(f, "{base} {top} {perms} {otype}")
    }
}

/// A value: its tag and word, and where it is tagged what the capability is.
#[derive(Clone, Copy)]
pub struct ValueText(pub Cap);

impl fmt::Display for ValueText {
    ghost output = { λ v. Some (value_text v.0) };

    fn fmt<W: fmt::Write>(&self, f: &mut fmt::Formatter<W>) -> fmt::Result {
        let word = Word(self.0.bits());
        if self.0.tag() {
            write!(f, "1 {word} {}", Parts(self.0))
        } else {
            write!(f, "0 {word}")
        }
    }
}

/// The tag and the word of a value.
#[derive(Clone, Copy)]
struct TaggedWord(Cap);

/// At once, too.
impl Integer for TaggedWord {
    const MAX_STR_LEN: usize = 35;

    ghost MAX_STR_LEN = { 35 };

    ghost text = { λ v. tagged_word_text v.0 };

    fn write(self, buf: &mut [u8; BUFFER]) -> usize {
        let start = Word(self.0.bits()).write(buf);
        if self.0.tag() {
            put_before(buf, start, b"1 ")
        } else {
            put_before(buf, start, b"0 ")
        }
    }
}

/// Appends a word as `Word` shows it.
pub fn write_word(out: &mut String, bits: u128) -> Result<(), NoMemory>
    ensures { OnOk result (string_bytes out.new ≡ string_bytes out.old ++ word_text bits) }
{
    out.push_str(Buffer::new().format(Word(bits)))
}

/// Appends an object type as `TypeText` shows it.
pub fn write_type(out: &mut String, otype: OType) -> Result<(), NoMemory>
    ensures { OnOk result (string_bytes out.new ≡ string_bytes out.old ++ type_text otype) }
{
    match otype.number() {
        UNSEALED_TYPE => out.push_str("unsealed"),
        SENTRY_TYPE => out.push_str("sentry"),
        number => out.push_str(Buffer::new().format(number)),
    }
}

/// Appends the bounds, permissions and object type of a value.
fn write_parts(out: &mut String, value: Cap) -> Result<(), NoMemory>
    ensures { OnOk result (string_bytes out.new
        ≡ string_bytes out.old ++ parts_text (parts_of value)) }
{
    out.push_str(Buffer::new().format(Bounds(value)))?;
    out.push_str(" ")?;
    write_type(out, value.object_type())
}

/// Appends a value, as `ValueText` shows it. A formatter takes twice the time, and an explanation
/// has several values an event.
pub fn write_value(out: &mut String, value: Cap) -> Result<(), NoMemory>
    ensures { OnOk result (string_bytes out.new ≡ string_bytes out.old ++ value_text value) }
{
    out.push_str(Buffer::new().format(TaggedWord(value)))?;
    if value.tag() {
        out.push_str(" ")?;
        write_parts(out, value)?;
    }
    Ok(())
}
