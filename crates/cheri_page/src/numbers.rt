//! Calls about a range and about a word of 128 bits.

ghost use Rattle.std.specs.Prelude.{◌≡◌, Option, List, ℕ};
ghost use Rattle.cheri_page.specs.Answers.{Answers};
ghost use Rattle.cheri_page.specs.Lines.{IsRangeTold, IsWordTold};

use crate::answer::{Answer, tell};
use crate::fault::Fault;
use number_lines::{range_line, word_line};
use std::alloc::Global;

/// The line of the rounding of `len` addresses from `base` on, both written as in a listing.
#[unsafe(no_mangle)]
pub extern "C" fn cheri_bounds(
    alloc: Global,
    base: &[u8],
    len: &[u8],
    out: &mut [u8],
    answer: &mut Answer,
)
    ensures { Answers (IsRangeTold base.now len.now) out.old out.new answer.new }
{
    match range_line(alloc, base, len) {
        Ok(text) => tell(alloc, text.as_bytes(), None, out, answer),
        Err(fault) => tell(alloc, b"", Some(Fault::from(fault)), out, answer),
    }
}

/// The line of a word of 128 bits, written as in a listing.
#[unsafe(no_mangle)]
pub extern "C" fn cheri_decode(alloc: Global, word: &[u8], out: &mut [u8], answer: &mut Answer)
    ensures { Answers (IsWordTold word.now) out.old out.new answer.new }
{
    match word_line(alloc, word) {
        Ok(text) => tell(alloc, text.as_bytes(), None, out, answer),
        Err(fault) => tell(alloc, b"", Some(Fault::from(fault)), out, answer),
    }
}
