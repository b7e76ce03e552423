//! Reading a condition: the text of one argument or of one line.
#![tactic(auto, unfolding(crate::proofs::Unfold::condition))]

ghost use Rattle.std.specs.Prelude.{◌≡◌, slice_get};
ghost use Rattle.condition_texts.specs.Conditions.{GivesCondition, condition_of, start_of};
ghost use Rattle.condition_texts.specs.WordPairs.{word_pairs};
ghost use Rattle.listing_maps.specs.Names.{names_of};

use crate::fault::TextFault;
use crate::reading::Reader;
use crate::words::{Word, WordFault, condition_words};
use cheri_model::Image;
use conditions::Condition;
use listing_maps::Names;
use std::alloc::Global;

/// The most bytes of a condition.
pub const MAX_BYTES: usize = 131_072;

/// How many parentheses of a condition may be open at once.
pub const MAX_PARENTHESES: u8 = 32;

/// The byte where the word of a number begins; the text's length where there is no such word.
fn start_of(text: &[u8], words: &[Word<'_>], number: usize) -> usize
    ensures { result ≡ start_of text.now (slice_get (word_pairs words.now) number) }
{
    match words.get(number) {
        Some(word) => word.start,
        None => text.len(),
    }
}

/// The condition that a text writes, for an image and what beside its listing may be named: its
/// harts, places and names are theirs. A fault is at the first word that cannot stand where it is;
/// running out of memory says nothing of the text.
pub fn read_condition<'a>(
    alloc: Global,
    names: &'a Names<'a>,
    image: &'a Image,
    text: &'a str,
) -> Result<Condition, TextFault>
    ensures { GivesCondition result
        (condition_of (names_of names.now) image.now text.now) }
{
    let text = text.as_bytes();
    if text.len() > MAX_BYTES {
        return Err(TextFault::Condition(MAX_BYTES));
    }
    let words = condition_words(alloc, text)?;
    let reader = Reader {
        names,
        image,
        words: words.as_slice(),
    };
    match reader.whole(alloc) {
        Ok(nodes) => {
            let condition = Condition::of(alloc, nodes.as_slice())?;
            Ok(condition)
        }
        Err(WordFault::At(number)) => {
            let byte = start_of(text, words.as_slice(), number);
            Err(TextFault::Condition(byte))
        }
        Err(WordFault::NoMemory) => Err(TextFault::NoMemory),
    }
}
