//! Lists of items, as one option gives them.
#![tactic(auto, unfolding(crate::proofs::Unfold::lists))]

ghost use Rattle.std.specs.Prelude.{◌≡◌, map};
ghost use Rattle.condition_texts.specs.Conditions.{GivesWords};
ghost use Rattle.condition_texts.specs.Items.{shown_at, shown_from, items_of, GivesItems};

use crate::fault::TextFault;
use crate::items::{MAX_ITEMS, shown_of};
use crate::words::{WordFault, push, word_start, words_of};
use cheri_model::Image;
use conditions::{Items, Shown};
use std::alloc::Global;

/// What the item of this number shows, if there can be so many.
fn shown_at(image: &Image, number: usize, word: &[u8]) -> Option<Shown>
    ensures { result ≡ shown_at image.now number word.now }
{
    if number < MAX_ITEMS {
        shown_of(image, word)
    } else {
        None
    }
}

/// What the items of words show, in turn, or the number of the first that is none.
fn shown_in(alloc: Global, image: &Image, words: &[&str]) -> Result<Vec<Shown>, WordFault>
    ensures { GivesWords result
        (shown_from image.now 0 (map (λ word. word.now) words.now)) }
{
    let mut items = Vec::new(alloc);
    for (number, word) in words.iter().enumerate() {
        match shown_at(image, number, word.as_bytes()) {
            Some(shown) => push(&mut items, shown)?,
            None => return Err(WordFault::At(number)),
        }
    }
    Ok(items)
}

/// The items that a text writes, separated by commas, for an image. A fault is at the first that is
/// none, and a seventeenth is none; running out of memory says nothing of the text.
pub fn read_items<'a>(alloc: Global, image: &Image, text: &'a str) -> Result<Items<'a>, TextFault>
    ensures { GivesItems result (items_of image.now text.now) }
{
    let names = words_of(alloc, ',', text)?;
    match shown_in(alloc, image, names.as_slice()) {
        Ok(shown) => Ok(Items { names, shown }),
        Err(WordFault::At(number)) => Err(TextFault::Place(word_start(
            b',',
            text.as_bytes(),
            number,
        ))),
        Err(WordFault::NoMemory) => Err(TextFault::NoMemory),
    }
}
