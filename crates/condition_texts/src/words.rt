//! The words of a text, and where each begins.

ghost use Rattle.std.specs.Prelude.{
  ◌≡◌,
  ◌<◌,
  ◌-◌,
  ◌==◌,
  ◌++◌,
  ◌∷◌,
  [],
  if◌then◌else◌,
  IfOk,
  OnOk,
  map,
};
ghost use Rattle.std.specs.Prelude.{ℕ, ◌+◌, ◌≤◌, ◌||◌, List, get_or, slice_range, length};
ghost use Rattle.condition_texts.specs.Words.{
  words_of,
  word_start,
  is_parenthesis,
  run_of,
  condition_words,
};
ghost use Rattle.condition_texts.specs.WordPairs.{word_pairs, Remains};

use std::alloc::{AllocError, Global};

/// Why words were not read.
pub(crate) enum WordFault {
    /// The word of this number cannot stand where it is; the count of words where one is missing.
    At(usize),
    /// Out of memory.
    NoMemory,
}

impl From<AllocError> for WordFault {
    ghost use Rattle.condition_texts.specs.declared.words.WordFault.TheVariants.{NoMemory};

    ghost from_gives = { λ _ fault. fault ≡ NoMemory };

    fn from(_: AllocError) -> WordFault {
        WordFault::NoMemory
    }
}

impl From<usize> for WordFault {
    ghost use Rattle.condition_texts.specs.declared.words.WordFault.TheVariants.{At};

    ghost from_gives = { λ number fault. fault ≡ At number };

    fn from(number: usize) -> WordFault {
        WordFault::At(number)
    }
}

/// The words of a text between separators.
pub(crate) fn words_of<'a>(
    alloc: Global,
    separator: char,
    text: &'a str,
) -> Result<Vec<&'a str>, AllocError>
    requires { separator < 128 }
    ensures { IfOk result (λ words.
        map (λ word. word.now) words.items ≡ words_of separator text.now) }
{
    text.split(separator).collect(alloc)
}

/// How many words are left to pass after a byte, of at least one.
fn left_after(separator: u8, left: usize, byte: u8) -> usize
    requires { 0 < left }
    ensures { result ≡ (if byte == separator then left - 1 else left) }
{
    if byte == separator { left - 1 } else { left }
}

/// The byte at which the word of this number begins, both from 0 on; the text's length where it has
/// no such word.
pub(crate) fn word_start(separator: u8, text: &[u8], number: usize) -> usize
    ensures { result ≡ word_start separator number text.now }
{
    let mut left = number;
    for (place, byte) in text.iter().enumerate() {
        if left == 0 {
            return place;
        }
        left = left_after(separator, left, *byte);
    }
    text.len()
}

/// Adds what was read of one more word.
pub(crate) fn push<T: Copy + Drop>(read: &mut Vec<T>, item: T) -> Result<(), AllocError>
    ensures { OnOk result (read.new.items ≡ read.old.items ++ item ∷ []) }
{
    read.push(item)?;
    Ok(())
}

/// A word of a condition, and the byte where it begins.
#[derive(Clone, Copy)]
pub(crate) struct Word<'a> {
    pub(crate) start: usize,
    pub(crate) text: &'a [u8],
}

/// Adds the word from one byte of a text up to another; one without bytes only where it may be.
fn push_run<'a>(
    words: &mut Vec<Word<'a>>,
    text: &'a [u8],
    start: usize,
    end: usize,
    may_be_empty: bool,
) -> Result<(), AllocError>
    requires start { start ≤ end }
    requires end { end ≤ length text.now }
    ensures { OnOk result (word_pairs words.new.items ≡ word_pairs words.old.items
        ++ run_of start (slice_range text.now start end) may_be_empty) }
{
    if may_be_empty || start < end {
        words.push(Word {
            start,
            text: &text[start..end],
        })?;
    }
    Ok(())
}

/// The bytes of a word so far: where they begin, and whether the piece has no word before them.
#[derive(Clone, Copy)]
pub(crate) struct Run {
    start: usize,
    alone: bool,
}

/// Whether a byte is a parenthesis.
fn is_parenthesis(byte: u8) -> bool
    ensures { result ≡ is_parenthesis byte }
{
    matches!(byte, b'(' | b')')
}

/// Adds the words that a byte ends, or is, and gives the bytes of a word after it.
fn take_byte<'a>(
    words: &mut Vec<Word<'a>>,
    text: &'a [u8],
    run: Run,
    place: usize,
    byte: u8,
) -> Result<Run, AllocError>
    requires order { run.start ≤ place }
    requires room { place < length text.now }
    requires there { byte ≡ get_or text.now place 0 }
    ensures { IfOk result (λ next. (all : List (ℕ × List ℕ)) →
        Remains text.now words.old.items run place all →
        Remains text.now words.new.items next (place + 1) all) }
{
    let next = place + 1;
    if byte == b' ' {
        push_run(words, text, run.start, place, run.alone)?;
        return Ok(Run {
            start: next,
            alone: true,
        });
    }
    if is_parenthesis(byte) {
        push_run(words, text, run.start, place, false)?;
        push_run(words, text, place, next, false)?;
        return Ok(Run {
            start: next,
            alone: false,
        });
    }
    Ok(run)
}

/// The words of a condition: each parenthesis, and what is between these and single spaces.
pub(crate) fn condition_words<'a>(
    alloc: Global,
    text: &'a [u8],
) -> Result<Vec<Word<'a>>, AllocError>
    ensures { IfOk result (λ words. word_pairs words.items ≡ condition_words text.now) }
{
    let mut words = Vec::new(alloc);
    let mut run = Run {
        start: 0,
        alone: true,
    };
    for (place, byte) in text.iter().enumerate() {
        run = take_byte(&mut words, text, run, place, *byte)?;
    }
    push_run(&mut words, text, run.start, text.len(), run.alone)?;
    Ok(words)
}
