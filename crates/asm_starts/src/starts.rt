//! A hart of a request.
#![tactic(auto, unfolding(crate::proofs::Unfold::starts))]

ghost use Rattle.std.specs.Prelude.{◌≡◌, map, option_map};
ghost use Rattle.asm_requests.specs.Words.{word_parts};
ghost use Rattle.asm_starts.specs.Values.{entry_parts, on_ok, scene_parts};
ghost use Rattle.asm_starts.specs.Starts.{
  address_of,
  entry_in,
  entry_of,
  exit_for,
  has_exit,
  note_of,
  note_parts,
  places_of,
  said_at,
  said_entry,
  start_from,
  start_of,
  start_parts,
  text_now,
};

use crate::values::{Entry, Scene};
use crate::words::setup_of;
use asm_harts::{HartPlaces, OpenHart, Stack, open_hart};
use asm_requests::{Setting, Word, drops_exit, setting_of};
use asm_tokens::{AsmFault, AsmFaultKind, Place};
use cheri_model::CODE_BASE;

/// A hart before its first step, and the symbol at which it begins, if that is told by one.
#[derive(Clone, Copy)]
pub struct Start<'a> {
    pub hart: OpenHart,
    pub entry: Option<Entry<'a>>,
}

/// What a map tells of a hart: the symbol at which it begins, if that is told by one, and its
/// stack, if it has one.
#[derive(Clone, Copy, Debug)]
pub struct HartNote<'a> {
    pub entry: Option<&'a [u8]>,
    pub stack: Option<Stack>,
}

/// What a map tells of a hart.
pub fn note_of<'a>(start: &Start<'a>) -> HartNote<'a>
    ensures { note_parts result ≡ note_of (start_parts start.now) }
{
    let entry = match start.entry {
        Some(entry) => Some(entry.name),
        None => None,
    };
    HartNote {
        entry,
        stack: start.hart.stack,
    }
}

/// Whether a hart with a request of these words is given the exit.
pub fn has_exit(words: &[Word]) -> bool
    ensures { result ≡ has_exit (map word_parts words.now) }
{
    for word in words {
        if drops_exit(word.text) {
            return false;
        }
    }
    true
}

/// The exit, for a hart with a request of these words.
fn exit_for(scene: Scene<'_>, words: &[Word]) -> Option<u64>
    ensures { result ≡ exit_for (scene_parts scene.entry) (map word_parts words.now) }
{
    if has_exit(words) { scene.exit } else { None }
}

/// The symbol at which a word lets a hart begin.
fn entry_in(word: Word<'_>) -> Option<&[u8]>
    ensures { option_map text_now result ≡ entry_in (word_parts word.entry) }
{
    match setting_of(word.text) {
        Some(Setting::Entry(name)) => Some(name),
        _ => None,
    }
}

/// The symbol at which words let a hart begin.
fn said_entry<'a>(words: &[Word<'a>]) -> Option<&'a [u8]>
    ensures { option_map text_now result ≡ said_entry (map word_parts words.now) }
{
    for word in words {
        let entry = entry_in(*word);
        if entry.is_some() {
            return entry;
        }
    }
    None
}

/// The symbol at which words let a hart begin, at its address.
fn said_at<'a>(words: &[Word<'a>], addr: u64) -> Option<Entry<'a>>
    ensures { option_map entry_parts result ≡ said_at (map word_parts words.now) addr }
{
    let name = said_entry(words)?;
    Some(Entry { name, addr })
}

/// The symbol at which a hart begins: the one that words say, or else the default.
fn entry_of<'a>(scene: Scene<'_>, words: &[Word<'a>], start: Option<u64>) -> Option<Entry<'a>>
    ensures { option_map entry_parts result
        ≡ entry_of (scene_parts scene.entry) (map word_parts words.now) start }
{
    match start {
        Some(addr) => said_at(words, addr),
        None => scene.default_entry(),
    }
}

/// Where a hart begins: the first instruction, where no symbol tells it.
fn address_of(entry: Option<Entry<'_>>) -> u64
    ensures { result ≡ address_of (option_map entry_parts entry.entry) }
{
    match entry {
        Some(entry) => entry.addr,
        None => CODE_BASE,
    }
}

/// What a hart of this number begins with whose request, in a line, has these words, behind memory
/// that is taken up to an address. Fails at the first word that can't be done; with `Capability`,
/// at the line, where there is no PCC at the default entry.
pub fn open_start<'a>(
    scene: Scene<'_>,
    number: u8,
    memory_end: u64,
    line: usize,
    words: &[Word<'a>],
) -> Result<Start<'a>, AsmFault>
    ensures { on_ok start_parts result
        ≡ start_of (scene_parts scene.entry) number memory_end line (map word_parts words.now) }
{
    let setup = setup_of(scene, line, words)?;
    let entry = entry_of(scene, words, setup.start);
    let places = HartPlaces {
        reach: scene.objects.reach,
        entry: address_of(entry),
        exit: exit_for(scene, words),
        number,
        stack: setup.stack,
        memory_end,
    };
    match open_hart(&setup.registers, places) {
        Ok(hart) => Ok(Start { hart, entry }),
        Err(_) => Err(AsmFault {
            kind: AsmFaultKind::Capability,
            place: Place { line, column: 0 },
        }),
    }
}
