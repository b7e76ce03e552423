//! The words of a condition that stand for numbers and for places in the code.
#![tactic(auto, unfolding(crate::proofs::Unfold::terms))]

ghost use Rattle.std.specs.Prelude.{◌≡◌};
ghost use Rattle.condition_texts.specs.Terms.{target_in, target_after_points, range_in, term_of};
ghost use Rattle.listing_maps.specs.Names.{names_of};

use crate::places::{number_in, point, source_of};
use cheri_model::{CODE_BASE, INSTRUCTION_BYTES, Image};
use conditions::Term;
use listing_maps::Names;

/// The address of the instruction that a word names: by a label or a symbol, or by `@` and its
/// number.
pub(crate) fn target_in(names: &Names<'_>, word: &[u8]) -> Option<u64>
    ensures { result ≡ target_in (names_of names.now) word.now }
{
    let Ok(operand) = names.target_operand_of(word) else {
        return None;
    };
    match names.target_of(operand) {
        Ok(target) => Some(CODE_BASE + INSTRUCTION_BYTES * u64::from(target.number())),
        Err(_) => None,
    }
}

/// The target after two points.
fn target_after_points(names: &Names<'_>, rest: &[u8]) -> Option<u64>
    ensures { result ≡ target_after_points (names_of names.now) rest.now }
{
    if rest.starts_with(b"..") {
        target_in(names, &rest[2..])
    } else {
        None
    }
}

/// Two targets with two points between them, of which the first has the lower address.
pub(crate) fn range_in(names: &Names<'_>, word: &[u8]) -> Option<(u64, u64)>
    ensures { result ≡ range_in (names_of names.now) word.now }
{
    let end = point(word)?;
    let first = target_in(names, &word[..end])?;
    let second = target_after_points(names, &word[end..])?;
    if first < second {
        Some((first, second))
    } else {
        None
    }
}

/// What a number is compared with: a number, another such one, or `&` and a target.
pub(crate) fn term_of(names: &Names<'_>, image: &Image, each: bool, word: &[u8]) -> Option<Term>
    ensures { result ≡ term_of (names_of names.now) image.now each word.now }
{
    if let [b'&', target @ ..] = word {
        let addr = target_in(names, target)?;
        return Some(Term::Number(u128::from(addr)));
    }
    if let Some(number) = number_in(word) {
        return Some(Term::Number(number));
    }
    let source = source_of(image, each, word)?;
    Some(Term::Source(source))
}
