//! Requests by their words.
#![tactic(auto, unfolding(crate::specs::Requests::request_of))]

ghost use Rattle.std.specs.Prelude.{◌≡◌, map};
ghost use Rattle.asm_requests.specs.Words.{word_parts};
ghost use Rattle.asm_requests.specs.Requests.{ram_of, request_of};

use crate::words::Word;
use text_numbers::number_of;

/// What a request asks for.
#[derive(Clone, Copy, Debug)]
pub enum Request {
    /// A hart, by the other words.
    Hart,
    /// So many bytes of memory; `None` at or above 2^128.
    Ram(Option<u128>),
}

/// What a request for memory asks for.
fn ram_of(words: &[Word]) -> Option<Request>
    ensures { result ≡ ram_of (map word_parts words.now) }
{
    match words {
        [size] => Some(Request::Ram(number_of(size.text)?)),
        _ => None,
    }
}

/// What a request of these words asks for; `None` where it is none.
pub fn request_of(words: &[Word]) -> Option<Request>
    ensures { result ≡ request_of (map word_parts words.now) }
{
    let [first, rest @ ..] = words else {
        return None;
    };
    if first.text == b"hart".as_slice() {
        return Some(Request::Hart);
    }
    if first.text == b"ram".as_slice() {
        return ram_of(rest);
    }
    None
}
