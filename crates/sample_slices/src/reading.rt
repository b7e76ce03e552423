//! Lines: which are slices.

ghost use Rattle.std.specs.Prelude.{◌≡◌, ◌++◌, ◌∷◌, ◌↔◌, [], IfErr, IfOk, IsTrue, IsUtf8, None};
ghost use Rattle.std.specs.Prelude.{Some, string_bytes};
ghost use Rattle.serde_json.specs.Read.{read};
ghost use Rattle.serde_json.specs.View.{view as data_of};
ghost use Rattle.sample_slices.specs.Lines.{IsLineRead, IsWrittenAgain};
ghost use Rattle.sample_slices.specs.Slices.{Fits};

use crate::claimed::claimed;
use crate::fault::LineFault;
use crate::listing::KnownListing;
use crate::slice::Slice;
use cheri_model::NoMemory;
use serde_json::Value;
use shown_states::Format;
use std::alloc::Global;

/// The JSON that a line is.
fn value_of(alloc: Global, line: &[u8]) -> Result<Value, LineFault>
    ensures is { IfOk result (λ v. IsUtf8 line.now × (read line.now ≡ Some (data_of v))) }
    ensures none { IfErr result (λ fault. fault ≡ LineFault.Form → IsUtf8 line.now
        → read line.now ≡ None) }
{
    match Value::from_slice(alloc, line) {
        Ok(value) => Ok(value),
        Err(error) => {
            if error.is_memory() {
                Err(LineFault::NoMemory)
            } else {
                Err(LineFault::Form)
            }
        }
    }
}

/// Whether a text is a line and its newline. Fails only when out of memory.
fn is_line(alloc: Global, text: &String, line: &[u8]) -> Result<bool, NoMemory>
    ensures { IfOk result (λ is. IsTrue is ↔ (string_bytes text.now ≡ line.now ++ 0x0A ∷ [])) }
{
    let mut whole = Vec::from_slice(alloc, line)?;
    whole.push(b'\n')?;
    Ok(text.as_bytes() == whole.as_slice())
}

/// The slice that is claimed, where it is the line that is written of it.
#[tactic(auto, using(crate::proofs::LineLemmas::again))]
fn written_again(
    alloc: Global,
    listing: &KnownListing<'_>,
    slice: Slice,
    line: &[u8],
) -> Result<Slice, LineFault>
    requires { Fits listing.now slice }
    ensures { IsWrittenAgain listing.now slice line.now result }
{
    let text = slice.text(alloc, listing, Format::Json)?;
    if is_line(alloc, &text, line)? {
        Ok(slice)
    } else {
        Err(LineFault::Form)
    }
}

/// The slice that a line is, which comes without its newline. `Form` exactly where it is none.
/// Fails else only when out of memory or of numbers for states, or where a count reaches 2^64.
pub fn read_slice(
    alloc: Global,
    listing: &KnownListing<'_>,
    line: &[u8],
) -> Result<Slice, LineFault>
    ensures read { IsLineRead listing.now line.now result }
    ensures fits { IfOk result (λ slice. Fits listing.now slice) }
{
    let value = value_of(alloc, line)?;
    let slice = claimed(alloc, listing, &value)?;
    written_again(alloc, listing, slice, line)
}
