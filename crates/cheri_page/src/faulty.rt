//! All faulty lines of a listing.

ghost use Rattle.std.specs.Prelude.{◌≡◌, IfOk, string_bytes};
ghost use Rattle.cheri_page.specs.Answers.{Answers};
ghost use Rattle.cheri_page.specs.Faulty.{IsFaultyTold, faults_text};

use crate::answer::{Answer, tell};
use crate::fault::Fault;
use listing_faults::listing_faults;
use std::alloc::{AllocError, Global};

/// The line of each faulty line's fault.
#[tactic(auto)]
fn faults_text(alloc: Global, listing: &[u8]) -> Result<String, AllocError>
    ensures { IfOk result (λ text. string_bytes text ≡ faults_text listing.now) }
{
    let faults = listing_faults(alloc, listing)?;
    let mut text = String::new(alloc);
    for fault in faults.as_slice() {
        let fault = Fault::Listing(*fault);
        writeln!(text, "{fault}")?;
    }
    Ok(text)
}

/// The faulty lines of a listing: of each, as far as it is found, the line that [`cheri_check`]
/// would say of it if the others made nothing.
///
/// [`cheri_check`]: crate::runs::cheri_check
#[unsafe(no_mangle)]
pub extern "C" fn cheri_faults(alloc: Global, listing: &[u8], out: &mut [u8], answer: &mut Answer)
    ensures { Answers (IsFaultyTold listing.now) out.old out.new answer.new }
{
    match faults_text(alloc, listing) {
        Ok(text) => tell(alloc, text.as_bytes(), None, out, answer),
        Err(_) => tell(alloc, b"", Some(Fault::NoMemory), out, answer),
    }
}
