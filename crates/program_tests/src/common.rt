//! What several modules of these tests use.

use std::process::Abort;

/// Compares what was written with a text.
pub(crate) fn assert_bytes(rt: &impl Abort, written: &[u8], wanted: &str) {
    assert!(rt;
        written == wanted.as_bytes(),
        "this was not written: {wanted}"
    );
}
