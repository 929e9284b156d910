//! What is found beside what is wanted.

use std::process::Abort;

/// Ends the test where what was found isn't what is wanted, and tells the line of the case.
pub(crate) fn is_same<R: Abort>(rt: &R, found: &str, want: &str, line: &str) {
    assert_eq!(rt; found, want, "{line}");
}
