//! What the tests assert. Each form is written, and proved, once: an `assert_eq!` of its own in each test is proved
//! anew, with the comparison and the text of its values.

use std::fmt::Debug;
use std::process::Abort;

/// Ends the test where a value isn't the one that is wanted, and prints both.
pub(crate) fn same<T: Debug + PartialEq>(rt: &impl Abort, value: &T, wanted: &T) {
    assert_eq!(rt; *value, *wanted);
}
