//! What was seen, beside what is wanted.

use std::fmt::Debug;
use std::process::Abort;

/// Fails at this place unless what was seen is what is wanted.
pub(crate) fn same<A: Debug + Drop, T: PartialEq + Debug + Drop>(
    rt: &impl Abort,
    at: A,
    saw: T,
    want: T,
) {
    assert!(rt; saw == want, "at {at:?}: {saw:?}, not {want:?}");
}
