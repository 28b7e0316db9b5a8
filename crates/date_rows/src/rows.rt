//! What each row asks.
ghost use Rattle.std.specs.Prelude.{◌≡◌, true};

use std::fmt::Debug;
use std::process::Abort;

/// Fails at this row unless what was seen is what is wanted.
pub(crate) fn same<A, T>(rt: &impl Abort, at: A, saw: T, want: T)
where
    A: Copy + Debug,
    T: Copy + PartialEq + Debug,
{
    assert!(rt; saw == want, "at {at:?}: {saw:?}, not {want:?}");
}

/// It is so at a row.
pub(crate) fn is_so(rt: &impl Abort, at: &str, fact: bool)
    ensures { fact ≡ true }
{
    assert!(rt; fact, "at {at}");
}
