//! What each row asks.
ghost use Rattle.std.specs.Prelude.{◌≡◌, true};

use std::fmt::Debug;
use std::process::Abort;

/// What was seen at a row is what was wanted.
pub(crate) fn same<A, T>(rt: &impl Abort, at: A, saw: T, want: T)
where
    A: Copy + Debug,
    T: Copy + PartialEq + Debug,
{
    assert_eq!(rt; saw, want, "at {at:?}");
}

/// It is so at a row.
pub(crate) fn is_so(rt: &impl Abort, at: u64, fact: bool)
    ensures { fact ≡ true }
{
    assert!(rt; fact, "at {at}");
}
