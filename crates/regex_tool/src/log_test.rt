//! `LogTest`, which stands for what was read of a log.
ghost use Rattle.std.specs.Prelude.{◌≡◌, ◌<◌, ◌^◌, []};

use crate::results::Results;
use crate::search::LineSearch;
use ignore_set::IgnoreSet;
use log_follow::Carry;
use std::alloc::Global;

/// A filter that is tried on the lines of a log.
#[derive(Drop)]
pub(crate) struct LogTest<'f> {
    pub alloc: Global,
    pub search: LineSearch<'f>,
    /// Nobody is left out.
    pub nobody: IgnoreSet,
    /// In seconds since 1970.
    pub now: u64,
    /// What came after the last LF.
    pub carry: Carry,
    pub results: Results,
    ghost nobody_is: { nobody ≡ [] },
    ghost now_fits: { now < 2 ^ 40 },
}
