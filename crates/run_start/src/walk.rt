//! `PathWalk`, where the walk over the paths stands.
ghost use Rattle.run_start.specs.Few.{AreFew};

use crate::path::JailPath;
use f2b_base::{Bytes, Seq};
use run_steps::Clocked;

/// The walk over the paths of all jails.
#[derive(Drop)]
pub struct PathWalk<'p> {
    pub clocked: Clocked,
    /// The paths that are settled.
    pub found: Seq<JailPath>,
    /// The paths that are still to come. The first of them has a wildcard, if there is one.
    pub left: &'p [JailPath],
    /// The lines of the last listing.
    pub before: Seq<Bytes>,
    ghost few: { AreFew found left.now },
}
