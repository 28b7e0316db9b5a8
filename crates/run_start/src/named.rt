//! `Named`, a configuration whose paths are found.

use f2b_base::{Bytes, Defs, Seq};
use run_steps::Clocked;

/// A configuration with names in the place of its wildcards.
#[derive(Drop)]
pub struct Named {
    pub clocked: Clocked,
    /// The definitions with the paths that were found.
    pub defs: Defs,
    /// The lines of the last listing, which are still to be said.
    pub before: Seq<Bytes>,
}
