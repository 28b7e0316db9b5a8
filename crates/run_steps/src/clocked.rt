//! `Clocked`, what takes inputs.
ghost use Rattle.std.specs.Prelude.{◌≤◌};
ghost use Rattle.f2b_base.specs.Limits.{last_moment};

use reconcile::Engine;

/// The state with its journal, and the moment and the word of its next input.
#[derive(Drop)]
pub struct Clocked {
    pub engine: Engine,
    /// The greatest reading so far, in seconds since 1970, or the moment of what was loaded where that is later.
    pub now: u64,
    /// The last reading's word.
    pub word: u64,
    ghost timely: { now ≤ last_moment },
}
