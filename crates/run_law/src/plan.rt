//! What a run is asked to do.

use f2b_base::Text;

/// What the words of the command line ask for.
#[derive(Clone, Debug, Drop, PartialEq, Eq)]
pub struct Plan {
    /// The directory of the configuration.
    pub root: Text,
    /// After how many turns the run ends, at least 1.
    pub turns: u64,
    /// How long a slot of the journal may get, in bytes, at least 1.
    pub limit: u64,
}
