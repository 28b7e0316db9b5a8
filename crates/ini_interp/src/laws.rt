//! The law of merges, as the contract of a function that does nothing.
ghost use Rattle.ini_interp.specs.MergeLaws.{MergeLaw};

/// The value that a later file has of an item counts, and what a file has not stays. [INCLUDES] is not merged.
pub fn merge_law()
    ensures { MergeLaw }
{}
