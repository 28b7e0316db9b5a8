//! Worked rows of the law of a run: small histories, computed event by event.
//!
//! There is no code here, and no statement that others stand on. Each row is a few events of a run whose outcome can be told by hand: the one
//! call that comes next, the lines that are owed, the status of an end. Where the law's words were changed so that one of them came out
//! otherwise, the proof of its row would fail. The rows stand beside the law and not in it, so that what stands on the law does not wait for
//! them. `proofs/` has a file for each part of a run.
#![tactic(auto)]
