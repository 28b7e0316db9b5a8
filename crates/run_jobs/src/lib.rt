//! Which jobs a run tries: of each lane those that were made, in their order.
//!
//! What a lane is and which jobs are made for it is the model's (`f2b_model`), and which job a run starts next is its law's (`run_law`). From
//! both it follows, for any run that obeys the law, that in each lane jobs are tried in the order in which they were made, none is passed
//! over but one that a failed check voided before, and a job is tried again only before the next one. What runs, a command or the check before
//! it, is for the first unsettled job of its lane, so of each lane one runs at most. `tried_law` says so, once, for all that obeys the law: no
//! code is looked at here, and none is needed. A run begins with the jobs that are pending in what the slots of its journal held, whatever
//! bytes these were. Nothing here knows what a command does.
#![tactic(auto)]

ghost use Rattle.run_jobs.specs.Runs.{TriedLaw};

/// A run that obeys the law tries the jobs of each lane in the order in which they were made, one at a time.
pub fn tried_law()
    ensures { TriedLaw }
{}
