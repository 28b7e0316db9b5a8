//! Several runs of the server, one after the other: they are one state that goes on.
//!
//! What one run does is its law's (`run_law`), and what its inputs do to the state is the model's (`f2b_model`). From both it follows, for runs each
//! of which begins on what a stop may have left of the one before, that they take the inputs of all runs as one state does that is never stopped,
//! of each run all that it made or all but the last. `runs_law` says so, once, for all that obeys the law: no code is looked at here, and none
//! is needed. Nothing here knows how slots are written, or what a command does.
#![tactic(auto)]

ghost use Rattle.many_runs.specs.OneState.{RunsLaw};

/// Runs that obey the law, each of which begins on what a stop may have left of the one before, are one state that goes on.
pub fn runs_law()
    ensures { RunsLaw }
{}
