//! The run of the server.
//!
//! A caller hands in the words of the command line and the outside, and gets the status that the run ended with. What a run does is the
//! law of `run_law`: after the calls so far it gives the one call that comes next, and it says which lines were told by then. The start
//! stands in `run_trees`, `run_load` and `run_start`, the looks of a turn in `turn_logs`, its commands in `turn_children`, its clients in
//! `turn_clients`, and a configuration that one of them has read again in `turn_reload`; here are the words, the clock, the pause, the end
//! behind a stop, and the order in which all follow each other. No thread, file, socket or clock is known here but through the traits of
//! `f2b_world`.
//!
//! ```text
//! let status = server(alloc, words.as_slice(), &mut world); // --conf DIR --turns 12: twelve turns, unless something ends it before
//! ExitCode::from(status.number())
//! ```
#![tactic(auto)]

mod clock;
mod number;
mod pause;
mod run;
mod turns;
mod words;

pub use run::server;
