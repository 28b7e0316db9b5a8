//! The law of a whole run of the server: which call on the outside comes next, and where its answer leads.
//!
//! There is no code here but how a run ends and what it is asked to do. A run is a list of events, one for each call; `specs/Law.antt`
//! says after each of them the one call that may come next, and which lines are told by then, so a server that obeys it can be told
//! from one that does not by its events alone. Each part of a run has a file of its own: `Start`, `Clock`, `Looks`, `Polls`, `Serving`,
//! `Starts`, `Pause`. What an event brings is taken in one place, `News`: no part knows how an input is written or how lines are said. What
//! follows from the law alone stands in `proofs/`: that what was said is at every point a beginning of what was told, and that whatever a
//! stop leaves of the journal comes to the view after the inputs that were closed, or after all of them (`Stops`). Nothing here opens a
//! file or knows what a core keeps.
//!
//! A run of one turn over a configuration without jails, by the one call that comes next (`next_call`) and the event that it makes:
//!
//! ```text
//! begin words slots, of `--conf /c --turns 1`  asks for the tree of /c
//! feed .. (Config "/c" (Tree files))           asks to name the slots beside the socket, since there is no pattern to build
//! feed .. (StoreAt socket Kept)                asks to let clients in; before that the slots may be read
//! feed .. (GateListen socket Listening)        asks for the clock
//! feed .. (Clock reading)                      asks to say `Server ready`, which is owed: a configuration of nothing is no input
//! feed .. (Say bytes Done)                     asks for the clock of the first turn
//! feed .. (Clock reading)                      asks whether a client has connected: no log is looked at, and no command runs
//! feed .. (GateAccept Quiet)                   asks for a pause: there is no client to serve, and no command to start
//! feed .. (Pause 250)                          asks for nothing: the run is over, with `TurnsSpent`
//! ```
#![tactic(auto)]

mod plan;
mod status;

pub use plan::Plan;
pub use status::Status;
