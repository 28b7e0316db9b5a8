//! The start up to the first reading of the clock, behind the configuration: the slots of the journal are named, what they hold is loaded,
//! and clients are let in.
//!
//! The slots are beside the socket of a configuration. Where they cannot be read or are no journal, or where clients cannot connect at the
//! socket, the run ends here, and that is said before, unless its line cannot be said. What is handed up is an engine of the state that the
//! slots come to, and the journal stands where it was. Nothing is written, and nothing here knows what a slot means, reads a clock or hears
//! a client.
//!
//! ```text
//! let engine = load_journal(alloc, world, plan, &settings)?;
//! listen(alloc, world, &settings)?;                              // behind it comes the first reading of the clock
//! ```
#![tactic(auto)]

mod slots;
mod socket;

pub use slots::load_journal;
pub use socket::listen;
