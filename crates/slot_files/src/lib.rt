//! The two slots of the journal as files.
//!
//! A slot is a file `journal.0` or `journal.1` beside the server's socket, which its owner alone reads and writes. Of two servers that ask
//! for the same place the first gets it, by a lock that ends with its process. What a write gave to the system is over a stop once the
//! slot is synced. Nothing here knows what stands in a slot, and that the system does what it says is trusted.
//!
//! ```text
//! let mut slots = Slots::beside(rt, "/var/run/fail2ban/fail2ban.sock")?;    // Failed where another server has them
//! slots.write(rt, 0, 0, &[0])?;
//! slots.sync(rt, 0)?;                                                       // now it is over a stop
//! ```
#![tactic(auto)]

mod fault;
mod place;
mod slots;

pub use fault::Fault;
pub use slots::Slots;
