//! The clients of a server: what is still to be written to each, what came of a request that is not whole yet, and when each is over.
//!
//! A caller accepts clients while there is room, goes through them by their numbers, and makes the one call that each asks
//! for: what is unwritten is written before anything more is read. It says how the outside answered, and what time it is. Where a request
//! came whole it gets its words, and puts in the reply before it goes on; so no second request of a client is taken before the reply to
//! the first is written whole. A frame that is refused is answered as well, and the client is over when that is written. So is one whose
//! end was seen, and one of which no byte came and that took none for 30 seconds. There are never more than 16. A reply is written from
//! where it stands in memory, however often it is cut. Nothing here makes a call, knows what a request means, or reads a clock.
//!
//! ```text
//! let mut clients = ClientTable::new(alloc);
//! clients.accept(7, now)?;                           // where it is not full
//! let Next::Read(most) = clients.next(0) ..;         // .. 7 is read, at most so many bytes, and answers: ping
//! let words = clients.read(0, answer, now)?;         // Some(ping)
//! clients.answer(0, &pong)?;
//! let Next::Write(bytes) = clients.next(0) ..;       // .. they are written to 7, and it took them
//! clients.wrote(0, answer, now);
//! if clients.is_over(0, now) { clients.close(0); }   // it is not
//! ```
#![tactic(auto)]

mod client;
mod laws;
mod next;
mod table;
mod unwritten;

pub use client::{IDLE_SECONDS, MOST_CLIENTS};
pub use laws::life_law;
pub use next::Next;
pub use table::ClientTable;
