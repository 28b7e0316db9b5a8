//! The clients of a turn: one that has connected is let in, and then each is written to or read once, and leaves where it is over.
//!
//! Who is connected, what each asks next and when it is over is kept by the table of `client_table`; what the words of a request mean is
//! said by `client_words`; what is replied and what happens by it, by `client_replies`, over the state that the request meets. The reply
//! is put into the table first. What happens is then an input, which `bring` writes before any line of it is said and before the next
//! client is served; so no client is told of an input that was not written, since it is written to in a later turn. Here calls on the outside are made, and
//! their answers go from the one to the other. Where one asks for the configuration to be read again, its place is handed up, and it has its
//! reply by whoever reads it; the clients behind it are served then. Nothing here knows what a request changes, how an input is written, or how
//! a configuration is read.
//!
//! ```text
//! let (running, asked) = serve_clients(alloc, world, running)?;       // at most one is accepted, and each is written to or read once
//! if let Some(place) = asked {
//!     ..                                                              // the client there asked for a reload, and is told what came of it
//!     let (running, asked) = serve_rest(alloc, world, running, place)?;   // and so on, until none asks
//! }
//! ```
#![tactic(auto)]

mod accept;
mod close;
mod hear;
mod response;
mod search;
mod serve;
mod serves;
mod take;

pub use serves::{serve_clients, serve_rest};
