//! What a client's request changes, and what it is replied.
//!
//! A request that was understood is refused by the state, or else makes one input or none: `effect` says which. `reply` is the text that
//! the client gets, over the state before that input, so both are asked of the same core and the input is taken afterwards. A request
//! that changes nothing makes no input. Nothing here takes an input, knows a socket, or reads a configuration: what a reload makes and
//! whether its files are refused is its caller's.
//!
//! ```text
//! let request = command(alloc, &words)?;                  // set sshd banip 192.0.2.7 192.0.2.7
//! let answer = reply(alloc, &core, now, &request)?;       // accepted, "1"
//! let what = effect(alloc, &core, &request)?;             // a ban of 192.0.2.7 in sshd; None where it is banned
//! ```
#![tactic(auto)]

mod banned;
mod change;
mod definition;
mod holders;
mod known;
mod masks;
mod refusal;
mod replies;
mod status;
mod text;
mod times;

pub use change::effect;
pub use replies::reply;
