//! Worked replies: what a client types, what it reads, and the input that its words make.
//!
//! There is nothing here but tests, of what no clause of `client_replies` says: that what is proved is what an administrator reads, to
//! the byte, and that its calls succeed where there is memory.
//!
//! ```text
//! ("set web banip 192.0.2.8", "1 > Ban { jail: \"web\", addrs: [V4(3221225992)] }")   // a reply, and the input
//! ("set mail idle on", "! Sorry but the jail 'mail' does not exist")                  // a refusal
//! ```
#![tactic(auto)]

#[cfg(test)]
mod details;
#[cfg(test)]
mod more_rows;
#[cfg(test)]
mod rows;
#[cfg(test)]
mod state;
#[cfg(test)]
mod told;
