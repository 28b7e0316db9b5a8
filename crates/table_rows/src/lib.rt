//! Worked clients: requests and replies that are cut anywhere, frames that are refused, and when a client is over.
//!
//! There is nothing here but tests, of what no clause of `client_table` says: that its clauses mean what a user sees, and that its calls
//! succeed where there is memory.
//!
//! ```text
//! read(&mut clients, 0, PING, 5, 100)?     // five bytes of a request came at 100
//! write(&mut clients, 0, 3, 101)?          // and three bytes of its reply were taken at 101
//! ```
#![tactic(auto)]

#[cfg(test)]
mod calls;
#[cfg(test)]
mod ends;
#[cfg(test)]
mod turns;
