//! Worked commands: words with the request that they are, or with what a client is told of them.
//!
//! There is nothing here but tests, of what no clause of `client_words` says: that what is proved is what an administrator types, and
//! that its calls succeed where there is memory.
//!
//! ```text
//! ("set sshd findtime 10m", "SetFindtime { jail: \"sshd\", secs: 600 }")   // words, and how their request prints
//! ("set sshd findtime 5q", "Bad number")                                  // words, and why they are refused
//! ```
#![tactic(auto)]

#[cfg(test)]
mod rows;
#[cfg(test)]
mod told;
