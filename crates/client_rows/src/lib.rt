//! Worked calls of the client: words, what a server says, what is printed, and how the call ends.
//!
//! There is nothing here but tests, of what no clause of `client_tool` says: that its ends are those that an administrator expects, and
//! that it comes to an end at all where there is memory.
//!
//! ```text
//! (["--str2sec", "1h"], [], "3600\n", Done)                       // no server is asked
//! (["ping"], [0, 0, 0, 3, 0, b'u', b'p'], "Server replied: pong\n", Done)
//! ```
#![tactic(auto)]

#[cfg(test)]
mod calls;
