//! A gate on a real socket: who is let in, what is read and written, and what becomes of the socket's place.
//!
//! There is nothing here but tests: what the system answers to `gate_socket`, which no clause can say.
//!
//! ```text
//! let (mut gate, client) = gate_and_client(rt, "lets_in")?;      // a client that has connected
//! gate.accept()                                                  // Accept::Conn(0)
//! ```
#![tactic(auto)]

#[cfg(test)]
mod rows;
#[cfg(test)]
mod sockets;
