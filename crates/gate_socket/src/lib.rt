//! The socket that clients of the server connect to.
//!
//! It is a socket of the file system that its owner alone may connect to. At most 16 clients are connected at once, each under a number
//! from 0 to 15 that no other one has; who comes then waits where the system keeps it. No call waits but `wait`, which ends as soon as a
//! client asks for something. Memory is taken where it begins to listen, and for bytes that are read. Nothing here knows what the bytes
//! mean, nor who is over, and that the system does what it says is trusted.
//!
//! ```text
//! let mut gate = GateSocket::listen(rt, "/var/run/fail2ban/fail2ban.sock")?; // Failed where a server answers there already
//! let Accept::Conn(conn) = gate.accept() ..;                                 // .. a client that waited, under the number 0
//! let GateRead::Bytes(bytes) = gate.read(alloc, conn, 4_096) ..;             // .. what it sent
//! let GateWrite::Took(count) = gate.write(conn, b"pong") ..;                 // .. it took 4 of these
//! gate.close(conn);
//! gate.wait(rt, 25_000);                                                     // until a client asks for something, or 25 ms
//! gate.remove(rt);                                                           // the file goes
//! ```
#![tactic(auto)]

mod connections;
mod fault;
mod gate;
mod place;
mod stream;

pub use connections::MOST_CONNECTIONS;
pub use fault::Fault;
pub use gate::GateSocket;
pub use place::MOST_PATH;
