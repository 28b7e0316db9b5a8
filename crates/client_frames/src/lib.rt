//! Requests and replies as they stand on the wire between a client and a server.
//!
//! A request is a list of words, a reply is a text and whether the request was accepted; each travels as one frame, behind its length.
//! A server feeds a `Conn` what comes of a client, in pieces of any size, and gets each request when its last byte is there, or why the
//! frame is refused; after that it takes no more of that client. A client sends `request_frame` and waits in `receive_reply`, which
//! receives one reply and no byte after it. No room is taken for a length before its bytes are there. Nothing here knows a socket, or
//! what a word means.
//!
//! ```text
//! let mut conn = Conn::new(alloc);
//! conn.feed(&[0, 0, 0, 6])?;                        // None: six bytes are to come, as conn.want() says
//! conn.feed(&[0, 4, b'p', b'i', b'n', b'g'])?;      // the request of the one word ping
//! let reply = reply_frame(alloc, &Answer { accepted: true, text })?;
//! ```
#![tactic(auto)]

mod answer;
mod conn;
mod error;
mod frame;
mod laws;
mod receive;
mod reply;
mod request;
mod words;

pub use answer::Answer;
pub use conn::Conn;
pub use error::{FrameError, ReceiveError};
pub use laws::cut_law;
pub use receive::receive_reply;
pub use reply::reply_frame;
pub use request::{are_request, request_frame};
