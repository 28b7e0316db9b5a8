//! The client: words that are sent to a server as one request, and its reply.
//!
//! A caller hands in words, a link and a sink. One text is said where a reply came: the reply's, whether the request was accepted or
//! refused, but with `-q` none where it was accepted; at every other end nothing is. A time word as seconds needs no server, and no call on the link is made for it. Nothing here
//! knows a socket, where standard output is, or what a request does.
//!
//! ```text
//! let status = client(alloc, words.as_slice(), &mut link, &mut output); // words: status sshd
//! ExitCode::from(status.number())                                       // 0 where the reply was said, 1 where it is a refusal
//! ```
#![tactic(auto)]

mod ask;
mod asked;
mod call;
mod line;
mod say;
mod status;

pub use asked::USUAL_SOCKET;
pub use call::client;
pub use status::ClientStatus;
