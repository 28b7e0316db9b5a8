//! Worked frames: requests that come in pieces of any size, frames that are refused, and replies over a link that cuts them anywhere.
//!
//! There is nothing here but tests, of what no clause of `client_frames` says: that what is proved is what stands on the wire, and that
//! its calls succeed where there is memory.
//!
//! ```text
//! Row { sent: &[0, 0, 0, 6, 0, 4, b'p', b'i', b'n', b'g'], words: &["ping"] }   // a request, and its words
//! ([0, 1, 0, 1].as_slice(), FrameError::TooLong(65_537))                        // a frame, and why it is refused
//! ```
#![tactic(auto)]

#[cfg(test)]
mod replies;
#[cfg(test)]
mod requests;
#[cfg(test)]
mod seen;
