//! What a server replies.

use f2b_base::Text;

/// The reply to a request.
#[derive(Debug, Drop, PartialEq, Eq)]
pub struct Answer {
    /// Whether the request was accepted. If not, the text says why.
    pub accepted: bool,
    pub text: Text,
}
