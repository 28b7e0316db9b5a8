//! What helps whoever sits at the terminal where nothing is printed.

use client_tool::ClientStatus;

/// A sentence for whoever can mend what ended the call, where there is one.
pub fn advice(status: ClientStatus) -> Option<&'static str> {
    match status {
        ClientStatus::Usage => Some("fail2ban-client --help lists the words"),
        ClientStatus::LinkFault => {
            Some("no server answers at this socket: is one running there, and may you open it?")
        }
        ClientStatus::BadReply => Some("what answers at this socket is no fail2ban-server"),
        ClientStatus::LinkEnded => Some("the server ended before its reply was whole"),
        _ => None,
    }
}
