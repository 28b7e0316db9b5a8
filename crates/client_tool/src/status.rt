//! How a call of the client ends.
ghost use Rattle.std.specs.Prelude.{◌≡◌};
ghost use Rattle.client_tool.specs.Ends.{as_status, status_number, status_of};

use client_frames::ReceiveError;
use f2b_base::NoMemory;

/// How a call of the client ended.
#[derive(Clone, Copy, Debug, PartialEq, Eq)]
pub enum ClientStatus {
    /// The request was accepted and the reply said, or the seconds of a time word were.
    Done,
    /// The request was refused, and the reply said.
    Refused,
    /// The words ask for nothing.
    Usage,
    /// There is no server, or the link to it failed.
    LinkFault,
    /// The text could not be said.
    SinkFault,
    /// What came of the server is no reply.
    BadReply,
    /// The server ended before its reply was whole.
    LinkEnded,
    NoMemory,
}

impl From<NoMemory> for ClientStatus {
    ghost use Rattle.client_tool.specs.declared.status.ClientStatus.TheVariants.{NoMemory};

    ghost from_gives = { λ _ status. status ≡ NoMemory };

    fn from(_: NoMemory) -> Self {
        ClientStatus::NoMemory
    }
}

impl ClientStatus {
    /// How a call ends that received no reply for this cause.
    pub(crate) fn of_failure(error: ReceiveError) -> ClientStatus
        ensures { result ≡ as_status error }
    {
        match error {
            ReceiveError::LinkFault => ClientStatus::LinkFault,
            ReceiveError::LinkEnded => ClientStatus::LinkEnded,
            ReceiveError::BadReply => ClientStatus::BadReply,
            ReceiveError::NoMemory => ClientStatus::NoMemory,
        }
    }

    /// How a call ends whose reply was said.
    pub(crate) fn of_verdict(accepted: bool) -> ClientStatus
        ensures { result ≡ status_of accepted }
    {
        if accepted {
            return ClientStatus::Done;
        }
        ClientStatus::Refused
    }

    /// The exit status of the program.
    pub fn number(&self) -> u8
        ensures { result ≡ status_number self.now }
    {
        match self {
            ClientStatus::Done => 0,
            ClientStatus::Refused => 1,
            ClientStatus::Usage => 2,
            ClientStatus::LinkFault => 8,
            ClientStatus::SinkFault => 9,
            ClientStatus::BadReply => 12,
            ClientStatus::LinkEnded => 13,
            ClientStatus::NoMemory => 71,
        }
    }
}
