//! Why a frame is refused, and why no reply was received.
ghost use Rattle.std.specs.Prelude.{◌≡◌};
ghost use Rattle.std.specs.Option.{option_copied};

/// Why a client's frame is no request.
#[derive(Clone, Copy, Debug, PartialEq, Eq)]
pub enum FrameError {
    /// Its length says so many bytes, which are more than 65,536.
    TooLong(u32),
    /// Its length says none.
    Empty,
    /// No word begins at this offset behind the length: its two bytes of length, or what they say, pass the frame's end, or it is no
    /// UTF-8.
    BadWord(u32),
    NoMemory,
}

impl FrameError {
    ghost use Rattle.client_frames.specs.Comes.{refusal_of};

    /// What a client is told of a frame that is refused. Want of memory is no refusal.
    pub fn refusal(&self) -> Option<&'static str>
        ensures { option_copied result ≡ refusal_of self.now }
    {
        match self {
            FrameError::TooLong(_) => Some("Frame too long"),
            FrameError::Empty => Some("Empty frame"),
            FrameError::BadWord(_) => Some("Bad word"),
            FrameError::NoMemory => None,
        }
    }
}

impl From<f2b_base::NoMemory> for FrameError {
    ghost use Rattle.client_frames.specs.declared.error.FrameError.TheVariants.{NoMemory};

    ghost from_gives = { λ _ error. error ≡ NoMemory };

    fn from(_error: f2b_base::NoMemory) -> FrameError {
        FrameError::NoMemory
    }
}

/// Why no reply was received.
#[derive(Clone, Copy, Debug, PartialEq, Eq)]
pub enum ReceiveError {
    /// The link failed.
    LinkFault,
    /// The server ended before its reply was whole.
    LinkEnded,
    /// The length is none that a reply has, or the frame is no reply: its first byte is neither 0 nor 1, or its text no UTF-8.
    BadReply,
    NoMemory,
}

impl From<f2b_base::NoMemory> for ReceiveError {
    ghost use Rattle.client_frames.specs.declared.error.ReceiveError.TheVariants.{NoMemory};

    ghost from_gives = { λ _ error. error ≡ NoMemory };

    fn from(_error: f2b_base::NoMemory) -> ReceiveError {
        ReceiveError::NoMemory
    }
}
