//! Why words are no request.
ghost use Rattle.std.specs.Prelude.{◌≡◌, Some, IfOk};

use f2b_base::{NoMemory, Text};
use std::alloc::Global;

/// What is wrong with words, first of all that is.
#[derive(Clone, Copy, Debug, PartialEq, Eq)]
pub enum CommandError {
    /// They name no command: by the first of them, by the third of `set` or `get`, or by the one behind `idle`.
    Unknown,
    /// There are too few for the command, or too many.
    WrongCount,
    /// The second is no name that a jail can have.
    BadJailName,
    /// The word at this place, from 1, is no address, or no mask where one has to stand.
    BadAddress(u32),
    /// The last is no time or number that the jail can take.
    BadNumber,
    NoMemory,
}

impl CommandError {
    ghost use Rattle.client_words.specs.Refusals.{refusal_of};

    /// What a client is told of words that are refused. Want of memory is no refusal: it comes back as it is.
    pub fn refusal(&self, alloc: Global) -> Result<Text, NoMemory>
        ensures { IfOk result (λ text. refusal_of self.now ≡ Some text) }
    {
        match self {
            CommandError::Unknown => Text::from_str(alloc, "Invalid command"),
            CommandError::WrongCount => Text::from_str(alloc, "Wrong number of words"),
            CommandError::BadJailName => Text::from_str(alloc, "Bad jail name"),
            CommandError::BadAddress(place) => {
                let text = format!(in alloc; "Bad address: word {place}")?;
                Ok(Text::from(text))
            }
            CommandError::BadNumber => Text::from_str(alloc, "Bad number"),
            CommandError::NoMemory => Err(NoMemory),
        }
    }
}

impl From<NoMemory> for CommandError {
    ghost use Rattle.client_words.specs.declared.error.CommandError.TheVariants.{NoMemory};

    ghost from_gives = { λ _ error. error ≡ NoMemory };

    fn from(_error: NoMemory) -> CommandError {
        CommandError::NoMemory
    }
}
