//! How a test ends.
ghost use Rattle.std.specs.Prelude.{◌≡◌};
ghost use Rattle.regex_tool.specs.Refusals.{status_number};

use crate::kind::ToolKind;
use f2b_base::NoMemory;
use filter_regex::PatternPlace;
use jail_conf::ConfError;

/// How a test ended.
#[derive(Debug, Drop, PartialEq, Eq)]
pub enum ToolStatus {
    /// The report was said.
    Done,
    /// The words are not those of the tester.
    Usage,
    /// A file or a directory could not be read.
    FileFault,
    /// The filter's files come to nothing.
    ConfRefused(ConfError),
    /// A line could not be said.
    SinkFault,
    /// The directory of the filter has too many files of a configuration, or too many bytes in them.
    TooLarge,
    /// A pattern was refused.
    PatternRefused { place: PatternPlace, kind: ToolKind },
    NoMemory,
}

impl From<NoMemory> for ToolStatus {
    ghost use Rattle.regex_tool.specs.declared.status.ToolStatus.TheVariants.{NoMemory};

    ghost from_gives = { λ _ status. status ≡ NoMemory };

    fn from(_: NoMemory) -> Self {
        ToolStatus::NoMemory
    }
}

impl ToolStatus {
    /// The exit status of the program.
    pub fn number(&self) -> u8
        ensures { result ≡ status_number self.now }
    {
        match self {
            ToolStatus::Done => 0,
            ToolStatus::Usage => 2,
            ToolStatus::FileFault => 3,
            ToolStatus::ConfRefused(_) => 4,
            ToolStatus::SinkFault => 9,
            ToolStatus::TooLarge => 10,
            ToolStatus::PatternRefused { .. } => 11,
            ToolStatus::NoMemory => 71,
        }
    }
}
