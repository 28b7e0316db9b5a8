//! Why a configuration is refused.

use crate::fail::Fail;
use f2b_base::Text;
use ini_interp::IniError;

/// What is wrong.
#[derive(Debug, Drop, PartialEq, Eq)]
pub enum ConfKind {
    /// A file has this fault.
    Ini(IniError),
    /// A file includes this name, which leads out of its directory or names no file.
    MissingInclude(Text),
    /// A file includes itself, perhaps through others.
    IncludeLoop,
    /// A reference names this item, and it has no value.
    Missing(Text),
    /// References or tags stand in one another more than ten deep; this item is the eleventh.
    TooDeep(Text),
    /// The percent sign at this offset begins no reference.
    BadPercent(u64),
    /// The name of a jail is not of 1 to 64 of `A-Z a-z 0-9 _ . -`.
    BadName,
    BadBool,
    /// A text is no name with options.
    BadOptions,
    /// The file of a filter or of an action is not there.
    MissingFile,
    /// A path does not begin with a slash, or has a wildcard before its last slash.
    BadGlob,
    BadZone,
    BadDate,
    /// A pattern has a tag that it may not have.
    BadTag,
    NoHost,
    TwoHosts,
    BadAddress,
    BadTime,
    BadNumber,
    /// The value has a meaning that is not offered here.
    Unsupported,
    /// Two actions of a jail have the same name.
    DoubleAction,
    TooMany,
}

/// The first refusal.
#[derive(Debug, Drop, PartialEq, Eq)]
pub struct ConfError {
    /// The first file of the base in whose scope the value stood, or the file that is at fault or is not there.
    pub file: Text,
    pub section: Text,
    /// The item.
    pub name: Text,
    pub kind: ConfKind,
}

/// Why a configuration comes to nothing.
pub type ConfFail = Fail<ConfError>;
