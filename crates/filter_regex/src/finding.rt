//! What a line says.

use f2b_base::Addr;

/// What a line says. A number is that of the deciding pattern among those of its kind, from 1.
#[derive(Clone, Copy, Debug, PartialEq, Eq)]
pub enum Finding {
    /// A host failed.
    Failure {
        addr: Addr,
        /// Seconds since 1970, not later than now.
        time: u64,
        index: u32,
    },
    /// The line is to be ignored.
    Ignored(u32),
    NoDate,
    /// No pattern of a failure matches.
    Missed,
    /// A failure whose host is given by no address.
    NameOnly(u32),
    /// A failure of a host that is never banned.
    IgnoredAddr(u32),
    /// A failure too long ago.
    TooOld(u32),
}
