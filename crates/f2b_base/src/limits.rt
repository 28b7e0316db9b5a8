//! Numbers that several parts share.

/// The last second that a moment can be, in seconds since 1970. What would end later ends then.
pub const LAST_MOMENT: u64 = (1 << 40) - 1;

/// The latest reading of the clock that a server takes, in seconds since 1970: within the year 9892. Dates are read up to a day
/// later.
pub const LATEST_READING: u64 = 250_000_000_000;

/// How many seconds a ban that is over still counts, where a configuration does not say.
pub const DEFAULT_PURGE: u64 = 86_400;

/// How many of a log's first bytes tell whether it is the log that was followed so far.
pub const HEAD_BYTES: u32 = 64;

/// The most bytes that one look at a log brings.
pub const LOOK_BYTES: u32 = 65_536;

/// The most bytes of a line that a failure keeps.
pub const KEPT_LINE_BYTES: usize = 512;
