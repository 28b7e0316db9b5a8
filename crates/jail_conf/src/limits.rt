//! How much a configuration may ask for.

/// At most so many jails are enabled.
pub(crate) const MOST_JAILS: usize = 256;

/// A jail follows at most so many logs.
pub(crate) const MOST_WATCHES: usize = 64;

/// A jail has at most so many actions.
pub(crate) const MOST_ACTIONS: usize = 16;

/// All jails have at most so many patterns.
pub(crate) const MOST_PATTERNS: u64 = 512;

/// A pattern, of a date too, has at most so many bytes.
pub(crate) const MOST_BYTES: usize = 8_192;

/// How bans grow may be said by at most so many numbers.
pub(crate) const MOST_MULTIPLIERS: usize = 64;

/// A hundred years of 365 days, in seconds.
pub(crate) const MOST_SECONDS: u64 = 3_153_600_000;
