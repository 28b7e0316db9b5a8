//! The middle state of a jail.

use f2b_base::{Ban, Failure, JailDef, Past, Seq, WatchView};

/// What still matters of a jail's failures and bans, beside its definition.
#[derive(Debug, Drop, PartialEq, Eq)]
pub struct JailNow {
    pub definition: JailDef,
    /// Whether its logs are not looked at.
    pub idle: bool,
    /// How many failures were counted since it was first taken. Stays at the greatest number.
    pub total_failed: u64,
    /// How many bans began since then. Stays at the greatest number.
    pub total_banned: u64,
    /// When the last failure was counted, in seconds since 1970, or 0.
    pub moment: u64,
    /// How far its logs are followed, in the order of the definition.
    pub watches: Seq<WatchView>,
    /// The open failures later than twice the findtime before `moment`, by address (IPv4 first, then the number), time, arrival.
    pub failures: Seq<Failure>,
    /// The active bans by serial, at most one for an address.
    pub bans: Seq<Ban>,
    /// The bans that are over and still count, in order of their ends.
    pub past: Seq<Past>,
}
