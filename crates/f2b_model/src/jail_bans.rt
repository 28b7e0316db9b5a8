//! The active bans of a jail.

use f2b_base::{Ban, Seq, Text};

/// The active bans of a jail, by serial.
#[derive(Debug, Drop)]
pub struct JailBans {
    pub jail: Text,
    pub bans: Seq<Ban>,
}
