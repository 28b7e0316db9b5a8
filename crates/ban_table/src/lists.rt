//! The lists as which a table is seen.

use f2b_base::{Ban, Past, Seq};

/// The bans of one jail.
#[derive(Debug, Drop, PartialEq, Eq)]
pub struct BanLists {
    /// By serial, at most one for an address.
    pub active: Seq<Ban>,
    /// In the order in which the bans ended.
    pub past: Seq<Past>,
}
