//! The values that a command's tags stand for.

use f2b_base::{Addr, Family, Text};

/// What the tags of a command's template stand for. A job of a ban has the ban's values; a Start or a Stop has no address, the
/// family of its lane and zeros.
#[derive(Debug, Drop, PartialEq, Eq)]
pub struct Fill {
    /// `<ip>`: the address, printed; nothing where there is none.
    pub ip: Option<Addr>,
    /// `<family>`: `inet6` where it is Inet6, else `inet4`.
    pub family: Family,
    /// `<failures>`: how many failures led to the ban.
    pub failures: u32,
    /// `<time>`: when the ban began, in seconds since 1970.
    pub time: u64,
    /// `<bantime>`: how many seconds it lasts, or -1 where it never ends.
    pub bantime: i64,
    /// `<bancount>`: how many bans of the address were over when it began.
    pub bancount: u32,
    /// `<matches>`: the lines that led to it.
    pub matches: Text,
}
