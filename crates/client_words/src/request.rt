//! What a client asks.

use f2b_base::{Addr, Cidr, Seq, Text};

/// A request, with the values that its words spell.
#[derive(Debug, Drop, PartialEq, Eq)]
pub enum Request {
    Ping,
    /// Which version the server has.
    Version,
    Status,
    /// Of the jail that has the name `--all`, or of each jail where there is none.
    StatusAll,
    StatusOf {
        jail: Text,
    },
    /// Who is banned, jail by jail.
    Banned,
    /// Which jails hold each of these addresses.
    Holders {
        addrs: Seq<Addr>,
    },
    /// Ends all bans.
    UnbanAll,
    /// Ends the bans of these addresses in all jails.
    Unban {
        addrs: Seq<Addr>,
    },
    Reload,
    Stop,
    SetBanip {
        jail: Text,
        addrs: Seq<Addr>,
    },
    SetUnbanip {
        jail: Text,
        addrs: Seq<Addr>,
    },
    /// One failure of the address, now.
    SetAttempt {
        jail: Text,
        addr: Addr,
    },
    AddIgnore {
        jail: Text,
        cidr: Cidr,
    },
    DelIgnore {
        jail: Text,
        cidr: Cidr,
    },
    SetFindtime {
        jail: Text,
        /// 1 to 3,153,600,000.
        secs: u64,
    },
    SetBantime {
        jail: Text,
        /// Not 0. A negative one never ends.
        secs: i64,
    },
    SetMaxretry {
        jail: Text,
        /// 1 to 100,000.
        number: u64,
    },
    SetIdle {
        jail: Text,
        idle: bool,
    },
    GetBanip {
        jail: Text,
    },
    GetFindtime {
        jail: Text,
    },
    GetBantime {
        jail: Text,
    },
    GetMaxretry {
        jail: Text,
    },
    GetIgnoreip {
        jail: Text,
    },
    GetLogpath {
        jail: Text,
    },
    GetFailregex {
        jail: Text,
    },
    /// Who is banned, since when and until when.
    GetBantimes {
        jail: Text,
    },
    GetIgnoreregex {
        jail: Text,
    },
    GetDatepattern {
        jail: Text,
    },
    GetMaxmatches {
        jail: Text,
    },
    /// Whether a further ban of an address lasts longer.
    GetIncrement {
        jail: Text,
    },
    GetActions {
        jail: Text,
    },
}
