//! What happens to a server.

use crate::addr::{Addr, Cidr};
use crate::ban::Failure;
use crate::jail::{Defs, Place};
use crate::job::Outcome;
use crate::memory::NoMemory;
use crate::plain::Plain;
use crate::seq::Seq;
use crate::text::Text;

/// What happened. Where the jail, the path or the job that it names is not there, nothing did.
#[derive(Clone, Debug, Drop, PartialEq, Eq)]
pub enum What {
    /// Time passed.
    Tick,
    /// A log was followed to this place, and these failures were found in what was read.
    Read {
        jail: Text,
        path: Text,
        place: Place,
        found: Seq<Failure>,
    },
    /// A try of a job ended.
    Ended {
        job: u64,
        outcome: Outcome,
    },
    /// A configuration was taken.
    Config {
        defs: Defs,
    },
    /// A stop was asked for.
    Stop,
    /// Addresses are banned by command. They are distinct.
    Ban {
        jail: Text,
        addrs: Seq<Addr>,
    },
    /// Bans are ended by command: in one jail or all, of these addresses or all.
    Unban {
        jail: Option<Text>,
        addrs: Option<Seq<Addr>>,
    },
    /// A failure is counted by command.
    Attempt {
        jail: Text,
        addr: Addr,
    },
    /// A mask is added to the addresses that are never banned, or taken out.
    Ignore {
        jail: Text,
        cidr: Cidr,
        add: bool,
    },
    Findtime {
        jail: Text,
        secs: u64,
    },
    Bantime {
        jail: Text,
        secs: i64,
    },
    Maxretry {
        jail: Text,
        number: u64,
    },
    Idle {
        jail: Text,
        idle: bool,
    },
    /// The check of a job's lane failed, before a try of the job.
    CheckFailed {
        job: u64,
        outcome: Outcome,
    },
}

/// What happened, and when.
#[derive(Clone, Debug, Drop, PartialEq, Eq)]
pub struct Input {
    /// In seconds since 1970, below 2^40.
    pub secs: u64,
    /// The word of the last clock reading.
    pub word: u64,
    pub what: What,
}

impl Plain for What {
    fn copy(&self) -> Result<What, NoMemory> {
        match self {
            What::Tick => Ok(What::Tick),
            What::Read {
                jail,
                path,
                place,
                found,
            } => Ok(What::Read {
                jail: jail.copy()?,
                path: path.copy()?,
                place: place.copy()?,
                found: found.copy()?,
            }),
            What::Ended { job, outcome } => Ok(What::Ended {
                job: *job,
                outcome: *outcome,
            }),
            What::Config { defs } => Ok(What::Config { defs: defs.copy()? }),
            What::Stop => Ok(What::Stop),
            What::Ban { jail, addrs } => Ok(What::Ban {
                jail: jail.copy()?,
                addrs: addrs.copy()?,
            }),
            What::Unban { jail, addrs } => Ok(What::Unban {
                jail: jail.copy()?,
                addrs: addrs.copy()?,
            }),
            What::Attempt { jail, addr } => Ok(What::Attempt {
                jail: jail.copy()?,
                addr: *addr,
            }),
            What::Ignore { jail, cidr, add } => Ok(What::Ignore {
                jail: jail.copy()?,
                cidr: *cidr,
                add: *add,
            }),
            What::Findtime { jail, secs } => Ok(What::Findtime {
                jail: jail.copy()?,
                secs: *secs,
            }),
            What::Bantime { jail, secs } => Ok(What::Bantime {
                jail: jail.copy()?,
                secs: *secs,
            }),
            What::Maxretry { jail, number } => Ok(What::Maxretry {
                jail: jail.copy()?,
                number: *number,
            }),
            What::Idle { jail, idle } => Ok(What::Idle {
                jail: jail.copy()?,
                idle: *idle,
            }),
            What::CheckFailed { job, outcome } => Ok(What::CheckFailed {
                job: *job,
                outcome: *outcome,
            }),
        }
    }
}

impl Plain for Input {
    fn copy(&self) -> Result<Input, NoMemory> {
        Ok(Input {
            secs: self.secs,
            word: self.word,
            what: self.what.copy()?,
        })
    }
}
