//! What a step tells of the jails, from which lines and jobs are made.

use f2b_base::{Addr, Ban, NoMemory, Plain, Text};

/// A thing that a step did in a jail, with the jail's name.
#[derive(Debug, Drop, PartialEq, Eq)]
pub enum Happening {
    /// A failure of the address was counted.
    Counts { jail: Text, addr: Addr },
    /// A ban began. `matches` has the lines of the failures that led to it, as its commands show them.
    Begins { jail: Text, ban: Ban, matches: Text },
    /// A ban ended, by time or by command.
    Ends { jail: Text, ban: Ban },
}

impl Plain for Happening {
    fn copy(&self) -> Result<Happening, NoMemory> {
        match self {
            Happening::Counts { jail, addr } => Ok(Happening::Counts {
                jail: jail.copy()?,
                addr: *addr,
            }),
            Happening::Begins { jail, ban, matches } => Ok(Happening::Begins {
                jail: jail.copy()?,
                ban: *ban,
                matches: matches.copy()?,
            }),
            Happening::Ends { jail, ban } => Ok(Happening::Ends {
                jail: jail.copy()?,
                ban: *ban,
            }),
        }
    }
}
