//! The addresses that a jail never bans.
ghost use Rattle.std.specs.Prelude.{◌≡◌, IfOk};
ghost use Rattle.jail_conf.specs.Jails.{never_banned, ignored_of};
ghost use Rattle.jail_conf.specs.Then.{Gives};

use crate::addresses::Addresses;
use crate::choices::Boolean;
use crate::conf_error::ConfFail;
use crate::source::Source;
use f2b_base::{Addr, Cidr, NoMemory, Seq};
use std::alloc::Global;

/// Those that are listed, and with `own` the host's own: the loopback and these.
fn never_banned(listed: Seq<Cidr>, own: bool, addresses: &[Cidr]) -> Result<Seq<Cidr>, NoMemory>
    ensures { IfOk result (λ all. all ≡ never_banned listed own addresses.now) }
{
    let mut all = listed;
    if !own {
        return Ok(all);
    }
    all.push(Cidr {
        base: Addr::V4(0x7f00_0000),
        bits: 8,
    })?;
    all.push(Cidr {
        base: Addr::V6(1),
        bits: 128,
    })?;
    for mask in addresses {
        all.push(*mask)?;
    }
    Ok(all)
}

/// The addresses that a jail never bans.
pub(crate) fn ignored_of(alloc: Global, jail: &Source) -> Result<Seq<Cidr>, ConfFail>
    ensures { Gives (ignored_of jail.now) result }
{
    let own = jail.item(alloc, "ignoreself", &Boolean, true)?;
    let listed = jail.list(alloc, "ignoreip", &Addresses)?;
    let addresses = jail.list(alloc, "selfaddresses", &Addresses)?;
    let all = never_banned(listed, own, addresses.as_slice())?;
    Ok(all)
}
