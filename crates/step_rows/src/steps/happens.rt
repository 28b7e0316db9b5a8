//! What happens to a core, as rows say it, and the inputs that it is. All of them can be stored.
ghost use Rattle.std.specs.Prelude.{IfOk};
ghost use Rattle.f2b_base.specs.Addresses.{IsAddr};
ghost use Rattle.f2b_model.specs.Bounds.{IsTakenInput};
ghost use Rattle.f2b_model.specs.Storable.{IsStorableInput, IsStorableWhat};

use crate::steps::values::{configuration, failure, jail, one, reading};
use f2b_base::{Addr, Input, KEPT_LINE_BYTES, NoMemory, Outcome, What};
use std::alloc::Global;

/// An address of a test.
#[derive(Clone, Copy)]
pub(crate) enum Who {
    /// 192.0.2.7.
    Seven,
    /// 192.0.2.8.
    Eight,
    /// 0.0.0.1.
    First,
    /// 2001:db8::1.
    OfIpv6,
}

/// The address itself.
pub(crate) fn addr(who: Who) -> Addr
    ensures { IsAddr result }
{
    match who {
        Who::Seven => Addr::V4(0xc000_0207),
        Who::Eight => Addr::V4(0xc000_0208),
        Who::First => Addr::V4(1),
        Who::OfIpv6 => Addr::V6(0x2001_0db8_0000_0000_0000_0000_0000_0001),
    }
}

/// What happens to a core.
#[derive(Clone, Copy)]
pub(crate) enum Happens {
    /// A configuration is taken, with a command that bans and a check, and a ban shows so many lines, at most 1000.
    Configures(&'static str, &'static str, u64),
    /// The log is read to a place, and a failure of an address of this time with this line is found.
    Fails(Who, u32, &'static str),
    /// An address is banned by command.
    Bans(Who),
    /// An address is unbanned by command.
    Unbans(Who),
    /// All addresses are.
    UnbansAll,
    /// The jail's logs are not looked at any more.
    Idles,
    /// A try of a job ends with a status.
    Ends(u32, i32),
    /// The check of a job ends with status 1.
    CheckFails(u32),
    /// Time passes.
    Ticks,
    /// The server stops.
    Stops,
}

/// An address fails with a line, which a test has no longer than it is kept.
fn failing(alloc: Global, addr: Addr, time: u32, line: &str) -> Result<What, NoMemory>
    requires { IsAddr addr }
    ensures { IfOk result IsStorableWhat }
{
    if line.len() > KEPT_LINE_BYTES {
        return Ok(What::Tick);
    }
    let failure = failure(alloc, addr, u64::from(time), line)?;
    let found = one(alloc, failure)?;
    reading(alloc, jail(alloc)?, time, found)
}

/// An address is banned by command.
fn banning(alloc: Global, addr: Addr) -> Result<What, NoMemory>
    requires { IsAddr addr }
    ensures { IfOk result IsStorableWhat }
{
    let addrs = one(alloc, addr)?;
    let jail = jail(alloc)?;
    Ok(What::Ban { jail, addrs })
}

/// An address is unbanned by command.
fn unbanning(alloc: Global, addr: Addr) -> Result<What, NoMemory>
    requires { IsAddr addr }
    ensures { IfOk result IsStorableWhat }
{
    let addrs = one(alloc, addr)?;
    Ok(What::Unban {
        jail: None,
        addrs: Some(addrs),
    })
}

/// The jail's logs are not looked at any more.
fn idling(alloc: Global) -> Result<What, NoMemory>
    ensures { IfOk result IsStorableWhat }
{
    let jail = jail(alloc)?;
    Ok(What::Idle { jail, idle: true })
}

/// A try of a job ended with a status.
fn ended(job: u32, status: i32) -> What
    ensures { IsStorableWhat result }
{
    What::Ended {
        job: u64::from(job),
        outcome: Outcome::Status(i64::from(status)),
    }
}

/// The check of a job ended with status 1.
fn check_failed(job: u32) -> What
    ensures { IsStorableWhat result }
{
    What::CheckFailed {
        job: u64::from(job),
        outcome: Outcome::Status(1),
    }
}

/// All bans end.
fn unbanning_all() -> What
    ensures { IsStorableWhat result }
{
    What::Unban {
        jail: None,
        addrs: None,
    }
}

/// What happens, as an input has it.
fn what(alloc: Global, happens: &Happens) -> Result<What, NoMemory>
    ensures { IfOk result IsStorableWhat }
{
    match *happens {
        Happens::Configures(ban, check, most) => configuration(alloc, ban, check, most.min(1000)),
        Happens::Fails(who, time, line) => failing(alloc, addr(who), time, line),
        Happens::Bans(who) => banning(alloc, addr(who)),
        Happens::Unbans(who) => unbanning(alloc, addr(who)),
        Happens::UnbansAll => Ok(unbanning_all()),
        Happens::Idles => idling(alloc),
        Happens::Ends(job, status) => Ok(ended(job, status)),
        Happens::CheckFails(job) => Ok(check_failed(job)),
        Happens::Ticks => Ok(What::Tick),
        Happens::Stops => Ok(What::Stop),
    }
}

/// What happened, and when.
#[tactic(auto, using(f2b_model::proofs::TakenLemmas::storable_taken))]
fn input(secs: u32, what: What) -> Input
    requires { IsStorableWhat what }
    ensures taken { IsTakenInput result }
    ensures storable { IsStorableInput result }
{
    Input {
        secs: u64::from(secs),
        word: 0,
        what,
    }
}

/// The input that something is which happens at a second.
pub(crate) fn input_of(alloc: Global, secs: u32, happens: &Happens) -> Result<Input, NoMemory>
    ensures taken { IfOk result IsTakenInput }
    ensures storable { IfOk result IsStorableInput }
{
    let what = what(alloc, happens)?;
    Ok(input(secs, what))
}
