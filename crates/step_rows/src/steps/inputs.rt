//! A source of pseudo-random inputs of all kinds, for two jails and lanes of both families with checks.
ghost use Rattle.std.specs.Prelude.{◌≡◌, ◌+◌, ◌≤◌, ◌<◌, false, bytes_eq, codes, length, IfOk};
ghost use Rattle.f2b_base.specs.Addresses.{IsAddr};
ghost use Rattle.f2b_base.specs.Limits.{last_moment};
ghost use Rattle.f2b_model.specs.Lists.{AllOf, AreDistinct};
ghost use Rattle.f2b_model.specs.Sound.{same_kind};
ghost use Rattle.f2b_model.specs.Storable.{patterns_of, IsJailName, IsStorableAction, IsStorableDef, IsStorableFailure, IsStorableInput, IsStorableOutcome, IsStorableWhat};
ghost use Rattle.f2b_model.specs.Bounds.{IsTakenInput};

use crate::steps::values::{
    ADD, action, configuration_of, configured, definition, failure, one, one_action, reading, two,
};
use f2b_base::{
    ActionDef, Addr, Cidr, Failure, Family, Input, JailDef, LAST_MOMENT, NoMemory, Outcome, Seq,
    Text, What,
};
use jail_core::Core;
use std::alloc::Global;

const CHECK: &str = "test -e /x";

/// A source of inputs.
#[derive(Drop)]
pub(crate) struct Source {
    alloc: Global,
    number: u64,
    clock: u64,
}

/// One of eight addresses of two families.
fn address(number: u64) -> Addr
    ensures { IsAddr result }
{
    match number % 8 {
        0 => Addr::V4(0xc612_0000),
        1 => Addr::V4(0xc612_0001),
        2 => Addr::V4(0xc612_0002),
        3 => Addr::V4(0xc612_0003),
        4 => Addr::V6(0x2001_0db8_0000_0000_0000_0000_0000_0000),
        5 => Addr::V6(0x2001_0db8_0000_0000_0000_0000_0000_0001),
        6 => Addr::V6(0x2001_0db8_0000_0000_0000_0000_0000_0002),
        _ => Addr::V6(0x2001_0db8_0000_0000_0000_0000_0000_0003),
    }
}

/// How a job or its check ended: mostly well.
fn outcome(number: u64) -> Outcome
    ensures { IsStorableOutcome result }
{
    match number % 8 {
        0 => Outcome::Status(1),
        1 => Outcome::NotStarted,
        2 => Outcome::TimedOut,
        _ => Outcome::Status(0),
    }
}

/// An action for each family, of one name.
fn two_families(alloc: Global, ban: &str) -> Result<Seq<ActionDef>, NoMemory>
    ensures storable { IfOk result (AllOf IsStorableAction) }
    ensures kinds { IfOk result (AreDistinct same_kind) }
    ensures few { IfOk result (λ actions. length actions ≤ 32) }
{
    let of_ipv4 = action(alloc, Family::Inet4, ban, CHECK)?;
    let of_ipv6 = action(alloc, Family::Inet6, ban, CHECK)?;
    let actions = two(alloc, of_ipv4, of_ipv6)?;
    Ok(actions)
}

/// The jail `sshd`, which shows lines.
fn sshd(alloc: Global, ban: &str) -> Result<JailDef, NoMemory>
    ensures storable { IfOk result IsStorableDef }
    ensures name { IfOk result (λ d. d.name ≡ codes "sshd") }
    ensures patterns { IfOk result (λ d. patterns_of d ≡ 0) }
{
    let actions = two_families(alloc, ban)?;
    definition(alloc, "sshd", actions, 5)
}

/// The jail `web`, which shows none.
fn web(alloc: Global) -> Result<JailDef, NoMemory>
    ensures storable { IfOk result IsStorableDef }
    ensures name { IfOk result (λ d. d.name ≡ codes "web") }
    ensures patterns { IfOk result (λ d. patterns_of d ≡ 0) }
{
    let actions = one_action(alloc, ADD, CHECK)?;
    definition(alloc, "web", actions, 0)
}

/// A configuration of two jails is taken.
fn configuration_of_two(alloc: Global, one: JailDef, other: JailDef) -> Result<What, NoMemory>
    requires one { IsStorableDef one }
    requires other { IsStorableDef other }
    requires names { bytes_eq one.name other.name ≡ false }
    requires patterns { patterns_of one + patterns_of other ≡ 0 }
    ensures { IfOk result IsStorableWhat }
{
    let jails = two(alloc, one, other)?;
    Ok(configured(jails))
}

/// A configuration of `sshd` is taken, and of `web` too or not.
fn jails(alloc: Global, ban: &str, both: bool) -> Result<What, NoMemory>
    ensures { IfOk result IsStorableWhat }
{
    let sshd = sshd(alloc, ban)?;
    if both {
        configuration_of_two(alloc, sshd, web(alloc)?)
    } else {
        configuration_of(alloc, sshd)
    }
}

/// The job that may start.
fn due(core: &Core, secs: u64) -> Option<u64> {
    let job = core.lanes().next_due(secs, &[])?;
    Some(job.id)
}

impl Source {
    /// A source that begins at a reading of the clock.
    pub(crate) fn new(alloc: Global, seed: u64, clock: u64) -> Source {
        Source {
            alloc,
            number: seed,
            clock,
        }
    }

    /// The next number of a linear generator, below a limit.
    fn below(&mut self, limit: u64) -> u64
        requires { 0 < limit }
        ensures { result < limit }
    {
        self.number = self
            .number
            .wrapping_mul(6_364_136_223_846_793_005)
            .wrapping_add(1_442_695_040_888_963_407);
        (self.number >> 32) % limit
    }

    /// The next reading of the clock: up to half a minute later, and at times one of before.
    fn secs(&mut self) -> u64
        ensures { result ≤ last_moment }
    {
        let forward = self.below(31);
        let back = if self.below(12) == 0 { 40 } else { 0 };
        self.clock = self.clock.saturating_add(forward);
        self.clock.saturating_sub(back).min(LAST_MOMENT)
    }

    fn addr(&mut self) -> Addr
        ensures { IsAddr result }
    {
        address(self.below(8))
    }

    /// The name of a jail, at times of one that is never there.
    fn jail(&mut self) -> Result<Text, NoMemory>
        ensures { IfOk result IsJailName }
    {
        match self.below(16) {
            0 => Text::from_str(self.alloc, "ftp"),
            1..=7 => Text::from_str(self.alloc, "web"),
            _ => Text::from_str(self.alloc, "sshd"),
        }
    }

    /// A failure of an address, at most ten minutes old or so.
    fn failure(&mut self, secs: u64) -> Result<Failure, NoMemory>
        requires { secs ≤ last_moment }
        ensures { IfOk result IsStorableFailure }
    {
        let addr = self.addr();
        let time = secs.saturating_sub(self.below(620));
        failure(self.alloc, addr, time, "sshd[811]: failed")
    }

    fn found(&mut self, secs: u64) -> Result<Seq<Failure>, NoMemory>
        requires { secs ≤ last_moment }
        ensures { IfOk result (AllOf IsStorableFailure) }
    {
        let first = self.failure(secs)?;
        let second = self.failure(secs)?;
        let found = two(self.alloc, first, second)?;
        Ok(found)
    }

    fn read(&mut self, secs: u64) -> Result<What, NoMemory>
        requires { secs ≤ last_moment }
        ensures { IfOk result IsStorableWhat }
    {
        let found = self.found(secs)?;
        let jail = self.jail()?;
        reading(self.alloc, jail, self.below(1000) as u32, found)
    }

    /// The end of a try of the job that may start.
    fn ended(&mut self, core: &Core, secs: u64) -> What
        ensures { IsStorableWhat result }
    {
        match due(core, secs) {
            Some(job) => What::Ended {
                job,
                outcome: outcome(self.below(32)),
            },
            None => What::Tick,
        }
    }

    /// A check that failed before a try of that job.
    fn check_failed(&mut self, core: &Core, secs: u64) -> What
        ensures { IsStorableWhat result }
    {
        match due(core, secs) {
            Some(job) => What::CheckFailed {
                job,
                outcome: outcome(self.below(3)),
            },
            None => What::Tick,
        }
    }

    fn configuration(&mut self) -> Result<What, NoMemory>
        ensures { IfOk result IsStorableWhat }
    {
        let ban = if self.below(2) == 0 { "drop <ip>" } else { ADD };
        jails(self.alloc, ban, self.below(4) != 0)
    }

    fn ban(&mut self) -> Result<What, NoMemory>
        ensures { IfOk result IsStorableWhat }
    {
        let addrs = one(self.alloc, self.addr())?;
        let jail = self.jail()?;
        Ok(What::Ban { jail, addrs })
    }

    /// All addresses are unbanned in a jail.
    fn unban_all(&mut self) -> Result<What, NoMemory>
        ensures { IfOk result IsStorableWhat }
    {
        let jail = self.jail()?;
        Ok(What::Unban {
            jail: Some(jail),
            addrs: None,
        })
    }

    /// An address is unbanned in all jails, or all are in one.
    fn unban(&mut self) -> Result<What, NoMemory>
        ensures { IfOk result IsStorableWhat }
    {
        if self.below(8) == 0 {
            return self.unban_all();
        }
        let addrs = one(self.alloc, self.addr())?;
        Ok(What::Unban {
            jail: None,
            addrs: Some(addrs),
        })
    }

    /// Another limit or list of a jail.
    fn setting(&mut self) -> Result<What, NoMemory>
        ensures { IfOk result IsStorableWhat }
    {
        let jail = self.jail()?;
        match self.below(5) {
            0 => Ok(What::Findtime { jail, secs: 300 }),
            1 => Ok(What::Maxretry { jail, number: 2 }),
            2 => Ok(What::Bantime { jail, secs: 200 }),
            3 => Ok(What::Bantime { jail, secs: -1 }),
            _ => Ok(What::Ignore {
                jail,
                cidr: Cidr {
                    base: Addr::V4(0xc612_0000),
                    bits: 24,
                },
                add: true,
            }),
        }
    }

    /// A try of an address in a jail.
    fn attempt(&mut self) -> Result<What, NoMemory>
        ensures { IfOk result IsStorableWhat }
    {
        let jail = self.jail()?;
        Ok(What::Attempt {
            jail,
            addr: self.addr(),
        })
    }

    fn idle(&mut self) -> Result<What, NoMemory>
        ensures { IfOk result IsStorableWhat }
    {
        let jail = self.jail()?;
        Ok(What::Idle { jail, idle: true })
    }

    /// One of the kinds by which a user says something of a jail.
    fn command(&mut self) -> Result<What, NoMemory>
        ensures { IfOk result IsStorableWhat }
    {
        match self.below(16) {
            0..=5 => self.ban(),
            6..=9 => self.unban(),
            10..=12 => self.attempt(),
            13 => self.idle(),
            _ => self.setting(),
        }
    }

    fn what(&mut self, core: &Core, secs: u64) -> Result<What, NoMemory>
        requires { secs ≤ last_moment }
        ensures { IfOk result IsStorableWhat }
    {
        match self.below(64) {
            0 => Ok(What::Stop),
            1 | 2 => self.configuration(),
            3 | 4 => Ok(What::Tick),
            5..=8 => Ok(self.check_failed(core, secs)),
            9..=36 => Ok(self.ended(core, secs)),
            37..=46 => self.command(),
            _ => self.read(secs),
        }
    }

    /// The next input for the core.
    #[tactic(auto, using(f2b_model::proofs::TakenLemmas::storable_taken))]
    pub(crate) fn next_input(&mut self, core: &Core) -> Result<Input, NoMemory>
        ensures taken { IfOk result IsTakenInput }
        ensures storable { IfOk result IsStorableInput }
    {
        let secs = self.secs();
        Ok(Input {
            secs,
            word: self.below(1 << 31),
            what: self.what(core, secs)?,
        })
    }
}
