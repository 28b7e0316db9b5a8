//! The states that requests are asked of.
ghost use Rattle.std.specs.Prelude.{◌≡◌, [], codes, length, IfOk};
ghost use Rattle.f2b_base.specs.Span.{IsRule};
ghost use Rattle.f2b_model.specs.Bounds.{IsBounded, IsBoundedWhat, IsTakenInput};
ghost use Rattle.f2b_model.specs.Sound.{IsFitWhat};
ghost use Rattle.reply_rows.specs.States.{AreApart};

use f2b_base::{
    Addr, BanRule, Cidr, DEFAULT_PURGE, DateSpec, Defs, Input, JailDef, NoMemory, Seq, Text,
    WatchDef, What,
};
use jail_core::Core;
use std::alloc::Global;

/// 192.0.2.7.
pub(crate) const SEVEN: Addr = Addr::V4(0xc000_0207);

/// 192.0.2.8.
pub(crate) const EIGHT: Addr = Addr::V4(0xc000_0208);

/// 192.0.2.9.
pub(crate) const NINE: Addr = Addr::V4(0xc000_0209);

/// 2001:db8::1.
pub(crate) const OF_IPV6: Addr = Addr::V6(0x2001_0db8_0000_0000_0000_0000_0000_0001);

/// Ten minutes for each ban.
fn rule(alloc: Global) -> BanRule
    ensures { IsRule result }
{
    BanRule {
        base: 600,
        increment: false,
        factor: 1000,
        multipliers: Seq::new(alloc),
        maxtime: 5000,
        rndtime: 0,
    }
}

/// A jail that has no logs, no patterns and no masks.
pub(crate) fn bare(alloc: Global, name: &str) -> Result<JailDef, NoMemory>
    ensures bounded { IfOk result IsBounded }
    ensures name { IfOk result (λ d. d.name ≡ name.now) }
    ensures watches { IfOk result (λ d. d.watches ≡ []) }
    ensures actions { IfOk result (λ d. d.actions ≡ []) }
{
    Ok(JailDef {
        name: Text::from_str(alloc, name)?,
        watches: Seq::new(alloc),
        zone: 0,
        date: DateSpec::Default,
        pref: None,
        fail: Seq::new(alloc),
        ignore_lines: Seq::new(alloc),
        ignore: Seq::new(alloc),
        findtime: 600,
        maxretry: 3,
        maxmatches: 0,
        rule: rule(alloc),
        actions: Seq::new(alloc),
    })
}

/// The log of a path.
fn log(alloc: Global, path: &str) -> Result<WatchDef, NoMemory>
    ensures { IfOk result (λ log. log.path ≡ path.now) }
{
    Ok(WatchDef {
        path: Text::from_str(alloc, path)?,
        tail: true,
    })
}

/// Two logs.
fn logs(alloc: Global) -> Result<Seq<WatchDef>, NoMemory>
    ensures { IfOk result AreApart }
{
    let mut logs = Seq::new(alloc);
    logs.push(log(alloc, "/var/log/auth.log")?)?;
    logs.push(log(alloc, "/var/log/a b.log")?)?;
    Ok(logs)
}

/// A jail that has two logs, two patterns and three masks.
fn full(alloc: Global) -> Result<JailDef, NoMemory>
    ensures bounded { IfOk result IsBounded }
    ensures name { IfOk result (λ d. d.name ≡ codes "sshd") }
    ensures watches { IfOk result (λ d. AreApart d.watches) }
    ensures actions { IfOk result (λ d. d.actions ≡ []) }
{
    let mut jail = bare(alloc, "sshd")?;
    jail.watches = logs(alloc)?;
    jail.fail.push(Text::from_str(alloc, "^x <HOST>$")?)?;
    jail.fail.push(Text::from_str(alloc, "^y <HOST>$")?)?;
    jail.ignore.push(Cidr {
        base: Addr::V4(0x0a00_0000),
        bits: 8,
    })?;
    jail.ignore.push(Cidr {
        base: SEVEN,
        bits: 32,
    })?;
    jail.ignore.push(Cidr {
        base: OF_IPV6,
        bits: 128,
    })?;
    Ok(jail)
}

/// A configuration of two jails.
fn configuration(alloc: Global) -> Result<What, NoMemory>
    ensures fit { IfOk result IsFitWhat }
    ensures bounded { IfOk result IsBoundedWhat }
{
    let mut jails = Seq::new(alloc);
    jails.push(full(alloc)?)?;
    jails.push(bare(alloc, "web")?)?;
    Ok(What::Config {
        defs: Defs {
            purge: DEFAULT_PURGE,
            jails,
        },
    })
}

/// What happened, and when.
fn input(secs: u32, what: What) -> Input
    requires fit { IsFitWhat what }
    requires bounded { IsBoundedWhat what }
    ensures { IsTakenInput result }
{
    Input {
        secs: u64::from(secs),
        word: 0,
        what,
    }
}

pub(crate) fn take(core: Core, secs: u32, what: What) -> Result<Core, NoMemory>
    requires fit { IsFitWhat what }
    requires bounded { IsBoundedWhat what }
{
    let (core, _) = core.take(&input(secs, what))?;
    Ok(core)
}

/// Two jails in which nothing happened, at 1000.
pub(crate) fn quiet(alloc: Global) -> Result<Core, NoMemory> {
    take(Core::empty(alloc), 1000, configuration(alloc)?)
}

pub(crate) fn ban(alloc: Global, core: Core, jail: &str, addr: Addr) -> Result<Core, NoMemory> {
    let mut addrs = Seq::new(alloc);
    addrs.push(addr)?;
    let jail = Text::from_str(alloc, jail)?;
    take(core, 1100, What::Ban { jail, addrs })
}

fn fail(alloc: Global, core: Core, secs: u32, addr: Addr) -> Result<Core, NoMemory> {
    let jail = Text::from_str(alloc, "sshd")?;
    take(core, secs, What::Attempt { jail, addr })
}

/// Two jails with two bans and one, and two addresses that failed in the first, of which one failed twice.
pub(crate) fn busy(alloc: Global) -> Result<Core, NoMemory> {
    let core = quiet(alloc)?;
    let core = ban(alloc, core, "sshd", OF_IPV6)?;
    let core = ban(alloc, core, "web", SEVEN)?;
    let core = ban(alloc, core, "sshd", SEVEN)?;
    let core = fail(alloc, core, 1200, EIGHT)?;
    let core = fail(alloc, core, 1300, EIGHT)?;
    fail(alloc, core, 1400, NINE)
}

/// The same once a stop was asked for.
pub(crate) fn stopping(alloc: Global) -> Result<Core, NoMemory> {
    take(busy(alloc)?, 1400, What::Stop)
}
