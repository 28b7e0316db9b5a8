//! States of jails that have more than the usual items, and of one whose name is asked for.
ghost use Rattle.std.specs.Prelude.{◌≡◌, [], codes, IfOk};
ghost use Rattle.f2b_base.specs.Limits.{default_purge};
ghost use Rattle.f2b_base.specs.declared.input.What.TheVariants as what;
ghost use Rattle.f2b_model.specs.Bounds.{IsBounded, IsBoundedWhat};
ghost use Rattle.f2b_model.specs.Sound.{IsFitWhat};
ghost use Rattle.reply_rows.specs.States.{AreOfKinds};

use crate::state::{OF_IPV6, SEVEN, ban, bare, take};
use f2b_base::{
    ActionDef, DEFAULT_PURGE, DateSpec, Defs, Family, JailDef, NoMemory, Seq, Text, What,
};
use jail_core::Core;
use std::alloc::Global;

/// An action without commands.
fn action(alloc: Global, name: &str, family: Family) -> Result<ActionDef, NoMemory>
    ensures name { IfOk result (λ action. action.name ≡ name.now) }
    ensures family { IfOk result (λ action. action.family ≡ family) }
{
    Ok(ActionDef {
        name: Text::from_str(alloc, name)?,
        family,
        start: Text::new(alloc),
        stop: Text::new(alloc),
        ban: Text::new(alloc),
        unban: Text::new(alloc),
        check: Text::new(alloc),
        timeout: 60,
    })
}

/// Two actions, of which the first has commands of its own for each family.
fn actions(alloc: Global) -> Result<Seq<ActionDef>, NoMemory>
    ensures { IfOk result AreOfKinds }
{
    let mut actions = Seq::new(alloc);
    actions.push(action(alloc, "nftables", Family::Inet4)?)?;
    actions.push(action(alloc, "nftables", Family::Inet6)?)?;
    actions.push(action(alloc, "mail", Family::Both)?)?;
    Ok(actions)
}

fn ignored_lines(alloc: Global) -> Result<Seq<Text>, NoMemory> {
    let mut lines = Seq::new(alloc);
    lines.push(Text::from_str(alloc, "^from <HOST> at home$")?)?;
    lines.push(Text::from_str(alloc, "^no$")?)?;
    Ok(lines)
}

/// A jail with lines that are ignored, dates by a pattern, two actions and bans that grow.
fn detailed(alloc: Global) -> Result<JailDef, NoMemory>
    ensures bounded { IfOk result IsBounded }
    ensures name { IfOk result (λ d. d.name ≡ codes "sshd") }
    ensures watches { IfOk result (λ d. d.watches ≡ []) }
    ensures actions { IfOk result (λ d. AreOfKinds d.actions) }
{
    let mut jail = bare(alloc, "sshd")?;
    jail.ignore_lines = ignored_lines(alloc)?;
    jail.date = DateSpec::AnchoredPattern(Text::from_str(alloc, "%Y-%m-%d")?);
    jail.maxmatches = 5;
    jail.rule.increment = true;
    jail.actions = actions(alloc)?;
    Ok(jail)
}

/// A configuration of these jails.
fn configuration(jails: Seq<JailDef>) -> What
    ensures { result ≡ what.Config (record { purge = default_purge; jails = jails }) }
{
    What::Config {
        defs: Defs {
            purge: DEFAULT_PURGE,
            jails,
        },
    }
}

fn two_jails(alloc: Global) -> Result<What, NoMemory>
    ensures fit { IfOk result IsFitWhat }
    ensures bounded { IfOk result IsBoundedWhat }
{
    let mut jails = Seq::new(alloc);
    jails.push(detailed(alloc)?)?;
    jails.push(bare(alloc, "--all")?)?;
    Ok(configuration(jails))
}

/// Two jails at 1000, of which one has the name by which all are asked for.
pub(crate) fn named_all(alloc: Global) -> Result<Core, NoMemory> {
    take(Core::empty(alloc), 1000, two_jails(alloc)?)
}

/// The same with two bans, of which one never ends.
pub(crate) fn lasting(alloc: Global) -> Result<Core, NoMemory> {
    let core = ban(alloc, named_all(alloc)?, "sshd", SEVEN)?;
    let jail = Text::from_str(alloc, "sshd")?;
    let core = take(core, 1200, What::Bantime { jail, secs: -1 })?;
    ban(alloc, core, "sshd", OF_IPV6)
}
