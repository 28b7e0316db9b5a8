//! Values of which inputs are made. All of them can be stored.
ghost use Rattle.std.specs.Prelude.{◌≡◌, ◌≤◌, ◌∷◌, [], bytes_eq, length, map, IfOk};
ghost use Rattle.std.specs.Str.{IsUtf8};
ghost use Rattle.f2b_base.specs.Addresses.{IsAddr};
ghost use Rattle.f2b_base.specs.Limits.{kept_line_bytes, last_moment};
ghost use Rattle.f2b_base.specs.declared.jail.JailDef.{JailDef};
ghost use Rattle.f2b_base.specs.declared.jail.WatchDef.{WatchDef};
ghost use Rattle.f2b_model.specs.Lists.{AllOf, AreDistinct};
ghost use Rattle.f2b_model.specs.Sound.{same_kind};
ghost use Rattle.f2b_model.specs.Storable.{patterns_of, AreFewPatterns, IsJailName, IsStorableAction, IsStorableDef, IsStorableFailure, IsStorablePlace, IsStorableRule, IsStorableWhat};

use f2b_base::{
    ActionDef, Addr, BanRule, Bytes, DEFAULT_PURGE, DateSpec, Defs, Failure, Family, JailDef,
    NoMemory, Place, Seq, Text, WatchDef, What,
};
use std::alloc::Global;

/// The jail of most tests.
pub(crate) const JAIL: &str = "sshd";

const PATH: &str = "/var/log/auth.log";

/// The first bytes of the log.
const HEAD: &[u8; 64] = b"Mar  2 00:00:00 host sshd[1]: Server listening on 0.0.0.0 port 2";

/// The command that bans, where a test asks for no other.
pub(crate) const ADD: &str = "add <ip>";

/// A list of one item.
pub(crate) fn one<T: Drop>(alloc: Global, item: T) -> Result<Seq<T>, NoMemory>
    ensures { IfOk result (λ list. list ≡ item ∷ []) }
{
    let mut list = Seq::new(alloc);
    list.push(item)?;
    Ok(list)
}

/// A list of two.
pub(crate) fn two<T: Drop>(alloc: Global, first: T, second: T) -> Result<Seq<T>, NoMemory>
    ensures { IfOk result (λ list. list ≡ first ∷ second ∷ []) }
{
    let mut list = one(alloc, first)?;
    list.push(second)?;
    Ok(list)
}

/// A text of its own.
fn text(alloc: Global, words: &str) -> Result<Text, NoMemory>
    ensures value { IfOk result (λ text. text ≡ words.now) }
    ensures utf8 { IfOk result IsUtf8 }
{
    let text = Text::from_str(alloc, words)?;
    let _words = text.as_str();
    Ok(text)
}

/// The name of the jail.
pub(crate) fn jail(alloc: Global) -> Result<Text, NoMemory>
    ensures { IfOk result IsJailName }
{
    Text::from_str(alloc, JAIL)
}

/// Two texts.
fn two_texts(alloc: Global, first: &str, second: &str) -> Result<(Text, Text), NoMemory>
    ensures first { IfOk result (λ texts. IsUtf8 texts.0) }
    ensures second { IfOk result (λ texts. IsUtf8 texts.1) }
{
    let first = text(alloc, first)?;
    let second = text(alloc, second)?;
    Ok((first, second))
}

/// The action whose lanes start by `up`, stop by `down` and unban by `del <ip>`.
pub(crate) fn action(
    alloc: Global,
    family: Family,
    ban: &str,
    check: &str,
) -> Result<ActionDef, NoMemory>
    ensures storable { IfOk result IsStorableAction }
    ensures family { IfOk result (λ action. action.family ≡ family) }
{
    let (start, stop) = two_texts(alloc, "up", "down")?;
    let (ban, unban) = two_texts(alloc, ban, "del <ip>")?;
    let (name, check) = two_texts(alloc, "fw", check)?;
    Ok(ActionDef {
        name,
        family,
        start,
        stop,
        ban,
        unban,
        check,
        timeout: 60,
    })
}

/// So many bytes behind the first ones of the log.
fn place(alloc: Global, behind: u32) -> Result<Place, NoMemory>
    ensures { IfOk result IsStorablePlace }
{
    let head = Bytes::from_slice(alloc, HEAD)?;
    Ok(Place::Pos {
        position: 64 + u64::from(behind),
        head,
    })
}

/// A log that is followed from its end.
fn log(alloc: Global) -> Result<WatchDef, NoMemory>
    ensures { IfOk result (λ log. IsUtf8 log.path) }
{
    let path = text(alloc, PATH)?;
    Ok(WatchDef { path, tail: true })
}

/// The logs of a jail: that one.
fn logs(alloc: Global) -> Result<Seq<WatchDef>, NoMemory>
    ensures texts { IfOk result (AllOf (λ (log : WatchDef). IsUtf8 log.path)) }
    ensures few { IfOk result (λ logs. length logs ≤ 4096) }
    ensures paths { IfOk result (λ logs. AreDistinct bytes_eq (map (λ (log : WatchDef). log.path) logs)) }
{
    let logs = one(alloc, log(alloc)?)?;
    Ok(logs)
}

/// Ten minutes for each ban.
fn rule(alloc: Global) -> BanRule
    ensures { IsStorableRule result }
{
    BanRule {
        base: 600,
        increment: false,
        factor: 1000,
        multipliers: Seq::new(alloc),
        maxtime: 5000,
        rndtime: 0,
    }
}

/// A jail that bans after three failures within ten minutes, and shows so many lines.
fn definition_of(
    alloc: Global,
    name: Text,
    watches: Seq<WatchDef>,
    actions: Seq<ActionDef>,
    maxmatches: u64,
) -> JailDef
    requires name { IsJailName name }
    requires texts { AllOf (λ (log : WatchDef). IsUtf8 log.path) watches }
    requires logs { length watches ≤ 4096 }
    requires paths { AreDistinct bytes_eq (map (λ (log : WatchDef). log.path) watches) }
    requires storable { AllOf IsStorableAction actions }
    requires kinds { AreDistinct same_kind actions }
    requires few { length actions ≤ 32 }
    requires matches { maxmatches ≤ 1000 }
    ensures storable { IsStorableDef result }
    ensures name { result.name ≡ name }
    ensures patterns { patterns_of result ≡ 0 }
{
    JailDef {
        name,
        watches,
        zone: 0,
        date: DateSpec::Default,
        pref: None,
        fail: Seq::new(alloc),
        ignore_lines: Seq::new(alloc),
        ignore: Seq::new(alloc),
        findtime: 600,
        maxretry: 3,
        maxmatches,
        rule: rule(alloc),
        actions,
    }
}

/// The same, over the log.
pub(crate) fn definition(
    alloc: Global,
    name: &str,
    actions: Seq<ActionDef>,
    maxmatches: u64,
) -> Result<JailDef, NoMemory>
    requires name { IsJailName name.now }
    requires storable { AllOf IsStorableAction actions }
    requires kinds { AreDistinct same_kind actions }
    requires few { length actions ≤ 32 }
    requires matches { maxmatches ≤ 1000 }
    ensures storable { IfOk result IsStorableDef }
    ensures name { IfOk result (λ d. d.name ≡ name.now) }
    ensures patterns { IfOk result (λ d. patterns_of d ≡ 0) }
{
    let watches = logs(alloc)?;
    let name = Text::from_str(alloc, name)?;
    Ok(definition_of(alloc, name, watches, actions, maxmatches))
}

/// One action for both families, with this command that bans and this check.
pub(crate) fn one_action(alloc: Global, ban: &str, check: &str) -> Result<Seq<ActionDef>, NoMemory>
    ensures storable { IfOk result (AllOf IsStorableAction) }
    ensures kinds { IfOk result (AreDistinct same_kind) }
    ensures few { IfOk result (λ actions. length actions ≤ 32) }
{
    let actions = one(alloc, action(alloc, Family::Both, ban, check)?)?;
    Ok(actions)
}

/// A configuration of these jails is taken.
pub(crate) fn configured(jails: Seq<JailDef>) -> What
    requires storable { AllOf IsStorableDef jails }
    requires names { AreDistinct bytes_eq (map (λ (d : JailDef). d.name) jails) }
    requires few { length jails ≤ 256 }
    requires patterns { AreFewPatterns jails }
    ensures { IsStorableWhat result }
{
    What::Config {
        defs: Defs {
            purge: DEFAULT_PURGE,
            jails,
        },
    }
}

/// A configuration of one jail is taken.
pub(crate) fn configuration_of(alloc: Global, definition: JailDef) -> Result<What, NoMemory>
    requires storable { IsStorableDef definition }
    requires patterns { patterns_of definition ≡ 0 }
    ensures { IfOk result IsStorableWhat }
{
    let jails = one(alloc, definition)?;
    Ok(configured(jails))
}

/// A configuration of the jail is taken, which has one action for both families, with this command that bans and this check, and
/// shows so many lines.
pub(crate) fn configuration(
    alloc: Global,
    ban: &str,
    check: &str,
    maxmatches: u64,
) -> Result<What, NoMemory>
    requires { maxmatches ≤ 1000 }
    ensures { IfOk result IsStorableWhat }
{
    let actions = one_action(alloc, ban, check)?;
    let definition = definition(alloc, JAIL, actions, maxmatches)?;
    configuration_of(alloc, definition)
}

/// A failure of an address, with this line.
pub(crate) fn failure(alloc: Global, addr: Addr, time: u64, line: &str) -> Result<Failure, NoMemory>
    requires addr { IsAddr addr }
    requires time { time ≤ last_moment }
    requires line { length line.now ≤ kept_line_bytes }
    ensures { IfOk result IsStorableFailure }
{
    let line = text(alloc, line)?;
    Ok(Failure { addr, time, line })
}

/// The log of a jail was read to so many bytes behind its first ones, and these failures were found.
pub(crate) fn reading(
    alloc: Global,
    jail: Text,
    behind: u32,
    found: Seq<Failure>,
) -> Result<What, NoMemory>
    requires jail { IsJailName jail }
    requires found { AllOf IsStorableFailure found }
    ensures { IfOk result IsStorableWhat }
{
    let place = place(alloc, behind)?;
    let path = text(alloc, PATH)?;
    Ok(What::Read {
        jail,
        path,
        place,
        found,
    })
}
