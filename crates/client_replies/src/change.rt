//! What a request changes.
ghost use Rattle.std.specs.Prelude.{◌≡◌, List, None, Some, IfOk, IfSome, option_and_then};
ghost use Rattle.f2b_base.specs.declared.ban.Ban.{Ban};
ghost use Rattle.f2b_base.specs.declared.jail.JailDef.{JailDef};
ghost use Rattle.f2b_base.specs.declared.input.What.TheVariants as what;
ghost use Rattle.f2b_model.specs.Moves.{is_banned};
ghost use Rattle.f2b_model.specs.Storable.{IsStorable, IsStorableWhat};
ghost use Rattle.f2b_model.specs.declared.jail_now.JailNow.{JailNow};
ghost use Rattle.client_words.specs.Bounds.{IsBoundedRequest};
ghost use Rattle.client_replies.specs.Asked.{DoesAsAsked};
ghost use Rattle.client_replies.specs.Banned.{count_meant, ended, new_addrs};
ghost use Rattle.client_replies.specs.Changes.{ban_of, change_of, change_of_definition, effect, if_any, is_same, unless};
ghost use Rattle.client_replies.specs.Meant.{bans_at, definition_named};
ghost use Rattle.client_replies.specs.Refusals.{jail_in};

use crate::banned::{bans_in, count_meant, ended, whom};
use crate::known::new_addrs;
use crate::masks::has_mask;
use crate::refusal::{is_refused, named};
use client_words::Request;
use f2b_base::{Addr, Ban, Cidr, JailDef, NoMemory, Plain, Seq, Text, What};
use jail_core::Core;
use std::alloc::Global;

/// This happens, unless it is about none.
fn if_any(count: u128, happens: What) -> Option<What>
    ensures { result ≡ if_any count happens }
{
    if count == 0 { None } else { Some(happens) }
}

/// This happens, unless it is so already.
fn unless(already: bool, happens: What) -> Option<What>
    ensures { result ≡ unless already happens }
{
    if already { None } else { Some(happens) }
}

fn is_same(one: bool, other: bool) -> bool
    ensures { result ≡ is_same one other }
{
    if one { other } else { !other }
}

/// Whether one of these bans is the address's.
pub(crate) fn is_banned(addr: Addr, bans: &[Ban]) -> bool
    ensures { result ≡ is_banned addr bans.now }
{
    bans.iter().any(|ban| ban.addr.same(addr))
}

/// A mask is added to those that a jail never bans, or taken out of them.
fn ignore(jail: &Text, cidr: Cidr, add: bool) -> Result<What, NoMemory>
    ensures { IfOk result (λ happens. happens ≡ what.Ignore jail.now cidr add) }
{
    Ok(What::Ignore {
        jail: jail.copy()?,
        cidr,
        add,
    })
}

/// What changes of a definition.
fn change_of_definition(definition: &JailDef, request: &Request) -> Result<Option<What>, NoMemory>
    ensures { IfOk result (λ change. change ≡ change_of_definition definition.now request.now) }
{
    match request {
        Request::AddIgnore { jail, cidr } => Ok(unless(
            has_mask(cidr, definition.ignore.as_slice()),
            ignore(jail, *cidr, true)?,
        )),
        Request::DelIgnore { jail, cidr } => Ok(unless(
            !has_mask(cidr, definition.ignore.as_slice()),
            ignore(jail, *cidr, false)?,
        )),
        Request::SetFindtime { jail, secs } => Ok(unless(
            *secs == definition.findtime,
            What::Findtime {
                jail: jail.copy()?,
                secs: *secs,
            },
        )),
        Request::SetBantime { jail, secs } => Ok(unless(
            *secs == definition.rule.base,
            What::Bantime {
                jail: jail.copy()?,
                secs: *secs,
            },
        )),
        Request::SetMaxretry { jail, number } => Ok(unless(
            *number == definition.maxretry,
            What::Maxretry {
                jail: jail.copy()?,
                number: *number,
            },
        )),
        _ => Ok(None),
    }
}

/// What changes of the definition of the jail that a request names.
fn definition_change(core: &Core, request: &Request) -> Result<Option<What>, NoMemory>
    ensures { IfOk result (λ change. change ≡ option_and_then (λ (d : JailDef). change_of_definition d request.now) (definition_named core.now request.now)) }
{
    let Some(name) = named(request) else {
        return Ok(None);
    };
    match core.jail(name.as_str()) {
        Some(definition) => change_of_definition(definition, request),
        None => Ok(None),
    }
}

/// A ban in a jail of those who are not banned.
fn ban_change(
    alloc: Global,
    core: &Core,
    jail: &Text,
    addrs: &Seq<Addr>,
) -> Result<Option<What>, NoMemory>
    ensures { IfOk result (λ change. change ≡ option_and_then (λ (bans : List Ban). ban_of jail.now (new_addrs bans addrs.now)) (bans_at core.now jail.now)) }
{
    let Some(bans) = bans_in(core, jail)? else {
        return Ok(None);
    };
    let addrs = new_addrs(alloc, bans.as_slice(), addrs.as_slice())?;
    let count = addrs.len() as u128;
    Ok(if_any(
        count,
        What::Ban {
            jail: jail.copy()?,
            addrs,
        },
    ))
}

/// The end of the bans of these addresses in a jail.
fn unban_change(
    alloc: Global,
    core: &Core,
    jail: &Text,
    addrs: &Seq<Addr>,
) -> Result<Option<What>, NoMemory>
    ensures { IfOk result (λ change. change ≡ option_and_then (λ (bans : List Ban). if_any (count_meant (Some addrs.now) bans) (what.Unban (Some jail.now) (Some addrs.now))) (bans_at core.now jail.now)) }
{
    let Some(bans) = bans_in(core, jail)? else {
        return Ok(None);
    };
    let addrs = Some(addrs.copy()?);
    let count = count_meant(&whom(alloc, &addrs)?, bans.as_slice());
    Ok(if_any(
        count as u128,
        What::Unban {
            jail: Some(jail.copy()?),
            addrs,
        },
    ))
}

/// The end of the bans of these addresses in all jails, or of all bans.
fn unban_everywhere(
    alloc: Global,
    core: &Core,
    addrs: Option<Seq<Addr>>,
) -> Result<Option<What>, NoMemory>
    ensures { IfOk result (λ change. change ≡ if_any (ended addrs core.now) (what.Unban None addrs)) }
{
    let count = ended(alloc, core, &addrs)?;
    Ok(if_any(count, What::Unban { jail: None, addrs }))
}

/// One failure of an address in a jail, where it is not banned.
fn attempt_change(core: &Core, jail: &Text, addr: Addr) -> Result<Option<What>, NoMemory>
    ensures { IfOk result (λ change. change ≡ option_and_then (λ (bans : List Ban). unless (is_banned addr bans) (what.Attempt jail.now addr)) (bans_at core.now jail.now)) }
{
    let Some(bans) = bans_in(core, jail)? else {
        return Ok(None);
    };
    Ok(unless(
        is_banned(addr, bans.as_slice()),
        What::Attempt {
            jail: jail.copy()?,
            addr,
        },
    ))
}

/// Whether the logs of a jail are looked at.
fn idle_change(core: &Core, jail: &Text, idle: bool) -> Result<Option<What>, NoMemory>
    ensures { IfOk result (λ change. change ≡ option_and_then (λ (j : JailNow). unless (is_same idle j.idle) (what.Idle jail.now idle)) (jail_in core.now jail.now)) }
{
    match core.totals(jail.as_str()) {
        Some(totals) => Ok(unless(
            is_same(idle, totals.idle),
            What::Idle {
                jail: jail.copy()?,
                idle,
            },
        )),
        None => Ok(None),
    }
}

/// What changes in all jails, or in the one that a request names.
#[tactic(auto, using(crate::proofs::BannedLemmas::through))]
fn change_of(alloc: Global, core: &Core, request: &Request) -> Result<Option<What>, NoMemory>
    ensures { IfOk result (λ change. change ≡ change_of core.now request.now) }
{
    match request {
        Request::UnbanAll => unban_everywhere(alloc, core, None),
        Request::Unban { addrs } => unban_everywhere(alloc, core, Some(addrs.copy()?)),
        Request::Stop => Ok(unless(core.is_stopping(), What::Stop)),
        Request::SetBanip { jail, addrs } => ban_change(alloc, core, jail, addrs),
        Request::SetUnbanip { jail, addrs } => unban_change(alloc, core, jail, addrs),
        Request::SetAttempt { jail, addr } => attempt_change(core, jail, *addr),
        Request::SetIdle { jail, idle } => idle_change(core, jail, *idle),
        _ => definition_change(core, request),
    }
}

/// The input that a request makes, or `None` where it changes nothing or is refused. A reload's is made of the configuration that is
/// read, and is not made here. Where the request's values are within their bounds, as words give them, the input can be stored and taken.
#[tactic(auto, using(crate::proofs::AskedLemmas::effect_as_asked, crate::proofs::BoundLemmas::effect_storable), unfolding(crate::specs::Changes::effect))]
pub fn effect(alloc: Global, core: &Core, request: &Request) -> Result<Option<What>, NoMemory>
    ensures made { IfOk result (λ made. made ≡ effect core.now request.now) }
    ensures asked { IsStorable core.now → IfOk result (λ made. DoesAsAsked core.now request.now made) }
    ensures storable { IsBoundedRequest request.now → IfOk result (λ made. IfSome made IsStorableWhat) }
{
    if is_refused(core, request) {
        return Ok(None);
    }
    change_of(alloc, core, request)
}
