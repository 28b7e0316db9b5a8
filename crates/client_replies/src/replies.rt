//! What a request is replied.
ghost use Rattle.std.specs.Prelude.{◌≡◌, ◌≤◌, [], List, Some, IfOk, codes, length, max};
ghost use Rattle.std.specs.Fmt.{decimal};
ghost use Rattle.std.specs.Option.{option_map_or};
ghost use Rattle.client_frames.specs.Frames.{most_text};
ghost use Rattle.f2b_base.specs.declared.ban.Ban.{Ban};
ghost use Rattle.f2b_base.specs.declared.jail.JailDef.{JailDef};
ghost use Rattle.f2b_model.specs.Moves.{is_banned};
ghost use Rattle.client_replies.specs.Banned.{count_meant, ended, new_addrs};
ghost use Rattle.client_replies.specs.Meant.{bans_at, definition_named};
ghost use Rattle.client_replies.specs.Refusals.{refusal};
ghost use Rattle.client_replies.specs.Replies.{answer, counted_text, refused, reply, sendable, text_of, text_of_definition};
ghost use Rattle.client_replies.specs.Texts.{bans_text, idle_text, timed_bans_text};

use crate::banned::{bans_in, count_meant, ended, whom};
use crate::change::is_banned;
use crate::definition::{action_names, date_text, flag_text};
use crate::holders::holders_text;
use crate::known::new_addrs;
use crate::masks::{masks_with, masks_without};
use crate::refusal::{named, refusal};
use crate::status::{banned_text, jails_text, status_of, status_of_all};
use crate::text::{joined, number_text, signed_text};
use crate::times::timed_bans;
use client_frames::Answer;
use client_words::Request;
use f2b_base::{Addr, JailDef, NoMemory, Plain, Seq, Text};
use jail_core::Core;
use std::alloc::Global;

/// The version of the server that answers.
const VERSION: &str = "0.1.0";

/// The most bytes of a reply's text.
const MOST_TEXT: usize = 67_108_864;

fn idle_text(idle: bool) -> &'static str
    ensures { result.now ≡ idle_text idle }
{
    if idle { "on" } else { "off" }
}

/// Whether one failure more of an address is counted, as a number.
fn counted_text(banned: bool) -> &'static str
    ensures { result.now ≡ counted_text banned }
{
    if banned { "0" } else { "1" }
}

/// What is replied of a definition, or of what a request makes of it.
fn text_of_definition(
    alloc: Global,
    definition: &JailDef,
    request: &Request,
) -> Result<Text, NoMemory>
    ensures { IfOk result (λ text. text ≡ text_of_definition definition.now request.now) }
{
    match request {
        Request::AddIgnore { cidr, .. } => {
            let masks = masks_with(&definition.ignore, cidr)?;
            joined(alloc, " ", masks.as_slice())
        }
        Request::DelIgnore { cidr, .. } => {
            let masks = masks_without(&definition.ignore, cidr)?;
            joined(alloc, " ", masks.as_slice())
        }
        Request::SetFindtime { secs, .. } => number_text(alloc, u128::from(*secs)),
        Request::SetBantime { secs, .. } => signed_text(alloc, *secs),
        Request::SetMaxretry { number, .. } => number_text(alloc, u128::from(*number)),
        Request::SetIdle { idle, .. } => Text::from_str(alloc, idle_text(*idle)),
        Request::GetFindtime { .. } => number_text(alloc, u128::from(definition.findtime)),
        Request::GetBantime { .. } => signed_text(alloc, definition.rule.base),
        Request::GetMaxretry { .. } => number_text(alloc, u128::from(definition.maxretry)),
        Request::GetIgnoreip { .. } => joined(alloc, " ", definition.ignore.as_slice()),
        Request::GetLogpath { .. } => joined(alloc, "\n", definition.watches.as_slice()),
        Request::GetFailregex { .. } => joined(alloc, "\n", definition.fail.as_slice()),
        Request::GetIgnoreregex { .. } => joined(alloc, "\n", definition.ignore_lines.as_slice()),
        Request::GetDatepattern { .. } => date_text(alloc, &definition.date),
        Request::GetMaxmatches { .. } => number_text(alloc, u128::from(definition.maxmatches)),
        Request::GetIncrement { .. } => Text::from_str(alloc, flag_text(definition.rule.increment)),
        Request::GetActions { .. } => {
            let names = action_names(alloc, definition.actions.as_slice())?;
            joined(alloc, "\n", names.as_slice())
        }
        _ => Ok(Text::new(alloc)),
    }
}

/// What is replied of the definition of the jail that a request names, if there is one.
fn definition_text(alloc: Global, core: &Core, request: &Request) -> Result<Text, NoMemory>
    ensures { IfOk result (λ text. text ≡ option_map_or (λ (d : JailDef). text_of_definition d request.now) (definition_named core.now request.now) []) }
{
    let Some(name) = named(request) else {
        return Ok(Text::new(alloc));
    };
    match core.jail(name.as_str()) {
        Some(definition) => text_of_definition(alloc, definition, request),
        None => Ok(Text::new(alloc)),
    }
}

/// How many of these addresses are not banned in a jail, each of them once.
fn new_text(alloc: Global, core: &Core, jail: &Text, addrs: &Seq<Addr>) -> Result<Text, NoMemory>
    ensures { IfOk result (λ text. text ≡ option_map_or (λ (bans : List Ban). decimal (length (new_addrs bans addrs.now))) (bans_at core.now jail.now) []) }
{
    let Some(bans) = bans_in(core, jail)? else {
        return Ok(Text::new(alloc));
    };
    let new = new_addrs(alloc, bans.as_slice(), addrs.as_slice())?;
    number_text(alloc, new.len() as u128)
}

/// How many bans of a jail are of these addresses.
fn unbanned_text(
    alloc: Global,
    core: &Core,
    jail: &Text,
    addrs: &Seq<Addr>,
) -> Result<Text, NoMemory>
    ensures { IfOk result (λ text. text ≡ option_map_or (λ (bans : List Ban). decimal (count_meant (Some addrs.now) bans)) (bans_at core.now jail.now) []) }
{
    let Some(bans) = bans_in(core, jail)? else {
        return Ok(Text::new(alloc));
    };
    let addrs = Some(addrs.copy()?);
    let count = count_meant(&whom(alloc, &addrs)?, bans.as_slice());
    number_text(alloc, count as u128)
}

/// Whether a failure of an address counts in a jail, as a number.
fn attempt_text(alloc: Global, core: &Core, jail: &Text, addr: Addr) -> Result<Text, NoMemory>
    ensures { IfOk result (λ text. text ≡ option_map_or (λ (bans : List Ban). counted_text (is_banned addr bans)) (bans_at core.now jail.now) []) }
{
    let Some(bans) = bans_in(core, jail)? else {
        return Ok(Text::new(alloc));
    };
    let banned = is_banned(addr, bans.as_slice());
    Text::from_str(alloc, counted_text(banned))
}

/// Who is banned in a jail, an address a line.
fn bans_text(alloc: Global, core: &Core, jail: &Text) -> Result<Text, NoMemory>
    ensures { IfOk result (λ text. text ≡ option_map_or (bans_text (codes "\n")) (bans_at core.now jail.now) []) }
{
    match bans_in(core, jail)? {
        Some(bans) => joined(alloc, "\n", bans.as_slice()),
        None => Ok(Text::new(alloc)),
    }
}

/// Who is banned in a jail, since when and until when, a ban a line.
fn timed_bans_text(alloc: Global, core: &Core, jail: &Text) -> Result<Text, NoMemory>
    ensures { IfOk result (λ text. text ≡ option_map_or timed_bans_text (bans_at core.now jail.now) []) }
{
    match bans_in(core, jail)? {
        Some(bans) => timed_bans(alloc, bans.as_slice()),
        None => Ok(Text::new(alloc)),
    }
}

/// How many bans of all jails end: those of these addresses, or all.
fn ended_text(alloc: Global, core: &Core, addrs: &Option<Seq<Addr>>) -> Result<Text, NoMemory>
    ensures { IfOk result (λ text. text ≡ decimal (ended addrs.now core.now)) }
{
    number_text(alloc, ended(alloc, core, addrs)?)
}

/// What is replied to a request that is not refused.
#[tactic(auto, using(crate::proofs::BannedLemmas::through_or))]
fn text_of(alloc: Global, core: &Core, now: u64, request: &Request) -> Result<Text, NoMemory>
    ensures { IfOk result (λ text. text ≡ text_of (max core.now.jails.at now) core.now request.now) }
{
    match request {
        Request::Ping => Text::from_str(alloc, "pong"),
        Request::Version => Text::from_str(alloc, VERSION),
        Request::Status => jails_text(alloc, core),
        Request::StatusAll => status_of_all(alloc, core, now),
        Request::Banned => banned_text(alloc, core),
        Request::Holders { addrs } => holders_text(alloc, core, addrs.as_slice()),
        Request::UnbanAll => ended_text(alloc, core, &None),
        Request::Unban { addrs } => ended_text(alloc, core, &Some(addrs.copy()?)),
        Request::Reload => Text::from_str(alloc, "OK"),
        Request::Stop => Text::from_str(alloc, "Shutdown begun"),
        Request::StatusOf { jail } => status_of(alloc, core, now, jail),
        Request::SetBanip { jail, addrs } => new_text(alloc, core, jail, addrs),
        Request::SetUnbanip { jail, addrs } => unbanned_text(alloc, core, jail, addrs),
        Request::SetAttempt { jail, addr } => attempt_text(alloc, core, jail, *addr),
        Request::GetBanip { jail } => bans_text(alloc, core, jail),
        Request::GetBantimes { jail } => timed_bans_text(alloc, core, jail),
        _ => definition_text(alloc, core, request),
    }
}

fn refused(text: Text) -> Answer
    ensures { result ≡ refused text }
{
    Answer {
        accepted: false,
        text,
    }
}

/// Why a request is refused, or the text of one that is not.
fn answer(alloc: Global, core: &Core, now: u64, request: &Request) -> Result<Answer, NoMemory>
    ensures { IfOk result (λ given. given ≡ answer (refusal core.now request.now) (text_of (max core.now.jails.at now) core.now request.now)) }
{
    match refusal(alloc, core, request)? {
        Some(why) => Ok(refused(why)),
        None => Ok(Answer {
            accepted: true,
            text: text_of(alloc, core, now, request)?,
        }),
    }
}

/// An answer that can be sent, or that it cannot.
fn sendable(alloc: Global, answer: Answer) -> Result<Answer, NoMemory>
    ensures answer { IfOk result (λ given. given ≡ sendable answer) }
    ensures short { IfOk result (λ given. length given.text ≤ most_text) }
{
    if answer.text.as_str().len() <= MOST_TEXT {
        return Ok(answer);
    }
    Ok(refused(Text::from_str(alloc, "Reply too long")?))
}

/// The reply to a request at a moment in seconds since 1970, over the state before the input that the request makes. A moment before the
/// state's own counts as that. To a reload it is what is replied where the configuration that is read is taken. It can be framed.
#[tactic(auto, unfolding(crate::specs::Replies::reply))]
pub fn reply(alloc: Global, core: &Core, now: u64, request: &Request) -> Result<Answer, NoMemory>
    ensures answer { IfOk result (λ answer. answer ≡ reply now core.now request.now) }
    ensures short { IfOk result (λ answer. length answer.text ≤ most_text) }
{
    sendable(alloc, answer(alloc, core, now, request)?)
}
