//! Reports of jails.
ghost use Rattle.std.specs.Prelude.{◌≡◌, ◌++◌, map, IfOk, OnOk};
ghost use Rattle.f2b_base.specs.declared.view.JailView.{JailView};
ghost use Rattle.f2b_model.specs.Views.{jail_view, spread};
ghost use Rattle.f2b_model.specs.declared.jail_now.JailNow.{JailNow};
ghost use Rattle.std.specs.Prelude.{max};
ghost use Rattle.client_replies.specs.Meant.{bans_at};
ghost use Rattle.client_replies.specs.Replies.{each_status, status_named, status_of_all};
ghost use Rattle.client_replies.specs.Texts.{actions_text, banned_text, filter_text, jail_text, jails_text};

use crate::banned::bans_named;
use crate::text::{joined, push_joined, push_titled_list, push_titled_number};
use f2b_base::{Ban, JailDef, NoMemory, Seq, Text, View, WatchDef};
use jail_core::Core;
use jail_moves::Totals;
use std::alloc::Global;

/// What the filter of a jail found: how many addresses failed lately, how many failures counted, and the logs.
fn push_filter(
    alloc: Global,
    reply: &mut Text,
    lately: u64,
    failed: u64,
    watches: &Seq<WatchDef>,
) -> Result<(), NoMemory>
    ensures { OnOk result (reply.new ≡ reply.old ++ filter_text lately failed watches.now) }
{
    let failing = "\n|- Filter\n|  |- Currently failed:\t";
    push_titled_number(alloc, reply, failing, u128::from(lately))?;
    let total = "\n|  |- Total failed:\t";
    push_titled_number(alloc, reply, total, u128::from(failed))?;
    push_titled_list(
        alloc,
        reply,
        "\n|  `- File list:\t",
        " ",
        watches.as_slice(),
    )
}

/// What the actions of a jail were asked for: how many bans began, and who is banned.
fn push_actions(
    alloc: Global,
    reply: &mut Text,
    began: u64,
    bans: &Seq<Ban>,
) -> Result<(), NoMemory>
    ensures { OnOk result (reply.new ≡ reply.old ++ actions_text began bans.now) }
{
    let banned = "\n`- Actions\n   |- Currently banned:\t";
    push_titled_number(alloc, reply, banned, bans.len() as u128)?;
    let total = "\n   |- Total banned:\t";
    push_titled_number(alloc, reply, total, u128::from(began))?;
    push_titled_list(
        alloc,
        reply,
        "\n   `- Banned IP list:\t",
        " ",
        bans.as_slice(),
    )
}

/// Nine lines of one jail.
#[tactic(auto, unfolding(crate::specs::Texts::jail_text))]
fn jail_text(
    alloc: Global,
    lately: u64,
    definition: &JailDef,
    totals: Totals,
    bans: &Seq<Ban>,
) -> Result<Text, NoMemory>
    ensures { IfOk result (λ text. text ≡ jail_text lately definition.now totals bans.now) }
{
    let mut reply = Text::from_str(alloc, "Status for the jail: ")?;
    reply.push_str(definition.name.as_str())?;
    push_filter(
        alloc,
        &mut reply,
        lately,
        totals.failed,
        &definition.watches,
    )?;
    push_actions(alloc, &mut reply, totals.banned, bans)?;
    Ok(reply)
}

/// Nine lines of the jail of a name with these bans, if there is one, at a moment, which is at least the core's own.
#[tactic(auto, using(crate::proofs::TextLemmas::nothing_shown, crate::proofs::TextLemmas::status_shown))]
fn status_with(
    alloc: Global,
    core: &Core,
    now: u64,
    name: &Text,
    bans: &Option<Seq<Ban>>,
) -> Result<Text, NoMemory>
    requires { bans.now ≡ bans_at core.now name.now }
    ensures { IfOk result (λ text. text ≡ status_named (max core.now.jails.at now) core.now name.now) }
{
    let Some(definition) = core.jail(name.as_str()) else {
        return Ok(Text::new(alloc));
    };
    let Some(totals) = core.totals(name.as_str()) else {
        return Ok(Text::new(alloc));
    };
    let Some(bans) = bans else {
        return Ok(Text::new(alloc));
    };
    let lately = core.failed_lately(name.as_str(), core.now().max(now));
    jail_text(alloc, lately, definition, totals, bans)
}

/// Nine lines of the jail of a name, if there is one, whose bans a view of the core shows.
#[tactic(auto, using(crate::proofs::BannedLemmas::bans_of_view))]
fn status_in(
    alloc: Global,
    core: &Core,
    view: &View,
    now: u64,
    name: &Text,
) -> Result<Text, NoMemory>
    requires { view.now ≡ spread core.now }
    ensures { IfOk result (λ text. text ≡ status_named (max core.now.jails.at now) core.now name.now) }
{
    let bans = bans_named(view.jails.as_slice(), name)?;
    status_with(alloc, core, now, name, &bans)
}

/// Nine lines of the jail of a name, if there is one, at a moment, which is at least the core's own.
pub(crate) fn status_of(alloc: Global, core: &Core, now: u64, name: &Text) -> Result<Text, NoMemory>
    ensures { IfOk result (λ text. text ≡ status_named (max core.now.jails.at now) core.now name.now) }
{
    let view = core.view()?;
    status_in(alloc, core, &view, now, name)
}

/// Nine lines of each jail.
fn statuses(alloc: Global, core: &Core, view: &View, now: u64) -> Result<Seq<Text>, NoMemory>
    requires { view.now ≡ spread core.now }
    ensures { IfOk result (λ texts. texts ≡ map (λ (v : JailView). status_named (max core.now.jails.at now) core.now v.name) (map jail_view core.now.jails.jails)) }
{
    let mut texts = Seq::new(alloc);
    for jail in view.jails.as_slice() {
        texts.push(status_in(alloc, core, view, now, &jail.name)?)?;
    }
    Ok(texts)
}

/// The same with an empty line between each two.
#[tactic(auto, using(crate::proofs::TextLemmas::statuses_shown))]
fn each_status(alloc: Global, core: &Core, now: u64) -> Result<Text, NoMemory>
    ensures { IfOk result (λ text. text ≡ each_status (max core.now.jails.at now) core.now) }
{
    let view = core.view()?;
    let texts = statuses(alloc, core, &view, now)?;
    joined(alloc, "\n\n", texts.as_slice())
}

/// Nine lines of each jail, or of the one that has the name by which all are asked for.
#[tactic(auto, using(crate::proofs::TextLemmas::named_all, crate::proofs::TextLemmas::each_of_all))]
pub(crate) fn status_of_all(alloc: Global, core: &Core, now: u64) -> Result<Text, NoMemory>
    ensures { IfOk result (λ text. text ≡ status_of_all (max core.now.jails.at now) core.now) }
{
    match core.jail("--all") {
        Some(_) => status_of(alloc, core, now, &Text::from_str(alloc, "--all")?),
        None => each_status(alloc, core, now),
    }
}

/// How many jails there are, and their names.
pub(crate) fn jails_text(alloc: Global, core: &Core) -> Result<Text, NoMemory>
    ensures { IfOk result (λ text. text ≡ jails_text core.now.jails.jails) }
{
    let defs = core.defs()?;
    let mut reply = Text::new(alloc);
    let count = "Status\n|- Number of jail:\t";
    push_titled_number(alloc, &mut reply, count, defs.jails.len() as u128)?;
    let names = "\n`- Jail list:\t";
    push_titled_list(alloc, &mut reply, names, ", ", defs.jails.as_slice())?;
    Ok(reply)
}

/// A line for each jail: its name, and who is banned in it.
#[tactic(auto, using(crate::proofs::TextLemmas::lines_shown), unfolding(crate::specs::Texts::banned_text))]
pub(crate) fn banned_text(alloc: Global, core: &Core) -> Result<Text, NoMemory>
    ensures { IfOk result (λ text. text ≡ banned_text core.now.jails.jails) }
{
    let view = core.view()?;
    let mut reply = Text::new(alloc);
    push_joined(alloc, &mut reply, "\n", view.jails.as_slice())?;
    Ok(reply)
}
