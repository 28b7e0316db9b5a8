//! Actions of jails.
ghost use Rattle.std.specs.Prelude.{◌≡◌, ◌++◌, OnOk};
ghost use Rattle.std.specs.List.{list_any};
ghost use Rattle.f2b_base.specs.declared.jail.ActionDef.{ActionDef as Action};
ghost use Rattle.f2b_model.specs.Sound.{same_kind};
ghost use Rattle.record_fields.specs.Codec.{Gives, capped};
ghost use Rattle.record_fields.specs.Lists.{is_new};
ghost use Rattle.record_fields.specs.Small.{span};
ghost use Rattle.record_fields.specs.Texts.{text};
ghost use Rattle.record_codec.specs.Definitions.{family_code, family, action_def};

use f2b_base::{ActionDef, Bytes, Family, NoMemory};
use record_fields::{
    Fault, Items, Spell, byte_len, joined_len, number_len, put_number, put_text, take_span,
    take_text, text_len,
};
use std::alloc::Global;

fn family_code(is: Family) -> u8
    ensures { result ≡ family_code is }
{
    match is {
        Family::Both => 0,
        Family::Inet4 => 4,
        Family::Inet6 => 6,
    }
}

/// Adds a family.
pub(crate) fn put_family(is: Family, out: &mut Bytes) -> Result<(), NoMemory>
    ensures { OnOk result (out.new ≡ out.old ++ family.spell is) }
{
    out.push(family_code(is))
}

/// The family at the front of the bytes.
pub(crate) fn take_family(bytes: &[u8]) -> Result<(Family, &[u8]), Fault>
    ensures { Gives (λ x. (x.0, x.1.now)) result (family.read bytes.now) }
{
    match bytes {
        [] => Err(Fault::Left(0)),
        [first, rest @ ..] => {
            if *first == 0 {
                Ok((Family::Both, rest))
            } else if *first == 4 {
                Ok((Family::Inet4, rest))
            } else if *first == 6 {
                Ok((Family::Inet6, rest))
            } else {
                Err(Fault::Left(bytes.len() as u64))
            }
        }
    }
}

fn put_names(action: &ActionDef, out: &mut Bytes) -> Result<(), NoMemory>
    ensures { OnOk result (out.new ≡ out.old ++ (text.spell action.now.name ++ (family.spell action.now.family ++ (text.spell action.now.start ++ text.spell action.now.stop)))) }
{
    put_text(&action.name, out)?;
    put_family(action.family, out)?;
    put_text(&action.start, out)?;
    put_text(&action.stop, out)
}

/// Adds an action.
#[tactic(auto, unfolding(crate::specs::Definitions::action_def))]
pub(crate) fn put_action(action: &ActionDef, out: &mut Bytes) -> Result<(), NoMemory>
    ensures { OnOk result (out.new ≡ out.old ++ action_def.spell action.now) }
{
    put_names(action, out)?;
    put_text(&action.ban, out)?;
    put_text(&action.unban, out)?;
    put_text(&action.check, out)?;
    put_number(action.timeout, out)
}

fn commands_len(action: &ActionDef) -> u64
    ensures { result ≡ capped (text.spell action.now.ban ++ (text.spell action.now.unban ++ (text.spell action.now.check ++ span.spell action.now.timeout))) }
{
    let check = joined_len(text_len(&action.check), number_len(action.timeout));
    joined_len(
        text_len(&action.ban),
        joined_len(text_len(&action.unban), check),
    )
}

/// How long an action is.
#[tactic(auto, unfolding(crate::specs::Definitions::action_def))]
pub(crate) fn action_len(action: &ActionDef) -> u64
    ensures { result ≡ capped (action_def.spell action.now) }
{
    let commands = joined_len(text_len(&action.stop), commands_len(action));
    let from_start = joined_len(text_len(&action.start), commands);
    joined_len(text_len(&action.name), joined_len(byte_len(), from_start))
}

/// The action at the front of the bytes.
#[tactic(auto, unfolding(crate::specs::Definitions::action_def))]
pub(crate) fn take_action(alloc: Global, bytes: &[u8]) -> Result<(ActionDef, &[u8]), Fault>
    ensures { Gives (λ x. (x.0, x.1.now)) result (action_def.read bytes.now) }
{
    let (name, rest) = take_text(alloc, bytes)?;
    let (family, rest) = take_family(rest)?;
    let (start, rest) = take_text(alloc, rest)?;
    let (stop, rest) = take_text(alloc, rest)?;
    let (ban, rest) = take_text(alloc, rest)?;
    let (unban, rest) = take_text(alloc, rest)?;
    let (check, rest) = take_text(alloc, rest)?;
    let (timeout, rest) = take_span(rest)?;
    Ok((
        ActionDef {
            name,
            family,
            start,
            stop,
            ban,
            unban,
            check,
            timeout,
        },
        rest,
    ))
}

/// Actions of distinct kinds: of a name and a family there is one.
#[derive(Clone, Copy, Drop)]
pub(crate) struct Actions;

impl Spell<ActionDef> for Actions {
    ghost spelling = { action_def.spell };

    fn put(item: &ActionDef, out: &mut Bytes) -> Result<(), NoMemory> {
        put_action(item, out)
    }

    fn len(item: &ActionDef) -> u64 {
        action_len(item)
    }
}

fn same_kind(one: &ActionDef, other: &ActionDef) -> bool
    ensures { result ≡ same_kind one.now other.now }
{
    one.name == other.name && one.family.same(other.family)
}

fn has_kind(before: &[ActionDef], item: &ActionDef) -> bool
    ensures { result ≡ list_any (λ (b : Action). same_kind b item.now) before.now }
{
    before.iter().any(|action| same_kind(action, item))
}

impl Items<ActionDef> for Actions {
    ghost reading = { λ _. action_def.read };

    ghost allowed = { λ _. is_new same_kind };

    fn take<'a>(&self, alloc: Global, bytes: &'a [u8]) -> Result<(ActionDef, &'a [u8]), Fault> {
        take_action(alloc, bytes)
    }

    fn allows(&self, before: &[ActionDef], item: &ActionDef) -> bool {
        !has_kind(before, item)
    }
}
