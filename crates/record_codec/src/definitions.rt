//! Definitions of jails, and of a server.
ghost use Rattle.std.specs.Prelude.{◌≡◌, ◌-◌, ◌^◌, ◌++◌, bytes_eq, map, min, sum, OnOk};
ghost use Rattle.std.specs.List.{list_any};
ghost use Rattle.f2b_base.specs.declared.jail.JailDef.{JailDef as Jail};
ghost use Rattle.f2b_model.specs.Storable.{patterns_of};
ghost use Rattle.record_fields.specs.Codec.{Gives, capped};
ghost use Rattle.record_fields.specs.Lists.{any, list_at};
ghost use Rattle.record_codec.specs.Definitions.{is_zone, zone, limits_spelling, patterns_spelling, jail_def, same_name, has_room, is_next_def, defs};

use crate::actions::Actions;
use crate::dates::{date_len, put_date, take_date};
use crate::logs::Logs;
use crate::names::{Patterns, name_len, pref_len, put_name, put_pref, take_name, take_pref};
use crate::rules::{put_rule, rule_len, take_rule};
use f2b_base::{ActionDef, Bytes, Cidr, Defs, JailDef, NoMemory, Text, WatchDef};
use record_fields::{
    Fault, Items, Spell, cidr_len, joined_len, list_len, number_len, put_cidr, put_list,
    put_number, put_signed, signed_len, take_between, take_cidr, take_list, take_signed, take_span,
    take_up_to,
};
use std::alloc::Global;

/// The most logs of a jail.
const MOST_LOGS: u64 = 4096;

/// The most patterns of lines of all jails together.
const MOST_PATTERNS: u64 = 512;

/// The most actions of a jail, of which those for two families count twice.
const MOST_ACTIONS: u64 = 32;

/// The most jails.
const MOST_JAILS: u64 = 256;

/// The greatest limit of failures.
pub(crate) const MOST_RETRIES: u64 = 100_000;

/// The most lines that a ban shows.
const MOST_MATCHES: u64 = 1000;

/// The most seconds that a ban that is over counts.
const LONGEST_PURGE: u64 = 3_153_600_000;

/// Masks, in any order.
#[derive(Clone, Copy, Drop)]
struct Masks;

impl Spell<Cidr> for Masks {
    ghost use Rattle.record_fields.specs.Addresses.{cidr};

    ghost spelling = { cidr.spell };

    fn put(item: &Cidr, out: &mut Bytes) -> Result<(), NoMemory> {
        put_cidr(*item, out)
    }

    fn len(item: &Cidr) -> u64 {
        cidr_len(*item)
    }
}

impl Items<Cidr> for Masks {
    ghost use Rattle.record_fields.specs.Addresses.{cidr};

    ghost reading = { λ _. cidr.read };

    ghost allowed = { λ _. any };

    fn take<'a>(&self, _alloc: Global, bytes: &'a [u8]) -> Result<(Cidr, &'a [u8]), Fault> {
        take_cidr(bytes)
    }

    fn allows(&self, _before: &[Cidr], _item: &Cidr) -> bool {
        true
    }
}

/// Whether a zone is whole minutes, less than a day either way.
fn is_zone(zone: i64) -> bool
    ensures { result ≡ is_zone zone }
{
    if zone < 0 {
        let past = (-(zone + 1)) as u64;
        (past + 1) % 60 == 0 && past + 1 < 86400
    } else {
        zone as u64 % 60 == 0 && (zone as u64) < 86400
    }
}

fn take_zone(bytes: &[u8]) -> Result<(i64, &[u8]), Fault>
    ensures { Gives (λ x. (x.0, x.1.now)) result (zone.read bytes.now) }
{
    let (zone, rest) = take_signed(bytes)?;
    if is_zone(zone) {
        Ok((zone, rest))
    } else {
        Err(Fault::Left(bytes.len() as u64))
    }
}

fn put_limits(jail: &JailDef, out: &mut Bytes) -> Result<(), NoMemory>
    ensures { OnOk result (out.new ≡ out.old ++ limits_spelling jail.now) }
{
    put_number(jail.findtime, out)?;
    put_number(jail.maxretry, out)?;
    put_number(jail.maxmatches, out)?;
    put_rule(&jail.rule, out)?;
    put_list::<ActionDef, Actions>(jail.actions.as_slice(), out)
}

fn put_patterns(jail: &JailDef, out: &mut Bytes) -> Result<(), NoMemory>
    ensures { OnOk result (out.new ≡ out.old ++ patterns_spelling jail.now) }
{
    put_pref(&jail.pref, out)?;
    put_list::<Text, Patterns>(jail.fail.as_slice(), out)?;
    put_list::<Text, Patterns>(jail.ignore_lines.as_slice(), out)?;
    put_list::<Cidr, Masks>(jail.ignore.as_slice(), out)?;
    put_limits(jail, out)
}

fn limits_len(jail: &JailDef) -> u64
    ensures { result ≡ capped (limits_spelling jail.now) }
{
    let rule = joined_len(
        rule_len(&jail.rule),
        list_len::<ActionDef, Actions>(jail.actions.as_slice()),
    );
    let matches = joined_len(number_len(jail.maxmatches), rule);
    joined_len(
        number_len(jail.findtime),
        joined_len(number_len(jail.maxretry), matches),
    )
}

fn patterns_len(jail: &JailDef) -> u64
    ensures { result ≡ capped (patterns_spelling jail.now) }
{
    let ignore = joined_len(
        list_len::<Cidr, Masks>(jail.ignore.as_slice()),
        limits_len(jail),
    );
    let lines = joined_len(
        list_len::<Text, Patterns>(jail.ignore_lines.as_slice()),
        ignore,
    );
    let fail = joined_len(list_len::<Text, Patterns>(jail.fail.as_slice()), lines);
    joined_len(pref_len(&jail.pref), fail)
}

/// Jails of distinct names, with so many patterns together as a server takes.
#[derive(Clone, Copy, Drop)]
struct Jails;

impl Spell<JailDef> for Jails {
    ghost spelling = { jail_def.spell };

    #[tactic(auto, unfolding(crate::specs::Definitions::jail_def))]
    fn put(item: &JailDef, out: &mut Bytes) -> Result<(), NoMemory> {
        put_name(&item.name, out)?;
        put_list::<WatchDef, Logs>(item.watches.as_slice(), out)?;
        put_signed(item.zone, out)?;
        put_date(&item.date, out)?;
        put_patterns(item, out)
    }

    #[tactic(auto, unfolding(crate::specs::Definitions::jail_def))]
    fn len(item: &JailDef) -> u64 {
        let dates = joined_len(date_len(&item.date), patterns_len(item));
        let zone = joined_len(signed_len(item.zone), dates);
        let watches = joined_len(list_len::<WatchDef, Logs>(item.watches.as_slice()), zone);
        joined_len(name_len(&item.name), watches)
    }
}

fn same_name(one: &JailDef, other: &JailDef) -> bool
    ensures { result ≡ same_name one.now other.now }
{
    one.name == other.name
}

fn has_name(before: &[JailDef], item: &JailDef) -> bool
    ensures { result ≡ list_any (λ (c : Jail). same_name c item.now) before.now }
{
    before.iter().any(|jail| same_name(jail, item))
}

fn patterns_of(jail: &JailDef) -> u64
    ensures { result ≡ min (patterns_of jail.now) (2 ^ 64 - 1) }
{
    (jail.fail.len() as u64).saturating_add(jail.ignore_lines.len() as u64)
}

/// How many patterns of lines jails have together, or 2^64 - 1 where they have more.
fn patterns_of_all(jails: &[JailDef]) -> u64
    ensures { result ≡ min (sum (map patterns_of jails.now)) (2 ^ 64 - 1) }
{
    let mut total = 0u64;
    for jail in jails {
        total = total.saturating_add(patterns_of(jail));
    }
    total
}

fn has_room(before: &[JailDef], item: &JailDef) -> bool
    ensures { result ≡ has_room before.now item.now }
{
    patterns_of_all(before).saturating_add(patterns_of(item)) <= MOST_PATTERNS
}

impl Items<JailDef> for Jails {
    ghost reading = { λ _. jail_def.read };

    ghost allowed = { λ _. is_next_def };

    #[tactic(auto, unfolding(crate::specs::Definitions::jail_def))]
    fn take<'a>(&self, alloc: Global, bytes: &'a [u8]) -> Result<(JailDef, &'a [u8]), Fault> {
        let (name, rest) = take_name(alloc, bytes)?;
        let (watches, rest) = take_list(&Logs, alloc, Some(MOST_LOGS), rest)?;
        let (zone, rest) = take_zone(rest)?;
        let (date, rest) = take_date(alloc, rest)?;
        let (pref, rest) = take_pref(alloc, rest)?;
        let (fail, rest) = take_list(&Patterns, alloc, Some(MOST_PATTERNS), rest)?;
        let (ignore_lines, rest) = take_list(&Patterns, alloc, Some(MOST_PATTERNS), rest)?;
        let (ignore, rest) = take_list(&Masks, alloc, None, rest)?;
        let (findtime, rest) = take_span(rest)?;
        let (maxretry, rest) = take_between(1, MOST_RETRIES, rest)?;
        let (maxmatches, rest) = take_up_to(MOST_MATCHES, rest)?;
        let (rule, rest) = take_rule(alloc, rest)?;
        let (actions, rest) = take_list(&Actions, alloc, Some(MOST_ACTIONS), rest)?;
        Ok((
            JailDef {
                name,
                watches,
                zone,
                date,
                pref,
                fail,
                ignore_lines,
                ignore,
                findtime,
                maxretry,
                maxmatches,
                rule,
                actions,
            },
            rest,
        ))
    }

    fn allows(&self, before: &[JailDef], item: &JailDef) -> bool {
        !has_name(before, item) && has_room(before, item)
    }
}

/// Adds the definitions of a server.
#[tactic(auto, unfolding(crate::specs::Definitions::defs))]
pub(crate) fn put_defs(it: &Defs, out: &mut Bytes) -> Result<(), NoMemory>
    ensures { OnOk result (out.new ≡ out.old ++ defs.spell it.now) }
{
    put_number(it.purge, out)?;
    put_list::<JailDef, Jails>(it.jails.as_slice(), out)
}

/// How long definitions are.
#[tactic(auto, unfolding(crate::specs::Definitions::defs))]
pub(crate) fn defs_len(it: &Defs) -> u64
    ensures { result ≡ capped (defs.spell it.now) }
{
    joined_len(
        number_len(it.purge),
        list_len::<JailDef, Jails>(it.jails.as_slice()),
    )
}

/// The definitions of a server at the front of the bytes.
#[tactic(auto, unfolding(crate::specs::Definitions::defs))]
pub(crate) fn take_defs(alloc: Global, bytes: &[u8]) -> Result<(Defs, &[u8]), Fault>
    ensures { Gives (λ x. (x.0, x.1.now)) result (defs.read bytes.now) }
{
    let (purge, rest) = take_up_to(LONGEST_PURGE, bytes)?;
    let (jails, rest) = take_list(&Jails, alloc, Some(MOST_JAILS), rest)?;
    Ok((Defs { purge, jails }, rest))
}
