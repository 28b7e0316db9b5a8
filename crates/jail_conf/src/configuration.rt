//! What a configuration comes to: the definitions of its enabled jails, or the first refusal.
ghost use Rattle.std.specs.Prelude.{◌≡◌, ◌≤◌, ◌+◌, [], length, sum_by, Ok, codes, IfOk, IfSome, OnOk};
ghost use Rattle.std.specs.Char.{is_ascii_alphanumeric};
ghost use Rattle.std.specs.List.{list_all};
ghost use Rattle.f2b_model.specs.Sound.{AreFitDefs};
ghost use Rattle.f2b_model.specs.Storable.{AreStorableDefs};
ghost use Rattle.ini_interp.specs.Sections.{without};
ghost use Rattle.jail_conf.specs.Conf.{but_default, jail_names, is_enabled, patterns_in, next_jail, with_next, jails_behind, conf};
ghost use Rattle.jail_conf.specs.Jails.{is_name_byte, is_jail_name};
ghost use Rattle.jail_conf.specs.Laws.{AreDated, AreWithinLimits};
ghost use Rattle.jail_conf.specs.Sources.{bases_of, sections_of};
ghost use Rattle.jail_conf.specs.Then.{Gives};

use crate::choices::Boolean;
use crate::conf_error::{ConfFail, ConfKind};
use crate::jails::jail_of;
use crate::limits::MOST_JAILS;
use crate::merged_bases::MergedBases;
use crate::reading::AsWritten;
use crate::seconds::Seconds;
use crate::sections::{section_names, sections_of};
use crate::settings::Settings;
use crate::source::Source;
use crate::sources::{of_jail, of_server};
use crate::texts::see;
use f2b_base::{Defs, JailDef, NoMemory, Plain, Seq, Text, Tree};
use ini_interp::{FileTable, Sections};
use std::alloc::Global;

/// Whether the name of a jail may have the byte.
fn is_name_byte(byte: u8) -> bool
    ensures { result ≡ is_name_byte byte }
{
    byte.is_ascii_alphanumeric() || byte == b'_' || byte == b'.' || byte == b'-'
}

/// Whether the name of a jail may have each of the bytes.
fn are_name_bytes(bytes: &[u8]) -> bool
    ensures { result ≡ list_all is_name_byte bytes.now }
{
    bytes.iter().all(|byte| is_name_byte(*byte))
}

/// Whether a jail may have this name.
fn is_jail_name(name: &[u8]) -> bool
    ensures { result ≡ is_jail_name name.now }
{
    1 <= name.len() && name.len() <= 64 && are_name_bytes(name)
}

/// Those of the names that are names of jails, in order.
fn but_default(alloc: Global, all: &[Text]) -> Result<Seq<Text>, NoMemory>
    ensures { IfOk result (λ names. names ≡ but_default all.now) }
{
    let mut names = Seq::new(alloc);
    for name in all {
        if name.as_str() != "DEFAULT" {
            names.push(name.copy()?)?;
        }
    }
    Ok(names)
}

/// The names of the jails, in order.
fn jail_names(alloc: Global, sections: &Sections) -> Result<Seq<Text>, NoMemory>
    ensures { IfOk result (λ names. names ≡ jail_names sections.now) }
{
    let all = section_names(alloc, sections)?;
    but_default(alloc, all.as_slice())
}

/// Whether a jail is enabled, where so many are before it.
fn is_enabled(alloc: Global, jail: &Source, before: usize) -> Result<bool, ConfFail>
    ensures { Gives (is_enabled jail.now before) result }
{
    if !is_jail_name(jail.section.as_str().as_bytes()) {
        return Err(jail.refused(alloc, "", ConfKind::BadName));
    }
    let enabled = jail.item(alloc, "enabled", &Boolean, false)?;
    if enabled && before >= MOST_JAILS {
        return Err(jail.refused(alloc, "enabled", ConfKind::TooMany));
    }
    Ok(enabled)
}

/// The definition of a jail where it is enabled, behind these, which have so many patterns. The jail may know the items of its filter
/// then.
fn next_jail(
    alloc: Global,
    bases: &mut MergedBases<'_, '_>,
    jail: &mut Source,
    before: &[JailDef],
    patterns: u64,
) -> Result<Option<JailDef>, ConfFail>
    requires counted { sum_by patterns_in before.now ≡ patterns }
    requires few { patterns ≤ 512 }
    ensures defined { Gives (next_jail (bases_of bases.old) jail.old before.now) result }
    ensures files { bases.new ≡ bases.old }
    ensures known { OnOk result (without (codes "]known") jail.new.sections ≡ without (codes "]known") jail.old.sections) }
{
    if !is_enabled(alloc, jail, before.len())? {
        return Ok(None);
    }
    let definition = jail_of(alloc, bases, jail, patterns)?;
    Ok(Some(definition))
}

/// Adds the definition of a jail, where there is one, behind those that have so many patterns. Gives how many there are then.
fn push_next(
    jails: &mut Seq<JailDef>,
    patterns: u64,
    next: Option<JailDef>,
) -> Result<u64, NoMemory>
    requires counted { sum_by patterns_in jails.old ≡ patterns }
    requires before { patterns ≤ 512 }
    requires few { IfSome next (λ jail. patterns + patterns_in jail ≤ 512) }
    ensures jails { OnOk result (jails.new ≡ with_next jails.old next) }
    ensures counted { IfOk result (λ patterns. sum_by patterns_in jails.new ≡ patterns) }
    ensures few { IfOk result (λ patterns. patterns ≤ 512) }
{
    match next {
        None => Ok(patterns),
        Some(jail) => {
            let own = jail.fail.len() as u64 + jail.ignore_lines.len() as u64;
            jails.push(jail)?;
            Ok(patterns + own)
        }
    }
}

/// The sections of the base, without what was put in for a jail.
fn given_back(jail: Source) -> Sections
    ensures { result ≡ without (codes "]name") (without (codes "]known") jail.sections) }
{
    let mut sections = jail.sections;
    sections.clear("]known");
    sections.clear("]name");
    sections
}

/// The definitions of the jails of these names that are enabled. Their base is merged already, and each jail gives its sections back.
/// Those of filters and actions are merged once, for all jails that name them.
fn jails_in(
    alloc: Global,
    files: &FileTable<'_>,
    merged: Sections,
    names: &[Text],
) -> Result<Seq<JailDef>, ConfFail>
    requires { sections_of (bases_of files.now) (codes "jail") ≡ Ok merged }
    ensures { Gives (jails_behind (bases_of files.now) merged [] names.now) result }
{
    let mut jails = Seq::new(alloc);
    let mut patterns: u64 = 0;
    let mut sections = merged;
    let mut bases = MergedBases::new(alloc, files);
    for name in names {
        let mut jail = of_jail(alloc, sections, name.as_str())?;
        let next = next_jail(alloc, &mut bases, &mut jail, jails.as_slice(), patterns)?;
        patterns = push_next(&mut jails, patterns, next)?;
        sections = given_back(jail);
    }
    Ok(jails)
}

/// What the files of a configuration come to, or the first refusal.
///
/// What is accepted is fit for the model, no more than a server may be given, and within all bounds of what is stored. What a user
/// wrote as a date pattern is one.
///
/// Reads no file and builds no pattern: paths may still have wildcards, and patterns their tags.
pub fn conf(alloc: Global, tree: &Tree) -> Result<Settings, ConfFail>
    ensures defined { Gives (conf tree.now) result }
    ensures fit { IfOk result (λ settings. AreFitDefs settings.defs) }
    ensures limits { IfOk result (λ settings. AreWithinLimits settings.defs) }
    ensures storable { IfOk result (λ settings. AreStorableDefs settings.defs) }
    ensures dated { IfOk result (λ settings. AreDated settings.defs) }
{
    let files = FileTable::new(alloc, tree)?;
    let merged = sections_of(alloc, &files, "fail2ban")?;
    let server = of_server(alloc, merged)?;
    let default = Text::from_str(alloc, "/var/run/fail2ban/fail2ban.sock")?;
    let socket = server.item(alloc, "socket", &AsWritten, default)?;
    let purge = server.item(alloc, "dbpurgeage", &Seconds { least: 0 }, 86_400)?;
    let sections = sections_of(alloc, &files, "jail")?;
    let names = jail_names(alloc, &sections)?;
    let jails = jails_in(alloc, &files, sections, names.as_slice())?;
    let defs = Defs { purge, jails };
    see(&defs);
    Ok(Settings { defs, socket })
}
