//! The actions of a jail.
ghost use Rattle.std.specs.Prelude.{◌≡◌, ◌++◌, [], Ok, IfOk, OnOk, if◌then◌else◌};
ghost use Rattle.jail_conf.specs.Actions.{base_of, file_of, name_of, lane, lane_of_both, lane_of_each, lanes_of, named_action, action_of, actions_behind, actions_of};
ghost use Rattle.jail_conf.specs.Sources.{bases_of, section_names, sections_of, of_definition, inet6_section, for_inet6};
ghost use Rattle.jail_conf.specs.Then.{Gives};
ghost use Rattle.jail_conf.specs.Words.{is_among};

use crate::conf_error::{ConfFail, ConfKind};
use crate::limits::MOST_ACTIONS;
use crate::merged_bases::MergedBases;
use crate::options::{Named, read_named};
use crate::seconds::Seconds;
use crate::sections::section_names;
use crate::source::Source;
use crate::sources::{for_inet6, of_definition};
use crate::words::full_lines;
use f2b_base::{ActionDef, Family, NoMemory, Plain, Seq, Text};
use ini_interp::Sections;
use std::alloc::Global;

/// An action of a jail.
#[derive(Drop)]
pub(crate) struct Action {
    pub name: Text,
    /// One for both families, or one for each.
    pub lanes: Seq<ActionDef>,
}

/// The base of an action.
fn base_of(alloc: Global, name: &str) -> Result<Text, NoMemory>
    ensures { IfOk result (λ base. base ≡ base_of name.now) }
{
    let mut base = Text::from_str(alloc, "action.d/")?;
    base.push_str(name)?;
    Ok(base)
}

/// The first file of an action.
fn file_of(alloc: Global, name: &str) -> Result<Text, NoMemory>
    ensures { IfOk result (λ file. file ≡ file_of name.now) }
{
    let mut file = base_of(alloc, name)?;
    file.push_str(".conf")?;
    Ok(file)
}

/// The name of an action: its option `actname`, of which the last counts, or else the name of its files.
fn name_of(action: &Named) -> Result<Text, NoMemory>
    ensures { IfOk result (λ name. name ≡ name_of action.now) }
{
    let mut name = &action.name;
    for option in action.options.as_slice() {
        if option.0.as_str() == "actname" {
            name = &option.1;
        }
    }
    name.copy()
}

/// The lane of a family, with its commands.
pub(crate) fn lane(
    alloc: Global,
    source: &Source,
    name: &str,
    family: Family,
) -> Result<ActionDef, ConfFail>
    ensures { Gives (lane source.now name.now family) result }
{
    let start = source.written(alloc, "actionstart")?;
    let stop = source.written(alloc, "actionstop")?;
    let ban = source.written(alloc, "actionban")?;
    let unban = source.written(alloc, "actionunban")?;
    let check = source.written(alloc, "actioncheck")?;
    let timeout = source.item(alloc, "timeout", &Seconds { least: 1 }, 60)?;
    Ok(ActionDef {
        name: Text::from_str(alloc, name)?,
        family,
        start,
        stop,
        ban,
        unban,
        check,
        timeout,
    })
}

/// One lane for both families.
fn lane_of_both(alloc: Global, source: &Source, name: &str) -> Result<Seq<ActionDef>, ConfFail>
    ensures { Gives (lane_of_both source.now name.now) result }
{
    let mut lanes = Seq::new(alloc);
    let both = lane(alloc, source, name, Family::Both)?;
    lanes.push(both)?;
    Ok(lanes)
}

/// A lane for each family, of which the second reads a section of its own: the source has it then.
fn lane_of_each(alloc: Global, source: &mut Source, name: &str) -> Result<Seq<ActionDef>, ConfFail>
    ensures lanes { Gives (lane_of_each source.old name.now) result }
    ensures source { OnOk result (source.new ≡ for_inet6 source.old) }
{
    let mut lanes = Seq::new(alloc);
    let inet4 = lane(alloc, source, name, Family::Inet4)?;
    lanes.push(inet4)?;
    for_inet6(alloc, source)?;
    let inet6 = lane(alloc, source, name, Family::Inet6)?;
    lanes.push(inet6)?;
    Ok(lanes)
}

/// Whether the files of an action come to a section that IPv6 alone reads.
fn has_inet6(alloc: Global, merged: &Sections) -> Result<bool, NoMemory>
    ensures { IfOk result (λ has. has ≡ is_among (section_names merged.now) inet6_section) }
{
    let names = section_names(alloc, merged)?;
    Ok(is_among(names.as_slice(), "Init?family=inet6"))
}

/// One lane for both families, or one for each. Of the source the scope alone may be another one then.
fn lanes_in(
    alloc: Global,
    source: &mut Source,
    for_each: bool,
    name: &str,
) -> Result<Seq<ActionDef>, ConfFail>
    ensures lanes { Gives (if for_each then lane_of_each source.old name.now else lane_of_both source.old name.now) result }
    ensures scope { OnOk result (source.new ≡ record source.old { scope = source.new.scope }) }
{
    if for_each {
        lane_of_each(alloc, source, name)
    } else {
        lane_of_both(alloc, source, name)
    }
}

/// Where the values of the action are read, whose files come to these sections.
fn source_of(
    alloc: Global,
    given: &Named,
    jail: &Source,
    merged: Sections,
) -> Result<Source, NoMemory>
    ensures { IfOk result (λ source. source ≡ of_definition (file_of given.now.name) jail.now.section given.now.options merged) }
{
    let file = file_of(alloc, given.name.as_str())?;
    of_definition(
        alloc,
        file.as_str(),
        jail.section.as_str(),
        given.options.as_slice(),
        merged,
    )
}

/// The lanes of the action with these options, whose files come to these sections, which are given back.
fn lanes_of(
    alloc: Global,
    bases: &mut MergedBases<'_, '_>,
    given: &Named,
    jail: &Source,
    merged: Sections,
    name: &str,
) -> Result<Seq<ActionDef>, ConfFail>
    requires { sections_of (bases_of bases.old) (base_of given.now.name) ≡ Ok merged }
    ensures lanes { Gives (lanes_of merged (of_definition (file_of given.now.name) jail.now.section given.now.options merged) name.now) result }
    ensures files { bases.new ≡ bases.old }
{
    let for_each = has_inet6(alloc, &merged)?;
    let mut source = source_of(alloc, given, jail, merged)?;
    let lanes = lanes_in(alloc, &mut source, for_each, name)?;
    bases.give_back(alloc, source)?;
    Ok(lanes)
}

/// Whether the name is one of those.
fn is_among(names: &[Text], name: &str) -> bool
    ensures { result ≡ is_among names.now name.now }
{
    names.iter().any(|one| name == one.as_str())
}

/// The name and the options of an action, whose files are there, and whose name none of these is.
fn named_action(
    alloc: Global,
    bases: &MergedBases<'_, '_>,
    jail: &Source,
    names: &[Text],
    line: &str,
) -> Result<Named, ConfFail>
    ensures { Gives (named_action (bases_of bases.now) jail.now names.now line.now) result }
{
    let Some(given) = read_named(alloc, line)? else {
        return Err(jail.refused(alloc, "action", ConfKind::BadOptions));
    };
    let file = file_of(alloc, given.name.as_str())?;
    if !bases.has(file.as_str()) {
        return Err(jail.missing_file(alloc, "action", file));
    }
    let name = name_of(&given)?;
    if is_among(names, name.as_str()) {
        return Err(jail.refused(alloc, "action", ConfKind::DoubleAction));
    }
    Ok(given)
}

/// The action of a line, behind those of these names.
fn action_of(
    alloc: Global,
    bases: &mut MergedBases<'_, '_>,
    jail: &Source,
    names: &[Text],
    line: &str,
) -> Result<Action, ConfFail>
    ensures defined { Gives (action_of (bases_of bases.old) jail.now names.now line.now) result }
    ensures files { bases.new ≡ bases.old }
{
    let given = named_action(alloc, bases, jail, names, line)?;
    let base = base_of(alloc, given.name.as_str())?;
    let file = file_of(alloc, given.name.as_str())?;
    let sections = bases.take(alloc, base.as_str(), file.as_str())?;
    let name = name_of(&given)?;
    let lanes = lanes_of(alloc, bases, &given, jail, sections, name.as_str())?;
    if names.len() >= MOST_ACTIONS {
        return Err(jail.refused(alloc, "action", ConfKind::TooMany));
    }
    Ok(Action { name, lanes })
}

/// Adds the lanes of an action.
fn push_lanes(all: &mut Seq<ActionDef>, lanes: &[ActionDef]) -> Result<(), NoMemory>
    ensures { OnOk result (all.new ≡ all.old ++ lanes.now) }
{
    for lane in lanes {
        all.push(lane.copy()?)?;
    }
    Ok(())
}

/// The lanes of the actions that lines list.
fn actions_in(
    alloc: Global,
    bases: &mut MergedBases<'_, '_>,
    jail: &Source,
    lines: &[Text],
) -> Result<Seq<ActionDef>, ConfFail>
    ensures defined { Gives (actions_behind (bases_of bases.old) jail.now [] lines.now) result }
    ensures files { bases.new ≡ bases.old }
{
    let mut names = Seq::new(alloc);
    let mut lanes = Seq::new(alloc);
    for line in lines {
        let action = action_of(alloc, bases, jail, names.as_slice(), line.as_str())?;
        push_lanes(&mut lanes, action.lanes.as_slice())?;
        names.push(action.name)?;
    }
    Ok(lanes)
}

/// The lanes of the actions of a jail.
pub(crate) fn actions_of(
    alloc: Global,
    bases: &mut MergedBases<'_, '_>,
    jail: &Source,
) -> Result<Seq<ActionDef>, ConfFail>
    ensures defined { Gives (actions_of (bases_of bases.old) jail.now) result }
    ensures files { bases.new ≡ bases.old }
{
    let text = jail.written(alloc, "action")?;
    let lines = full_lines(alloc, text.as_str())?;
    actions_in(alloc, bases, jail, lines.as_slice())
}
