//! The sources of the server, of a jail, and of a filter or an action.
ghost use Rattle.std.specs.Prelude.{◌≡◌, ◌++◌, ◌∷◌, [], codes, IfOk, OnOk};
ghost use Rattle.jail_conf.specs.Sources.{with_items, with_options, percents_doubled, in_definition, for_inet6, of_server, of_jail, of_definition};

use crate::sections::{put_names, put_version};
use crate::source::Source;
use crate::words::split;
use f2b_base::{NoMemory, Seq, Text};
use ini_interp::Sections;
use std::alloc::Global;

/// Puts items into a section.
pub(crate) fn put_items(
    sections: &mut Sections,
    section: &str,
    items: &[(Text, Text)],
) -> Result<(), NoMemory>
    ensures { OnOk result (sections.new ≡ with_items section.now items.now sections.old) }
{
    for item in items {
        sections.put(section, item.0.as_str(), item.1.as_str())?;
    }
    Ok(())
}

/// The text with each percent sign written twice, so that it means itself.
fn percents_doubled(alloc: Global, text: &str) -> Result<Text, NoMemory>
    ensures { IfOk result (λ doubled. doubled ≡ percents_doubled text.now) }
{
    let mut doubled = Text::new(alloc);
    let mut left = text;
    'percents: while let Some((part, _, rest)) = split(left, "%") {
        doubled.push_str(part)?;
        doubled.push_str("%%")?;
        left = rest;
    }
    doubled.push_str(left)?;
    Ok(doubled)
}

/// Puts in the options that a jail gives.
fn put_options(
    alloc: Global,
    sections: &mut Sections,
    options: &[(Text, Text)],
) -> Result<(), NoMemory>
    ensures { OnOk result (sections.new ≡ with_options options.now sections.old) }
{
    for option in options {
        let raw = percents_doubled(alloc, option.1.as_str())?;
        sections.put("]options", option.0.as_str(), raw.as_str())?;
    }
    Ok(())
}

/// Adds the name of a section.
fn push_name(alloc: Global, scope: &mut Seq<Text>, name: &str) -> Result<(), NoMemory>
    ensures { OnOk result (scope.new ≡ scope.old ++ name.now ∷ []) }
{
    scope.push(Text::from_str(alloc, name)?)
}

/// Adds the sections in which the values of each filter and each action are looked for.
fn push_definition(alloc: Global, scope: &mut Seq<Text>) -> Result<(), NoMemory>
    ensures { OnOk result (scope.new ≡ scope.old ++ in_definition) }
{
    push_name(alloc, scope, "Init")?;
    push_name(alloc, scope, "Definition")?;
    push_name(alloc, scope, "DEFAULT")?;
    push_name(alloc, scope, "]name")
}

/// The items of the server.
pub(crate) fn of_server(alloc: Global, merged: Sections) -> Result<Source, NoMemory>
    ensures { IfOk result (λ source. source ≡ of_server merged) }
{
    let mut sections = merged;
    put_version(&mut sections)?;
    let mut scope = Seq::new(alloc);
    push_name(alloc, &mut scope, "Definition")?;
    push_name(alloc, &mut scope, "DEFAULT")?;
    push_name(alloc, &mut scope, "]name")?;
    Ok(Source {
        file: Text::from_str(alloc, "fail2ban.conf")?,
        section: Text::from_str(alloc, "Definition")?,
        sections,
        scope,
        tags: false,
    })
}

/// The items of a jail.
pub(crate) fn of_jail(alloc: Global, merged: Sections, jail: &str) -> Result<Source, NoMemory>
    ensures { IfOk result (λ source. source ≡ of_jail merged jail.now) }
{
    let mut sections = merged;
    put_names(&mut sections, jail)?;
    let mut scope = Seq::new(alloc);
    push_name(alloc, &mut scope, jail)?;
    push_name(alloc, &mut scope, "DEFAULT")?;
    push_name(alloc, &mut scope, "]name")?;
    Ok(Source {
        file: Text::from_str(alloc, "jail.conf")?,
        section: Text::from_str(alloc, jail)?,
        sections,
        scope,
        tags: false,
    })
}

/// The items of a filter or an action, with the options that a jail gives.
pub(crate) fn of_definition(
    alloc: Global,
    file: &str,
    jail: &str,
    options: &[(Text, Text)],
    merged: Sections,
) -> Result<Source, NoMemory>
    ensures { IfOk result (λ source. source ≡ of_definition file.now jail.now options.now merged) }
{
    let mut sections = merged;
    put_names(&mut sections, jail)?;
    put_options(alloc, &mut sections, options)?;
    let mut scope = Seq::new(alloc);
    push_name(alloc, &mut scope, "]options")?;
    push_definition(alloc, &mut scope)?;
    Ok(Source {
        file: Text::from_str(alloc, file)?,
        section: Text::from_str(alloc, jail)?,
        sections,
        scope,
        tags: true,
    })
}

/// Adds the section that IPv6 alone reads.
pub(crate) fn for_inet6(alloc: Global, source: &mut Source) -> Result<(), NoMemory>
    ensures { OnOk result (source.new ≡ for_inet6 source.old) }
{
    let mut scope = Seq::new(alloc);
    push_name(alloc, &mut scope, "]options")?;
    push_name(alloc, &mut scope, "Init?family=inet6")?;
    push_definition(alloc, &mut scope)?;
    source.scope = scope;
    Ok(())
}
