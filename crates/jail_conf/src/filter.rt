//! The filter of a jail.
ghost use Rattle.std.specs.Prelude.{◌≡◌, IfOk};
ghost use Rattle.jail_conf.specs.Jails.{base_of, file_of, no_filter, known_of, named_filter, filter_of};
ghost use Rattle.jail_conf.specs.MergedBases.{given_back, IsOfBase};
ghost use Rattle.jail_conf.specs.Sources.{bases_of};
ghost use Rattle.jail_conf.specs.Then.{Gives};

use crate::conf_error::{ConfFail, ConfKind};
use crate::merged_bases::MergedBases;
use crate::options::read_named;
use crate::source::Source;
use crate::sources::of_definition;
use crate::words::trim;
use f2b_base::{NoMemory, Seq, Text};
use ini_interp::Sections;
use std::alloc::Global;

/// What a jail takes from its filter.
#[derive(Drop)]
pub(crate) struct Filter {
    /// Where its values are read.
    pub source: Source,
    /// The items that it sets, with their raw values.
    pub known: Seq<(Text, Text)>,
}

/// The base of a filter.
fn base_of(alloc: Global, name: &str) -> Result<Text, NoMemory>
    ensures { IfOk result (λ base. base ≡ base_of name.now) }
{
    let mut base = Text::from_str(alloc, "filter.d/")?;
    base.push_str(name)?;
    Ok(base)
}

/// The first file of a filter.
fn file_of(alloc: Global, name: &str) -> Result<Text, NoMemory>
    ensures { IfOk result (λ file. file ≡ file_of name.now) }
{
    let mut file = base_of(alloc, name)?;
    file.push_str(".conf")?;
    Ok(file)
}

/// The filter of a jail without one: it has no items, and no tags.
fn no_filter(alloc: Global, jail: &str) -> Result<Filter, NoMemory>
    ensures { IfOk result (λ filter. filter ≡ no_filter jail.now) }
{
    Ok(Filter {
        source: Source {
            file: Text::new(alloc),
            section: Text::from_str(alloc, jail)?,
            sections: Sections::new(alloc),
            scope: Seq::new(alloc),
            tags: false,
        },
        known: Seq::new(alloc),
    })
}

/// The items of [Definition], each with its raw value.
fn known_of(alloc: Global, sections: &Sections) -> Result<Seq<(Text, Text)>, NoMemory>
    ensures { IfOk result (λ known. known ≡ known_of sections.now) }
{
    let mut known = Seq::new(alloc);
    // No memory holds so many items; and so it is seen that the walk ends.
    'places: for index in 0..usize::MAX {
        let Some(name) = sections.item("Definition", index) else {
            return Ok(known);
        };
        let raw = sections.raw("Definition", name).unwrap_or("");
        known.push((Text::from_str(alloc, name)?, Text::from_str(alloc, raw)?))?;
    }
    Err(NoMemory)
}

/// The filter that a text names, with options.
fn named_filter(
    alloc: Global,
    bases: &mut MergedBases<'_, '_>,
    jail: &Source,
    text: &str,
) -> Result<Filter, ConfFail>
    ensures defined { Gives (named_filter (bases_of bases.old) jail.now text.now) result }
    ensures files { bases.new ≡ bases.old }
    ensures of_base { IfOk result (λ filter. IsOfBase bases.old filter.source.file (given_back filter.source)) }
{
    let Some(given) = read_named(alloc, text)? else {
        return Err(jail.refused(alloc, "filter", ConfKind::BadOptions));
    };
    let file = file_of(alloc, given.name.as_str())?;
    if !bases.has(file.as_str()) {
        return Err(jail.missing_file(alloc, "filter", file));
    }
    let base = base_of(alloc, given.name.as_str())?;
    let sections = bases.take(alloc, base.as_str(), file.as_str())?;
    let known = known_of(alloc, &sections)?;
    let source = of_definition(
        alloc,
        file.as_str(),
        jail.section.as_str(),
        given.options.as_slice(),
        sections,
    )?;
    Ok(Filter { source, known })
}

/// What a jail takes from its filter.
pub(crate) fn filter_of(
    alloc: Global,
    bases: &mut MergedBases<'_, '_>,
    jail: &Source,
) -> Result<Filter, ConfFail>
    ensures defined { Gives (filter_of (bases_of bases.old) jail.now) result }
    ensures files { bases.new ≡ bases.old }

    // So it may be given back. A jail without a filter has none that anything could be kept under.
    ensures of_base { IfOk result (λ filter. IsOfBase bases.old filter.source.file (given_back filter.source)) }
{
    let text = jail.written(alloc, "filter")?;
    if trim(text.as_str()).is_empty() {
        let filter = no_filter(alloc, jail.section.as_str())?;
        return Ok(filter);
    }
    named_filter(alloc, bases, jail, text.as_str())
}
