//! The values of the items that static tags name.
ghost use Rattle.std.specs.Prelude.{◌≡◌, ◌≢◌, ◌∷◌, IfOk, IfErr};
ghost use Rattle.ini_interp.specs.Values.{name_of};
ghost use Rattle.tag_subst.specs.Values.{without_options, value_of_section, tag_value};

use f2b_base::{NoMemory, Plain, Seq, Text};
use ini_interp::{InterpError, Sections, value};
use std::alloc::Global;

/// The name of the item that a tag names.
pub(crate) fn name_of(tag: &str) -> &str
    ensures { result.now ≡ name_of tag.now }
{
    match tag.split_once('/') {
        Some((_, name)) => name,
        None => tag,
    }
}

/// The scope without the options that a jail gives.
fn without_options(alloc: Global, scope: &[Text]) -> Result<Seq<Text>, NoMemory>
    ensures { IfOk result (λ known. known ≡ without_options scope.now) }
{
    let mut known = Seq::new(alloc);
    for section in scope {
        if section.as_str() != "]options" {
            known.push(section.copy()?)?;
        }
    }
    Ok(known)
}

/// The scope with this section before all others.
fn with_first(alloc: Global, section: &str, scope: &[Text]) -> Result<Seq<Text>, NoMemory>
    ensures { IfOk result (λ all. all ≡ section.now ∷ scope.now) }
{
    let mut all = Seq::new(alloc);
    all.push(Text::from_str(alloc, section)?)?;
    for other in scope {
        all.push(other.copy()?)?;
    }
    Ok(all)
}

/// The value that a name has in a section, if it has one there.
fn value_of_section(
    alloc: Global,
    sections: &Sections,
    scope: &[Text],
    section: &str,
    name: &str,
) -> Result<Option<Text>, InterpError>
    ensures ok { IfOk result (λ value. value_of_section sections.now scope.now section.now name.now ≡ Ok value) }
    ensures fault { IfErr result (λ fault. fault ≢ InterpError.NoMemory
        → value_of_section sections.now scope.now section.now name.now ≡ Err fault) }
{
    if sections.find(alloc, section, name)?.is_none() {
        return Ok(None);
    }
    value(alloc, sections, &with_first(alloc, section, scope)?, name)
}

/// The value of the item that a tag names, if it has one.
pub(crate) fn tag_value(
    alloc: Global,
    sections: &Sections,
    scope: &Seq<Text>,
    tag: &str,
) -> Result<Option<Text>, InterpError>
    ensures ok { IfOk result (λ value. tag_value sections.now scope.now tag.now ≡ Ok value) }
    ensures fault { IfErr result (λ fault. fault ≢ InterpError.NoMemory
        → tag_value sections.now scope.now tag.now ≡ Err fault) }
{
    let Some((word, name)) = tag.split_once('/') else {
        return value(alloc, sections, scope, tag);
    };
    if word == "known" {
        return value(
            alloc,
            sections,
            &without_options(alloc, scope.as_slice())?,
            name,
        );
    }
    value_of_section(alloc, sections, scope.as_slice(), word, name)
}
