//! What the files of a base come to, with the items that a jail, a filter or an action adds.
ghost use Rattle.std.specs.Prelude.{◌≡◌, IfOk, OnOk, codes};
ghost use Rattle.jail_conf.specs.Sources.{bases_of, section_names, sections_of, with_items, names_for, version};
ghost use Rattle.jail_conf.specs.Then.{Gives};
ghost use Rattle.jail_conf.specs.Told.{IsMergeFail};

use crate::conf_error::{ConfError, ConfFail, ConfKind};
use crate::fail::Fail;
use f2b_base::{NoMemory, Seq, Text};
use ini_interp::{FileTable, MergeError, Sections, merge_in};
use std::alloc::Global;

/// A fault of files as a refusal, which names the file alone.
fn merge_fail(alloc: Global, fault: MergeError) -> ConfFail
    ensures { IsMergeFail fault result }
{
    let (file, kind) = match fault {
        MergeError::Ini { file, error } => (file, ConfKind::Ini(error)),
        MergeError::MissingInclude { file, path } => (file, ConfKind::MissingInclude(path)),
        MergeError::IncludeLoop { file } => (file, ConfKind::IncludeLoop),
        MergeError::NoMemory => return Fail::NoMemory,
    };
    Fail::Refused(ConfError {
        file,
        section: Text::new(alloc),
        name: Text::new(alloc),
        kind,
    })
}

/// What the files of a base come to.
pub(crate) fn sections_of(
    alloc: Global,
    files: &FileTable<'_>,
    base: &str,
) -> Result<Sections, ConfFail>
    ensures { Gives (sections_of (bases_of files.now) base.now) result }
{
    match merge_in(alloc, files, base) {
        Ok(sections) => Ok(sections),
        Err(fault) => Err(merge_fail(alloc, fault)),
    }
}

/// Puts in what each scope has last: the version.
pub(crate) fn put_version(sections: &mut Sections) -> Result<(), NoMemory>
    ensures { OnOk result (sections.new ≡ with_items (codes "]name") version sections.old) }
{
    sections.put("]name", "fail2ban_version", "1.0")
}

/// Puts in the names of a jail, and the version.
pub(crate) fn put_names(sections: &mut Sections, jail: &str) -> Result<(), NoMemory>
    ensures { OnOk result (sections.new ≡ with_items (codes "]name") (names_for jail.now) sections.old) }
{
    sections.put("]name", "name", jail)?;
    sections.put("]name", "__name__", jail)?;
    put_version(sections)
}

/// The names of the sections, in order.
pub(crate) fn section_names(alloc: Global, sections: &Sections) -> Result<Seq<Text>, NoMemory>
    ensures { IfOk result (λ names. names ≡ section_names sections.now) }
{
    let mut names = Seq::new(alloc);
    // No memory holds so many sections; and so it is seen that the walk ends.
    'places: for index in 0..usize::MAX {
        let Some(name) = sections.section(index) else {
            return Ok(names);
        };
        names.push(Text::from_str(alloc, name)?)?;
    }
    Err(NoMemory)
}
