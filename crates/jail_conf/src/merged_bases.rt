//! What bases come to, each merged once.
ghost use Rattle.std.specs.Prelude.{◌≡◌, ◌++◌, codes, is_some, OnOk};
ghost use Rattle.ini_interp.specs.Sections.{value_of};
ghost use Rattle.jail_conf.specs.MergedBases.{given_back, IsOfBase};
ghost use Rattle.jail_conf.specs.Sources.{bases_of, sections_of};
ghost use Rattle.jail_conf.specs.Then.{Gives};

use crate::conf_error::ConfFail;
use crate::sections::sections_of;
use crate::source::Source;
use f2b_base::NoMemory;
use ini_interp::{FileTable, Sections};
use std::alloc::Global;
use std::collections::BTreeMap;
use std::marker::Model;

/// The files of a tree, and what bases came to that were merged before. Contracts see the files alone: what is kept only saves time.
#[derive(Drop)]
pub(crate) struct MergedBases<'a, 'b> {
    files: &'a FileTable<'b>,

    /// Under the first file of a base, what all its files come to.
    kept: BTreeMap<String, Sections>,
}

impl<'a, 'b> Model for MergedBases<'a, 'b> {
    ghost use Rattle.ini_interp.specs.Merges.{Files};
    ghost use Rattle.jail_conf.specs.MergedBases.{AreOfBases};

    ghost Value = { Files };

    ghost view = { λ b. b.files.now };

    ghost invariant = { λ b. AreOfBases b.files.now b.kept.entries };
}

impl<'a, 'b> MergedBases<'a, 'b> {
    /// The files, before any base was merged. Takes no memory.
    pub(crate) fn new(alloc: Global, files: &'a FileTable<'b>) -> MergedBases<'a, 'b>
        ensures { result ≡ files.now }
    {
        MergedBases {
            files,
            kept: BTreeMap::new(alloc),
        }
    }

    /// Whether there is a file of this path. Takes no memory.
    pub(crate) fn has(&self, path: &str) -> bool
        ensures { result ≡ is_some (value_of path.now self.now) }
    {
        self.files.has(path)
    }

    /// What the files of a base come to, of which `file` is the first. Hand a filter or an action that was made of it to `give_back`,
    /// so that the next jail that names it need not merge.
    pub(crate) fn take(
        &mut self,
        alloc: Global,
        base: &str,
        file: &str,
    ) -> Result<Sections, ConfFail>
        requires { file.now ≡ base.now ++ codes ".conf" }
        ensures merged { Gives (sections_of (bases_of self.old) base.now) result }
        ensures files { self.new ≡ self.old }
    {
        match self.kept.remove(file) {
            Some(sections) => Ok(sections),
            None => sections_of(alloc, self.files, base),
        }
    }

    /// Keeps what the files of a filter or an action come to, without what was put in for a jail.
    pub(crate) fn give_back(&mut self, alloc: Global, source: Source) -> Result<(), NoMemory>
        requires { IsOfBase self.old source.file (given_back source) }
        ensures { self.new ≡ self.old }
    {
        let mut sections = source.sections;
        sections.clear("]options");
        sections.clear("]name");
        let file = String::from_str(alloc, source.file.as_str())?;
        self.kept.insert(file, sections)?;
        Ok(())
    }
}
