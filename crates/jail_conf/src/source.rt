//! Where values are read.
ghost use Rattle.std.specs.Prelude.{◌≡◌, [], IfOk};
ghost use Rattle.jail_conf.specs.Readers.{as_written};
ghost use Rattle.jail_conf.specs.Items.{item};
ghost use Rattle.jail_conf.specs.Sources.{text_in, found, told, or_told, own, own_or, without_file};
ghost use Rattle.jail_conf.specs.Then.{Gives};
ghost use Rattle.jail_conf.specs.Told.{IsRefusal, IsTold};

use crate::conf_error::{ConfError, ConfFail, ConfKind};
use crate::fail::Fail;
use crate::reading::{AsWritten, ReadsItem};
use f2b_base::{NoMemory, Plain, Seq, Text};
use ini_interp::{Sections, value};
use std::alloc::Global;
use tag_subst::substitute;

/// The items of a base in a scope.
#[derive(Drop)]
pub(crate) struct Source {
    /// The first file of the base, which refusals name.
    pub file: Text,
    /// The section that refusals name.
    pub section: Text,
    pub sections: Sections,
    /// The sections in which a name is looked for, in their order.
    pub scope: Seq<Text>,
    /// Whether static tags in a value are replaced.
    pub tags: bool,
}

impl Source {
    /// The text of an item, if it is there, with its static tags replaced by items of `tags`.
    fn text(&self, alloc: Global, tags: &Source, name: &str) -> Result<Option<Text>, Fail<ConfKind>>
        ensures { Gives (text_in tags.now self.now name.now) result }
    {
        let Some(text) = value(alloc, &self.sections, &self.scope, name)? else {
            return Ok(None);
        };
        if !tags.tags {
            return Ok(Some(text));
        }
        let text = substitute(alloc, text.as_str(), &tags.sections, &tags.scope)?;
        Ok(Some(text))
    }

    /// What the text of an item is read as, if it is there.
    fn found<A: Drop, R: ReadsItem<A>>(
        &self,
        alloc: Global,
        tags: &Source,
        name: &str,
        reading: &R,
    ) -> Result<Option<A>, Fail<ConfKind>>
        ensures { Gives (found tags.now self.now name.now (R.reading reading.now)) result }
    {
        let Some(text) = self.text(alloc, tags, name)? else {
            return Ok(None);
        };
        let value = reading.read(alloc, text.as_str())?;
        Ok(Some(value))
    }

    /// The refusal of an item, of this kind.
    fn refusal(&self, alloc: Global, name: &str, kind: ConfKind) -> Result<ConfError, NoMemory>
        ensures { IfOk result (λ error. error ≡ told self.now name.now kind) }
    {
        Ok(ConfError {
            file: self.file.copy()?,
            section: self.section.copy()?,
            name: Text::from_str(alloc, name)?,
            kind,
        })
    }

    /// The refusal of an item, of this kind, or want of memory.
    pub(crate) fn refused(&self, alloc: Global, name: &str, kind: ConfKind) -> ConfFail
        ensures { IsRefusal (told self.now name.now kind) result }
    {
        match self.refusal(alloc, name, kind) {
            Ok(error) => Fail::Refused(error),
            Err(NoMemory) => Fail::NoMemory,
        }
    }

    /// The refusal of an item whose file is not there, or want of memory.
    pub(crate) fn missing_file(&self, alloc: Global, name: &str, file: Text) -> ConfFail
        ensures { IsRefusal (without_file self.now name.now file) result }
    {
        match self.refusal(alloc, name, ConfKind::MissingFile) {
            Ok(error) => Fail::Refused(ConfError {
                file,
                section: error.section,
                name: error.name,
                kind: error.kind,
            }),
            Err(NoMemory) => Fail::NoMemory,
        }
    }

    /// What is wrong with an item, told with its place.
    fn told(&self, alloc: Global, name: &str, fail: Fail<ConfKind>) -> ConfFail
        ensures { IsTold self.now name.now fail result }
    {
        match fail {
            Fail::Refused(kind) => self.refused(alloc, name, kind),
            Fail::NoMemory => Fail::NoMemory,
        }
    }

    /// What an item is read as, if it is there, with tags of another source.
    fn looked_up<A: Drop, R: ReadsItem<A>>(
        &self,
        alloc: Global,
        tags: &Source,
        name: &str,
        reading: &R,
    ) -> Result<Option<A>, ConfFail>
        ensures { Gives (or_told self.now name.now (found tags.now self.now name.now (R.reading reading.now))) result }
    {
        match self.found(alloc, tags, name, reading) {
            Ok(value) => Ok(value),
            Err(fail) => Err(self.told(alloc, name, fail)),
        }
    }

    /// What an item comes to, or the default where it is not there.
    pub(crate) fn item<A: Drop, R: ReadsItem<A>>(
        &self,
        alloc: Global,
        name: &str,
        reading: &R,
        default: A,
    ) -> Result<A, ConfFail>
        ensures { Gives (own self.now (item name.now (R.reading reading.now) default)) result }
    {
        let value = self.looked_up(alloc, self, name, reading)?;
        Ok(value.unwrap_or(default))
    }

    /// The list that an item comes to, which has nothing in it where the item is not there.
    pub(crate) fn list<A: Drop, R: ReadsItem<Seq<A>>>(
        &self,
        alloc: Global,
        name: &str,
        reading: &R,
    ) -> Result<Seq<A>, ConfFail>
        ensures { Gives (own self.now (item name.now (R.reading reading.now) [])) result }
    {
        self.item(alloc, name, reading, Seq::new(alloc))
    }

    /// The text of an item as it is written, which is empty where the item is not there.
    pub(crate) fn written(&self, alloc: Global, name: &str) -> Result<Text, ConfFail>
        ensures { Gives (own self.now (item name.now as_written [])) result }
    {
        self.item(alloc, name, &AsWritten, Text::new(alloc))
    }

    /// What an item of a jail comes to, or that of its filter where it is not there. Tags in it stand for items of the filter.
    pub(crate) fn item_or<A: Drop, R: ReadsItem<A>>(
        &self,
        alloc: Global,
        filter: &Source,
        name: &str,
        reading: &R,
        default: A,
    ) -> Result<A, ConfFail>
        ensures { Gives (own_or self.now filter.now (item name.now (R.reading reading.now) default)) result }
    {
        let value = self.looked_up(alloc, filter, name, reading)?;
        match value {
            Some(value) => Ok(value),
            None => filter.item(alloc, name, reading, default),
        }
    }

    /// The list that an item of a jail comes to, or that of its filter, which has nothing in it where neither is there.
    pub(crate) fn list_or<A: Drop, R: ReadsItem<Seq<A>>>(
        &self,
        alloc: Global,
        filter: &Source,
        name: &str,
        reading: &R,
    ) -> Result<Seq<A>, ConfFail>
        ensures { Gives (own_or self.now filter.now (item name.now (R.reading reading.now) [])) result }
    {
        self.item_or(alloc, filter, name, reading, Seq::new(alloc))
    }
}
