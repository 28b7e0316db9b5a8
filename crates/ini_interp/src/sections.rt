//! Sections in order.
ghost use Rattle.std.specs.Prelude.{◌≡◌, [], IfOk, OnOk, OnErr, option_copied};
ghost use Rattle.ini_interp.specs.Sections.{raw, with_raw, without, opened, section_at, item_at};

mod entries;

use crate::items::Items;
use f2b_base::{NoMemory, Text};
use indexmap::IndexMap;
use std::alloc::Global;
use std::marker::Model;

/// Items under the names of sections. Contracts see them in order.
#[derive(Drop)]
pub struct Sections {
    map: IndexMap<String, Items>,
}

impl Model for Sections {
    ghost use Rattle.std.specs.Prelude.{ℕ, List};
    ghost use Rattle.ini_interp.specs.Entries.{by_bytes};
    ghost use Rattle.ini_interp.specs.Kept.{without_last};

    ghost Value = { List (List ℕ × List (List ℕ × List ℕ)) };

    ghost view = { λ s. without_last (by_bytes s.map.entries) };
}

impl Sections {
    /// No sections yet. Takes no memory.
    pub fn new(alloc: Global) -> Sections
        ensures { result ≡ [] }
    {
        Sections {
            map: IndexMap::new(alloc),
        }
    }

    /// The name of the section at that place, from 0, or `None` where there are not so many. Takes no memory.
    pub fn section(&self, index: usize) -> Option<&str>
        ensures { option_copied result ≡ section_at self.now index }
    {
        match self.map.get_index(index) {
            Some((name, _)) => Some(name.as_str()),
            None => None,
        }
    }

    /// The raw value of an item, or `None` where the section or the item is not there. The name of the section is compared as
    /// written, that of the item in ASCII lower case. Takes no memory. A name that is not in lower case is compared with each item's.
    pub fn raw(&self, section: &str, name: &str) -> Option<&str>
        ensures { option_copied result ≡ raw self.now section.now name.now }
    {
        match self.map.get(section) {
            Some(items) => items.raw(name),
            None => None,
        }
    }

    /// What `raw` says, in a time that does not grow with the number of items, whatever the case of the name.
    pub fn find(&self, alloc: Global, section: &str, name: &str) -> Result<Option<&str>, NoMemory>
        ensures { IfOk result (λ found. option_copied found ≡ raw self.now section.now name.now) }
    {
        let name = name.to_ascii_lowercase(alloc)?;
        Ok(self.raw(section, name.as_str()))
    }

    /// The name, in ASCII lower case, of the item at that place of that section, from 0, or `None` where the section is not there
    /// or has not so many items. Takes no memory.
    pub fn item(&self, section: &str, index: usize) -> Option<&str>
        ensures { option_copied result ≡ item_at self.now section.now index }
    {
        match self.map.get(section) {
            Some(items) => items.name(index),
            None => None,
        }
    }

    /// Adds the section behind the others where it is not there. An error changes nothing.
    pub(crate) fn open(&mut self, section: &str) -> Result<(), NoMemory>
        ensures ok { OnOk result (self.new ≡ opened section.now self.old) }
        ensures err { OnErr result (self.new ≡ self.old) }
    {
        if self.map.contains_key(section) {
            return Ok(());
        }
        let alloc = *self.map.allocator();
        let name = String::from_str(alloc, section)?;
        self.map.insert(name, Items::new(alloc))?;
        Ok(())
    }

    /// Sets the raw value of an item, whose name is kept in ASCII lower case. A new section or a new item goes last, and one that
    /// is there keeps its place. An error changes nothing.
    pub fn put(&mut self, section: &str, name: &str, value: &str) -> Result<(), NoMemory>
        ensures ok { OnOk result (self.new ≡ with_raw self.old section.now name.now value.now) }
        ensures err { OnErr result (self.new ≡ self.old) }
    {
        let alloc = *self.map.allocator();
        let name = name.to_ascii_lowercase(alloc)?;
        let value = Text::from_str(alloc, value)?;
        if let Some(items) = self.map.get_mut(section) {
            return items.set(name, value);
        }
        let section = String::from_str(alloc, section)?;
        let mut items = Items::new(alloc);
        items.set(name, value)?;
        self.map.insert(section, items)?;
        Ok(())
    }

    /// Takes the section out, with its items. The others keep their order. Takes no memory.
    pub fn clear(&mut self, section: &str)
        ensures { self.new ≡ without section.now self.old }
    {
        let _ = self.map.shift_remove(section);
    }
}

impl From<IndexMap<String, Items>> for Sections {
    ghost use Rattle.std.specs.Prelude.{◌≡◌};
    ghost use Rattle.ini_interp.specs.Entries.{by_bytes};
    ghost use Rattle.ini_interp.specs.Kept.{without_last};

    ghost from_gives = { λ map sections. sections ≡ without_last (by_bytes map.entries) };

    fn from(map: IndexMap<String, Items>) -> Sections {
        Sections { map }
    }
}
