//! The items of one section, in order, and which of them was set last.
ghost use Rattle.std.specs.Prelude.{◌≡◌, [], None, IfOk, OnOk, OnErr, is_some, option_copied, option_map, slice_get, string_bytes};
ghost use Rattle.std.specs.Str.{bytes_eq, str_to_ascii_lowercase};
ghost use Rattle.ini_interp.specs.Sections.{value_of};
ghost use Rattle.ini_interp.specs.Kept.{with_item, with_more, last_value};

mod entries;

use f2b_base::{NoMemory, Text};
use indexmap::IndexMap;
use std::alloc::Global;
use std::marker::Model;

/// Whether a text is the name in ASCII lower case.
fn is_lowercase_of(text: &str, name: &str) -> bool
    ensures { result ≡ bytes_eq (str_to_ascii_lowercase name.now) text.now }
{
    let text = text.as_bytes();
    let name = name.as_bytes();
    if text.len() != name.len() {
        return false;
    }
    for (place, &byte) in name.iter().enumerate() {
        if byte.to_ascii_lowercase() != text[place] {
            return false;
        }
    }
    true
}

/// Values under names, in order. Contracts see the pairs, and the place of the item that was set last.
#[derive(Drop)]
pub(crate) struct Items {
    map: IndexMap<String, Text>,
    last: Option<usize>,
}

impl Model for Items {
    ghost use Rattle.ini_interp.specs.Kept.{Kept};
    ghost use Rattle.ini_interp.specs.Entries.{by_bytes};

    ghost Value = { Kept };

    ghost view = { λ i. record { items = by_bytes i.map.entries; last = i.last } };
}

impl Items {
    /// No items yet. Takes no memory.
    pub(crate) fn new(alloc: Global) -> Items
        ensures { result ≡ record { items = []; last = None } }
    {
        Items {
            map: IndexMap::new(alloc),
            last: None,
        }
    }

    /// The value under the name, which may be in any case.
    pub(crate) fn raw(&self, name: &str) -> Option<&str>
        ensures { option_copied result ≡ value_of (str_to_ascii_lowercase name.now) self.now.items }
    {
        if is_lowercase_of(name, name) {
            return match self.map.get(name) {
                Some(value) => Some(value.as_str()),
                None => None,
            };
        }
        for index in 0..self.map.len() {
            let (kept, value) = self.map.get_index(index)?;
            if is_lowercase_of(kept.as_str(), name) {
                return Some(value.as_str());
            }
        }
        None
    }

    /// The name at the place, from 0.
    pub(crate) fn name(&self, index: usize) -> Option<&str>
        ensures { option_copied result ≡ option_map (λ e. e.0) (slice_get self.now.items index) }
    {
        match self.map.get_index(index) {
            Some((name, _)) => Some(name.as_str()),
            None => None,
        }
    }

    /// Sets the value under the name, which is in lower case. An error changes nothing.
    pub(crate) fn set(&mut self, name: String, value: Text) -> Result<(), NoMemory>
        ensures ok { OnOk result (self.new ≡ with_item (string_bytes name) value self.old) }
        ensures err { OnErr result (self.new ≡ self.old) }
    {
        let (place, _) = self.map.insert_full(name, value)?;
        self.last = Some(place);
        Ok(())
    }

    /// Adds LF and the text to the value that was set last, and says whether there is one.
    pub(crate) fn extend(&mut self, text: &str) -> Result<bool, NoMemory>
        ensures found { IfOk result (λ found. found ≡ is_some (last_value self.old)) }
        ensures ok { OnOk result (self.new ≡ with_more text.now self.old) }
    {
        let Some(place) = self.last else {
            return Ok(false);
        };
        let Some(value) = self.map.get_index_mut(place) else {
            return Ok(false);
        };
        value.push_str("\n")?;
        value.push_str(text)?;
        Ok(true)
    }
}
