//! Reading one configuration file.
ghost use Rattle.std.specs.Prelude.{◌≡◌, [], None, Some, Ok, Err, IfOk, IfErr, OnOk, MatchResult, is_some, map};
ghost use Rattle.std.specs.Str.{str_to_ascii_lowercase};
ghost use Rattle.std.specs.Str.Lines.{lines};
ghost use Rattle.ini_interp.specs.AreSections.{AreSections};
ghost use Rattle.ini_interp.specs.Files.{file_of, meaning_of, UnlessNoMemory, IsFirstIllFormed};
ghost use Rattle.ini_interp.specs.Kept.{with_open, with_changed, with_item, with_more, with_line, open_kept, open_value, fault_of, without_last};
ghost use Rattle.ini_interp.specs.Lines.{form_of};
ghost use Rattle.ini_interp.specs.Seen.{form};

use crate::error::IniError;
use crate::items::Items;
use crate::line::Line;
use crate::sections::Sections;
use f2b_base::{NoMemory, Text};
use indexmap::IndexMap;
use std::alloc::Global;
use std::marker::Model;

/// The sections that were read so far, and the place of the one that is open.
#[derive(Drop)]
struct Reader {
    map: IndexMap<String, Items>,
    current: Option<usize>,
}

impl Model for Reader {
    ghost use Rattle.ini_interp.specs.Entries.{by_bytes};
    ghost use Rattle.ini_interp.specs.Kept.{Read};

    ghost Value = { Read };

    ghost view = { λ r. record { sections = by_bytes r.map.entries; at = r.current } };
}

impl Reader {
    fn new(alloc: Global) -> Reader
        ensures { result ≡ record { sections = []; at = None } }
    {
        Reader {
            map: IndexMap::new(alloc),
            current: None,
        }
    }

    /// Opens the section, which goes last where it is new.
    fn open(&mut self, section: &str) -> Result<(), NoMemory>
        ensures { OnOk result (self.new ≡ with_open section.now self.old) }
    {
        if let Some(place) = self.map.get_index_of(section) {
            self.current = Some(place);
            return Ok(());
        }
        let alloc = *self.map.allocator();
        let name = String::from_str(alloc, section)?;
        let (place, _) = self.map.insert_full(name, Items::new(alloc))?;
        self.current = Some(place);
        Ok(())
    }

    /// Sets the value of an item of the open section, and says whether one is open.
    fn set(&mut self, name: &str, value: &str) -> Result<bool, NoMemory>
        ensures found { IfOk result (λ found. found ≡ is_some (open_kept self.old)) }
        ensures ok { OnOk result (self.new ≡ with_changed (with_item (str_to_ascii_lowercase name.now) value.now) self.old) }
    {
        let alloc = *self.map.allocator();
        let name = name.to_ascii_lowercase(alloc)?;
        let value = Text::from_str(alloc, value)?;
        let Some(place) = self.current else {
            return Ok(false);
        };
        let Some(items) = self.map.get_index_mut(place) else {
            return Ok(false);
        };
        items.set(name, value)?;
        Ok(true)
    }

    /// Continues the value that was set last in the open section, and says whether there is one.
    fn extend(&mut self, text: &str) -> Result<bool, NoMemory>
        ensures found { IfOk result (λ found. found ≡ is_some (open_value self.old)) }
        ensures ok { OnOk result (self.new ≡ with_changed (with_more text.now) self.old) }
    {
        let Some(place) = self.current else {
            return Ok(false);
        };
        let Some(items) = self.map.get_index_mut(place) else {
            return Ok(false);
        };
        items.extend(text)
    }

    /// Reads one more line, which has this number.
    fn read(&mut self, line: Line<'_>, number: u64) -> Result<(), IniError>
        ensures ok { OnOk result (self.new ≡ with_line (form line.entry) self.old) }
        ensures fault { MatchResult result (λ _. fault_of (form line.entry) number self.old ≡ None) (λ e. UnlessNoMemory e (fault_of (form line.entry) number self.old ≡ Some e)) }
    {
        match line {
            Line::Skipped => Ok(()),
            Line::Header(section) => Ok(self.open(section)?),
            Line::Continuation(text) => {
                if self.extend(text)? {
                    Ok(())
                } else {
                    Err(IniError::Indent(number))
                }
            }
            Line::Item(name, value) => {
                if self.set(name, value)? {
                    Ok(())
                } else {
                    Err(IniError::NoSection(number))
                }
            }
            Line::Broken => Err(IniError::NoDelimiter(number)),
        }
    }
}

/// Reads the lines of a text.
fn read_text(alloc: Global, text: &str) -> Result<Sections, IniError>
    ensures sections { IfOk result (λ sections. meaning_of (map form_of (lines text.now)) ≡ Ok sections) }
    ensures fault { IfErr result (λ e. UnlessNoMemory e (meaning_of (map form_of (lines text.now)) ≡ Err e)) }
{
    let mut reader = Reader::new(alloc);
    let mut number: u64 = 0;
    for line in text.lines() {
        number += 1;
        reader.read(Line::read(line), number)?;
    }
    Ok(Sections::from(reader.map))
}

/// What the bytes of a configuration file mean, in time proportional to their number.
///
/// The bytes are UTF-8, and a blank is a space or a tab. A line ends at LF, and one CR before it is dropped. Of each line:
///
/// 1. One of blanks says nothing, nor does one whose first byte that is no blank is `#` or `;`. In any other what follows from a `;` on
///    that has a blank before it is dropped, then the blanks at the end.
/// 2. One that begins with a blank continues the value of the item that was read last in its section, joined by LF.
/// 3. One that begins with `[` and holds `]` opens the section named between that `[` and the first `]`. A section that is named again
///    goes on.
/// 4. Any other is an item, whose name and value the first `=` or `:` divides; blanks around them are dropped. The name is kept in ASCII
///    lower case. A later value of a name replaces an earlier one, and the item keeps its place.
///
/// The error is the first fault: [`IniError::NotUtf8`] before all others, which come by line, from 1. A line without a name and a
/// divider is no item, so it is [`IniError::NoDelimiter`] also where no section is open.
pub fn read_file(alloc: Global, bytes: &[u8]) -> Result<Sections, IniError>
    ensures sections { IfOk result (λ sections. file_of bytes.now ≡ Ok sections) }
    ensures fault { IfErr result (λ e. UnlessNoMemory e (file_of bytes.now ≡ Err e)) }
    ensures place { IfErr result (IsFirstIllFormed bytes.now) }

    // Of the names in it.
    ensures named { IfOk result AreSections }
{
    match str::from_utf8(bytes) {
        Ok(text) => read_text(alloc, text),
        Err(error) => Err(IniError::NotUtf8(error.valid_up_to() as u64)),
    }
}
