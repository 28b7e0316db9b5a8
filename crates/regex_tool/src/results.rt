//! What came of the lines of a log.
ghost use Rattle.std.specs.Prelude.{◌≡◌, [], IfOk, OnOk};
ghost use Rattle.regex_tool.specs.Counts.{counted, counts_of};
ghost use Rattle.regex_tool.specs.Notes.{no_notes, notes_after};
ghost use Rattle.regex_tool.specs.Sections.{no_sections, sections_after};

use crate::counts::Counts;
use crate::notes::DateNotes;
use crate::sections::Sections;
use crate::seen::Seen;
use crate::shows::Shows;
use f2b_base::{JailDef, NoMemory};
use log_follow::Line;
use std::alloc::Global;

/// What came of the lines so far.
#[derive(Drop)]
pub(crate) struct Results {
    pub counts: Counts,
    pub sections: Sections,
    pub notes: DateNotes,
}

impl Results {
    /// No line yet.
    pub(crate) fn new(alloc: Global, jail: &JailDef, shows: Shows) -> Result<Results, NoMemory>
        ensures counts { IfOk result (λ results. results.counts ≡ counts_of jail.now []) }
        ensures sections { IfOk result (λ results. results.sections ≡ no_sections shows) }
        ensures notes { IfOk result (λ results. results.notes ≡ no_notes) }
    {
        Ok(Results {
            counts: Counts::new(alloc, jail)?,
            sections: Sections::new(alloc, shows),
            notes: DateNotes::new(),
        })
    }

    /// Counts a line, shows it, and notes its date. After an error nothing is told of any of these.
    pub(crate) fn add(&mut self, alloc: Global, line: &Line, seen: &Seen) -> Result<(), NoMemory>
        ensures counts { OnOk result (self.new.counts ≡ counted self.old.counts seen.now.finding) }
        ensures sections { OnOk result (self.new.sections ≡ sections_after self.old.sections line.now seen.now) }
        ensures notes { OnOk result (self.new.notes ≡ notes_after self.old.notes line.now seen.now) }
    {
        self.counts.add(seen.finding)?;
        self.sections.add(alloc, line, seen)?;
        self.notes.add(line, seen)
    }
}
