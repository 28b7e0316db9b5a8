//! All lines that are shown.
ghost use Rattle.std.specs.Prelude.{◌≡◌, OnOk};
ghost use Rattle.regex_tool.specs.Sections.{kind_if, kind_of, matched_kind, no_sections, sections_after};

use crate::section::{Kind, Section};
use crate::seen::Seen;
use crate::shows::{Form, Shows};
use crate::zone::Zone;
use f2b_base::NoMemory;
use log_follow::Line;
use std::alloc::Global;

/// All lines that are shown, by their kinds.
#[derive(Drop)]
pub(crate) struct Sections {
    /// What stands in place of the report.
    pub first: Section,
    pub matched: Section,
    pub ignored: Section,
    pub missed: Section,
}

fn kind_of(form: Form) -> Kind
    ensures { result ≡ kind_of form }
{
    match form {
        Form::Report => Kind::Nothing,
        Form::Rows => Kind::Row,
        Form::Addresses => Kind::Address,
    }
}

fn kind_if(holds: bool, kind: Kind) -> Kind
    ensures { result ≡ kind_if holds kind }
{
    if holds { kind } else { Kind::Nothing }
}

/// How matched lines are shown.
fn matched_kind(detail: bool, zone: Zone) -> Kind
    ensures { result ≡ matched_kind detail zone }
{
    if detail {
        Kind::Detail(zone)
    } else {
        Kind::Matched
    }
}

impl Sections {
    /// No line yet.
    pub(crate) fn new(alloc: Global, shows: Shows) -> Sections
        ensures { result ≡ no_sections shows }
    {
        Sections {
            first: Section::new(alloc, kind_of(shows.form)),
            matched: Section::new(
                alloc,
                kind_if(shows.matched, matched_kind(shows.detail, shows.zone)),
            ),
            ignored: Section::new(alloc, kind_if(shows.ignored, Kind::Ignored)),
            missed: Section::new(alloc, kind_if(shows.missed, Kind::Missed)),
        }
    }

    /// Shows a line, wherever it is of the kind. After an error nothing is told of the texts.
    #[tactic(auto, unfolding(crate::specs::Sections::sections_after))]
    pub(crate) fn add(&mut self, alloc: Global, line: &Line, seen: &Seen) -> Result<(), NoMemory>
        ensures { OnOk result (self.new ≡ sections_after self.old line.now seen.now) }
    {
        self.first.add(alloc, line, seen)?;
        self.matched.add(alloc, line, seen)?;
        self.ignored.add(alloc, line, seen)?;
        self.missed.add(alloc, line, seen)
    }
}
