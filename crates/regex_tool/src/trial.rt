//! `Trial`, what is tried on the lines of a log: a filter, and where the words want to see dates, these once more.
ghost use Rattle.std.specs.Prelude.{◌≡◌, IfOk};

use crate::search::LineSearch;
use crate::zone::Zone;
use date_detect::Dates;
use f2b_base::NoMemory;
use filter_regex::Filter;
use std::alloc::Global;
use std::marker::Model;

/// What is tried on the lines of a log, which contracts see as what is looked for in them.
#[derive(Drop)]
pub(crate) struct Trial {
    pub filter: Filter,
    /// The dates of the filter, where it is to be seen where they stand: a filter tells no more of a line than its finding.
    pub dates: Option<Dates>,
    /// How many seconds a date without a zone is ahead of UTC.
    pub zone: Zone,
}

impl Model for Trial {
    ghost use Rattle.regex_tool.specs.Logs.{Looks};

    ghost Value = { Looks };

    ghost view = { λ t. record { rules = t.filter; dates = t.dates; zone = t.zone } };
}

impl Trial {
    /// What looks into lines.
    pub(crate) fn search(&self, alloc: Global) -> Result<LineSearch<'_>, NoMemory>
        ensures { IfOk result (λ search. search ≡ self.now) }
    {
        let dates = match &self.dates {
            Some(dates) => Some(dates.searcher(alloc)?),
            None => None,
        };
        Ok(LineSearch {
            finds: self.filter.searcher(alloc)?,
            dates,
            zone: self.zone,
        })
    }
}
