//! Searches for the dates of many lines.
ghost use Rattle.std.specs.Prelude.{◌≡◌, IfOk, IfSome};
ghost use Rattle.date_detect.specs.Dates.{date_in, LiesIn};

use crate::build::Dates;
use crate::form::FormSearch;
use f2b_base::NoMemory;
use std::alloc::Global;
use std::marker::Model;

/// A date in a line.
#[derive(Clone, Copy, Debug, PartialEq, Eq)]
pub struct Found {
    /// The offset of its first byte.
    pub start: u64,
    /// The offset behind its last byte.
    pub end: u64,
    /// The moment that it names, in seconds since 1970-01-01T00:00:00Z.
    pub secs: i64,
}

/// Searches for dates, which contracts see as the rule of the dates. Made once for many lines: what it learns at a line makes the
/// next searches faster.
#[derive(Drop)]
pub struct Searcher<'d> {
    anchored: bool,
    forms: Vec<FormSearch<'d>>,
}

impl<'d> Model for Searcher<'d> {
    ghost use Rattle.date_detect.specs.Forms.{Rule};

    ghost Value = { Rule };

    ghost view = { λ s. record { anchored = s.anchored; forms = s.forms.items } };
}

impl Dates {
    /// What searches for the dates.
    pub fn searcher(&self, alloc: Global) -> Result<Searcher<'_>, NoMemory>
        ensures { IfOk result (λ searcher. searcher ≡ self.now) }
    {
        let mut forms = Vec::new(alloc);
        for form in &self.forms {
            forms.push(form.search(alloc)?)?;
        }
        Ok(Searcher {
            anchored: self.anchored,
            forms,
        })
    }

    /// The date of one line, seen from `now` in seconds since 1970, where a date without a zone is `zone` seconds ahead of UTC.
    /// For many lines make a searcher.
    pub fn find(
        &self,
        alloc: Global,
        line: &str,
        now: u64,
        zone: i32,
    ) -> Result<Option<Found>, NoMemory>
        ensures found { IfOk result (λ found. found ≡ date_in self.now now zone line.now) }
        ensures lies { IfOk result (λ found. IfSome found (LiesIn line.now)) }
    {
        let mut searcher = self.searcher(alloc)?;
        Ok(searcher.found(line, now, zone))
    }
}

impl<'d> Searcher<'d> {
    /// The date of a line, seen from `now` in seconds since 1970, where a date without a zone is `zone` seconds ahead of UTC.
    pub fn found(&mut self, line: &str, now: u64, zone: i32) -> Option<Found>
        ensures found { result ≡ date_in self.old now zone line.now }
        ensures lies { IfSome result (LiesIn line.now) }
        ensures same { self.new ≡ self.old }
    {
        let anchored = self.anchored;
        for form in self.forms.iter_mut() {
            let found = form.date(anchored, line, now, zone);
            if found.is_some() {
                return found;
            }
        }
        None
    }
}
