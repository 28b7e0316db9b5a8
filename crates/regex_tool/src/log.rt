//! What is seen in a log that comes in pieces.
ghost use Rattle.std.specs.Prelude.{◌≡◌, ◌<◌, ◌++◌, ◌∷◌, ◌^◌, ℕ, List, [], IfOk, OnOk};
ghost use Rattle.f2b_base.specs.declared.jail.JailDef.{JailDef};
ghost use Rattle.log_follow.specs.Lines.{line_of};
ghost use Rattle.regex_tool.specs.Logs.{log_lines, looks_of};
ghost use Rattle.regex_tool.specs.Results.{Adds, AreResults, HasRead};
ghost use Rattle.regex_tool.specs.declared.shows.Shows.{Shows};

use crate::log_test::LogTest;
use crate::results::Results;
use crate::search::LineSearch;
use crate::shows::Shows;
use crate::trial::Trial;
use f2b_base::{JailDef, NoMemory, Seq};
use ignore_set::IgnoreSet;
use log_follow::{Carry, Line};
use std::alloc::Global;

/// Counts, shows and notes what is seen in some lines.
fn take_lines(
    alloc: Global,
    search: &mut LineSearch<'_>,
    nobody: &IgnoreSet,
    lines: &[Line],
    now: u64,
    results: &mut Results,
) -> Result<(), NoMemory>
    requires nobody { nobody.now ≡ [] }
    requires now { now < 2 ^ 40 }
    ensures results { OnOk result (Adds search.old now results.old lines.now results.new) }
    ensures same { search.new ≡ search.old }
{
    for line in lines {
        let seen = search.seen(nobody, line, now)?;
        results.add(alloc, line, &seen)?;
    }
    Ok(())
}

impl<'f> LogTest<'f> {
    /// Nothing was read yet.
    pub(crate) fn new(
        alloc: Global,
        jail: &JailDef,
        trial: &'f Trial,
        shows: Shows,
        now: u64,
    ) -> Result<LogTest<'f>, NoMemory>
        requires built { trial.now ≡ looks_of jail.now shows }
        requires now { now < 2 ^ 40 }
        ensures { IfOk result (λ test. HasRead jail.now shows now test []) }
    {
        Ok(LogTest {
            alloc,
            search: trial.search(alloc)?,
            nobody: IgnoreSet::new(alloc, &Seq::new(alloc))?,
            now,
            carry: Carry::new(alloc),
            results: Results::new(alloc, jail, shows)?,
        })
    }

    /// Takes the next bytes of the log.
    pub(crate) fn feed(&mut self, bytes: &[u8]) -> Result<(), NoMemory>
        ensures { OnOk result ((jail : JailDef) (shows : Shows) (now : ℕ) (seen : List ℕ) → HasRead jail shows now self.old seen → HasRead jail shows now self.new (seen ++ bytes.now)) }
    {
        // The carry of a long line is its length, which has to stay a number.
        if self.carry.len().checked_add(bytes.len() as u64).is_none() {
            return Err(NoMemory);
        }
        let lines = self.carry.take(self.alloc, bytes)?;
        take_lines(
            self.alloc,
            &mut self.search,
            &self.nobody,
            lines.as_slice(),
            self.now,
            &mut self.results,
        )
    }

    /// Counts, shows and notes one line more.
    fn add(&mut self, line: &Line) -> Result<(), NoMemory>
        ensures { OnOk result (Adds self.old.search self.old.now self.old.results (line.now ∷ []) self.new.results) }
    {
        let seen = self.search.seen(&self.nobody, line, self.now)?;
        self.results.add(self.alloc, line, &seen)
    }

    /// Counts the rest, if there is one: without LF it is a line all the same.
    fn end(&mut self) -> Result<(), NoMemory>
        ensures { OnOk result ((jail : JailDef) (shows : Shows) (now : ℕ) (seen : List ℕ) → HasRead jail shows now self.old seen →
            AreResults jail shows now (log_lines seen) self.new.results) }
    {
        if self.carry.len() == 0 {
            return Ok(());
        }
        let line = self.carry.line(self.alloc, b"")?;
        self.add(&line)
    }

    /// What came of all lines.
    pub(crate) fn finish(self) -> Result<Results, NoMemory>
        ensures { IfOk result (λ results. (jail : JailDef) (shows : Shows) (now : ℕ) (seen : List ℕ) → HasRead jail shows now self.entry seen →
            AreResults jail shows now (log_lines seen) results) }
    {
        let mut test = self;
        test.end()?;
        Ok(test.results)
    }

    /// What comes of one line, where nothing was read before.
    pub(crate) fn one_line(self, line: &str) -> Result<Results, NoMemory>
        ensures { IfOk result (λ results. (jail : JailDef) (shows : Shows) (now : ℕ) → HasRead jail shows now self.entry [] →
            AreResults jail shows now (line_of line.now ∷ []) results) }
    {
        let mut test = self;
        let line = Line::of(test.alloc, line.as_bytes())?;
        test.add(&line)?;
        Ok(test.results)
    }
}
