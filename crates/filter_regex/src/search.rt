//! Searches of a filter in many lines.
ghost use Rattle.std.specs.Prelude.{◌≡◌, ◌<◌, ◌^◌, IfOk};
ghost use Rattle.filter_regex.specs.Findings.{finding};

use crate::build::Filter;
use crate::finding::Finding;
use crate::judge::{failure, moment_of};
use crate::part::{content, first_match, host_in, rest_of};
use date_detect::Searcher as DateSearcher;
use f2b_base::NoMemory;
use f2b_world::{Matcher, Pattern};
use ignore_set::IgnoreSet;
use std::alloc::Global;
use std::marker::Model;

/// Searches of a filter, which contracts see as the filter's rules. Made once for many lines.
#[derive(Drop)]
pub struct Searcher<'f> {
    dates: DateSearcher<'f>,
    undated: bool,
    zone: i32,
    pref: Option<Matcher<'f>>,
    fail: Vec<Matcher<'f>>,
    ignore_lines: Vec<Matcher<'f>>,
    /// Room for a line without its date.
    room: String,
}

impl<'f> Model for Searcher<'f> {
    ghost use Rattle.std.specs.Prelude.{◌<◌, ◌^◌, length};
    ghost use Rattle.filter_regex.specs.Rules.{Rules};

    ghost Value = { Rules };

    ghost view = { λ s. record {
      dates = s.dates;
      undated = s.undated;
      zone = s.zone;
      pref = s.pref;
      fail = s.fail.items;
      ignore_lines = s.ignore_lines.items;
    } };

    ghost invariant = { λ s. (length s.fail.items < 2 ^ 32) × (length s.ignore_lines.items < 2 ^ 32) };
}

/// What searches for each of the patterns.
fn matchers<'p>(alloc: Global, patterns: &'p [Pattern]) -> Result<Vec<Matcher<'p>>, NoMemory>
    ensures { IfOk result (λ matchers. matchers.items ≡ patterns.now) }
{
    let mut matchers = Vec::new(alloc);
    for pattern in patterns {
        matchers.push(pattern.matcher(alloc)?)?;
    }
    Ok(matchers)
}

impl Filter {
    /// What searches by the filter.
    pub fn searcher(&self, alloc: Global) -> Result<Searcher<'_>, NoMemory>
        ensures { IfOk result (λ searcher. searcher ≡ self.now) }
    {
        let pref = match &self.pref {
            Some(pattern) => Some(pattern.matcher(alloc)?),
            None => None,
        };
        Ok(Searcher {
            dates: self.dates.searcher(alloc)?,
            undated: self.undated,
            zone: self.zone,
            pref,
            fail: matchers(alloc, self.fail.as_slice())?,
            ignore_lines: matchers(alloc, self.ignore_lines.as_slice())?,
            room: String::new(alloc),
        })
    }

    /// What one line says at `now`, in seconds since 1970, where failures count for `findtime` seconds. For many lines make a
    /// searcher.
    pub fn found(
        &self,
        alloc: Global,
        ignore: &IgnoreSet,
        line: &str,
        now: u64,
        findtime: u64,
    ) -> Result<Finding, NoMemory>
        requires { now < 2 ^ 40 }
        ensures { IfOk result (λ found. found ≡ finding self.now ignore.now now findtime line.now) }
    {
        let mut searcher = self.searcher(alloc)?;
        searcher.found(ignore, line, now, findtime)
    }
}

impl<'f> Searcher<'f> {
    /// What a line says at `now`, in seconds since 1970, where failures count for `findtime` seconds. The addresses in the set
    /// are never banned.
    pub fn found(
        &mut self,
        ignore: &IgnoreSet,
        line: &str,
        now: u64,
        findtime: u64,
    ) -> Result<Finding, NoMemory>
        requires { now < 2 ^ 40 }
        ensures found { IfOk result (λ found. found ≡ finding self.old ignore.now now findtime line.now) }
        ensures same { self.new ≡ self.old }
    {
        let date = self.dates.found(line, now, self.zone);
        let rest = rest_of(&mut self.room, line, date)?;
        if let Some(hit) = first_match(&mut self.ignore_lines, rest) {
            return Ok(Finding::Ignored(hit.number));
        }
        let Some(moment) = moment_of(self.undated, now, date) else {
            return Ok(Finding::NoDate);
        };
        let Some(text) = content(&mut self.pref, rest) else {
            return Ok(Finding::Missed);
        };
        let Some(hit) = first_match(&mut self.fail, text) else {
            return Ok(Finding::Missed);
        };
        let host = host_in(text, hit.spans);
        Ok(failure(ignore, now, findtime, moment, hit.number, host))
    }
}
