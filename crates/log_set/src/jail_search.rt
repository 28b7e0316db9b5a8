//! The search of a jail: which failures are among the lines of its logs.
ghost use Rattle.std.specs.Prelude.{◌≡◌, ◌<◌, ◌≤◌, ◌^◌, ◌++◌, [], length, IfOk, IfSome, OnOk};
ghost use Rattle.std.specs.List.{cons_option};
ghost use Rattle.f2b_model.specs.Lists.{AllOf};
ghost use Rattle.f2b_model.specs.Storable.{most_at_once, IsStorableFailure};
ghost use Rattle.log_set.specs.Searches.{failure_by, failures_by, lines_in, search_by};

use crate::shown::{kept_in, shows_lines};
use f2b_base::{Failure, JailDef, NoMemory, Plain, Seq, Text};
use filter_regex::{Filter, Finding, Searcher};
use ignore_set::IgnoreSet;
use log_follow::{Line, Step};
use std::alloc::Global;

/// The search of a jail.
#[derive(Drop)]
pub struct JailSearch<'f> {
    pub name: Text,
    pub searcher: Searcher<'f>,
    /// The addresses that are never banned.
    pub ignore: IgnoreSet,
    /// For how many seconds a failure counts.
    pub findtime: u64,
    /// Whether a failure keeps its line.
    pub shows: bool,
    /// Whether the logs of the jail are not looked at.
    pub idle: bool,
}

// Adds a failure, if there is one.
fn add(found: &mut Seq<Failure>, failure: Option<Failure>) -> Result<(), NoMemory>
    ensures { OnOk result (found.new ≡ found.old ++ cons_option failure []) }
{
    if let Some(failure) = failure {
        found.push(failure)?;
    }
    Ok(())
}

impl<'f> JailSearch<'f> {
    /// The search of a jail that is not idle.
    pub fn new(
        alloc: Global,
        filter: &'f Filter,
        definition: &JailDef,
    ) -> Result<JailSearch<'f>, NoMemory>
        ensures { IfOk result (λ search. search ≡ search_by filter.now definition.now) }
    {
        Ok(JailSearch {
            name: definition.name.copy()?,
            searcher: filter.searcher(alloc)?,
            ignore: IgnoreSet::new(alloc, &definition.ignore)?,
            findtime: definition.findtime,
            shows: shows_lines(definition),
            idle: false,
        })
    }

    // The failure that a line shows, if it shows one.
    fn failure(&mut self, alloc: Global, line: &Line, now: u64) -> Result<Option<Failure>, NoMemory>
        requires { now < 2 ^ 40 }
        ensures found { IfOk result (λ found. found ≡ failure_by self.old now line.now) }
        ensures storable { IfOk result (λ found. IfSome found IsStorableFailure) }
        ensures same { self.new ≡ self.old }
    {
        let Line::Whole(text) = line else {
            return Ok(None);
        };
        let finding = self
            .searcher
            .found(&self.ignore, text.as_str(), now, self.findtime)?;
        let Finding::Failure { addr, time, .. } = finding else {
            return Ok(None);
        };
        let line = kept_in(alloc, self.shows, text.as_str())?;
        Ok(Some(Failure { addr, time, line }))
    }

    // The failures that lines show, in their order.
    fn failures(
        &mut self,
        alloc: Global,
        lines: &[Line],
        now: u64,
    ) -> Result<Seq<Failure>, NoMemory>
        requires { now < 2 ^ 40 }
        ensures found { IfOk result (λ found. found ≡ failures_by self.old now lines.now) }
        ensures storable { IfOk result (AllOf IsStorableFailure) }
        ensures few { IfOk result (λ found. length found ≤ most_at_once) }
        ensures same { self.new ≡ self.old }
    {
        let mut found = Seq::new(alloc);
        for line in lines {
            let failure = self.failure(alloc, line, now)?;
            add(&mut found, failure)?;
        }
        Ok(found)
    }

    /// The failures among the lines that a look brought.
    pub fn find(&mut self, alloc: Global, step: &Step, now: u64) -> Result<Seq<Failure>, NoMemory>
        requires { now < 2 ^ 40 }
        ensures found { IfOk result (λ found. found ≡ failures_by self.old now (lines_in step.now)) }
        ensures storable { IfOk result (AllOf IsStorableFailure) }
        ensures few { IfOk result (λ found. length found ≤ most_at_once) }
        ensures same { self.new ≡ self.old }
    {
        match step {
            Step::Lines(lines) => self.failures(alloc, lines.as_slice(), now),
            _ => Ok(Seq::new(alloc)),
        }
    }
}
