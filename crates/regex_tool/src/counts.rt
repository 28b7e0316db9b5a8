//! How many lines each pattern decided, and how many there are of each kind.
ghost use Rattle.std.specs.Prelude.{◌≡◌, [], length, is_some, IfOk, OnOk};
ghost use Rattle.regex_tool.specs.Counts.{by_fail, by_ignore, is_missed, decided_from, counts_of, counted, raised_by, plus_if};

use crate::decided::Decided;
use f2b_base::{JailDef, NoMemory};
use filter_regex::Finding;
use std::alloc::Global;

/// What came of the lines so far.
#[derive(Drop)]
pub(crate) struct Counts {
    pub lines: u64,
    pub ignored: u64,
    pub matched: u64,
    /// Without a date, too.
    pub missed: u64,
    /// By each pattern of failures.
    pub fail: Decided,
    /// By each pattern of ignored lines.
    pub ignore_lines: Decided,
}

/// The number of the pattern of failures that matched a line.
pub(crate) fn by_fail(finding: Finding) -> Option<u32>
    ensures { result ≡ by_fail finding }
{
    match finding {
        Finding::Failure { index, .. } => Some(index),
        Finding::NameOnly(number) | Finding::IgnoredAddr(number) | Finding::TooOld(number) => {
            Some(number)
        }
        Finding::Ignored(_) | Finding::NoDate | Finding::Missed => None,
    }
}

/// The number of the pattern for which a line is ignored.
pub(crate) fn by_ignore(finding: Finding) -> Option<u32>
    ensures { result ≡ by_ignore finding }
{
    match finding {
        Finding::Ignored(number) => Some(number),
        _ => None,
    }
}

pub(crate) fn is_missed(finding: Finding) -> bool
    ensures { result ≡ is_missed finding }
{
    matches!(finding, Finding::Missed | Finding::NoDate)
}

/// One more where it holds. A count that has no room is want of memory: no log has so many lines.
pub(crate) fn plus_if(holds: bool, count: u64) -> Result<u64, NoMemory>
    ensures { IfOk result (λ more. more ≡ plus_if holds count) }
{
    if !holds {
        return Ok(count);
    }
    count.checked_add(1).ok_or(NoMemory)
}

impl Counts {
    /// No lines yet.
    pub(crate) fn new(alloc: Global, jail: &JailDef) -> Result<Counts, NoMemory>
        ensures { IfOk result (λ counts. counts ≡ counts_of jail.now []) }
    {
        Ok(Counts {
            lines: 0,
            ignored: 0,
            matched: 0,
            missed: 0,
            fail: Decided::new(alloc, jail.fail.len())?,
            ignore_lines: Decided::new(alloc, jail.ignore_lines.len())?,
        })
    }

    /// Counts a line. After an error nothing is told of the counts.
    #[tactic(auto, unfolding(crate::specs::Counts::counted))]
    pub(crate) fn add(&mut self, finding: Finding) -> Result<(), NoMemory>
        ensures { OnOk result (self.new ≡ counted self.old finding) }
    {
        let ignored = by_ignore(finding);
        let matched = by_fail(finding);
        self.lines = plus_if(true, self.lines)?;
        self.ignored = plus_if(ignored.is_some(), self.ignored)?;
        self.matched = plus_if(matched.is_some(), self.matched)?;
        self.missed = plus_if(is_missed(finding), self.missed)?;
        self.ignore_lines.raise_by(ignored)?;
        self.fail.raise_by(matched)
    }
}
