//! Searches for one pattern in many lines.
ghost use Rattle.std.specs.Prelude.{◌≡◌, IfOk, IfSome, IfNone, OnSome, length, map};
ghost use Rattle.f2b_world.specs.Matches.{hosts_in, whole_in, group_in};
ghost use Rattle.f2b_world.specs.Spans.{IsCut, AreCuts, AreHostCuts};

use crate::pattern::Pattern;
use crate::pattern::numbers::{HostNumbers, host_numbers};
use crate::pattern::spans::{Cut, HostSpans, hosts_at, whole_at, write_groups};
use f2b_base::NoMemory;
use std::alloc::Global;
use std::marker::Model;

/// Searches for a pattern, which contracts see as the pattern's text. Made once for many lines: what it learns at a line makes
/// the next searches faster, and no search takes memory that it could fail for.
#[derive(Drop)]
pub struct Matcher<'p> {
    pattern: &'p Pattern,
    inner: regex::Matcher<'p>,
    numbers: HostNumbers,
}

impl<'p> Model for Matcher<'p> {
    ghost use Rattle.std.specs.Prelude.{ℕ, List};
    ghost use Rattle.regex.specs.Strings.{matcher_pattern, matcher_names};
    ghost use Rattle.f2b_world.specs.Captured.{IsMatcherOf};

    ghost Value = { List ℕ };

    ghost view = { λ m. m.pattern.now };

    ghost invariant = { λ m. IsMatcherOf m.pattern.now (matcher_pattern m.inner) (matcher_names m.inner) m.numbers };
}

impl Pattern {
    /// What searches for the pattern.
    pub fn matcher(&self, alloc: Global) -> Result<Matcher<'_>, NoMemory>
        ensures { IfOk result (λ m. m ≡ self.now) }
    {
        let inner = self.regex.matcher(alloc)?;
        Ok(Matcher {
            pattern: self,
            inner,
            numbers: host_numbers(&self.regex),
        })
    }
}

impl<'p> Matcher<'p> {
    /// The leftmost match in the line, with the groups of a host and of the content.
    pub fn hosts(&mut self, line: &str) -> Option<HostSpans>
        ensures found { result ≡ hosts_in self.old line.now }
        ensures cuts { IfSome result (AreHostCuts line.now) }
        ensures same { self.new ≡ self.old }
    {
        match self.inner.captures(line) {
            Some(captures) => Some(hosts_at(&captures, self.numbers)),
            None => None,
        }
    }

    /// Where the leftmost match in the line lies, by one search. What the groups with these numbers cover is written in the order
    /// of the numbers. Without a match nothing is written.
    pub fn matched(
        &mut self,
        line: &str,
        numbers: &[Option<usize>],
        cuts: &mut [Option<Cut>],
    ) -> Option<Cut>
        requires { length cuts.old ≡ length numbers.now }
        ensures whole { result ≡ whole_in self.old line.now }
        ensures groups { OnSome result (cuts.new ≡ map (group_in self.old line.now) numbers.now) }
        ensures none { IfNone result (cuts.new ≡ cuts.old) }

        // All of them can be taken out of the line.
        ensures inside { IfSome result (IsCut line.now) }
        ensures cuts { OnSome result (AreCuts line.now cuts.new) }
        ensures same { self.new ≡ self.old }
    {
        match self.inner.captures(line) {
            Some(captures) => {
                write_groups(&captures, numbers, cuts);
                Some(whole_at(&captures))
            }
            None => None,
        }
    }
}
