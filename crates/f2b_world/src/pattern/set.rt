//! Many patterns that are asked at once whether any of them matches a line.
ghost use Rattle.std.specs.Prelude.{◌≡◌, All, Any, IfOk, IfSome, IsSome, None, is_some, map};
ghost use Rattle.std.specs.List.{list_any};
ghost use Rattle.f2b_world.specs.Matches.{whole_in};
ghost use Rattle.f2b_world.specs.Reading.{reading};

use crate::pattern::Pattern;
use f2b_base::NoMemory;
use regex::{Error, RegexSet};
use std::alloc::Global;
use std::fmt;
use std::marker::Model;

/// Patterns in an order, which contracts see as their texts. `matcher` makes what asks them.
#[derive(Drop)]
pub struct PatternSet {
    set: RegexSet,
}

impl Model for PatternSet {
    ghost use Rattle.std.specs.Prelude.{ℕ, List};
    ghost use Rattle.regex.specs.Strings.{set_sources, AreReadByDefault};

    ghost Value = { List (List ℕ) };

    ghost view = { λ s. set_sources s.set };

    ghost invariant = { λ s. AreReadByDefault s.set };
}

impl fmt::Debug for PatternSet {
    fn fmt<W: fmt::Write>(&self, f: &mut fmt::Formatter<W>) -> fmt::Result {
        let count = self.set.len();
        write!(f, "a set of {count} patterns")
    }
}

/// Asks the patterns of a set, which contracts see as their texts. Made once for many lines, as the matcher of a pattern is.
#[derive(Drop)]
pub struct SetMatcher<'s> {
    set: &'s PatternSet,
    inner: regex::SetMatcher<'s>,
}

impl<'s> Model for SetMatcher<'s> {
    ghost use Rattle.std.specs.Prelude.{ℕ, List};
    ghost use Rattle.regex.specs.Strings.{set_matcher_patterns};
    ghost use Rattle.f2b_world.specs.Matches.{MatchAlike};

    ghost Value = { List (List ℕ) };

    ghost view = { λ m. m.set.now };

    ghost invariant = { λ m. MatchAlike m.set.now (set_matcher_patterns m.inner) };
}

/// The texts of patterns, each of which has a reading.
fn texts(alloc: Global, patterns: &[Pattern]) -> Result<Vec<&str>, NoMemory>
    ensures same { IfOk result (λ texts. map (λ it. it.now) texts.items ≡ patterns.now) }
    ensures read { IfOk result (λ _. All (λ text. IsSome (reading text)) patterns.now) }
{
    let mut texts = Vec::new(alloc);
    for pattern in patterns {
        texts.push(pattern.regex.as_str())?;
    }
    Ok(texts)
}

impl PatternSet {
    /// The set of the patterns. It builds each of them a second time, and all of them as one. Where one is found too big this time
    /// there is no set, and no refusal is counted, since each can still be asked by itself.
    pub fn of(alloc: Global, patterns: &[Pattern]) -> Result<Option<PatternSet>, NoMemory>
        ensures same { IfOk result (λ made. IfSome made (λ set. set ≡ patterns.now)) }
        ensures none { IfOk result (λ made. made ≡ None → Any (λ text. IsSome (reading text)) patterns.now) }
    {
        let texts = texts(alloc, patterns)?;
        match RegexSet::new(alloc, texts.as_slice()) {
            Ok(set) => Ok(Some(PatternSet { set })),
            Err(Error::OutOfMemory) => Err(NoMemory),
            Err(Error::Syntax(_) | Error::CompiledTooBig | Error::Internal) => Ok(None),
        }
    }

    /// What asks the patterns.
    pub fn matcher(&self, alloc: Global) -> Result<SetMatcher<'_>, NoMemory>
        ensures { IfOk result (λ m. m ≡ self.now) }
    {
        let inner = self.set.matcher(alloc)?;
        Ok(SetMatcher { set: self, inner })
    }
}

impl<'s> SetMatcher<'s> {
    /// Whether any of the patterns matches the line, mostly by one search for all of them.
    pub fn any(&mut self, line: &str) -> bool
        ensures found { result ≡ list_any (λ text. is_some (whole_in text line.now)) self.old }
        ensures same { self.new ≡ self.old }
    {
        self.inner.is_match(line)
    }
}
