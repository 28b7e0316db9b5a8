//! A form of dates: a pattern, and what its groups mean.
ghost use Rattle.std.specs.Prelude.{◌≡◌, None, IfSome, IfOk, is_some, option_copied, option_map, drop, if◌then◌else◌};
ghost use Rattle.f2b_world.specs.Spans.{IsCut, AreCuts};
ghost use Rattle.date_detect.specs.Usual.{no_groups, with_time};
ghost use Rattle.date_detect.specs.Texts.{numbers_of, said_at, said_texts};
ghost use Rattle.date_detect.specs.Dates.{match_in, text_of, one_on, has_bracket, date_of, date_by, LiesIn};

use crate::fields::Said;
use crate::search::Found;
use f2b_base::NoMemory;
use f2b_world::{Cut, Matcher, Pattern};
use std::alloc::Global;
use std::marker::Model;

/// How many parts of a date groups may cover.
const PARTS: usize = 10;

/// The numbers of the groups of a pattern, by what they cover. A part that no group covers is `None`.
#[derive(Clone, Copy, Debug)]
pub(crate) struct Groups {
    pub year: Option<usize>,
    /// A year of two digits.
    pub short_year: Option<usize>,
    pub month: Option<usize>,
    /// The name of a month.
    pub month_name: Option<usize>,
    pub day: Option<usize>,
    pub hour: Option<usize>,
    pub minute: Option<usize>,
    pub second: Option<usize>,
    pub zone: Option<usize>,
    /// Seconds since 1970.
    pub moment: Option<usize>,
}

impl Groups {
    /// Of a pattern without groups.
    pub(crate) const NONE: Groups = Groups {
        year: None,
        short_year: None,
        month: None,
        month_name: None,
        day: None,
        hour: None,
        minute: None,
        second: None,
        zone: None,
        moment: None,
    };

    /// The groups of a time of day alone.
    pub(crate) fn time(hour: usize, minute: usize, second: usize) -> Groups
        ensures { result ≡ with_time no_groups hour minute second }
    {
        Groups {
            hour: Some(hour),
            minute: Some(minute),
            second: Some(second),
            ..Groups::NONE
        }
    }

    /// The numbers in the order of what they cover.
    fn numbers(&self) -> [Option<usize>; PARTS]
        ensures { result ≡ numbers_of self.now }
    {
        [
            self.year,
            self.short_year,
            self.month,
            self.month_name,
            self.day,
            self.hour,
            self.minute,
            self.second,
            self.zone,
            self.moment,
        ]
    }
}

/// A form, which contracts see as the text of its pattern with its groups.
#[derive(Debug, Drop)]
pub(crate) struct Form {
    pub pattern: Pattern,
    pub groups: Groups,
}

/// A form that searches, which contracts see as the form.
#[derive(Drop)]
pub(crate) struct FormSearch<'d> {
    matcher: Matcher<'d>,
    groups: Groups,
}

impl<'d> Model for FormSearch<'d> {
    ghost use Rattle.date_detect.specs.declared.form.Form.{Form};

    ghost Value = { Form };

    ghost view = { λ s. record { pattern = s.matcher; groups = s.groups } };
}

impl Form {
    /// What searches by the form.
    pub(crate) fn search(&self, alloc: Global) -> Result<FormSearch<'_>, NoMemory>
        ensures { IfOk result (λ search. search ≡ self.now) }
    {
        let matcher = self.pattern.matcher(alloc)?;
        Ok(FormSearch {
            matcher,
            groups: self.groups,
        })
    }
}

/// What a part of a line says.
fn text_of(line: &str, cut: Option<Cut>) -> Option<&str>
    requires { IfSome cut (IsCut line.now) }
    ensures { option_copied result ≡ text_of line.now cut }
{
    match cut {
        Some(cut) => Some(&line[cut.start..cut.end]),
        None => None,
    }
}

/// What parts of a line say, in the order of `Groups`.
fn said_at<'l>(line: &'l str, cuts: &[Option<Cut>; PARTS]) -> Said<'l>
    requires { AreCuts line.now cuts.now }
    ensures { said_texts result ≡ said_at line.now cuts.now }
{
    Said {
        year: text_of(line, cuts[0]),
        short_year: text_of(line, cuts[1]),
        month: text_of(line, cuts[2]),
        month_name: text_of(line, cuts[3]),
        day: text_of(line, cuts[4]),
        hour: text_of(line, cuts[5]),
        minute: text_of(line, cuts[6]),
        second: text_of(line, cuts[7]),
        zone: text_of(line, cuts[8]),
        moment: text_of(line, cuts[9]),
    }
}

impl<'d> FormSearch<'d> {
    /// The date of the leftmost match in a line, where there is a match: it may be no date of the calendar.
    #[tactic(auto, unfolding(crate::specs::Dates::date_of, crate::specs::Dates::match_in))]
    fn matched(&mut self, line: &str, now: u64, zone: i32) -> Option<Option<Found>>
        ensures matched { is_some result ≡ is_some (match_in self.old.pattern line.now) }
        ensures found { IfSome result (λ found. found ≡ date_of self.old now zone line.now) }
        ensures lies { IfSome result (λ found. IfSome found (LiesIn line.now)) }
        ensures same { self.new ≡ self.old }
    {
        let mut cuts = [None; PARTS];
        let cut = self
            .matcher
            .matched(line, &self.groups.numbers(), &mut cuts)?;
        let Some(secs) = said_at(line, &cuts).moment(now, zone) else {
            return Some(None);
        };
        Some(Some(Found {
            start: cut.start as u64,
            end: cut.end as u64,
            secs,
        }))
    }

    /// The date of the form in a line. A date that has to stand at the beginning may stand right behind a `[` there, where the
    /// form has no match at the beginning itself.
    pub(crate) fn date(&mut self, anchored: bool, line: &str, now: u64, zone: i32) -> Option<Found>
        ensures found { result ≡ date_by anchored self.old now zone line.now }
        ensures lies { IfSome result (LiesIn line.now) }
        ensures same { self.new ≡ self.old }
    {
        match self.matched(line, now, zone) {
            Some(found) => found,
            None if anchored => self.behind_bracket(line, now, zone),
            None => None,
        }
    }

    /// The date of the leftmost match in a line.
    fn date_of(&mut self, line: &str, now: u64, zone: i32) -> Option<Found>
        ensures found { result ≡ date_of self.old now zone line.now }
        ensures lies { IfSome result (LiesIn line.now) }
        ensures same { self.new ≡ self.old }
    {
        match self.matched(line, now, zone) {
            Some(found) => found,
            None => None,
        }
    }

    /// The date of the leftmost match behind a `[` at the beginning, in the line without it.
    fn behind_bracket(&mut self, line: &str, now: u64, zone: i32) -> Option<Found>
        ensures found { result ≡ if has_bracket line.now then option_map one_on (date_of self.old now zone (drop 1 line.now)) else None }
        ensures lies { IfSome result (LiesIn line.now) }
        ensures same { self.new ≡ self.old }
    {
        let rest = line.strip_prefix('[')?;
        let found = self.date_of(rest, now, zone)?;
        Some(Found {
            start: found.start + 1,
            end: found.end + 1,
            secs: found.secs,
        })
    }
}
