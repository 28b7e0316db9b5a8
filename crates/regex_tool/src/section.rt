//! Lines of one kind, as they are shown.
ghost use Rattle.std.specs.Prelude.{◌≡◌, ◌++◌, codes, OnOk};
ghost use Rattle.std.specs.Fmt.{decimal};
ghost use Rattle.f2b_base.specs.Addresses.{printed};
ghost use Rattle.regex_tool.specs.Sections.{address_of, detail_of, empty_section, line_text, piece, place_of, row_of, section_after, seen_text, shown_if, shown_line, who_of};
ghost use Rattle.regex_tool.specs.Counts.{by_fail};

use crate::counts::{by_fail, by_ignore, is_missed, plus_if};
use crate::seen::Seen;
use crate::zone::Zone;
use date_detect::Found;
use f2b_base::{Addr, Bytes, NoMemory};
use filter_regex::Finding;
use iso_moment::push_moment;
use log_follow::Line;
use std::alloc::Global;

/// Which lines are shown, and how.
#[derive(Clone, Copy)]
pub(crate) enum Kind {
    Nothing,
    /// Each line that a pattern of failures matched.
    Matched,
    /// The same, each with the number of the pattern, its address, its time in seconds and as a clock of the zone shows it, and
    /// the place of its date.
    Detail(Zone),
    Ignored,
    Missed,
    /// The address of each failure.
    Address,
    /// The address of each failure, its time in seconds since 1970, and its line.
    Row,
}

/// Lines of one kind, as they are shown.
#[derive(Drop)]
pub(crate) struct Section {
    pub kind: Kind,
    pub text: Bytes,
}

/// A line as it is shown. One that is too long has no text of its own.
pub(crate) fn line_text(line: &Line) -> &[u8]
    ensures { result.now ≡ line_text line.now }
{
    match line {
        Line::Whole(text) => text.as_str().as_bytes(),
        Line::Long => b"(a line of more than 65,536 bytes)",
    }
}

fn push_line(text: &mut Bytes, line: &Line) -> Result<(), NoMemory>
    ensures { OnOk result (text.new ≡ text.old ++ shown_line line.now) }
{
    text.push_slice(b"   ")?;
    text.push_slice(line_text(line))?;
    text.push_slice(b"\n")
}

fn push_if(text: &mut Bytes, holds: bool, line: &Line) -> Result<(), NoMemory>
    ensures { OnOk result (text.new ≡ text.old ++ shown_if holds line.now) }
{
    if holds { push_line(text, line) } else { Ok(()) }
}

fn push_addr(text: &mut Bytes, addr: Addr) -> Result<(), NoMemory>
    ensures { OnOk result (text.new ≡ text.old ++ printed addr) }
{
    let mut printed = [0; 45];
    let len = addr.print(&mut printed);
    text.push_slice(&printed[..len])
}

/// Whose failure it is, and when.
fn push_who(alloc: Global, text: &mut Bytes, zone: Zone, finding: Finding) -> Result<(), NoMemory>
    ensures { OnOk result (text.new ≡ text.old ++ who_of zone finding) }
{
    let Finding::Failure { addr, time, .. } = finding else {
        return text.push_slice(b"- - -");
    };
    push_addr(text, addr)?;
    text.push_slice(b" ")?;
    push_number(alloc, text, time)?;
    text.push_slice(b" ")?;
    push_moment(text, zone.seconds(), time)
}

/// Where a date stands in its line, if it has one.
fn push_place(alloc: Global, text: &mut Bytes, date: Option<Found>) -> Result<(), NoMemory>
    ensures { OnOk result (text.new ≡ text.old ++ place_of date) }
{
    let Some(date) = date else {
        return text.push_slice(b"-");
    };
    push_number(alloc, text, plus_if(true, date.start)?)?;
    text.push_slice(b"-")?;
    push_number(alloc, text, date.end)
}

/// Whose failure it is, and when, and where the date stands.
fn push_seen(alloc: Global, text: &mut Bytes, zone: Zone, seen: &Seen) -> Result<(), NoMemory>
    ensures { OnOk result (text.new ≡ text.old ++ seen_text zone seen.now) }
{
    push_who(alloc, text, zone, seen.finding)?;
    text.push_slice(b" ")?;
    push_place(alloc, text, seen.date)
}

/// A line with the number of the pattern that matched it, if one did.
fn push_detail(
    alloc: Global,
    text: &mut Bytes,
    zone: Zone,
    line: &Line,
    seen: &Seen,
) -> Result<(), NoMemory>
    ensures { OnOk result (text.new ≡ text.old ++ detail_of zone (by_fail seen.now.finding) line.now seen.now) }
{
    let Some(number) = by_fail(seen.finding) else {
        return Ok(());
    };
    text.push_slice(b"   ")?;
    push_number(alloc, text, u64::from(number))?;
    text.push_slice(b") ")?;
    push_seen(alloc, text, zone, seen)?;
    text.push_slice(b" ")?;
    text.push_slice(line_text(line))?;
    text.push_slice(b"\n")
}

fn push_address(text: &mut Bytes, finding: Finding) -> Result<(), NoMemory>
    ensures { OnOk result (text.new ≡ text.old ++ address_of finding) }
{
    let Finding::Failure { addr, .. } = finding else {
        return Ok(());
    };
    push_addr(text, addr)?;
    text.push_slice(b"\n")
}

/// A number behind what stands there.
pub(crate) fn push_number(alloc: Global, text: &mut Bytes, number: u64) -> Result<(), NoMemory>
    ensures { OnOk result (text.new ≡ text.old ++ decimal number) }
{
    let digits = format!(in alloc; "{number}")?;
    text.push_slice(digits.as_bytes())
}

fn push_row(alloc: Global, text: &mut Bytes, line: &Line, finding: Finding) -> Result<(), NoMemory>
    ensures { OnOk result (text.new ≡ text.old ++ row_of line.now finding) }
{
    let Finding::Failure { addr, time, .. } = finding else {
        return Ok(());
    };
    push_addr(text, addr)?;
    text.push_slice(b"\t")?;
    push_number(alloc, text, time)?;
    text.push_slice(b"\t")?;
    text.push_slice(line_text(line))?;
    text.push_slice(b"\n")
}

fn push_piece(
    alloc: Global,
    kind: Kind,
    text: &mut Bytes,
    line: &Line,
    seen: &Seen,
) -> Result<(), NoMemory>
    ensures { OnOk result (text.new ≡ text.old ++ piece kind line.now seen.now) }
{
    match kind {
        Kind::Nothing => Ok(()),
        Kind::Matched => push_if(text, by_fail(seen.finding).is_some(), line),
        Kind::Detail(zone) => push_detail(alloc, text, zone, line, seen),
        Kind::Ignored => push_if(text, by_ignore(seen.finding).is_some(), line),
        Kind::Missed => push_if(text, is_missed(seen.finding), line),
        Kind::Address => push_address(text, seen.finding),
        Kind::Row => push_row(alloc, text, line, seen.finding),
    }
}

impl Section {
    /// No line yet.
    pub(crate) fn new(alloc: Global, kind: Kind) -> Section
        ensures { result ≡ empty_section kind }
    {
        Section {
            kind,
            text: Bytes::new(alloc),
        }
    }

    /// Shows a line, where it is of the kind. After an error nothing is told of the text.
    pub(crate) fn add(&mut self, alloc: Global, line: &Line, seen: &Seen) -> Result<(), NoMemory>
        ensures { OnOk result (self.new ≡ section_after self.old line.now seen.now) }
    {
        push_piece(alloc, self.kind, &mut self.text, line, seen)
    }
}
