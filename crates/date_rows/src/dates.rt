//! Worked lines. The expected seconds come from another calendar, and the offsets from the lines as they are written.
ghost use Rattle.std.specs.Prelude.{IfOk};
ghost use Rattle.date_detect.specs.Forms.{HasDatePattern};

use crate::rows::{is_so, same};
use date_detect::{BuildError, Dates, Found, Searcher, is_date_pattern};
use f2b_base::{DateSpec, NoMemory, Text};
use f2b_world::{Made, Outside, Patterns, build_pattern};
use std::alloc::Global;
use std::process::Abort;

/// 2024-03-01T10:00:00Z.
const NOW: u64 = 1_709_287_200;

/// An outside that builds patterns, tells nothing, and has counted as many faults as it can.
#[derive(Drop)]
struct Library {
    alloc: Global,
}

impl Outside for Library {
    ghost use Rattle.std.specs.Prelude.{None, ◌-◌, ◌^◌};

    ghost stands = { λ _. record { told = None; talk = None; shelf = None; faults = λ _. 2 ^ 64 - 1 } };
}

impl Patterns for Library {
    fn make(&mut self, text: &str) -> Made {
        match build_pattern(self.alloc, text) {
            Made::Built(pattern) => Made::Built(pattern),
            Made::Syntax => Made::Syntax,
            Made::TooBig => Made::TooBig,
            Made::NoMemory => Made::NoMemory,
        }
    }
}

fn at(start: u64, end: u64, secs: i64) -> Found {
    Found { start, end, secs }
}

/// The dates of a spec.
fn built(rt: &impl Abort, alloc: Global, spec: &DateSpec) -> Dates
    requires { HasDatePattern spec.now }
{
    let mut library = Library { alloc };
    match Dates::build(alloc, &mut library, spec) {
        Ok(dates) => dates,
        Err(_) => panic!(rt; "not built"),
    }
}

/// The spec of a user's pattern, at the beginning of a line or anywhere.
fn own(rt: &impl Abort, alloc: Global, anchored: bool, text: &str) -> Result<DateSpec, NoMemory>
    ensures { IfOk result HasDatePattern }
{
    is_so(rt, text, is_date_pattern(text));
    let text = Text::from_str(alloc, text)?;
    Ok(if anchored {
        DateSpec::AnchoredPattern(text)
    } else {
        DateSpec::Pattern(text)
    })
}

/// Where a date begins and ends, and its seconds.
type Place = (u64, u64, i64);

fn wanted(place: Option<Place>) -> Option<Found> {
    let (start, end, secs) = place?;
    Some(at(start, end, secs))
}

/// Rows of a line, the moment, the zone, and the date that is found.
fn are_found(
    rt: &impl Abort,
    alloc: Global,
    dates: &Dates,
    rows: &[(&str, u64, i32, Option<Place>)],
) -> Result<(), NoMemory> {
    let mut searcher = dates.searcher(alloc)?;
    for &(line, now, zone, found) in rows {
        let saw = searcher.found(line, now, zone);
        same(rt, (line, now, zone), saw, wanted(found));
    }
    Ok(())
}

const USUAL_DATES: [(&str, u64, i32, Option<Place>); 83] = [
    (
        "2024-03-01T10:00:00+00:00 x",
        NOW,
        0,
        Some((0, 25, 1709287200)),
    ),
    ("2024-03-01 10:00:00 x", NOW, 0, Some((0, 19, 1709287200))),
    (
        "2024-03-01 10:00:00 x",
        NOW,
        3600,
        Some((0, 19, 1709283600)),
    ),
    ("2024-03-01T10:00:00Z", NOW, 3600, Some((0, 20, 1709287200))),
    (
        "2024-03-01T10:00:00+01:00 x",
        NOW,
        0,
        Some((0, 25, 1709283600)),
    ),
    (
        "2024-03-01T10:00:00+0100 x",
        NOW,
        0,
        Some((0, 24, 1709283600)),
    ),
    (
        "2024-03-01T10:00:00-05:30 x",
        NOW,
        0,
        Some((0, 25, 1709307000)),
    ),
    (
        "2024-03-01T10:00:00+14:00 x",
        NOW,
        0,
        Some((0, 25, 1709236800)),
    ),
    (
        "2024-03-01T10:00:00-12:00 x",
        NOW,
        0,
        Some((0, 25, 1709330400)),
    ),
    (
        "2024-03-01T10:00:00+23:59 x",
        NOW,
        0,
        Some((0, 25, 1709200860)),
    ),
    (
        "2024-03-01T10:00:00-2359 x",
        NOW,
        0,
        Some((0, 24, 1709373540)),
    ),
    ("2024-03-01T10:00:00+99:00", NOW, 0, None),
    ("2024-03-01T10:00:00+24:00", NOW, 0, None),
    ("2024-03-01T10:00:00-10:60", NOW, 0, None),
    ("2024-02-29T00:00:00Z", NOW, 0, Some((0, 20, 1709164800))),
    ("2000-02-29T00:00:00Z", NOW, 0, Some((0, 20, 951782400))),
    ("2023-02-29 10:00:00", NOW, 0, None),
    ("1900-02-29 10:00:00", NOW, 0, None),
    ("2100-02-29 10:00:00", NOW, 0, None),
    ("2024-02-30 10:00:00", NOW, 0, None),
    ("2024-04-31 10:00:00", NOW, 0, None),
    ("2024-06-31 10:00:00", NOW, 0, None),
    ("2024-09-31 10:00:00", NOW, 0, None),
    ("2024-11-31 10:00:00", NOW, 0, None),
    ("2024-00-10 10:00:00", NOW, 0, None),
    ("2024-13-01 10:00:00", NOW, 0, None),
    ("2024-01-00 10:00:00", NOW, 0, None),
    ("2024-01-32 10:00:00", NOW, 0, None),
    ("2024-12-31T23:59:59Z", NOW, 0, Some((0, 20, 1735689599))),
    ("9999-12-31T23:59:59Z", NOW, 0, Some((0, 20, 253402300799))),
    ("0000-01-01T00:00:00Z", NOW, 0, Some((0, 20, -62167219200))),
    ("0000-02-29T00:00:00Z", NOW, 0, Some((0, 20, -62162121600))),
    ("2024-03-01 24:00:00", NOW, 0, None),
    ("2024-03-01 23:60:00", NOW, 0, None),
    ("2024-03-01 10:00:60", NOW, 0, None),
    (
        "2024-03-01 10:00:00.1Z x",
        NOW,
        0,
        Some((0, 22, 1709287200)),
    ),
    (
        "2024-03-01 10:00:00.123Z x",
        NOW,
        0,
        Some((0, 24, 1709287200)),
    ),
    (
        "2024-03-01 10:00:00.123456Z x",
        NOW,
        0,
        Some((0, 27, 1709287200)),
    ),
    (
        "2024-03-01 10:00:00.123456789Z x",
        NOW,
        0,
        Some((0, 30, 1709287200)),
    ),
    (
        "2024-03-01 10:00:00,123 x",
        NOW,
        0,
        Some((0, 23, 1709287200)),
    ),
    (
        "2024-03-01 10:00:00.1234567890Z",
        NOW,
        3600,
        Some((0, 29, 1709283600)),
    ),
    (
        "01/Mar/2024:11:00:00 +0100",
        NOW,
        0,
        Some((0, 26, 1709287200)),
    ),
    (
        "192.0.2.7 - - [10/Oct/2000:13:55:36 -0700] \"GET /\"",
        NOW,
        0,
        Some((15, 41, 971211336)),
    ),
    ("31/Apr/2024:11:00:00 +0100", NOW, 0, None),
    ("01/Mar/2024:11:00:00 +9900", NOW, 0, None),
    (
        "Fri Mar  1 10:00:00 2024",
        NOW,
        0,
        Some((0, 24, 1709287200)),
    ),
    (
        "Mon Mar 01 10:00:00.123456 2024",
        NOW,
        0,
        Some((0, 31, 1709287200)),
    ),
    ("x Mar 1 10:00:00 2024", NOW, 0, Some((2, 21, 1709287200))),
    (
        "2024/03/01 10:00:00 [error]",
        NOW,
        0,
        Some((0, 19, 1709287200)),
    ),
    ("2024/02/30 10:00:00 [error]", NOW, 0, None),
    ("1709287200 x", NOW, 0, Some((0, 10, 1709287200))),
    ("x 1709287200.123456 y", NOW, 0, Some((2, 19, 1709287200))),
    ("x 1709287200.1234567 y", NOW, 0, Some((2, 12, 1709287200))),
    ("12345678901 x", NOW, 0, None),
    ("a1709287200 x", NOW, 0, None),
    ("Mar  1 09:59:00 x", NOW, 0, Some((0, 15, 1709287140))),
    ("Mar  1 09:59:00 x", NOW, 3600, Some((0, 15, 1709283540))),
    ("Dec 31 23:59:59", 1704067200, 0, Some((0, 15, 1704067199))),
    ("Dec 31 23:59:59", 1704067199, 0, Some((0, 15, 1704067199))),
    ("Jan  1 00:00:00", 1704067199, 0, Some((0, 15, 1704067200))),
    ("Jan  1 23:59:59", 1704067199, 0, Some((0, 15, 1704153599))),
    ("Jan  2 00:00:00", 1704067199, 0, Some((0, 15, 1672617600))),
    (
        "Jan  1 00:30:00",
        1704022800,
        46800,
        Some((0, 15, 1704022200)),
    ),
    ("Feb 29 00:00:00", NOW, 0, Some((0, 15, 1709164800))),
    ("Feb 29 00:00:00", 1685577600, 0, Some((0, 15, 1582934400))),
    ("Feb 29 00:00:00", 4210099200, 0, Some((0, 15, 3981312000))),
    ("Feb 29 00:00:00", 4231267200, 0, Some((0, 15, 3981312000))),
    ("Feb 30 00:00:00", NOW, 0, None),
    ("Mar  1 10:00:00", 0, 0, Some((0, 15, -26402400))),
    ("Jan  1 12:00:00", 0, 0, Some((0, 15, 43200))),
    ("Mar  9 12:26:40", u64::MAX, 0, Some((0, 15, 250000086400))),
    ("Mar  9 12:26:41", u64::MAX, 0, Some((0, 15, 249968464001))),
    (
        "Mar  1 09:59:00 x 2024-03-01T10:00:00Z",
        NOW,
        0,
        Some((18, 38, 1709287200)),
    ),
    (
        "1709287200 Mar  1 09:59:00",
        NOW,
        0,
        Some((11, 26, 1709287140)),
    ),
    (
        "2024-03-01 10:00:00 2025-03-01 10:00:00",
        NOW,
        0,
        Some((0, 19, 1709287200)),
    ),
    ("2024-02-30 10:00:00 2024-03-01 10:00:00", NOW, 0, None),
    (
        "2024-02-30 10:00:00 Mar  1 10:00:00",
        NOW,
        0,
        Some((20, 35, 1709287200)),
    ),
    (
        "Mar  1 09:59:00 h sshd: Failed password for 2020-01-01T00:00:00Z from ::7",
        NOW,
        0,
        Some((44, 64, 1577836800)),
    ),
    ("é 2024-03-01 10:00:00 ü", NOW, 0, Some((3, 22, 1709287200))),
    ("", NOW, 0, None),
    ("no date", NOW, 0, None),
    (
        "2024-03-01 10:00:00",
        NOW,
        2147483647,
        Some((0, 19, -438196447)),
    ),
    (
        "2024-03-01 10:00:00",
        NOW,
        -2147483648,
        Some((0, 19, 3856770848)),
    ),
];

#[test]
fn usual_dates(rt: HostRuntime) -> Result<(), NoMemory> {
    let dates = built(&rt, rt.alloc(), &DateSpec::Default);
    are_found(&rt, rt.alloc(), &dates, &USUAL_DATES)
}

const AT_THE_BEGINNING: [(&str, u64, i32, Option<Place>); 13] = [
    ("2024-03-01T10:00:00Z x", NOW, 0, Some((0, 20, 1709287200))),
    (" 2024-03-01T10:00:00Z x", NOW, 0, None),
    ("[2024-03-01 10:00:00] x", NOW, 0, Some((1, 20, 1709287200))),
    ("[[2024-03-01 10:00:00] x", NOW, 0, None),
    (
        "[Fri Mar 01 10:00:00.123456 2024] [error]",
        NOW,
        0,
        Some((1, 32, 1709287200)),
    ),
    (
        "Mar  1 09:59:00 x 2024-03-01T10:00:00Z",
        NOW,
        0,
        Some((0, 15, 1709287140)),
    ),
    (
        "Mar  1 09:59:00 h sshd: Failed password for 2020-01-01T00:00:00Z from ::7",
        NOW,
        0,
        Some((0, 15, 1709287140)),
    ),
    ("[1709287200] x", NOW, 0, Some((1, 11, 1709287200))),
    ("x 1709287200", NOW, 0, None),
    ("2024-02-30 10:00:00", NOW, 0, None),
    ("[2024-02-30 10:00:00]", NOW, 0, None),
    ("[", NOW, 0, None),
    ("", NOW, 0, None),
];

#[test]
fn dates_at_the_beginning(rt: HostRuntime) -> Result<(), NoMemory> {
    let dates = built(&rt, rt.alloc(), &DateSpec::Anchored);
    are_found(&rt, rt.alloc(), &dates, &AT_THE_BEGINNING)
}

const THREE_FORMS: &str = "Mar  1 09:59:00 1709287200 2024-03-01T10:00:00Z";

/// The date that a spec finds in the line of three forms.
fn is_found_by(
    rt: &impl Abort,
    alloc: Global,
    spec: &DateSpec,
    want: Option<Place>,
) -> Result<(), NoMemory>
    requires { HasDatePattern spec.now }
{
    let dates = built(rt, alloc, spec);
    let found = dates.find(alloc, THREE_FORMS, NOW, 0)?;
    same(rt, spec, found, wanted(want));
    Ok(())
}

#[test]
fn dates_of_one_form_or_none(rt: HostRuntime) -> Result<(), NoMemory> {
    let epoch = Some((16, 26, 1_709_287_200));
    is_found_by(&rt, rt.alloc(), &DateSpec::Epoch, epoch)?;
    let iso = Some((27, 47, 1_709_287_200));
    is_found_by(&rt, rt.alloc(), &DateSpec::Iso, iso)?;
    is_found_by(&rt, rt.alloc(), &DateSpec::NoDate, None)
}

/// The dates of a user's pattern.
fn dates_of(
    rt: &impl Abort,
    alloc: Global,
    anchored: bool,
    pattern: &str,
) -> Result<Dates, NoMemory> {
    let spec = own(rt, alloc, anchored, pattern)?;
    Ok(built(rt, alloc, &spec))
}

/// That date is found in a line by a user's pattern.
fn is_found_by_own(
    rt: &impl Abort,
    alloc: Global,
    anchored: bool,
    pattern: &str,
    row: (&str, u64, i32),
    want: Option<Place>,
) -> Result<(), NoMemory> {
    let (line, now, zone) = row;
    let dates = dates_of(rt, alloc, anchored, pattern)?;
    let found = dates.find(alloc, line, now, zone)?;
    same(rt, (pattern, row), found, wanted(want));
    Ok(())
}

/// Rows of a pattern, a line, the moment, the zone, and the date that is found.
fn are_found_by(
    rt: &impl Abort,
    alloc: Global,
    rows: &[(&str, &str, u64, i32, Option<Place>)],
) -> Result<(), NoMemory> {
    for &(pattern, line, now, zone, found) in rows {
        is_found_by_own(rt, alloc, false, pattern, (line, now, zone), found)?;
    }
    Ok(())
}

const OF_A_USER: [(&str, &str, u64, i32, Option<Place>); 19] = [
    (
        "%Y-%m-%d %H:%M:%S",
        "x 2024-03-01 10:00:00 y",
        NOW,
        0,
        Some((2, 21, 1709287200)),
    ),
    (
        "%y%m%d %H:%M:%S",
        "680301 10:00:00",
        NOW,
        0,
        Some((0, 15, 3097821600)),
    ),
    (
        "%y%m%d %H:%M:%S",
        "690301 10:00:00",
        NOW,
        0,
        Some((0, 15, -26402400)),
    ),
    (
        "%d/%b/%Y %H:%M",
        "1/Mar/2024 10:00",
        NOW,
        0,
        Some((0, 16, 1709287200)),
    ),
    ("%d.%m.%Y", "1.03.2024", NOW, 0, Some((0, 9, 1709251200))),
    (
        "on%d.%m.%Y",
        "on 1.03.2024",
        NOW,
        0,
        Some((0, 12, 1709251200)),
    ),
    (
        "on%d.%m.%Y",
        "on\t1.03.2024",
        NOW,
        0,
        Some((0, 12, 1709251200)),
    ),
    (
        "%d/%m(?: %H:%M)?",
        "01/03",
        NOW,
        0,
        Some((0, 5, 1709251200)),
    ),
    (
        "%d/%m(?: %H:%M)?",
        "01/03 09:30",
        NOW,
        0,
        Some((0, 11, 1709285400)),
    ),
    (
        "%d/%m(?: %H:%M)?",
        "03/03",
        NOW,
        0,
        Some((0, 5, 1677801600)),
    ),
    (
        "%Y-%m-%dT%H:%M:%S%z",
        "2024-03-01T10:00:00-07:00",
        NOW,
        3600,
        Some((0, 25, 1709312400)),
    ),
    (
        "%Y-%m-%d %H(?: %z)?",
        "2024-03-01 10",
        NOW,
        3600,
        Some((0, 13, 1709283600)),
    ),
    (
        "%Y-%m-%d %H(?: %z)?",
        "2024-03-01 10 Z",
        NOW,
        3600,
        Some((0, 15, 1709287200)),
    ),
    (
        "%b %d %H:%M:%S %z",
        "Jan 01 00:30:00 +1300",
        1704022800,
        0,
        Some((0, 21, 1704022200)),
    ),
    (
        "%a, %d %b %Y %H:%M:%S.%f",
        "Mon, 01 Mar 2024 10:00:00.5 x",
        NOW,
        0,
        Some((0, 27, 1709287200)),
    ),
    ("%d%%%m", "01%03", NOW, 0, Some((0, 5, 1709251200))),
    (
        "(user )?(?P<who>[a-z]+) %m-%d",
        "user root 03-01",
        NOW,
        0,
        Some((0, 15, 1709251200)),
    ),
    ("%m(?:-%d)?", "03", NOW, 0, None),
    ("%Y-%m-%d", "2024-02-30", NOW, 0, None),
];

#[test]
fn dates_of_a_user(rt: HostRuntime) -> Result<(), NoMemory> {
    are_found_by(&rt, rt.alloc(), &OF_A_USER)
}

/// Rows of a pattern, a line, and the date that is found at its beginning.
fn are_found_first(
    rt: &impl Abort,
    alloc: Global,
    rows: &[(&str, &str, Option<Place>)],
) -> Result<(), NoMemory> {
    for &(pattern, line, found) in rows {
        is_found_by_own(rt, alloc, true, pattern, (line, NOW, 0), found)?;
    }
    Ok(())
}

const OF_A_USER_AT_THE_BEGINNING: [(&str, &str, Option<Place>); 7] = [
    ("%m/%d", "03/01 x", Some((0, 5, 1_709_251_200))),
    ("%m/%d", "[03/01] x", Some((1, 6, 1_709_251_200))),
    ("%m/%d", "x 03/01", None),
    ("x|%m/%d", "y 03/01", None),
    (r"\[?%m/%d", "[03/01] x", Some((0, 6, 1_709_251_200))),
    (r"\[?%m/%d", "[02/30] x", None),
    (r"\[%m/%d", "[[03/01] x", Some((1, 7, 1_709_251_200))),
];

#[test]
fn dates_of_a_user_at_the_beginning(rt: HostRuntime) -> Result<(), NoMemory> {
    are_found_first(&rt, rt.alloc(), &OF_A_USER_AT_THE_BEGINNING)
}

/// Texts that are date patterns, or are not.
fn are_date_patterns(rt: &impl Abort, texts: &[&str], want: bool) {
    for &text in texts {
        same(rt, text, is_date_pattern(text), want);
    }
}

const DATE_PATTERNS: [&str; 5] = [
    "%Y-%m-%d %H:%M:%S.%f%z",
    "%a %b %d",
    "%y%m%d",
    "%%%d%m",
    "é%m%dü",
];

const NO_DATE_PATTERNS: [&str; 14] = [
    "",
    "%m",
    "%d",
    "%Y-%d",
    "%m-%b-%d",
    "%Y%y-%m-%d",
    "%m-%d %d",
    "%m-%d %a %a",
    "%m-%d %f %f",
    "%m-%d %% %%",
    "%m-%d %",
    "%m-%d %Z",
    "%m-%d %é",
    "%m%%d",
];

#[test]
fn date_patterns(rt: HostRuntime) {
    are_date_patterns(&rt, &DATE_PATTERNS, true);
    are_date_patterns(&rt, &NO_DATE_PATTERNS, false);
}

/// Why no dates are built, if they are not.
fn error_of(built: &Result<Dates, BuildError>) -> Option<BuildError> {
    match built {
        Ok(_) => None,
        Err(error) => Some(*error),
    }
}

/// Why no dates are built of a pattern.
fn refused(rt: &impl Abort, alloc: Global, text: &str) -> Result<Option<BuildError>, NoMemory> {
    let spec = own(rt, alloc, false, text)?;
    let mut library = Library { alloc };
    let built = Dates::build(alloc, &mut library, &spec);
    Ok(error_of(&built))
}

/// Rows of a pattern and why no dates are built of it.
fn are_refused(
    rt: &impl Abort,
    alloc: Global,
    rows: &[(&str, BuildError)],
) -> Result<(), NoMemory> {
    for &(text, error) in rows {
        same(rt, text, refused(rt, alloc, text)?, Some(error));
    }
    Ok(())
}

const REFUSED: [(&str, BuildError); 4] = [
    ("(?=x)%m-%d", BuildError::Syntax),
    ("(%m-%d", BuildError::Syntax),
    ("(?P<f2bd>x)%m-%d", BuildError::Syntax),
    ("a{1000}{1000}{100}%m-%d", BuildError::TooBig),
];

#[test]
fn refused_patterns(rt: HostRuntime) -> Result<(), NoMemory> {
    are_refused(&rt, rt.alloc(), &REFUSED)
}
