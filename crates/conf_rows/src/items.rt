//! Texts of items, with what they are read as.

use crate::rows::same;
use crate::trees::{Told, are_told, are_told_with, is_told, jail_in, read, read_with};
use f2b_base::{DateSpec, NoMemory};
use jail_conf::str2sec;
use std::alloc::Global;
use std::process::Abort;

/// An item that is read as a number.
#[derive(Clone, Copy)]
enum Item {
    /// One where it is so, and none where not.
    Increment,
    Maxretry,
    Bantime,
    /// In thousandths.
    Factor,
    /// In seconds.
    Zone,
    /// How many addresses are never banned.
    Ignored,
}

fn name_of(item: Item) -> &'static str {
    match item {
        Item::Increment => "bantime.increment",
        Item::Maxretry => "maxretry",
        Item::Bantime => "bantime",
        Item::Factor => "bantime.factor",
        Item::Zone => "logtimezone",
        Item::Ignored => "ignoreip",
    }
}

/// What an item of the one jail is read as.
fn number(told: &Told, item: Item) -> Option<i64> {
    let jail = jail_in(told)?;
    match item {
        Item::Increment => Some(i64::from(jail.rule.increment)),
        Item::Maxretry => i64::try_from(jail.maxretry).ok(),
        Item::Bantime => Some(jail.rule.base),
        Item::Factor => i64::try_from(jail.rule.factor).ok(),
        Item::Zone => Some(jail.zone),
        Item::Ignored => i64::try_from(jail.ignore.len()).ok(),
    }
}

/// Rows of a text and what an item with it is read as.
fn are_numbers(rt: &impl Abort, alloc: Global, item: Item, rows: &[(&str, i64)]) {
    for &(text, want) in rows {
        let told = read_with(alloc, name_of(item), text);
        same(rt, text, number(&told, item), Some(want));
    }
}

const BOOLEANS: [(&str, i64); 5] = [("true", 1), (" Yes\t", 1), ("1", 1), ("OFF", 0), ("0", 0)];

const NO_BOOLEANS: [&str; 4] = ["", "maybe", "true yes", "yess"];

#[test]
fn reads_booleans(rt: HostRuntime) -> Result<(), NoMemory> {
    are_numbers(&rt, rt.alloc(), Item::Increment, &BOOLEANS);
    let want = "jail.conf|j|bantime.increment|BadBool";
    are_told_with(&rt, rt.alloc(), "bantime.increment", &NO_BOOLEANS, want)
}

const CHOICES: [(&str, &str, &str); 4] = [
    ("usedns", "Warn", "read"),
    ("usedns", "raw", "jail.conf|j|usedns|Unsupported"),
    ("bantime.overalljails", "no", "read"),
    (
        "bantime.overalljails",
        "yes",
        "jail.conf|j|bantime.overalljails|Unsupported",
    ),
];

#[test]
fn reads_choices(rt: HostRuntime) -> Result<(), NoMemory> {
    are_told(&rt, rt.alloc(), &CHOICES)
}

const NUMBERS: [(&str, i64); 3] = [("1", 1), ("007", 7), (" 100000 ", 100_000)];

const NO_NUMBERS: [&str; 7] = ["", "0", "100001", "-1", "+1", "1.0", "18446744073709551617"];

#[test]
fn reads_numbers(rt: HostRuntime) -> Result<(), NoMemory> {
    are_numbers(&rt, rt.alloc(), Item::Maxretry, &NUMBERS);
    let want = "jail.conf|j|maxretry|BadNumber";
    are_told_with(&rt, rt.alloc(), "maxretry", &NO_NUMBERS, want)
}

const MAXLINES: [(&str, &str, &str); 2] = [
    ("maxlines", "01", "read"),
    ("maxlines", "2", "jail.conf|j|maxlines|Unsupported"),
];

fn multipliers(told: &Told) -> Option<&[u64]> {
    Some(jail_in(told)?.rule.multipliers.as_slice())
}

fn are_multipliers(rt: &impl Abort, alloc: Global, text: &str, want: &[u64]) {
    let told = read_with(alloc, "bantime.multipliers", text);
    same(rt, text, multipliers(&told), Some(want));
}

#[test]
fn reads_the_number_one_and_several_numbers(rt: HostRuntime) -> Result<(), NoMemory> {
    are_multipliers(&rt, rt.alloc(), "1 5\n 30", &[1, 5, 30]);
    are_told(&rt, rt.alloc(), &MAXLINES)
}

/// Rows of a text and its seconds.
fn are_times(rt: &impl Abort, rows: &[(&str, Option<i64>)]) {
    for &(text, want) in rows {
        same(rt, text, str2sec(text), want);
    }
}

const TIMES: [(&str, Option<i64>); 18] = [
    ("600", Some(600)),
    ("10m", Some(600)),
    ("1d12h30m", Some(131_400)),
    ("1d 12h 30m", Some(131_400)),
    ("1mo", Some(2_629_800)),
    ("2 Weeks", Some(1_209_600)),
    ("-1", Some(-1)),
    (" 5 ", Some(5)),
    ("3153600000", Some(3_153_600_000)),
    ("3153600001", None),
    ("100years", None),
    ("99999999999999999999y", None),
    ("5q", None),
    ("", None),
    ("1h 30", None),
    ("1 2h", None),
    ("- 5", None),
    ("--5", None),
];

#[test]
fn reads_times(rt: HostRuntime) {
    are_times(&rt, &TIMES);
}

const NO_TIMES: [(&str, &str, &str); 4] = [
    ("findtime", "0", "jail.conf|j|findtime|BadTime"),
    ("bantime", "0s", "jail.conf|j|bantime|BadTime"),
    (
        "bantime.rndtime",
        "12d",
        "jail.conf|j|bantime.rndtime|BadNumber",
    ),
    (
        "bantime.rndtime",
        "x",
        "jail.conf|j|bantime.rndtime|BadTime",
    ),
];

#[test]
fn reads_times_of_items(rt: HostRuntime) -> Result<(), NoMemory> {
    // For ever.
    are_numbers(&rt, rt.alloc(), Item::Bantime, &[("-1", -1)]);
    are_told(&rt, rt.alloc(), &NO_TIMES)
}

/// In thousandths.
const FACTORS: [(&str, i64); 3] = [("1.5", 1_500), ("2", 2_000), ("0.001", 1)];

const NO_FACTORS: [&str; 7] = ["0", "1.5000", "1.", ".5", "1.2.3", "1000.1", "-1"];

/// In seconds.
const ZONES: [(&str, i64); 4] = [
    ("Z", 0),
    ("UTC", 0),
    ("UTC-0130", -5_400),
    ("GMT+2359", 86_340),
];

const NO_ZONES: [&str; 6] = ["", "z", "UTC+1", "GMT+2400", "GMT+0060", "UTC 0100"];

#[test]
fn reads_factors_and_zones(rt: HostRuntime) -> Result<(), NoMemory> {
    are_numbers(&rt, rt.alloc(), Item::Factor, &FACTORS);
    are_numbers(&rt, rt.alloc(), Item::Zone, &ZONES);
    let want = "jail.conf|j|bantime.factor|BadNumber";
    are_told_with(&rt, rt.alloc(), "bantime.factor", &NO_FACTORS, want)?;
    let want = "jail.conf|j|logtimezone|BadZone";
    are_told_with(&rt, rt.alloc(), "logtimezone", &NO_ZONES, want)
}

/// The name of a spec of dates, and its pattern.
type Date = (&'static str, &'static str);

fn shown(date: &DateSpec) -> (&'static str, &str) {
    match date {
        DateSpec::Default => ("default", ""),
        DateSpec::Anchored => ("anchored", ""),
        DateSpec::Epoch => ("epoch", ""),
        DateSpec::Iso => ("iso", ""),
        DateSpec::NoDate => ("none", ""),
        DateSpec::Pattern(pattern) => ("pattern", pattern.as_str()),
        DateSpec::AnchoredPattern(pattern) => ("anchored pattern", pattern.as_str()),
    }
}

fn date(told: &Told) -> Option<(&'static str, &str)> {
    Some(shown(&jail_in(told)?.date))
}

/// Rows of a text and the spec of dates that it is read as.
fn are_dates(rt: &impl Abort, alloc: Global, rows: &[(&str, Date)]) {
    for &(text, want) in rows {
        let told = read_with(alloc, "datepattern", text);
        same(rt, text, date(&told), Some(want));
    }
}

const DATES: [(&str, Date); 5] = [
    ("{^LN-BEG}", ("anchored", "")),
    ("{NONE}", ("none", "")),
    ("Epoch", ("epoch", "")),
    ("ISO8601", ("iso", "")),
    ("{^LN-BEG}%%d/%%b", ("anchored pattern", "%d/%b")),
];

#[test]
fn reads_dates(rt: HostRuntime) {
    are_dates(&rt, rt.alloc(), &DATES);
}

const NO_DATES: [&str; 5] = ["", "%%d", "%%d%%d%%m", "%%Q%%d%%m", "{^LN-BEG}Epoch"];

#[test]
fn refuses_what_is_no_date(rt: HostRuntime) -> Result<(), NoMemory> {
    let want = "jail.conf|j|datepattern|BadDate";
    are_told_with(&rt, rt.alloc(), "datepattern", &NO_DATES, want)
}

#[test]
fn reads_addresses(rt: HostRuntime) -> Result<(), NoMemory> {
    // Three, and the two of the loopback.
    let three = "127.0.0.1/8 ::1,\n 10.0.0.1";
    are_numbers(&rt, rt.alloc(), Item::Ignored, &[(three, 5)]);
    let want = "jail.conf|j|ignoreip|BadAddress";
    are_told_with(&rt, rt.alloc(), "ignoreip", &["10.0.0.1 host"], want)
}

const FROM_DEFAULT: &str =
    "[DEFAULT]\nenabled = on\nbackend = raw\nmaxretry = 3\n[j]\nbackend = AUTO\n";

/// What is read where an item stands in the section of defaults.
fn is_from_default(rt: &impl Abort, told: &Told) {
    same(rt, "maxretry", number(told, Item::Maxretry), Some(3));
    same(rt, "increment", number(told, Item::Increment), Some(0));
    // That the machine's own addresses are never banned is not said, and the two of the loopback are there.
    same(rt, "ignored", number(told, Item::Ignored), Some(2));
}

#[test]
fn reads_an_item_where_it_stands(rt: HostRuntime) {
    is_from_default(&rt, &read(rt.alloc(), &[("jail.conf", FROM_DEFAULT)]));
}

/// Rows of a `jail.conf`, and where its item is refused and why: file, section, item and kind.
fn are_refused(rt: &impl Abort, alloc: Global, rows: &[(&str, &str)]) -> Result<(), NoMemory> {
    for &(jail, want) in rows {
        is_told(rt, alloc, jail, &[("jail.conf", jail)], want)?;
    }
    Ok(())
}

const OF_DEFAULT: [(&str, &str); 2] = [
    (
        "[DEFAULT]\nenabled = maybe\n[j]\nbackend = AUTO\n",
        "jail.conf|j|enabled|BadBool",
    ),
    (
        "[DEFAULT]\nenabled = on\nignoreself = %(no)s\n[j]\nbackend = AUTO\n",
        "jail.conf|j|ignoreself|Missing(\"no\")",
    ),
];

#[test]
fn tells_where_an_item_stands(rt: HostRuntime) -> Result<(), NoMemory> {
    are_refused(&rt, rt.alloc(), &OF_DEFAULT)
}
