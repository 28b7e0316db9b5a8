//! Worked lines.
ghost use Rattle.std.specs.Prelude.{◌≤◌, length, IfOk};
ghost use Rattle.f2b_base.specs.declared.jail.DateSpec.TheVariants.{Pattern};
ghost use Rattle.date_detect.specs.Forms.{HasDatePattern};
ghost use Rattle.filter_regex.specs.Rules.{IsSupported};

mod builds;
mod dates;
mod hosts;
mod lines;

use crate::rows::{is_so, same};
use date_detect::is_date_pattern;
use f2b_base::{Addr, BanRule, Cidr, DateSpec, JailDef, LAST_MOMENT, NoMemory, Seq, Text};
use f2b_world::{Made, Outside, Patterns, build_pattern};
use filter_regex::{BuildKind, Filter, Finding, PatternError, PatternPlace, Searcher};
use ignore_set::IgnoreSet;
use std::alloc::Global;
use std::process::Abort;

/// An outside that builds patterns, tells nothing, and has counted as many faults as it can.
#[derive(Drop)]
struct Library {
    alloc: Global,
    /// How many patterns it was asked for.
    asked: u64,
}

impl Outside for Library {
    ghost use Rattle.std.specs.Prelude.{None, ◌-◌, ◌^◌};

    ghost stands = { λ _. record { told = None; talk = None; shelf = None; faults = λ _. 2 ^ 64 - 1 } };
}

impl Patterns for Library {
    fn make(&mut self, text: &str) -> Made {
        self.asked = self.asked.saturating_add(1);
        match build_pattern(self.alloc, text) {
            Made::Built(pattern) => Made::Built(pattern),
            Made::Syntax => Made::Syntax,
            Made::TooBig => Made::TooBig,
            Made::NoMemory => Made::NoMemory,
        }
    }
}

/// How the lines of a test are dated.
#[derive(Clone, Copy)]
enum Dated<'p> {
    Epoch,
    NoDate,
    Usual,
    Anchored,
    Iso,
    Own(&'p str),
    OwnAnchored(&'p str),
}

/// What a jail of a test is made of. A list is given by lines; no line, no item.
#[derive(Clone, Copy)]
struct Parts<'p> {
    dated: Dated<'p>,
    pref: &'p str,
    fail: &'p str,
    ignore_lines: &'p str,
}

/// Nothing but dates.
const NONE: Parts<'static> = Parts {
    dated: Dated::Epoch,
    pref: "",
    fail: "",
    ignore_lines: "",
};

fn texts(alloc: Global, list: &str) -> Result<Seq<Text>, NoMemory> {
    let mut texts = Seq::new(alloc);
    for text in list.lines() {
        texts.push(Text::from_str(alloc, text)?)?;
    }
    Ok(texts)
}

fn mask(rt: &impl Abort, text: &str) -> Cidr {
    match Cidr::read(text.as_bytes()) {
        Some(mask) => mask,
        None => panic!(rt; "no mask"),
    }
}

/// The addresses that are never banned, by masks in lines.
fn ignoring(rt: &impl Abort, alloc: Global, list: &str) -> Result<IgnoreSet, NoMemory> {
    let mut masks = Seq::new(alloc);
    for text in list.lines() {
        masks.push(mask(rt, text))?;
    }
    IgnoreSet::new(alloc, &masks)
}

/// The text of a date pattern.
fn date_pattern(rt: &impl Abort, alloc: Global, text: &str) -> Result<Text, NoMemory>
    ensures { IfOk result (λ pattern. HasDatePattern (Pattern pattern)) }
{
    is_so(rt, text, is_date_pattern(text));
    Text::from_str(alloc, text)
}

fn spec(rt: &impl Abort, alloc: Global, dated: Dated<'_>) -> Result<DateSpec, NoMemory>
    ensures { IfOk result HasDatePattern }
{
    match dated {
        Dated::Epoch => Ok(DateSpec::Epoch),
        Dated::NoDate => Ok(DateSpec::NoDate),
        Dated::Usual => Ok(DateSpec::Default),
        Dated::Anchored => Ok(DateSpec::Anchored),
        Dated::Iso => Ok(DateSpec::Iso),
        Dated::Own(text) => Ok(DateSpec::Pattern(date_pattern(rt, alloc, text)?)),
        Dated::OwnAnchored(text) => Ok(DateSpec::AnchoredPattern(date_pattern(rt, alloc, text)?)),
    }
}

/// No more patterns than a jail may have.
fn few_texts(rt: &impl Abort, alloc: Global, list: &str) -> Result<Seq<Text>, NoMemory>
    ensures { IfOk result (λ texts. length texts ≤ 512) }
{
    let texts = texts(alloc, list)?;
    is_so(rt, list, texts.len() <= 512);
    Ok(texts)
}

/// The pattern of what a line has to match first.
fn pref_of(alloc: Global, text: &str) -> Result<Option<Text>, NoMemory> {
    if text.is_empty() {
        return Ok(None);
    }
    Ok(Some(Text::from_str(alloc, text)?))
}

fn rule(alloc: Global) -> BanRule {
    BanRule {
        base: 60,
        increment: false,
        factor: 1000,
        multipliers: Seq::new(alloc),
        maxtime: 60,
        rndtime: 0,
    }
}

fn jail_of(
    alloc: Global,
    date: DateSpec,
    pref: Option<Text>,
    fail: Seq<Text>,
    ignore_lines: Seq<Text>,
) -> JailDef
    requires date { HasDatePattern date }
    requires fail { length fail ≤ 512 }
    requires ignore_lines { length ignore_lines ≤ 512 }
    ensures { IsSupported result }
{
    JailDef {
        name: Text::new(alloc),
        watches: Seq::new(alloc),
        zone: 0,
        date,
        pref,
        fail,
        ignore_lines,
        ignore: Seq::new(alloc),
        findtime: 600,
        maxretry: 3,
        maxmatches: 10,
        rule: rule(alloc),
        actions: Seq::new(alloc),
    }
}

/// A jail with these dates, and what a line has to match first.
fn jail_with(
    rt: &impl Abort,
    alloc: Global,
    parts: &Parts<'_>,
    date: DateSpec,
    pref: Option<Text>,
) -> Result<JailDef, NoMemory>
    requires { HasDatePattern date }
    ensures { IfOk result IsSupported }
{
    let fail = few_texts(rt, alloc, parts.fail)?;
    let ignore_lines = few_texts(rt, alloc, parts.ignore_lines)?;
    Ok(jail_of(alloc, date, pref, fail, ignore_lines))
}

fn jail(rt: &impl Abort, alloc: Global, parts: &Parts<'_>) -> Result<JailDef, NoMemory>
    ensures { IfOk result IsSupported }
{
    let date = spec(rt, alloc, parts.dated)?;
    let pref = pref_of(alloc, parts.pref)?;
    jail_with(rt, alloc, parts, date, pref)
}

fn built(rt: &impl Abort, alloc: Global, jail: &JailDef) -> Filter
    requires { IsSupported jail.now }
{
    let mut library = Library { alloc, asked: 0 };
    match Filter::build(alloc, &mut library, jail) {
        Ok(filter) => filter,
        Err(_) => panic!(rt; "not built"),
    }
}

fn filter(rt: &impl Abort, alloc: Global, parts: &Parts<'_>) -> Result<Filter, NoMemory> {
    let jail = jail(rt, alloc, parts)?;
    Ok(built(rt, alloc, &jail))
}

/// What the filter of a jail finds in a line, where no address is ignored.
fn found_in(
    rt: &impl Abort,
    alloc: Global,
    parts: &Parts<'_>,
    line: &str,
    now: u64,
    findtime: u64,
) -> Result<Finding, NoMemory> {
    is_so(rt, line, now <= LAST_MOMENT);
    let filter = filter(rt, alloc, parts)?;
    let none = ignoring(rt, alloc, "")?;
    filter.found(alloc, &none, line, now, findtime)
}

/// 192.0.2.7.
const SEVEN: Addr = Addr::V4(0xC000_0207);

fn failure(addr: Addr, time: u64, index: u32) -> Finding {
    Finding::Failure { addr, time, index }
}
