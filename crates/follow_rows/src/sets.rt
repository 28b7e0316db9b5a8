//! Rows of looks at the logs of two jails.
ghost use Rattle.std.specs.Prelude.{◌≡◌, ◌<◌, length, map, IfOk};
ghost use Rattle.f2b_model.specs.Storable.{IsJailName};
ghost use Rattle.filter_regex.specs.Rules.{IsSupported, rules_of};
ghost use Rattle.log_follow.specs.Watches.{Answers, IsPlace};
ghost use Rattle.log_set.specs.Logs.{AnswersAt};

mod changes;
mod looks;

use f2b_base::{
    ActionDef, Addr, BanRule, Bytes, Cidr, DateSpec, Failure, Family, FileLook, JailDef, NoMemory,
    Place, Seq, Text, What,
};
use f2b_world::{Made, Outside, Patterns, build_pattern};
use filter_regex::Filter;
use log_follow::Ask;
use log_set::{Log, LogSet, Taken};
use std::alloc::Global;
use std::process::Abort;
use std::test::*;

/// An outside that builds patterns, tells nothing, and has counted as many faults as it can.
#[derive(Drop)]
struct Library {
    alloc: Global,
}

impl Outside for Library {
    ghost use Rattle.std.specs.Prelude.{None, ◌-◌, ◌^◌};

    ghost stands = { λ _. record { told = None; talk = None; shelf = None; faults = λ _. 2 ^ 64 - 1 } };
}

impl Patterns for Library {
    fn make(&mut self, text: &str) -> Made {
        match build_pattern(self.alloc, text) {
            Made::Built(pattern) => Made::Built(pattern),
            Made::Syntax => Made::Syntax,
            Made::TooBig => Made::TooBig,
            Made::NoMemory => Made::NoMemory,
        }
    }
}

/// The moment of each look.
const NOW: u64 = 1_700_000_110;

/// Two jails with their filters: `web`, whose command shows lines, and `mail`, which has none.
#[derive(Drop)]
struct Jails {
    definitions: Vec<JailDef>,
    filters: Vec<Filter>,
    ghost built: { filters.items ≡ map rules_of definitions.items },
}

fn action(alloc: Global, ban: &str) -> Result<ActionDef, NoMemory> {
    Ok(ActionDef {
        name: Text::from_str(alloc, "note")?,
        family: Family::Both,
        start: Text::new(alloc),
        stop: Text::new(alloc),
        ban: Text::from_str(alloc, ban)?,
        unban: Text::new(alloc),
        check: Text::new(alloc),
        timeout: 60,
    })
}

/// A jail with one pattern, and an action with this command.
fn definition(alloc: Global, name: &str, fail: &str, ban: &str) -> Result<JailDef, NoMemory>
    ensures { IfOk result IsSupported }
{
    let mut patterns = Seq::new(alloc);
    patterns.push(Text::from_str(alloc, fail)?)?;
    let mut actions = Seq::new(alloc);
    actions.push(action(alloc, ban)?)?;
    Ok(JailDef {
        name: Text::from_str(alloc, name)?,
        watches: Seq::new(alloc),
        zone: 0,
        date: DateSpec::Epoch,
        pref: None,
        fail: patterns,
        ignore_lines: Seq::new(alloc),
        ignore: Seq::new(alloc),
        findtime: 600,
        maxretry: 3,
        maxmatches: 10,
        rule: BanRule {
            base: 60,
            increment: false,
            factor: 1000,
            multipliers: Seq::new(alloc),
            maxtime: 60,
            rndtime: 0,
        },
        actions,
    })
}

fn filter(alloc: Global, definition: &JailDef) -> Result<Filter, Fail>
    requires { IsSupported definition.now }
    ensures { IfOk result (λ filter. filter ≡ rules_of definition.now) }
{
    let mut library = Library { alloc };
    match Filter::build(alloc, &mut library, definition) {
        Ok(filter) => Ok(filter),
        Err(_) => Err(Fail::from("not built")),
    }
}

fn two_jails(alloc: Global) -> Result<Jails, Fail> {
    let web = definition(alloc, "web", "^ web from <HOST>", "note <ip> '<matches>'")?;
    let mail = definition(alloc, "mail", "^ mail from <HOST>", "note <ip>")?;
    let mut filters = Vec::new(alloc);
    filters.push(filter(alloc, &web)?)?;
    filters.push(filter(alloc, &mail)?)?;
    let mut definitions = Vec::new(alloc);
    definitions.push(web)?;
    definitions.push(mail)?;
    Ok(Jails {
        definitions,
        filters,
    })
}

fn from_start(alloc: Global) -> Place
    ensures { IsPlace result }
{
    Place::Pos {
        position: 0,
        head: Bytes::new(alloc),
    }
}

/// The name of one of the jails, or of one that is not there.
fn name(alloc: Global, jail: &str) -> Result<Text, Fail>
    ensures { IfOk result IsJailName }
{
    match jail {
        "web" => Ok(Text::from_str(alloc, "web")?),
        "mail" => Ok(Text::from_str(alloc, "mail")?),
        "gone" => Ok(Text::from_str(alloc, "gone")?),
        _ => Err(Fail::from("no name of a jail")),
    }
}

/// Follows one log more.
fn add(
    alloc: Global,
    set: &mut LogSet<'_>,
    jail: &str,
    path: &str,
    place: &Place,
) -> Result<(), Fail>
    requires { IsPlace place.now }
{
    let jail = name(alloc, jail)?;
    let path = Text::from_str(alloc, path)?;
    Ok(set.add(alloc, &jail, &path, place)?)
}

/// What a look at this file brings.
fn look_at(alloc: Global, ask: Ask, file: &[u8]) -> Result<FileLook, NoMemory>
    ensures { IfOk result (Answers ask) }
{
    let head = file.len().min(ask.head as usize);
    let from = (file.len() as u64).min(ask.from) as usize;
    let count = (file.len() - from).min(ask.max as usize);
    Ok(FileLook {
        size: file.len() as u64,
        head: Bytes::from_slice(alloc, &file[..head])?,
        bytes: Bytes::from_slice(alloc, &file[from..from + count])?,
    })
}

/// What a look at the log at a place brings, where this stands in it.
#[tactic(auto, using(log_set::proofs::SetLemmas::answers_at))]
fn look(alloc: Global, set: &LogSet<'_>, place: usize, file: &[u8]) -> Result<FileLook, NoMemory>
    requires { place < length set.now.logs }
    ensures { IfOk result (AnswersAt set.now place) }
{
    look_at(alloc, set.ask(place), file)
}

/// Writes a failure: the last number of its address, its time past 1,700,000,000, and its line.
fn write_failure(alloc: Global, text: &mut String, failure: &Failure) -> Result<(), Fail> {
    let time = failure.time.saturating_sub(1_700_000_000);
    let line = failure.line.as_str();
    let last = match failure.addr {
        Addr::V4(number) => number & 255,
        Addr::V6(_) => 0,
    };
    text.push_str(format!(in alloc; " {last}@{time}[{line}]")?.as_str())?;
    Ok(())
}

/// Writes the place, without its head.
fn write_place(alloc: Global, text: &mut String, place: &Place) -> Result<(), Fail> {
    match place {
        Place::Tail => text.push_str(" tail")?,
        Place::Pos { position, .. } => {
            text.push_str(format!(in alloc; " {position}")?.as_str())?;
        }
    }
    Ok(())
}

/// Writes an input.
fn write_what(alloc: Global, text: &mut String, what: &What) -> Result<(), Fail> {
    if let What::Read {
        jail,
        path,
        place,
        found,
    } = what
    {
        text.push_str(jail.as_str())?;
        text.push(' ')?;
        text.push_str(path.as_str())?;
        write_place(alloc, text, place)?;
        for failure in found.as_slice() {
            write_failure(alloc, text, failure)?;
        }
    }
    Ok(())
}

/// Follows logs from their start, each given by its jail and its path.
fn add_each(alloc: Global, set: &mut LogSet<'_>, logs: &[(&str, &str)]) -> Result<(), Fail> {
    for (jail, path) in logs {
        add(alloc, set, jail, path, &from_start(alloc))?;
    }
    Ok(())
}

/// Looks at the log at a place in which this stands, and writes what is taken.
fn told(alloc: Global, set: &mut LogSet<'_>, place: usize, file: &str) -> Result<String, Fail> {
    if place >= set.len() {
        return Err(Fail::from("no such log"));
    }
    let look = look(alloc, set, place, file.as_bytes())?;
    let taken = set.take(alloc, place, &look, NOW)?;
    let mut text = String::new(alloc);
    if taken.rotated {
        text.push_str("rotated ")?;
    }
    if let Some(what) = &taken.read {
        write_what(alloc, &mut text, what)?;
    }
    Ok(text)
}

/// Rows of a log's place, what stands in the log, and what a look at it brings.
fn are_told(
    rt: &impl Abort,
    alloc: Global,
    set: &mut LogSet<'_>,
    rows: &[(usize, &str, &str)],
) -> Result<(), Fail> {
    for &(place, file, want) in rows {
        assert_eq!(rt;
            told(alloc, set, place, file)?.as_str(),
            want,
            "{file} at {place}"
        );
    }
    Ok(())
}
