//! The words that the tester is called with.
ghost use Rattle.std.specs.Prelude.{◌≡◌, false, map, option_copied, option_map, string_bytes, IfOk};
ghost use Rattle.clap.specs.Words.{app_of, found_of, first_value, rule_of};
ghost use Rattle.regex_tool.specs.Asks.{asks_by, bare_tool, flag, form_of, is_set, letter, mark, named, needed, shows_of, shown, tool, with_flags, with_places, with_values, Answers};

use crate::shows::{Form, Shows};
use crate::zone::{Zone, zone_or_utc};
use clap::error::ErrorKind;
use clap::{Arg, ArgAction, ArgMatches, Command};
use std::alloc::{AllocError, Global};

/// What the words ask for.
#[derive(Clone, Copy)]
pub(crate) struct Asked<'w> {
    /// The date pattern that stands in place of the filter's.
    pub date: Option<&'w str>,
    /// The path of a log, or else the one line.
    pub log: &'w str,
    /// A pattern of failures, or a filter.
    pub regex: &'w str,
    /// The one pattern of ignored lines, in place of the filter's.
    pub ignore: Option<&'w str>,
    /// The zone of dates without one.
    pub zone: Zone,
    /// The directory of a configuration, in which a filter may be named by its name.
    pub dir: Option<&'w str>,
    pub shows: Shows,
}

/// What is made of the words.
#[derive(Clone, Copy)]
pub(crate) enum Answer<'w> {
    Asked(Asked<'w>),
    Usage,
    NoMemory,
}

/// An option of one letter, which has a value.
fn letter<'w>(alloc: Global, name: &'w str, short: char) -> Arg<'w>
    ensures rule { rule_of result ≡ letter name.entry.now short }
    ensures local { result.global ≡ false }
{
    Arg::new(alloc, name).short(short)
}

/// An option by its name, which has a value.
fn named<'w>(alloc: Global, name: &'w str) -> Arg<'w>
    ensures rule { rule_of result ≡ named name.entry.now }
    ensures local { result.global ≡ false }
{
    Arg::new(alloc, name).long(name)
}

/// The options that have a value.
fn with_values<'w>(alloc: Global, command: Command<'w>) -> Result<Command<'w>, AllocError>
    ensures { IfOk result (λ c. app_of c ≡ with_values (app_of command.entry)) }
{
    let command = command.arg(letter(alloc, "date", 'd'))?;
    let command = command.arg(letter(alloc, "conf", 'c'))?;
    let command = command.arg(letter(alloc, "out", 'o'))?;
    command.arg(named(alloc, "timezone"))
}

/// An option of one letter that has none.
fn mark<'w>(alloc: Global, name: &'w str, short: char) -> Arg<'w>
    ensures rule { rule_of result ≡ mark name.entry.now short }
    ensures local { result.global ≡ false }
{
    Arg::new(alloc, name)
        .short(short)
        .action(ArgAction::SetTrue)
}

/// An option that has none.
fn flag<'w>(alloc: Global, name: &'w str) -> Arg<'w>
    ensures rule { rule_of result ≡ flag name.entry.now }
    ensures local { result.global ≡ false }
{
    Arg::new(alloc, name).long(name).action(ArgAction::SetTrue)
}

/// The options that have none.
fn with_flags<'w>(alloc: Global, command: Command<'w>) -> Result<Command<'w>, AllocError>
    ensures { IfOk result (λ c. app_of c ≡ with_flags (app_of command.entry)) }
{
    let command = command.arg(mark(alloc, "detail", 'v'))?;
    let command = command.arg(flag(alloc, "print-all-matched"))?;
    let command = command.arg(flag(alloc, "print-all-ignored"))?;
    command.arg(flag(alloc, "print-all-missed"))
}

/// A word that stands alone, and is needed.
fn needed<'w>(alloc: Global, name: &'w str) -> Arg<'w>
    ensures rule { rule_of result ≡ needed name.entry.now }
    ensures local { result.global ≡ false }
{
    Arg::new(alloc, name).required(true)
}

/// The words that stand alone.
fn with_places<'w>(alloc: Global, command: Command<'w>) -> Result<Command<'w>, AllocError>
    ensures { IfOk result (λ c. app_of c ≡ with_places (app_of command.entry)) }
{
    let command = command.arg(needed(alloc, "log"))?;
    let command = command.arg(needed(alloc, "regex"))?;
    command.arg(Arg::new(alloc, "ignore"))
}

fn bare_command<'w>(alloc: Global) -> Command<'w>
    ensures { app_of result ≡ bare_tool }
{
    Command::new(alloc, "fail2ban-regex").no_binary_name(true)
}

fn command<'w>(alloc: Global) -> Result<Command<'w>, AllocError>
    ensures { IfOk result (λ c. app_of c ≡ tool) }
{
    let command = with_values(alloc, bare_command(alloc))?;
    let command = with_flags(alloc, command)?;
    with_places(alloc, command)
}

/// Whether an option without a value is given.
fn is_set(given: Option<&str>) -> bool
    ensures { result ≡ is_set (option_copied given.entry) }
{
    match given {
        Some(text) => text == "true",
        None => false,
    }
}

/// What is said first, where `-o` names it.
fn form_of(given: Option<&str>) -> Option<Form>
    ensures { result ≡ form_of (option_copied given.entry) }
{
    match given {
        None => Some(Form::Report),
        Some("row") => Some(Form::Rows),
        Some("ip") => Some(Form::Addresses),
        Some(_) => None,
    }
}

fn shows_of(matches: &ArgMatches<'_>, form: Form, zone: Zone) -> Shows
    ensures { result ≡ shows_of (first_value (found_of matches.now)) form zone }
{
    let detail = is_set(matches.get_str("detail"));
    Shows {
        form,
        zone,
        detail,
        matched: detail || is_set(matches.get_str("print-all-matched")),
        ignored: is_set(matches.get_str("print-all-ignored")),
        missed: is_set(matches.get_str("print-all-missed")),
    }
}

/// What is asked for, by the values of the arguments.
fn asked_by<'w>(matches: &ArgMatches<'w>) -> Option<Asked<'w>>
    ensures { option_map shown result ≡ asks_by (first_value (found_of matches.now)) }
{
    let log = matches.get_str("log")?;
    let regex = matches.get_str("regex")?;
    let form = form_of(matches.get_str("out"))?;
    let zone = zone_or_utc(matches.get_str("timezone"))?;
    Some(Asked {
        date: matches.get_str("date"),
        log,
        regex,
        ignore: matches.get_str("ignore"),
        zone,
        dir: matches.get_str("conf"),
        shows: shows_of(matches, form, zone),
    })
}

/// Reads the words.
pub(crate) fn read_words<'w>(alloc: Global, words: &'w [String]) -> Answer<'w>
    ensures { Answers (map string_bytes words.entry.now) result }
{
    let Ok(command) = command(alloc) else {
        return Answer::NoMemory;
    };
    match command.try_get_matches_from(words) {
        Ok(matches) => match asked_by(&matches) {
            Some(asked) => Answer::Asked(asked),
            None => Answer::Usage,
        },
        Err(error) => match error.kind() {
            ErrorKind::OutOfMemory => Answer::NoMemory,
            _ => Answer::Usage,
        },
    }
}
