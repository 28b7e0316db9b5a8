//! The words of the command line.
ghost use Rattle.std.specs.Prelude.{◌≡◌, IfOk, Some, map, option_map, string_bytes};
ghost use Rattle.run_law.specs.Words.{is_conf, once, plan_in, plan_of, with_option, with_options};
ghost use Rattle.server_top.specs.Options.{asked_of};

use crate::number::number;
use f2b_base::{NoMemory, Text};
use run_law::Plan;
use std::alloc::Global;

/// So many turns are never made: the run has no end of its own.
const ALL_TURNS: u64 = u64::MAX;

/// How long a slot of the journal may get where nothing else is asked for, in bytes: 64 MiB.
const USUAL_LIMIT: u64 = 67_108_864;

/// What the options asked for so far.
#[derive(Clone, Copy, Debug, Drop)]
struct Options {
    turns: Option<u64>,
    limit: Option<u64>,
}

// The number of an option, which is given once.
fn once(alloc: Global, before: Option<u64>, text: &str) -> Result<Option<u64>, NoMemory>
    ensures { IfOk result (λ n. n ≡ once before text.now) }
{
    if before.is_some() {
        return Ok(None);
    }
    match number(alloc, text)? {
        Some(count) if count >= 1 => Ok(Some(count)),
        _ => Ok(None),
    }
}

fn with_turns(alloc: Global, text: &str, asked: Options) -> Result<Option<Options>, NoMemory>
    ensures { IfOk result (λ o. option_map asked_of o ≡ option_map (λ n. record { turns = Some n; limit = asked.limit }) (once asked.turns text.now)) }
{
    match once(alloc, asked.turns, text)? {
        Some(turns) => Ok(Some(Options {
            turns: Some(turns),
            limit: asked.limit,
        })),
        None => Ok(None),
    }
}

fn with_limit(alloc: Global, text: &str, asked: Options) -> Result<Option<Options>, NoMemory>
    ensures { IfOk result (λ o. option_map asked_of o ≡ option_map (λ n. record { turns = asked.turns; limit = Some n }) (once asked.limit text.now)) }
{
    match once(alloc, asked.limit, text)? {
        Some(limit) => Ok(Some(Options {
            turns: asked.turns,
            limit: Some(limit),
        })),
        None => Ok(None),
    }
}

// An option and its number.
fn with_option(
    alloc: Global,
    name: &str,
    text: &str,
    asked: Options,
) -> Result<Option<Options>, NoMemory>
    ensures { IfOk result (λ o. option_map asked_of o ≡ with_option name.now text.now (asked_of asked)) }
{
    if name == "--turns" {
        return with_turns(alloc, text, asked);
    }
    if name == "--journal-limit" {
        return with_limit(alloc, text, asked);
    }
    Ok(None)
}

// Options, each with its number, in any order.
fn with_options(
    alloc: Global,
    words: &[String],
    asked: Options,
) -> Result<Option<Options>, NoMemory>
    ensures { IfOk result (λ o. option_map asked_of o ≡ with_options (map string_bytes words.now) (asked_of asked)) }
{
    match words {
        [] => Ok(Some(asked)),
        [name, text, rest @ ..] => {
            match with_option(alloc, name.as_str(), text.as_str(), asked)? {
                Some(asked) => with_options(alloc, rest, asked),
                None => Ok(None),
            }
        }
        _ => Ok(None),
    }
}

fn plan_in(alloc: Global, root: &str, words: &[String]) -> Result<Option<Plan>, NoMemory>
    ensures { IfOk result (λ plan. plan ≡ plan_in root.now (map string_bytes words.now)) }
{
    if root.is_empty() {
        return Ok(None);
    }
    let nothing = Options {
        turns: None,
        limit: None,
    };
    let Some(asked) = with_options(alloc, words, nothing)? else {
        return Ok(None);
    };
    Ok(Some(Plan {
        root: Text::from_str(alloc, root)?,
        turns: asked.turns.unwrap_or(ALL_TURNS),
        limit: asked.limit.unwrap_or(USUAL_LIMIT),
    }))
}

// Whether a word says that a directory follows.
fn is_conf(word: &str) -> bool
    ensures { result ≡ is_conf word.now }
{
    word == "--conf" || word == "-c"
}

/// The plan that the words ask for, or none where they are not in the table: `--conf DIR`, or `-c DIR`, and behind it `--turns N` and
/// `--journal-limit BYTES`, each at most once.
pub fn read_words(alloc: Global, words: &[String]) -> Result<Option<Plan>, NoMemory>
    ensures { IfOk result (λ plan. plan ≡ plan_of (map string_bytes words.now)) }
{
    match words {
        [conf, root, options @ ..] if is_conf(conf.as_str()) => {
            plan_in(alloc, root.as_str(), options)
        }
        _ => Ok(None),
    }
}
