//! The logs of a jail, one a line: a path, and then perhaps `head` or `tail`.
ghost use Rattle.std.specs.Prelude.{◌≡◌, ◌==◌, IfOk, OnOk};
ghost use Rattle.jail_conf.specs.Logs.{is_wild, has_wild_directory, is_log_path, watch, watch_of, has_path, with_watch, distinct};
ghost use Rattle.jail_conf.specs.Then.{Gives};
ghost use Rattle.jail_conf.specs.Words.{last_word, before_last_word};

use crate::conf_error::ConfKind;
use crate::each::each;
use crate::fail::Fail;
use crate::limits::MOST_WATCHES;
use crate::reading::ReadsItem;
use crate::words::{full_lines, is_blank, trim};
use f2b_base::{NoMemory, Plain, Seq, Text, WatchDef};
use std::alloc::Global;

/// Whether the byte stands for others.
fn is_wild(byte: u8) -> bool
    ensures { result ≡ is_wild byte }
{
    byte == b'*' || byte == b'?'
}

/// Whether a slash stands behind a wildcard.
fn has_wild_directory(path: &[u8]) -> bool
    ensures { result ≡ has_wild_directory path.now }
{
    for (place, &byte) in path.iter().enumerate() {
        if is_wild(byte) {
            return path[place + 1..].contains(&b'/');
        }
    }
    false
}

/// Whether a log may have this path.
fn is_log_path(path: &[u8]) -> bool
    ensures { result ≡ is_log_path path.now }
{
    match path {
        [b'/', ..] => !has_wild_directory(path),
        _ => false,
    }
}

/// The last word of a line, and the trimmed text before it.
fn cut_last_word(line: &str) -> (&str, &str)
    ensures before { result.0.now ≡ before_last_word line.now }
    ensures word { result.1.now ≡ last_word line.now }
{
    let bytes = line.as_bytes();
    let mut start = bytes.len();
    while start > 0 && !is_blank(bytes[start - 1]) {
        start -= 1;
    }
    (trim(&line[..start]), &line[start..])
}

/// The log of a path.
fn watch(alloc: Global, path: &str, tail: bool) -> Result<WatchDef, Fail<ConfKind>>
    ensures { Gives (watch path.now tail) result }
{
    if !is_log_path(path.as_bytes()) {
        return Err(Fail::Refused(ConfKind::BadGlob));
    }
    Ok(WatchDef {
        path: Text::from_str(alloc, path)?,
        tail,
    })
}

/// A log, as a line names it.
#[derive(Drop)]
struct LogLine;

impl ReadsItem<WatchDef> for LogLine {
    ghost reading = { λ _. watch_of };

    fn read(&self, alloc: Global, line: &str) -> Result<WatchDef, Fail<ConfKind>> {
        let (before, word) = cut_last_word(line);
        if word == "tail" {
            watch(alloc, before, true)
        } else if word == "head" {
            watch(alloc, before, false)
        } else {
            watch(alloc, line, false)
        }
    }
}

/// Whether one of the logs has the path.
fn has_path(watches: &[WatchDef], path: &str) -> bool
    ensures { result ≡ has_path watches.now path.now }
{
    watches.iter().any(|watch| watch.path.as_str() == path)
}

/// Adds a log, unless there is one of its path.
fn push_watch(watches: &mut Seq<WatchDef>, watch: &WatchDef) -> Result<(), NoMemory>
    ensures { OnOk result (watches.new ≡ with_watch watches.old watch.now) }
{
    if !has_path(watches.as_slice(), watch.path.as_str()) {
        watches.push(watch.copy()?)?;
    }
    Ok(())
}

/// Each path once, at its first place.
fn distinct(alloc: Global, watches: &[WatchDef]) -> Result<Seq<WatchDef>, NoMemory>
    ensures { IfOk result (λ kept. kept ≡ distinct watches.now) }
{
    let mut kept = Seq::new(alloc);
    for watch in watches {
        push_watch(&mut kept, watch)?;
    }
    Ok(kept)
}

/// The logs of a jail.
#[derive(Drop)]
pub(crate) struct Watches;

impl ReadsItem<Seq<WatchDef>> for Watches {
    ghost use Rattle.jail_conf.specs.Logs.{watches};

    ghost reading = { λ _. watches };

    fn read(&self, alloc: Global, text: &str) -> Result<Seq<WatchDef>, Fail<ConfKind>> {
        let lines = full_lines(alloc, text)?;
        let all = each(alloc, &LogLine, lines.as_slice())?;
        let kept = distinct(alloc, all.as_slice())?;
        if kept.len() > MOST_WATCHES {
            return Err(Fail::Refused(ConfKind::TooMany));
        }
        Ok(kept)
    }
}
