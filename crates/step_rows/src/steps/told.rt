//! Jobs, and what was told, as lines.
use f2b_base::{Ban, Job, JobKind, NoMemory, Outcome};
use f2b_model::{Happening, LaneHappening};
use std::alloc::Global;

/// What is shown as a line.
pub(crate) trait Line {
    fn line(&self, alloc: Global) -> Result<String, NoMemory>;
}

/// A job: id, kind and command.
impl Line for Job {
    fn line(&self, alloc: Global) -> Result<String, NoMemory> {
        let id = self.id;
        let kind = self.kind;
        let text = self.text.as_str();
        Ok(format!(in alloc; "{id} {kind:?} {text}\n")?)
    }
}

/// A ban behind a word: its beginning, its end, how many were before and how many failures led to it.
fn ban_line(alloc: Global, word: &str, ban: &Ban) -> Result<String, NoMemory> {
    let begin = ban.begin;
    let until = ban.until;
    let count = ban.count;
    let failures = ban.failures;
    Ok(format!(in alloc; "{word} {begin} {until:?} {count} {failures}\n")?)
}

fn word_line(alloc: Global, line: &str) -> Result<String, NoMemory> {
    Ok(String::from_str(alloc, line)?)
}

/// What a jail told.
impl Line for Happening {
    fn line(&self, alloc: Global) -> Result<String, NoMemory> {
        match self {
            Happening::Counts { .. } => word_line(alloc, "counts\n"),
            Happening::Begins { ban, .. } => ban_line(alloc, "begins", ban),
            Happening::Ends { ban, .. } => ban_line(alloc, "ends", ban),
        }
    }
}

fn try_line(
    alloc: Global,
    kind: JobKind,
    outcome: Outcome,
    last: bool,
) -> Result<String, NoMemory> {
    Ok(format!(in alloc; "{kind:?} {outcome:?} last {last}\n")?)
}

fn check_line(alloc: Global, outcome: Outcome) -> Result<String, NoMemory> {
    Ok(format!(in alloc; "check {outcome:?}\n")?)
}

/// What a lane told: the kind of a job whose try failed and how, a check and how it failed, or that it starts anew.
impl Line for LaneHappening {
    fn line(&self, alloc: Global) -> Result<String, NoMemory> {
        match self {
            LaneHappening::TryFails {
                kind,
                outcome,
                last,
                ..
            } => try_line(alloc, *kind, *outcome, *last),
            LaneHappening::CheckFails { outcome, .. } => check_line(alloc, *outcome),
            LaneHappening::Restarts { .. } => word_line(alloc, "anew\n"),
        }
    }
}

fn push(out: &mut String, line: Result<String, NoMemory>) -> Result<(), NoMemory> {
    let line = line?;
    out.push_str(line.as_str())?;
    Ok(())
}

/// All of them, in order.
pub(crate) fn lines<T: Line>(alloc: Global, items: &[T]) -> Result<String, NoMemory> {
    let mut out = String::new(alloc);
    for item in items {
        push(&mut out, item.line(alloc))?;
    }
    Ok(out)
}
