//! One test of the tester over files in memory, and what it says.
use f2b_base::{Bytes, NoMemory, Seq, Text, TreeFile};
use f2b_mem::{Image, MemFiles, MemWorld, Script};
use f2b_world::{Event, Files, Said, Sink};
use regex_tool::regex_tool;
use std::alloc::Global;
use std::fmt::Debug;
use std::process::Abort;

/// A file, by its path and its content.
pub type File<'a> = (&'a str, &'a [u8]);

/// What a test is given, how it ends, and what it says.
pub struct Row {
    pub words: &'static [&'static str],
    pub status: u8,
    pub said: &'static str,
}

/// The places of the calls that fail, from 0: those on files and patterns, and those on the output.
pub struct Faults {
    pub files: &'static [u64],
    pub output: &'static [u64],
}

/// Nothing fails.
pub const NO_FAULTS: Faults = Faults {
    files: &[],
    output: &[],
};

/// 2024-03-01T10:00:10Z.
const NOW: u64 = 1_709_287_210;

fn words_of(alloc: Global, given: &[&str]) -> Result<Vec<String>, NoMemory> {
    let mut words = Vec::new(alloc);
    for word in given {
        words.push(String::from_str(alloc, word)?)?;
    }
    Ok(words)
}

/// A file, where there was memory for both.
fn file_of(
    path: Result<Text, NoMemory>,
    content: Result<Bytes, NoMemory>,
) -> Result<TreeFile, NoMemory> {
    let path = path?;
    let content = content?;
    Ok(TreeFile { path, content })
}

/// A file of this content.
pub(crate) fn file_with(
    alloc: Global,
    path: &str,
    content: Result<Bytes, NoMemory>,
) -> Result<TreeFile, NoMemory> {
    file_of(Text::from_str(alloc, path), content)
}

fn files_of(alloc: Global, given: &[File<'_>]) -> Result<Seq<TreeFile>, NoMemory> {
    let mut files = Seq::new(alloc);
    for (path, content) in given {
        files.push(file_with(alloc, path, Bytes::from_slice(alloc, content))?)?;
    }
    Ok(files)
}

fn places(alloc: Global, fails: &[u64]) -> Result<Seq<u64>, NoMemory> {
    Ok(Seq::from(fails.to_vec(alloc)?))
}

/// Files in memory, whose calls at these places fail.
fn shelf_of(
    alloc: Global,
    files: Result<Seq<TreeFile>, NoMemory>,
    fails: &[u64],
) -> Result<MemFiles, NoMemory> {
    let fails = places(alloc, fails)?;
    MemFiles::new(alloc, files?, fails)
}

/// A world in which nothing is but its output, whose calls at these places fail.
fn output_of(alloc: Global, fails: &[u64]) -> Result<MemWorld, NoMemory> {
    let fails = places(alloc, fails)?;
    let image = Image {
        slot0: Bytes::new(alloc),
        slot1: Bytes::new(alloc),
    };
    let script = Script {
        readings: Seq::new(alloc),
        trees: Seq::new(alloc),
        changes: Seq::new(alloc),
        children: Seq::new(alloc),
        clients: Seq::new(alloc),
        fails,
        image,
    };
    MemWorld::new(alloc, script)
}

/// Both, where there was memory for them.
fn both<A: Drop, B: Drop>(
    one: Result<A, NoMemory>,
    other: Result<B, NoMemory>,
) -> Result<(A, B), NoMemory> {
    let one = one?;
    let other = other?;
    Ok((one, other))
}

/// How a test ended, how often something was said, and what was said without a fault.
#[derive(Drop)]
struct Outcome {
    status: u8,
    count: usize,
    said: Bytes,
}

/// Where a test is made.
trait Place: Drop {
    /// The number that it ends with.
    fn call(&mut self, alloc: Global, words: &[String]) -> u8;

    /// What is seen once it ended so.
    fn look(&self, alloc: Global, status: u8) -> Result<Outcome, NoMemory>;
}

impl Place for (MemFiles, MemWorld) {
    fn call(&mut self, alloc: Global, words: &[String]) -> u8 {
        called(alloc, words, &mut self.0, &mut self.1)
    }

    fn look(&self, alloc: Global, status: u8) -> Result<Outcome, NoMemory> {
        outcome_of(alloc, status, self.1.events())
    }
}

fn called<F: Files, K: Sink>(alloc: Global, words: &[String], files: &mut F, sink: &mut K) -> u8 {
    regex_tool(alloc, words, NOW, files, sink).number()
}

fn said_of(alloc: Global, events: &[Event]) -> Result<Bytes, NoMemory> {
    let mut said = Bytes::new(alloc);
    for event in events {
        if let Event::Say {
            bytes,
            answer: Said::Done,
        } = event
        {
            said.push_slice(bytes.as_slice())?;
        }
    }
    Ok(said)
}

fn outcome_of(alloc: Global, status: u8, events: &[Event]) -> Result<Outcome, NoMemory> {
    let said = said_of(alloc, events)?;
    Ok(Outcome {
        status,
        count: events.len(),
        said,
    })
}

/// What is seen of a test of these words at this place.
fn seen_at<T: Place>(
    alloc: Global,
    words: Result<Vec<String>, NoMemory>,
    place: Result<T, NoMemory>,
) -> Result<Outcome, NoMemory> {
    let words = words?;
    let mut place = place?;
    let status = place.call(alloc, words.as_slice());
    place.look(alloc, status)
}

fn text_of(bytes: &[u8]) -> &str {
    match str::from_utf8(bytes) {
        Ok(text) => text,
        Err(_) => "bytes that are no text",
    }
}

/// Fails at this place unless what was seen is what is wanted.
fn same<A: Debug, T: PartialEq + Debug>(rt: &impl Abort, at: &A, saw: &T, want: &T) {
    assert!(rt; *saw == *want, "at {at:?}: {saw:?}, not {want:?}");
}

/// Makes the test of a row over these files. One text is said.
pub(crate) fn ends(
    rt: &impl Abort,
    alloc: Global,
    files: Result<Seq<TreeFile>, NoMemory>,
    faults: &Faults,
    row: &Row,
) -> Result<(), NoMemory> {
    let place = both(
        shelf_of(alloc, files, faults.files),
        output_of(alloc, faults.output),
    );
    let seen = seen_at(alloc, words_of(alloc, row.words), place)?;
    let saw = (seen.status, seen.count, text_of(seen.said.as_slice()));
    same(rt, &row.words, &saw, &(row.status, 1, row.said));
    Ok(())
}

/// Makes the test of each row over these files.
pub(crate) fn all_end(
    rt: &impl Abort,
    alloc: Global,
    given: &[File<'_>],
    rows: &[Row],
) -> Result<(), NoMemory> {
    for row in rows {
        ends(rt, alloc, files_of(alloc, given), &NO_FAULTS, row)?;
    }
    Ok(())
}

/// The same where calls fail.
pub(crate) fn all_end_with(
    rt: &impl Abort,
    alloc: Global,
    given: &[File<'_>],
    rows: &[(Faults, Row)],
) -> Result<(), NoMemory> {
    for (faults, row) in rows {
        ends(rt, alloc, files_of(alloc, given), faults, row)?;
    }
    Ok(())
}
