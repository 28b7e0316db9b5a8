//! The worked run: what it is given, and how it is played.
ghost use Rattle.std.specs.Prelude.{◌≡◌, []};

use client_frames::{are_request, request_frame};
use f2b_base::{Bytes, Reading, Seq, Text, Tree, TreeAnswer, TreeFile};
use f2b_mem::{ClientPlan, FileChange, Image, MemWorld, Script};
use server_top::server;
use std::alloc::Global;
use std::test::Fail;

/// A file of the configuration, by its path and its content.
pub(crate) type File = (&'static str, &'static str);

const ACTION: File = (
    "action.d/note.conf",
    "[Definition]\nactionstart = up\nactionstop = down\nactionban = add <ip>\nactionunban = del <ip>\n",
);

/// Dates are seconds since 1970.
pub(crate) const FILTER: File = (
    "filter.d/fail.conf",
    "[Definition]\ndatepattern = Epoch\nfailregex = ^ fail from <IP4>$\n",
);

/// One failure bans, for 8 seconds.
const FIRST: [File; 3] = [
    ACTION,
    FILTER,
    (
        "jail.conf",
        "[web]\nenabled = true\nfilter = fail\nlogpath = /log\n  /var/log/*.log\nmaxretry = 1\nbantime = 8\naction = note\n",
    ),
];

/// What is read again: for 20.
const AGAIN: [File; 3] = [
    ACTION,
    FILTER,
    (
        "jail.conf",
        "[web]\nenabled = true\nfilter = fail\nlogpath = /log\n  /var/log/*.log\nmaxretry = 1\nbantime = 20\naction = note\n",
    ),
];

/// What the logs have, each from so many pauses on.
const LOGS: [(u64, &str, &str); 3] = [
    (0, "/log", "1700000990 fail from 192.0.2.7\n"),
    (0, "/var/log/a.log", "1700000980 all is well\n"),
    (
        10,
        "/var/log/a.log",
        "1700000980 all is well\n1700000995 fail from 192.0.2.8\n",
    ),
];

/// What the clients ask, each from so many pauses on.
const CLIENTS: [(u64, &[&str]); 2] = [(0, &["status", "reload"]), (12, &["stop"])];

/// The reading of the clock as the run starts. In each turn it is a second later.
const BEGIN: u64 = 1_700_001_000;

/// The words of the run. It ends before so many turns, unless nobody asks for a stop.
pub(crate) const WORDS: &str = "--conf /c --turns 24";

/// Those of one that changes slots twice, since none may be longer.
pub(crate) const WORDS_SHORT: &str = "--conf /c --turns 24 --journal-limit 450";

/// Those of a further run.
const WORDS_LATER: &str = "--conf /c --turns 6";

/// The configuration of these files, which stand in byte order of their paths.
pub(crate) fn tree(alloc: Global, conf: &[File]) -> Result<TreeAnswer, Fail> {
    let mut files = Seq::new(alloc);
    for (path, content) in conf {
        files.push(TreeFile {
            path: Text::from_str(alloc, path)?,
            content: Bytes::from_slice(alloc, content.as_bytes())?,
        })?;
    }
    Ok(TreeAnswer::Tree(Tree { files }))
}

fn trees(alloc: Global) -> Result<Seq<TreeAnswer>, Fail> {
    let mut trees = Seq::new(alloc);
    trees.push(tree(alloc, &FIRST)?)?;
    trees.push(tree(alloc, &AGAIN)?)?;
    Ok(trees)
}

/// A reading, and each a second later than the one before it.
pub(crate) fn readings(alloc: Global, begin: u64) -> Result<Seq<Reading>, Fail> {
    let mut readings = Seq::new(alloc);
    for after in 0..25 {
        let secs = begin.saturating_add(after);
        readings.push(Reading { secs, word: 0 })?;
    }
    Ok(readings)
}

/// From so many pauses on a file has this content.
pub(crate) fn change(
    alloc: Global,
    pauses: u64,
    path: &str,
    content: &str,
) -> Result<FileChange, Fail> {
    Ok(FileChange {
        pauses,
        path: Text::from_str(alloc, path)?,
        content: Some(Bytes::from_slice(alloc, content.as_bytes())?),
    })
}

fn changes(alloc: Global) -> Result<Seq<FileChange>, Fail> {
    let mut changes = Seq::new(alloc);
    for (pauses, path, content) in &LOGS {
        changes.push(change(alloc, *pauses, path, content)?)?;
    }
    Ok(changes)
}

/// The logs as they are in the end.
fn ended(alloc: Global) -> Result<Seq<FileChange>, Fail> {
    let mut changes = Seq::new(alloc);
    for (_, path, content) in &LOGS {
        changes.push(change(alloc, 0, path, content)?)?;
    }
    Ok(changes)
}

/// The frame of a request of one word.
fn frame(alloc: Global, word: &str) -> Result<Bytes, Fail> {
    let mut words = Seq::new(alloc);
    words.push(Text::from_str(alloc, word)?)?;
    if !are_request(&words) {
        return Err("no request".into());
    }
    Ok(request_frame(alloc, &words)?)
}

fn frames(alloc: Global, asks: &[&str]) -> Result<Bytes, Fail> {
    let mut frames = Bytes::new(alloc);
    for ask in asks {
        frames.push_slice(frame(alloc, ask)?.as_slice())?;
    }
    Ok(frames)
}

/// A client that sends these requests at once, each of one word.
pub(crate) fn client(alloc: Global, pauses: u64, asks: &[&str]) -> Result<ClientPlan, Fail> {
    Ok(ClientPlan {
        pauses,
        sent: frames(alloc, asks)?,
        piece: u32::MAX,
    })
}

fn clients(alloc: Global) -> Result<Seq<ClientPlan>, Fail> {
    let mut clients = Seq::new(alloc);
    for (pauses, asks) in &CLIENTS {
        clients.push(client(alloc, *pauses, asks)?)?;
    }
    Ok(clients)
}

/// Slots in which nothing is stored.
pub(crate) fn nothing(alloc: Global) -> Image {
    Image {
        slot0: Bytes::new(alloc),
        slot1: Bytes::new(alloc),
    }
}

/// An outside in which nothing is there and nothing happens, but what the slots hold.
pub(crate) fn quiet(alloc: Global, image: Image) -> Script
    ensures { result.clients ≡ [] }
{
    Script {
        readings: Seq::new(alloc),
        trees: Seq::new(alloc),
        changes: Seq::new(alloc),
        children: Seq::new(alloc),
        clients: Seq::new(alloc),
        fails: Seq::new(alloc),
        image,
    }
}

/// A run over slots that hold this, whose clock begins at that second.
fn begun(alloc: Global, image: Image, begin: u64) -> Result<Script, Fail> {
    let mut script = quiet(alloc, image);
    script.readings = readings(alloc, begin)?;
    script.trees = trees(alloc)?;
    Ok(script)
}

/// The worked run, in which the calls at these places fail.
pub(crate) fn script(alloc: Global, fails: &[u64]) -> Result<Script, Fail> {
    let mut script = begun(alloc, nothing(alloc), BEGIN)?;
    script.changes = changes(alloc)?;
    script.clients = clients(alloc)?;
    script.fails = Seq::from(fails.to_vec(alloc)?);
    Ok(script)
}

/// A further run over what the slots hold, later than all bans of the worked one end, with its logs and nobody who asks.
fn later(alloc: Global, image: Image) -> Result<Script, Fail> {
    let mut script = begun(alloc, image, BEGIN.saturating_add(100))?;
    script.changes = ended(alloc)?;
    Ok(script)
}

fn words_of(alloc: Global, text: &str) -> Result<Vec<String>, Fail> {
    let mut words = Vec::new(alloc);
    for word in text.split_whitespace() {
        words.push(String::from_str(alloc, word)?)?;
    }
    Ok(words)
}

/// Plays a run: the status that it ends with, and its world behind it.
pub(crate) fn run(alloc: Global, words: &str, script: Script) -> Result<(u8, MemWorld), Fail> {
    if script.clients.len() > 2 {
        return Err("too many clients".into());
    }
    let words = words_of(alloc, words)?;
    let mut world = MemWorld::new(alloc, script)?;
    let status = server(alloc, words.as_slice(), &mut world);
    Ok((status.number(), world))
}

/// The worked run, whose call at that place fails.
pub(crate) fn run_failing(alloc: Global, at: usize) -> Result<(u8, MemWorld), Fail> {
    run(alloc, WORDS, script(alloc, &[at as u64])?)
}

/// The worked run, whose calls do not fail.
pub(crate) fn run_whole(alloc: Global, words: &str) -> Result<MemWorld, Fail> {
    let (_, world) = run(alloc, words, script(alloc, &[])?)?;
    Ok(world)
}

/// A further run over what the slots hold.
pub(crate) fn run_later(alloc: Global, image: Image) -> Result<(u8, MemWorld), Fail> {
    run(alloc, WORDS_LATER, later(alloc, image)?)
}

/// What a stop leaves once so many calls were made, where of each slot's unsynced bytes so many were kept and the others are this.
pub(crate) fn torn(world: &MemWorld, calls: usize, keep: u32, fill: u8) -> Result<Image, Fail> {
    if !world.is_told() || calls > world.events().len() {
        return Err("not told".into());
    }
    let image = world.torn(calls as u64, keep, fill)?;
    Ok(image)
}
