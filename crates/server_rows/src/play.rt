//! One run over a world in memory, and what it says.
use f2b_base::{Bytes, Reading, Seq, Text, Tree, TreeAnswer, TreeFile};
use f2b_mem::{ChildPlan, ClientPlan, FileChange, Image, MemWorld, Script};
use f2b_world::{Event, Said};
use server_top::server;
use std::alloc::Global;
use std::test::Fail;

/// A file, by its path and its content.
pub(crate) type File<'a> = (&'a str, &'a str);

/// What a run is given.
#[derive(Drop)]
pub(crate) struct Given<'a> {
    /// The words, with blanks between them.
    pub words: &'a str,
    /// What the configuration is at each reading; the last stays.
    pub trees: Seq<TreeAnswer>,
    /// What the clock says, in seconds since 1970; the last reading stays.
    pub readings: &'a [u64],
    pub changes: Seq<FileChange>,
    /// How the commands run that are started, in order; those after the last end with 0.
    pub children: Seq<ChildPlan>,
    /// The clients, whose numbers are their places.
    pub clients: Seq<ClientPlan>,
    /// The places of the calls that fail.
    pub fails: &'a [u64],
}

/// The configuration of these files, which stand in byte order of their paths.
pub(crate) fn tree(alloc: Global, conf: &[File<'_>]) -> Result<TreeAnswer, Fail> {
    let mut files = Seq::new(alloc);
    for (path, content) in conf {
        files.push(TreeFile {
            path: Text::from_str(alloc, path)?,
            content: Bytes::from_slice(alloc, content.as_bytes())?,
        })?;
    }
    Ok(TreeAnswer::Tree(Tree { files }))
}

/// A configuration that stays.
pub(crate) fn one(alloc: Global, tree: TreeAnswer) -> Result<Seq<TreeAnswer>, Fail> {
    let mut trees = Seq::new(alloc);
    trees.push(tree)?;
    Ok(trees)
}

/// That a file has this content after so many pauses, or is gone.
pub(crate) fn change(
    alloc: Global,
    pauses: u64,
    path: &str,
    content: Option<&str>,
) -> Result<FileChange, Fail> {
    let content = match content {
        Some(content) => Some(Bytes::from_slice(alloc, content.as_bytes())?),
        None => None,
    };
    Ok(FileChange {
        pauses,
        path: Text::from_str(alloc, path)?,
        content,
    })
}

/// That the log at `/log` grows by a part before each turn, or becomes it.
pub(crate) fn log(alloc: Global, parts: &[&str], rotated: bool) -> Result<Seq<FileChange>, Fail> {
    let mut changes = Seq::new(alloc);
    let mut content = Bytes::new(alloc);
    for (pauses, part) in parts.iter().enumerate() {
        if rotated {
            content.clear();
        }
        content.push_slice(part.as_bytes())?;
        changes.push(FileChange {
            pauses: pauses as u64,
            path: Text::from_str(alloc, "/log")?,
            content: Some(Bytes::from_slice(alloc, content.as_slice())?),
        })?;
    }
    Ok(changes)
}

fn readings(alloc: Global, secs: &[u64]) -> Result<Seq<Reading>, Fail> {
    let mut readings = Seq::new(alloc);
    for secs in secs {
        readings.push(Reading {
            secs: *secs,
            word: 0,
        })?;
    }
    Ok(readings)
}

/// Slots in which nothing is stored.
pub(crate) fn nothing(alloc: Global) -> Image {
    Image {
        slot0: Bytes::new(alloc),
        slot1: Bytes::new(alloc),
    }
}

fn words(alloc: Global, text: &str) -> Result<Vec<String>, Fail> {
    let mut words = Vec::new(alloc);
    for word in text.split_whitespace() {
        words.push(String::from_str(alloc, word)?)?;
    }
    Ok(words)
}

fn world(alloc: Global, given: Given<'_>, image: Image) -> Result<MemWorld, Fail> {
    if given.clients.len() > 65_535 {
        return Err(Fail::from("too many clients"));
    }
    let script = Script {
        readings: readings(alloc, given.readings)?,
        trees: given.trees,
        changes: given.changes,
        children: given.children,
        clients: given.clients,
        fails: Seq::from(given.fails.to_vec(alloc)?),
        image,
    };
    Ok(MemWorld::new(alloc, script)?)
}

/// What was said without a fault.
pub(crate) fn said(alloc: Global, events: &[Event]) -> Result<Bytes, Fail> {
    let mut said = Bytes::new(alloc);
    for event in events {
        if let Event::Say {
            bytes,
            answer: Said::Done,
        } = event
        {
            said.push_slice(bytes.as_slice())?;
        }
    }
    Ok(said)
}

/// A run over slots that hold this, and its world behind it.
pub(crate) fn play_over(
    alloc: Global,
    given: Given<'_>,
    image: Image,
) -> Result<(u8, MemWorld), Fail> {
    let words = words(alloc, given.words)?;
    let mut world = world(alloc, given, image)?;
    let status = server(alloc, words.as_slice(), &mut world);
    Ok((status.number(), world))
}

/// Whether a run over these slots ends with this status and says this.
pub(crate) fn is_said_over(
    alloc: Global,
    given: Given<'_>,
    image: Image,
    status: u8,
    want: &str,
) -> Result<bool, Fail> {
    let (ended, world) = play_over(alloc, given, image)?;
    let said = said(alloc, world.events())?;
    Ok(world.is_told() && ended == status && said.as_slice() == want.as_bytes())
}

/// Whether a run ends with this status and says this.
pub(crate) fn is_as_wanted(
    alloc: Global,
    given: Given<'_>,
    status: u8,
    said: &str,
) -> Result<bool, Fail> {
    is_said_over(alloc, given, nothing(alloc), status, said)
}
