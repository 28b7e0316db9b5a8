ghost use Rattle.std.specs.Prelude.{◌≡◌, [], length, IfOk};

use f2b_base::{Bytes, NoMemory, Reading, Seq, Text, TreeAnswer, TreeFile};
use f2b_mem::{ChildPlan, ClientPlan, FileChange, Image, MemFiles, MemLink, MemWorld, Script};
use f2b_world::{
    Accept, Children, Configuration, Directories, Disk, FileAnswer, FilePiece, Files, Gate,
    GateRead, GateWrite, Len, Link, LinkRead, Linked, Logs, Look, Made, NamesAnswer, Patterns,
    Piece, PollAnswer, Said, Sink, StartAnswer, Store, StoreAnswer, Synced, Time, Wrote,
};
use std::alloc::Global;
use std::fmt::Debug;
use std::process::Abort;
use std::test::Fail;

/// Fails at this call unless what was seen is what is wanted.
fn same<T: PartialEq + Debug + Drop>(rt: &impl Abort, at: &str, saw: T, want: T) {
    assert!(rt; saw == want, "at {at}: {saw:?}, not {want:?}");
}

/// A call on an outside in memory, and what it answers.
trait Move<W> {
    fn play<R: Abort>(&self, rt: &R, outside: &mut W);
}

fn play_each<W, M: Move<W>>(rt: &impl Abort, outside: &mut W, moves: &[M]) {
    for each in moves {
        each.play(rt, outside);
    }
}

/// The outside once all these were played on it, where there was memory for it.
fn played<W: Drop, M: Move<W>>(
    rt: &impl Abort,
    outside: Result<W, NoMemory>,
    moves: &[M],
) -> Result<W, NoMemory> {
    let mut outside = outside?;
    play_each(rt, &mut outside, moves);
    Ok(outside)
}

fn play_all<W: Drop, M: Move<W>>(
    rt: &impl Abort,
    outside: Result<W, NoMemory>,
    moves: &[M],
) -> Result<(), NoMemory> {
    let _ = played(rt, outside, moves)?;
    Ok(())
}

fn image(alloc: Global) -> Image {
    Image {
        slot0: Bytes::new(alloc),
        slot1: Bytes::new(alloc),
    }
}

fn readings(alloc: Global) -> Result<Seq<Reading>, NoMemory> {
    let readings = [Reading { secs: 7, word: 1 }, Reading { secs: 9, word: 2 }];
    Ok(Seq::from(readings.to_vec(alloc)?))
}

fn change(
    alloc: Global,
    pauses: u64,
    path: &str,
    content: Option<&[u8]>,
) -> Result<FileChange, NoMemory> {
    let content = match content {
        Some(content) => Some(Bytes::from_slice(alloc, content)?),
        None => None,
    };
    let path = Text::from_str(alloc, path)?;
    Ok(FileChange {
        pauses,
        path,
        content,
    })
}

/// Rows of after how many pauses a file changes, its path, and its content, or none where it goes.
fn changes_of(
    alloc: Global,
    rows: &[(u64, &str, Option<&[u8]>)],
) -> Result<Seq<FileChange>, NoMemory> {
    let mut changes = Seq::new(alloc);
    for &(pauses, path, content) in rows {
        changes.push(change(alloc, pauses, path, content)?)?;
    }
    Ok(changes)
}

/// The file comes with the first pause.
const LOG: [(u64, &str, Option<&[u8]>); 1] = [(1, "/log", Some(b"abcdef"))];

fn script(
    alloc: Global,
    readings: Seq<Reading>,
    changes: Seq<FileChange>,
    fails: Seq<u64>,
) -> Script
    ensures { result.clients ≡ [] }
{
    Script {
        readings,
        trees: Seq::new(alloc),
        changes,
        children: Seq::new(alloc),
        clients: Seq::new(alloc),
        fails,
        image: image(alloc),
    }
}

/// A call on a world that is told, and what it answers.
enum Call {
    /// A text is said.
    Say(&'static [u8], Said),
    /// Whether the pattern `a+` is built or too big.
    Make(bool),
    /// Whether the tree of `/c` is given.
    Config(bool),
    /// No file is at `/log`.
    LookAbsent,
    /// The file there has six bytes.
    LookFile,
    Pause,
    /// The seconds that the clock reads.
    Clock(u64),
    /// The store is kept.
    Store,
    /// So many events are told.
    Told(usize),
}

fn looks(world: &mut MemWorld) -> bool {
    match world.look("/log", 2, 1, 4) {
        Look::File(file) => {
            file.size == 6
                && file.head.as_slice() == b"ab".as_slice()
                && file.bytes.as_slice() == b"bcde".as_slice()
        }
        _ => false,
    }
}

fn makes(world: &mut MemWorld) -> Option<bool> {
    match world.make("a+") {
        Made::Built(_) => Some(true),
        Made::TooBig => Some(false),
        _ => None,
    }
}

fn configures(world: &mut MemWorld) -> Option<bool> {
    match world.config("/c") {
        TreeAnswer::Tree(_) => Some(true),
        TreeAnswer::Failed => Some(false),
        _ => None,
    }
}

impl Move<MemWorld> for Call {
    fn play<R: Abort>(&self, rt: &R, world: &mut MemWorld) {
        match *self {
            Call::Say(bytes, want) => same(rt, "say", world.say(bytes), want),
            Call::Make(want) => same(rt, "make", makes(world), Some(want)),
            Call::Config(want) => same(rt, "config", configures(world), Some(want)),
            Call::LookAbsent => same(rt, "look", world.look("/log", 2, 0, 4), Look::Absent),
            Call::LookFile => same(rt, "look", looks(world), true),
            Call::Pause => world.pause(250),
            Call::Clock(want) => same(rt, "clock", world.clock().secs, want),
            Call::Store => same(rt, "store", world.store_at("/s"), StoreAnswer::Kept),
            Call::Told(want) => same(rt, "events", told(world), Some(want)),
        }
    }
}

/// A world in which the calls at these places fail.
fn world_of(alloc: Global, fails: &[u64]) -> Result<MemWorld, NoMemory> {
    let fails = Seq::from(fails.to_vec(alloc)?);
    let readings = readings(alloc)?;
    let changes = changes_of(alloc, &LOG)?;
    MemWorld::new(alloc, script(alloc, readings, changes, fails))
}

/// How many events a world tells of, or none where it does not tell them.
fn told(world: &MemWorld) -> Option<usize> {
    if !world.is_told() {
        return None;
    }
    Some(world.events().len())
}

const PLAYS: [Call; 14] = [
    // Of two calls of each kind the second fails.
    Call::Say(b"a", Said::Done),
    Call::Say(b"b", Said::Failed),
    Call::Make(true),
    Call::Make(false),
    Call::Config(true),
    Call::Config(false),
    // The file comes with the first pause, and the last reading stays.
    Call::LookAbsent,
    Call::Pause,
    Call::LookFile,
    Call::Clock(7),
    Call::Clock(9),
    Call::Clock(9),
    Call::Store,
    Call::Told(13),
];

#[test]
fn plays_its_script_and_tells_it(rt: HostRuntime) -> Result<(), Fail> {
    play_all(&rt, world_of(rt.alloc(), &[1, 3, 5]), &PLAYS)?;
    Ok(())
}

/// A call on the first slot, and what it answers.
enum DiskCall {
    /// Bytes are written at its beginning.
    Write(&'static [u8], Wrote),
    Sync(Synced),
    /// None are read.
    ReadNone,
}

fn reads_none(world: &mut MemWorld) -> bool {
    match world.disk_read(0, 0, 0) {
        Piece::Bytes(bytes) => bytes.is_empty(),
        _ => false,
    }
}

impl Move<MemWorld> for DiskCall {
    fn play<R: Abort>(&self, rt: &R, world: &mut MemWorld) {
        match *self {
            DiskCall::Write(bytes, want) => same(rt, "write", world.disk_write(0, 0, bytes), want),
            DiskCall::Sync(want) => same(rt, "sync", world.disk_sync(0), want),
            DiskCall::ReadNone => same(rt, "read", reads_none(world), true),
        }
    }
}

const WRITES: [DiskCall; 4] = [
    DiskCall::Write(b"abcd", Wrote::Done),
    DiskCall::Sync(Synced::Done),
    DiskCall::Write(b"xy", Wrote::Failed),
    DiskCall::ReadNone,
];

// What is torn of a world that has written, or nothing where it is not told.
fn torn(world: &MemWorld) -> Result<Option<Image>, NoMemory> {
    if !world.is_told() {
        return Ok(None);
    }
    let count = world.events().len();
    Ok(Some(world.torn(count as u64, 1, 0)?))
}

fn torn_of(world: Result<MemWorld, NoMemory>) -> Result<Option<Image>, NoMemory> {
    let world = world?;
    torn(&world)
}

/// A world in which the third call fails.
fn failing_third(alloc: Global) -> Result<MemWorld, NoMemory> {
    let fails = Seq::from([2].to_vec(alloc)?);
    let script = script(alloc, Seq::new(alloc), Seq::new(alloc), fails);
    MemWorld::new(alloc, script)
}

// The length of the first slot of a world that begins on an image.
fn len_on(alloc: Global, image: Image) -> Result<Len, NoMemory> {
    let script = script(alloc, Seq::new(alloc), Seq::new(alloc), Seq::new(alloc));
    let mut world = MemWorld::reopened(alloc, image, script)?;
    Ok(world.disk_len(0))
}

fn reopens(rt: &impl Abort, alloc: Global, image: Image) -> Result<(), NoMemory> {
    same(rt, "slot", image.slot0.as_slice(), b"x\0cd".as_slice());
    same(rt, "length", len_on(alloc, image)?, Len::Bytes(4));
    Ok(())
}

#[test]
fn tears_a_slot_and_reopens_it(rt: HostRuntime) -> Result<(), Fail> {
    let world = played(&rt, failing_third(rt.alloc()), &WRITES);
    let image = torn_of(world)?.ok_or("not told")?;
    reopens(&rt, rt.alloc(), image)?;
    Ok(())
}

fn gives(world: &mut MemWorld, want: &[u8]) -> bool {
    match world.gate_read(0, 9) {
        GateRead::Bytes(bytes) => bytes.as_slice() == want,
        GateRead::Quiet => want.is_empty(),
        _ => false,
    }
}

/// A call on a world with a client and a command, and what it answers.
enum ClientCall {
    Accept(Accept),
    Pause,
    /// Bytes that the client gives, or none.
    Give(&'static [u8]),
    /// The client takes `hi`.
    Take(GateWrite),
    Close,
    Start(StartAnswer),
    Poll(PollAnswer),
    Kill,
    /// `/` has one name.
    Names,
    /// `/d` has two names, in byte order.
    Lists(&'static str, &'static str),
}

fn has_one_name(world: &mut MemWorld) -> bool {
    match world.names("/") {
        NamesAnswer::Names(names) => names.len() == 1,
        _ => false,
    }
}

// Whether a listing has two names, in byte order.
fn lists(world: &mut MemWorld, first: &str, second: &str) -> bool {
    match world.names("/d") {
        NamesAnswer::Names(names) => match names.as_slice() {
            [one, other] => one.as_str() == first && other.as_str() == second,
            _ => false,
        },
        _ => false,
    }
}

impl Move<MemWorld> for ClientCall {
    fn play<R: Abort>(&self, rt: &R, world: &mut MemWorld) {
        match *self {
            ClientCall::Accept(want) => same(rt, "accept", world.gate_accept(), want),
            ClientCall::Pause => world.pause(250),
            ClientCall::Give(want) => same(rt, "read", gives(world, want), true),
            ClientCall::Take(want) => same(rt, "write", world.gate_write(0, b"hi"), want),
            ClientCall::Close => world.gate_close(0),
            ClientCall::Start(want) => same(rt, "start", world.child_start(7, "true"), want),
            ClientCall::Poll(want) => same(rt, "poll", world.child_poll(7), want),
            ClientCall::Kill => world.child_kill(7),
            ClientCall::Names => same(rt, "names", has_one_name(world), true),
            ClientCall::Lists(first, second) => {
                same(rt, "list", lists(world, first, second), true);
            }
        }
    }
}

// The file `a` changes and stays, `c` is gone with the first pause, and `s/e` is not directly there.
const LISTED: [(u64, &str, Option<&[u8]>); 6] = [
    (0, "/d/c", Some(b"")),
    (0, "/d/b", Some(b"")),
    (0, "/d/a", Some(b"")),
    (0, "/d/s/e", Some(b"")),
    (1, "/d/a", Some(b"")),
    (1, "/d/c", None),
];

const LISTINGS: [ClientCall; 2] = [ClientCall::Pause, ClientCall::Lists("a", "b")];

fn listed_world(alloc: Global) -> Result<MemWorld, NoMemory> {
    let changes = changes_of(alloc, &LISTED)?;
    let script = script(alloc, Seq::new(alloc), changes, Seq::new(alloc));
    MemWorld::new(alloc, script)
}

#[test]
fn lists_names_once_and_in_order(rt: HostRuntime) -> Result<(), Fail> {
    play_all(&rt, listed_world(rt.alloc()), &LISTINGS)?;
    Ok(())
}

fn clients(alloc: Global) -> Result<Seq<ClientPlan>, NoMemory>
    ensures { IfOk result (λ clients. length clients ≡ 1) }
{
    let mut clients = Seq::new(alloc);
    clients.push(ClientPlan {
        pauses: 1,
        sent: Bytes::from_slice(alloc, b"abc")?,
        piece: 2,
    })?;
    Ok(clients)
}

fn children(alloc: Global) -> Result<Seq<ChildPlan>, NoMemory> {
    let mut children = Seq::new(alloc);
    children.push(ChildPlan {
        polls: 1,
        status: Some(3),
    })?;
    Ok(children)
}

fn world_with_a_client(alloc: Global) -> Result<MemWorld, NoMemory> {
    let changes = changes_of(alloc, &LOG)?;
    let children = children(alloc)?;
    let clients = clients(alloc)?;
    let script = Script {
        readings: Seq::new(alloc),
        trees: Seq::new(alloc),
        changes,
        children,
        clients,
        fails: Seq::new(alloc),
        image: image(alloc),
    };
    MemWorld::new(alloc, script)
}

const CLIENTS_AND_COMMANDS: [ClientCall; 14] = [
    // A client comes with the first pause, and gives its bytes in pieces.
    ClientCall::Accept(Accept::Quiet),
    ClientCall::Pause,
    ClientCall::Accept(Accept::Conn(0)),
    ClientCall::Accept(Accept::Quiet),
    ClientCall::Give(b"ab"),
    ClientCall::Give(b"c"),
    ClientCall::Give(b""),
    ClientCall::Take(GateWrite::Took(2)),
    ClientCall::Close,
    // A command runs and ends.
    ClientCall::Start(StartAnswer::Started),
    ClientCall::Poll(PollAnswer::Running),
    ClientCall::Poll(PollAnswer::Ended(3)),
    ClientCall::Kill,
    ClientCall::Names,
];

#[test]
fn plays_clients_and_commands(rt: HostRuntime) -> Result<(), Fail> {
    play_all(&rt, world_with_a_client(rt.alloc()), &CLIENTS_AND_COMMANDS)?;
    Ok(())
}

fn receives(link: &mut MemLink, want: &[u8]) -> bool {
    match link.receive(9) {
        LinkRead::Bytes(bytes) => bytes.as_slice() == want,
        LinkRead::End => want.is_empty(),
        _ => false,
    }
}

/// A call on a link, and what it answers.
enum LinkCall {
    Connect,
    /// `hi` is sent.
    Send,
    Receive(&'static [u8]),
    Fails,
    /// All that was sent.
    Sent(&'static [u8]),
    /// All that the server says.
    Bytes(&'static [u8]),
}

impl Move<MemLink> for LinkCall {
    fn play<R: Abort>(&self, rt: &R, link: &mut MemLink) {
        match *self {
            LinkCall::Connect => same(rt, "connect", link.connect("/s"), Linked::Connected),
            LinkCall::Send => same(rt, "send", link.send(b"hi"), Linked::Connected),
            LinkCall::Receive(want) => same(rt, "receive", receives(link, want), true),
            LinkCall::Fails => same(rt, "fault", link.receive(9), LinkRead::Failed),
            LinkCall::Sent(want) => same(rt, "sent", link.sent(), want),
            LinkCall::Bytes(want) => same(rt, "bytes", link.bytes(), want),
        }
    }
}

fn link_of(alloc: Global, bytes: &[u8]) -> Result<MemLink, NoMemory> {
    let bytes = Bytes::from_slice(alloc, bytes)?;
    MemLink::new(alloc, bytes, 2, Seq::new(alloc))
}

const PIECES: [LinkCall; 7] = [
    LinkCall::Connect,
    LinkCall::Send,
    LinkCall::Receive(b"ab"),
    LinkCall::Receive(b"c"),
    LinkCall::Receive(b""),
    LinkCall::Sent(b"hi"),
    LinkCall::Bytes(b"abc"),
];

#[test]
fn gives_a_link_in_pieces(rt: HostRuntime) -> Result<(), Fail> {
    play_all(&rt, link_of(rt.alloc(), b"abc"), &PIECES)?;
    Ok(())
}

fn failing_second(alloc: Global) -> Result<Seq<u64>, NoMemory> {
    Ok(Seq::from([1].to_vec(alloc)?))
}

fn failing_link(alloc: Global) -> Result<MemLink, NoMemory> {
    let fails = failing_second(alloc)?;
    let bytes = Bytes::from_slice(alloc, b"ab")?;
    MemLink::new(alloc, bytes, 1, fails)
}

// The second call fails, and nothing is lost by it.
const AFTER_A_FAULT: [LinkCall; 3] = [
    LinkCall::Receive(b"a"),
    LinkCall::Fails,
    LinkCall::Receive(b"b"),
];

#[test]
fn goes_on_after_a_fault_of_a_link(rt: HostRuntime) -> Result<(), Fail> {
    play_all(&rt, failing_link(rt.alloc()), &AFTER_A_FAULT)?;
    Ok(())
}

fn reads_whole(files: &mut MemFiles, path: &str) -> bool {
    match files.read(path) {
        FileAnswer::Bytes(bytes) => bytes.as_slice() == b"abc".as_slice(),
        _ => false,
    }
}

fn reads_end(files: &mut MemFiles, path: &str) -> bool {
    match files.piece(path, 2, 2) {
        FilePiece::Bytes(bytes) => bytes.as_slice() == b"c".as_slice(),
        _ => false,
    }
}

fn has_one_file(files: &mut MemFiles) -> bool {
    match files.tree("/c") {
        TreeAnswer::Tree(tree) => tree.files.len() == 1,
        _ => false,
    }
}

/// A call on files, and what it answers.
enum FileCall {
    /// The file has three bytes.
    Whole(&'static str),
    /// The last of three bytes.
    End(&'static str),
    /// `/c` has one file.
    OneFile,
    Absent(&'static str),
    Fails(&'static str),
    /// A directory has two files.
    Tree(&'static str),
}

impl Move<MemFiles> for FileCall {
    fn play<R: Abort>(&self, rt: &R, files: &mut MemFiles) {
        match *self {
            FileCall::Whole(path) => same(rt, "whole", reads_whole(files, path), true),
            FileCall::End(path) => same(rt, "piece", reads_end(files, path), true),
            FileCall::OneFile => same(rt, "tree", has_one_file(files), true),
            FileCall::Absent(path) => same(rt, "absent", files.read(path), FileAnswer::Absent),
            FileCall::Fails(path) => same(rt, "fault", files.read(path), FileAnswer::Failed),
            FileCall::Tree(dir) => same(rt, dir, gives_tree(files, dir), true),
        }
    }
}

const READS: [FileCall; 3] = [
    FileCall::Whole("/c/jail.d/a.conf"),
    FileCall::End("/c/jail.d/a.conf"),
    FileCall::OneFile,
];

fn three_bytes(alloc: Global) -> Result<MemFiles, NoMemory> {
    let files = files_of(alloc, &[("/c/jail.d/a.conf", b"abc")])?;
    MemFiles::new(alloc, files, Seq::new(alloc))
}

#[test]
fn gives_files_in_pieces(rt: HostRuntime) -> Result<(), Fail> {
    play_all(&rt, three_bytes(rt.alloc()), &READS)?;
    Ok(())
}

// The second call fails, and the next is answered as ever.
const READS_AFTER_A_FAULT: [FileCall; 5] = [
    FileCall::Absent("/c/none"),
    FileCall::Fails("/c/a.conf"),
    FileCall::Whole("/c/a.conf"),
    FileCall::End("/c/a.conf"),
    FileCall::OneFile,
];

fn failing_files(alloc: Global) -> Result<MemFiles, NoMemory> {
    let fails = failing_second(alloc)?;
    let files = files_of(alloc, &[("/c/a.conf", b"abc")])?;
    MemFiles::new(alloc, files, fails)
}

#[test]
fn goes_on_after_a_fault_of_files(rt: HostRuntime) -> Result<(), Fail> {
    play_all(&rt, failing_files(rt.alloc()), &READS_AFTER_A_FAULT)?;
    Ok(())
}

fn file_of(alloc: Global, path: &str, content: &[u8]) -> Result<TreeFile, NoMemory> {
    let path = Text::from_str(alloc, path)?;
    let content = Bytes::from_slice(alloc, content)?;
    Ok(TreeFile { path, content })
}

fn files_of(alloc: Global, rows: &[(&str, &[u8])]) -> Result<Seq<TreeFile>, NoMemory> {
    let mut files = Seq::new(alloc);
    for (path, content) in rows {
        files.push(file_of(alloc, path, content)?)?;
    }
    Ok(files)
}

// Two files of one path, one in a subdirectory, one too deep, one with another ending, and one elsewhere.
const TREE_FILES: [(&str, &[u8]); 6] = [
    ("/c/s/b.local", b"b"),
    ("/c/a.conf", b"first"),
    ("/c/a.conf", b"second"),
    ("/c/s/s/d.conf", b"d"),
    ("/c/e.txt", b"e"),
    ("/cf.conf", b"f"),
];

fn is_file(file: &TreeFile, path: &str, content: &[u8]) -> bool {
    file.path.as_str() == path && file.content.as_slice() == content
}

fn is_tree(files: &[TreeFile]) -> bool {
    match files {
        [one, other] => is_file(one, "a.conf", b"first") && is_file(other, "s/b.local", b"b"),
        _ => false,
    }
}

fn gives_tree(files: &mut MemFiles, dir: &str) -> bool {
    match files.tree(dir) {
        TreeAnswer::Tree(tree) => is_tree(tree.files.as_slice()),
        _ => false,
    }
}

const TREE: [FileCall; 1] = [FileCall::Tree("/c")];

const TREE_BY_ITS_OTHER_PATH: [FileCall; 1] = [FileCall::Tree("/c/")];

fn files_of_a_tree(alloc: Global) -> Result<MemFiles, NoMemory> {
    let files = files_of(alloc, &TREE_FILES)?;
    MemFiles::new(alloc, files, Seq::new(alloc))
}

#[test]
fn gives_a_tree_of_the_first_files(rt: HostRuntime) -> Result<(), Fail> {
    play_all(&rt, files_of_a_tree(rt.alloc()), &TREE)?;
    play_all(&rt, files_of_a_tree(rt.alloc()), &TREE_BY_ITS_OTHER_PATH)?;
    Ok(())
}
