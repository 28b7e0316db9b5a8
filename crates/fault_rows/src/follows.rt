//! What follows a call that fails.
use crate::seen::{clock, commands, replies, said, same, texts};
use f2b_world::Event;
use std::alloc::Global;
use std::process::Abort;
use std::test::Fail;

/// What the run says where no call fails, without the seconds.
pub(crate) const TEXTS: &str =
    "INFO Server ready\nINFO [web] Found 192.0.2.7\nNOTICE [web] Ban 192.0.2.7\nINFO Reloaded\nNOTICE [web] Unban 192.0.2.7\nINFO [web] Found 192.0.2.8\nNOTICE [web] Ban 192.0.2.8\nINFO Stopping\n";

/// The same where the configuration is not read again.
const TEXTS_UNRELOADED: &str =
    "INFO Server ready\nINFO [web] Found 192.0.2.7\nNOTICE [web] Ban 192.0.2.7\nNOTICE [web] Unban 192.0.2.7\nINFO [web] Found 192.0.2.8\nNOTICE [web] Ban 192.0.2.8\nINFO Stopping\n";

/// The same where nobody asks for a stop.
const TEXTS_UNSTOPPED: &str =
    "INFO Server ready\nINFO [web] Found 192.0.2.7\nNOTICE [web] Ban 192.0.2.7\nINFO Reloaded\nNOTICE [web] Unban 192.0.2.7\nINFO [web] Found 192.0.2.8\nNOTICE [web] Ban 192.0.2.8\n";

/// What the clients are replied.
pub(crate) const REPLIES: [&str; 2] = [
    "accepted Status\n|- Number of jail:\t1\n`- Jail list:\tweb\naccepted OK\n",
    "accepted Shutdown begun\n",
];

/// The first reply to the first of them.
const STATUS: &str = "accepted Status\n|- Number of jail:\t1\n`- Jail list:\tweb\n";

/// The commands.
pub(crate) const COMMANDS: &str =
    "up\nadd 192.0.2.7\ndel 192.0.2.7\nadd 192.0.2.8\ndel 192.0.2.8\ndown\n";

/// Those where nobody asks for a stop.
const COMMANDS_UNSTOPPED: &str = "up\nadd 192.0.2.7\ndel 192.0.2.7\nadd 192.0.2.8\n";

/// What it says and does where the directory is not listed as the configuration is read again.
const TEXTS_UNLISTED: &str =
    "INFO Server ready\nINFO [web] Found 192.0.2.7\nNOTICE [web] Ban 192.0.2.7\nWARNING [web] cannot read /var/log/*.log\nINFO Reloaded\nNOTICE [web] Unban 192.0.2.7\nINFO Stopping\n";

const COMMANDS_UNLISTED: &str = "up\nadd 192.0.2.7\ndel 192.0.2.7\ndown\n";

/// A run whose call at a place fails, beside the one in which none does.
#[derive(Clone, Copy)]
pub(crate) struct Failed<'a> {
    pub at: usize,
    /// The calls of the whole run that come before that call, and the others.
    pub before: &'a [Event],
    pub rest: &'a [Event],
    pub status: u8,
    /// The calls of the run in which it fails.
    pub events: &'a [Event],
}

impl<'a> Failed<'a> {
    /// The calls behind the one that failed.
    fn behind(&self) -> &'a [Event] {
        self.events
            .get(self.at.saturating_add(1)..)
            .unwrap_or(self.events)
    }

    /// Whether it comes behind the first turn.
    fn is_late(&self) -> bool {
        self.before
            .iter()
            .any(|event| matches!(event, Event::Pause { .. }))
    }
}

/// The run goes on to its end, and says and does this.
fn goes_on(
    rt: &impl Abort,
    alloc: Global,
    failed: &Failed<'_>,
    want: (&str, &str),
) -> Result<(), Fail> {
    same(rt, failed.at, &failed.status, &0);
    let saw = texts(alloc, failed.events)?;
    same(rt, failed.at, &saw.as_str(), &want.0);
    let saw = commands(alloc, failed.events)?;
    same(rt, failed.at, &saw.as_str(), &want.1);
    Ok(())
}

/// A client is replied this.
fn is_replied(
    rt: &impl Abort,
    alloc: Global,
    failed: &Failed<'_>,
    client: u32,
    want: &str,
) -> Result<(), Fail> {
    let saw = replies(alloc, failed.events, client)?;
    same(rt, failed.at, &saw.as_str(), &want);
    Ok(())
}

/// All that is seen is as without a fault, but for the time that it takes.
fn as_ever(rt: &impl Abort, alloc: Global, failed: &Failed<'_>) -> Result<(), Fail> {
    goes_on(rt, alloc, failed, (TEXTS, COMMANDS))?;
    is_replied(rt, alloc, failed, 0, REPLIES[0])?;
    is_replied(rt, alloc, failed, 1, REPLIES[1])
}

/// A call that has no fault: not even the time is another one.
fn unchanged(rt: &impl Abort, alloc: Global, failed: &Failed<'_>) -> Result<(), Fail> {
    let whole = failed.at.saturating_add(failed.rest.len());
    same(rt, failed.at, &failed.events.len(), &whole);
    as_ever(rt, alloc, failed)
}

/// What was said before the call, and then that text at its second.
fn said_with(alloc: Global, failed: &Failed<'_>, text: &str) -> Result<String, Fail> {
    let said = said(alloc, failed.before)?;
    let secs = clock(failed.before);
    Ok(format!(in alloc; "{said}{secs} {text}\n")?)
}

/// The run ends with this status behind the line of that text, and nothing else is done.
fn ends(
    rt: &impl Abort,
    alloc: Global,
    failed: &Failed<'_>,
    status: u8,
    text: &str,
) -> Result<(), Fail> {
    same(rt, failed.at, &failed.status, &status);
    same(rt, failed.at, &failed.behind().len(), &1);
    let want = said_with(alloc, failed, text)?;
    let saw = said(alloc, failed.events)?;
    same(rt, failed.at, &saw, &want);
    Ok(())
}

/// A line that is not said is the end, and nothing else is done.
fn ends_unsaid(rt: &impl Abort, alloc: Global, failed: &Failed<'_>) -> Result<(), Fail> {
    same(rt, failed.at, &failed.status, &9);
    same(rt, failed.at, &failed.behind().len(), &0);
    let want = said(alloc, failed.before)?;
    let saw = said(alloc, failed.events)?;
    same(rt, failed.at, &saw, &want);
    Ok(())
}

/// The texts of the whole run, with that one behind those that come before the call.
fn texts_with(alloc: Global, failed: &Failed<'_>, text: &str) -> Result<String, Fail> {
    let begin = texts(alloc, failed.before)?;
    let end = texts(alloc, failed.rest)?;
    Ok(format!(in alloc; "{begin}{text}\n{end}")?)
}

/// The next line has that text and the second of the call.
fn says_next(rt: &impl Abort, alloc: Global, failed: &Failed<'_>, text: &str) -> Result<(), Fail> {
    let begin = said_with(alloc, failed, text)?;
    let saw = said(alloc, failed.events)?;
    same(rt, failed.at, &saw.starts_with(begin.as_str()), &true);
    Ok(())
}

/// The run says that line next, and goes on as it would without a fault.
fn says_besides(
    rt: &impl Abort,
    alloc: Global,
    failed: &Failed<'_>,
    text: &str,
) -> Result<(), Fail> {
    says_next(rt, alloc, failed, text)?;
    let want = texts_with(alloc, failed, text)?;
    goes_on(rt, alloc, failed, (want.as_str(), COMMANDS))?;
    is_replied(rt, alloc, failed, 0, REPLIES[0])?;
    is_replied(rt, alloc, failed, 1, REPLIES[1])
}

/// The texts of the whole run, with that one in place of the word that the configuration is taken.
fn texts_untaken(alloc: Global, text: &str) -> Result<String, Fail> {
    let (begin, end) = TEXTS.split_once("INFO Reloaded\n").ok_or("no reload")?;
    Ok(format!(in alloc; "{begin}ERROR {text}\n{end}")?)
}

/// A configuration is not taken: that is said, the client that asked is told the same, and the run goes on.
fn is_untaken(rt: &impl Abort, alloc: Global, failed: &Failed<'_>, text: &str) -> Result<(), Fail> {
    let want = texts_untaken(alloc, text)?;
    goes_on(rt, alloc, failed, (want.as_str(), COMMANDS))?;
    let want = format!(in alloc; "{STATUS}refused {text}\n")?;
    is_replied(rt, alloc, failed, 0, want.as_str())?;
    is_replied(rt, alloc, failed, 1, REPLIES[1])
}

fn config(rt: &impl Abort, alloc: Global, failed: &Failed<'_>) -> Result<(), Fail> {
    if failed.is_late() {
        return is_untaken(rt, alloc, failed, "Configuration not read");
    }
    ends(rt, alloc, failed, 3, "ERROR configuration not read")
}

/// Which pattern of the jail has that text.
fn place(text: &str) -> &'static str {
    if text.contains("fail from") {
        return "failregex 1";
    }
    "datepattern"
}

fn pattern(rt: &impl Abort, alloc: Global, failed: &Failed<'_>, text: &str) -> Result<(), Fail> {
    let place = place(text);
    let refusal = format!(in alloc; "Pattern refused: web {place} TooBig")?;
    if failed.is_late() {
        return is_untaken(rt, alloc, failed, refusal.as_str());
    }
    let line = format!(in alloc; "ERROR {refusal}")?;
    ends(rt, alloc, failed, 11, line.as_str())
}

/// A directory that cannot be listed has no log for the jail, until the configuration is read again.
fn names(rt: &impl Abort, alloc: Global, failed: &Failed<'_>) -> Result<(), Fail> {
    let text = "WARNING [web] cannot read /var/log/*.log";
    if failed.is_late() {
        says_next(rt, alloc, failed, text)?;
        return goes_on(rt, alloc, failed, (TEXTS_UNLISTED, COMMANDS_UNLISTED));
    }
    says_besides(rt, alloc, failed, text)
}

/// What is in a log that could not be read is found in the next turn.
fn look(rt: &impl Abort, alloc: Global, failed: &Failed<'_>, path: &str) -> Result<(), Fail> {
    let text = format!(in alloc; "WARNING [web] cannot read {path}")?;
    says_besides(rt, alloc, failed, text.as_str())
}

/// What a command is for.
fn purpose(command: &str) -> &'static str {
    match command {
        "up" => "start",
        "down" => "stop",
        "del 192.0.2.7" | "del 192.0.2.8" => "unban",
        _ => "ban",
    }
}

/// What the clock said as the command of a job was started.
fn started_at(events: &[Event], job: u64) -> u64 {
    let mut secs = 0;
    for event in events {
        match event {
            Event::Clock { answer } => secs = answer.secs,
            Event::ChildStart { job: other, .. } if *other == job => return secs,
            _ => (),
        }
    }
    0
}

/// A command that is not started is tried again two seconds later.
fn start(
    rt: &impl Abort,
    alloc: Global,
    failed: &Failed<'_>,
    job: u64,
    command: &str,
) -> Result<(), Fail> {
    let purpose = purpose(command);
    let text = format!(in alloc; "ERROR [web/note] {purpose} failed: not started")?;
    says_besides(rt, alloc, failed, text.as_str())?;
    let again = clock(failed.before).saturating_add(2);
    same(rt, failed.at, &started_at(failed.behind(), job), &again);
    Ok(())
}

/// What the clock said as the command of a job was polled.
fn polled_at(events: &[Event], job: u64) -> u64 {
    let mut secs = 0;
    for event in events {
        match event {
            Event::Clock { answer } => secs = answer.secs,
            Event::ChildPoll { job: other, .. } if *other == job => return secs,
            _ => (),
        }
    }
    0
}

/// A command whose poll fails counts as one that runs, and is polled in the next turn.
fn poll(rt: &impl Abort, alloc: Global, failed: &Failed<'_>, job: u64) -> Result<(), Fail> {
    as_ever(rt, alloc, failed)?;
    let again = clock(failed.before).saturating_add(1);
    same(rt, failed.at, &polled_at(failed.behind(), job), &again);
    Ok(())
}

/// Whether a client is read or written to.
fn is_served(events: &[Event], client: u32) -> bool {
    events.iter().any(|event| match event {
        Event::GateRead { conn, .. } | Event::GateWrite { conn, .. } => *conn == client,
        _ => false,
    })
}

/// Whether the first of these calls closes the connection of a client.
fn closes(events: &[Event], client: u32) -> bool {
    match events.first() {
        Some(Event::GateClose { conn }) => *conn == client,
        _ => false,
    }
}

/// The next call closes that connection, and its client is let be from then on.
fn is_closed(rt: &impl Abort, failed: &Failed<'_>, client: u32) {
    let behind = failed.behind();
    same(rt, failed.at, &closes(behind, client), &true);
    same(rt, failed.at, &is_served(behind, client), &false);
}

/// What is said and done in all where a client is let be: what it asked for before is done, and the rest is not.
fn without(client: u32, told: &str) -> (&'static str, &'static str) {
    if client == 0 && !told.contains("Reloaded") {
        return (TEXTS_UNRELOADED, COMMANDS);
    }
    if client == 1 && !told.contains("Stopping") {
        return (TEXTS_UNSTOPPED, COMMANDS_UNSTOPPED);
    }
    (TEXTS, COMMANDS)
}

/// A client that cannot be read or written to is let go, and the other one is served as ever.
fn serve(rt: &impl Abort, alloc: Global, failed: &Failed<'_>, client: u32) -> Result<(), Fail> {
    is_closed(rt, failed, client);
    let told = texts(alloc, failed.before)?;
    goes_on(rt, alloc, failed, without(client, told.as_str()))?;
    let heard = replies(alloc, failed.before, client)?;
    is_replied(rt, alloc, failed, client, heard.as_str())?;
    if client == 0 {
        return is_replied(rt, alloc, failed, 1, REPLIES[1]);
    }
    is_replied(rt, alloc, failed, 0, REPLIES[0])
}

/// What follows that call.
pub(crate) fn follows(
    rt: &impl Abort,
    alloc: Global,
    failed: &Failed<'_>,
    call: &Event,
) -> Result<(), Fail> {
    match call {
        Event::Config { .. } => config(rt, alloc, failed),
        Event::Make { text, .. } => pattern(rt, alloc, failed, text.as_str()),
        Event::Names { .. } => names(rt, alloc, failed),
        Event::GateListen { .. } => ends(rt, alloc, failed, 8, "ERROR socket"),
        Event::Say { .. } => ends_unsaid(rt, alloc, failed),
        Event::Look { path, .. } => look(rt, alloc, failed, path.as_str()),
        Event::ChildStart { job, text, .. } => start(rt, alloc, failed, *job, text.as_str()),
        Event::ChildPoll { job, .. } => poll(rt, alloc, failed, *job),
        Event::GateAccept { .. } => as_ever(rt, alloc, failed),
        Event::GateRead { conn, .. } | Event::GateWrite { conn, .. } => {
            serve(rt, alloc, failed, *conn)
        }
        Event::DiskLen { .. }
        | Event::DiskRead { .. }
        | Event::DiskWrite { .. }
        | Event::DiskSync { .. } => ends(rt, alloc, failed, 5, "ERROR disk"),
        _ => unchanged(rt, alloc, failed),
    }
}
