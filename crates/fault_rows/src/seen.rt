//! What is seen of a run.
use f2b_base::Bytes;
use f2b_world::{Event, GateWrite, Said, StartAnswer};
use std::alloc::Global;
use std::fmt::Debug;
use std::process::Abort;
use std::test::Fail;

/// Fails at the call of this place unless what was seen is what is wanted.
pub(crate) fn same<T: PartialEq + Debug>(rt: &impl Abort, at: usize, saw: &T, want: &T) {
    assert!(rt; *saw == *want, "at {at}: {saw:?}, not {want:?}");
}

fn text(bytes: &[u8]) -> Result<&str, Fail> {
    match str::from_utf8(bytes) {
        Ok(text) => Ok(text),
        Err(_) => Err("no text".into()),
    }
}

/// The lines that were said.
pub(crate) fn said(alloc: Global, events: &[Event]) -> Result<String, Fail> {
    let mut said = String::new(alloc);
    for event in events {
        if let Event::Say {
            bytes,
            answer: Said::Done,
        } = event
        {
            said.push_str(text(bytes.as_slice())?)?;
        }
    }
    Ok(said)
}

/// The same without their seconds.
pub(crate) fn texts(alloc: Global, events: &[Event]) -> Result<String, Fail> {
    let said = said(alloc, events)?;
    let mut texts = String::new(alloc);
    for line in said.lines() {
        let (_, text) = line.split_once(' ').ok_or("no second")?;
        texts.push_str(text)?;
        texts.push('\n')?;
    }
    Ok(texts)
}

/// Whether a reply accepts its request: the byte behind its length says so.
fn verdict(frame: &[u8]) -> &'static str {
    match frame.get(4) {
        Some(0) => "accepted ",
        _ => "refused ",
    }
}

fn push_reply(replies: &mut String, frame: &Bytes) -> Result<(), Fail> {
    replies.push_str(verdict(frame.as_slice()))?;
    let rest = frame.as_slice().get(5..).ok_or("no reply")?;
    replies.push_str(text(rest)?)?;
    replies.push('\n')?;
    Ok(())
}

/// What a client was replied.
pub(crate) fn replies(alloc: Global, events: &[Event], client: u32) -> Result<String, Fail> {
    let mut replies = String::new(alloc);
    for event in events {
        if let Event::GateWrite {
            conn,
            bytes,
            answer: GateWrite::Took(_),
        } = event
        {
            if *conn == client {
                push_reply(&mut replies, bytes)?;
            }
        }
    }
    Ok(replies)
}

/// The commands that were started, each as often as it was.
pub(crate) fn commands(alloc: Global, events: &[Event]) -> Result<String, Fail> {
    let mut commands = String::new(alloc);
    for event in events {
        if let Event::ChildStart {
            text,
            answer: StartAnswer::Started,
            ..
        } = event
        {
            commands.push_str(text.as_str())?;
            commands.push('\n')?;
        }
    }
    Ok(commands)
}

/// What the clock said last, or 0 where it was not read.
pub(crate) fn clock(events: &[Event]) -> u64 {
    let mut secs = 0;
    for event in events {
        if let Event::Clock { answer } = event {
            secs = answer.secs;
        }
    }
    secs
}
