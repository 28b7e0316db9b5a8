//! Transcripts of runs: what is said, which commands are started, polled and ended, which clients come, are replied to and leave, and each
//! pause.
use f2b_base::Bytes;
use f2b_world::{Accept, Event, GateWrite, Said, StartAnswer};
use std::alloc::Global;
use std::test::Fail;

/// What a command that was started ends its line with.
pub(crate) fn start_end(answer: StartAnswer) -> &'static str {
    match answer {
        StartAnswer::Started => "\n",
        StartAnswer::Failed => ": failed\n",
        StartAnswer::NoMemory => ": no memory\n",
    }
}

/// The line of a call on a command, or of a pause, if it is one.
pub(crate) fn command_line(alloc: Global, event: &Event) -> Result<Option<String>, Fail> {
    Ok(match event {
        Event::ChildStart { job, text, answer } => Some(format!(in alloc;
            "start {} {}{}",
            *job,
            text.as_str(),
            start_end(*answer)
        )?),
        Event::ChildPoll { job, answer: _ } => Some(format!(in alloc; "poll {}\n", *job)?),
        Event::ChildKill { job } => Some(format!(in alloc; "kill {}\n", *job)?),
        Event::Pause { .. } => Some(String::from_str(alloc, "pause\n")?),
        _ => None,
    })
}

/// The line of a client that comes or leaves.
pub(crate) fn client_line(alloc: Global, event: &Event) -> Result<Option<String>, Fail> {
    Ok(match event {
        Event::GateAccept {
            answer: Accept::Conn(conn),
        } => Some(format!(in alloc; "accept {}\n", *conn)?),
        Event::GateClose { conn } => Some(format!(in alloc; "close {}\n", *conn)?),
        _ => None,
    })
}

/// Whether a reply accepts its request: the byte behind its length says so.
pub(crate) fn verdict(frame: &[u8]) -> &'static str {
    match frame.get(4) {
        Some(0) => "accepted",
        _ => "refused",
    }
}

/// Adds the line of a reply: the client, whether its request was accepted, and the text.
pub(crate) fn push_reply(
    alloc: Global,
    transcript: &mut Bytes,
    conn: u32,
    frame: &[u8],
) -> Result<(), Fail> {
    let head = format!(in alloc; "reply {conn} {} ", verdict(frame))?;
    let text = frame.get(5..).ok_or("no reply")?;
    transcript.push_slice(head.as_bytes())?;
    transcript.push_slice(text)?;
    transcript.push(b'\n')?;
    Ok(())
}

/// Adds what was said or replied in a call.
pub(crate) fn push_told(alloc: Global, transcript: &mut Bytes, event: &Event) -> Result<(), Fail> {
    match event {
        Event::Say {
            bytes,
            answer: Said::Done,
        } => Ok(transcript.push_slice(bytes.as_slice())?),
        Event::GateWrite {
            conn,
            bytes,
            answer: GateWrite::Took(_),
        } => push_reply(alloc, transcript, *conn, bytes.as_slice()),
        _ => Ok(()),
    }
}

/// Adds a line, if there is one.
pub(crate) fn push_line(transcript: &mut Bytes, line: Option<String>) -> Result<(), Fail> {
    if let Some(line) = line {
        transcript.push_slice(line.as_bytes())?;
    }
    Ok(())
}

/// All of it, in order.
pub(crate) fn transcript(alloc: Global, events: &[Event]) -> Result<Bytes, Fail> {
    let mut transcript = Bytes::new(alloc);
    for event in events {
        push_told(alloc, &mut transcript, event)?;
        push_line(&mut transcript, command_line(alloc, event)?)?;
        push_line(&mut transcript, client_line(alloc, event)?)?;
    }
    Ok(transcript)
}
