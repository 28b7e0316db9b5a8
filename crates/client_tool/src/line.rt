//! The lines that are said.
ghost use Rattle.std.specs.Prelude.{◌≡◌, IfOk};
ghost use Rattle.client_tool.specs.Lines.{is_ping, reply_line, reply_text, seconds_line};

use client_frames::Answer;
use f2b_base::{NoMemory, Seq, Text};
use std::alloc::Global;

/// Whether the one word is `ping`.
fn is_ping(words: &Seq<Text>) -> bool
    ensures { result ≡ is_ping words.now }
{
    match words.as_slice() {
        [word] => word.as_str() == "ping",
        _ => false,
    }
}

/// What is told of the reply to these words.
fn reply_text(alloc: Global, words: &Seq<Text>, answer: Answer) -> Result<Text, NoMemory>
    ensures { IfOk result (λ text. text ≡ reply_text words.now answer) }
{
    if answer.accepted && is_ping(words) {
        return Text::from_str(alloc, "Server replied: pong");
    }
    Ok(answer.text)
}

/// What is said of the reply to these words.
#[tactic(auto, unfolding(crate::specs::Lines::reply_line))]
pub(crate) fn reply_line(alloc: Global, words: &Seq<Text>, answer: Answer) -> Result<Text, NoMemory>
    ensures { IfOk result (λ line. line ≡ reply_line words.now answer) }
{
    let mut line = reply_text(alloc, words, answer)?;
    line.push_str("\n")?;
    Ok(line)
}

/// What is said of a time word.
#[tactic(auto, unfolding(crate::specs::Lines::seconds_line))]
pub(crate) fn seconds_line(alloc: Global, seconds: i64) -> Result<Text, NoMemory>
    ensures { IfOk result (λ line. line ≡ seconds_line seconds) }
{
    let line = format!(in alloc; "{seconds}\n")?;
    Ok(Text::from(line))
}
