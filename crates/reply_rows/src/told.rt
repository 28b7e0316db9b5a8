//! What comes of words.
use client_replies::{effect, reply};
use client_words::{Request, command};
use f2b_base::{Seq, Text};
use jail_core::Core;
use std::alloc::Global;
use std::test::Fail;

/// What is replied to a request, a refusal behind a mark, and the input that it makes.
fn told_of_request(
    alloc: Global,
    core: &Core,
    now: u64,
    request: &Request,
) -> Result<String, Fail> {
    let answer = reply(alloc, core, now, request)?;
    let mark = if answer.accepted { "" } else { "! " };
    let text = answer.text.as_str();
    match effect(alloc, core, request)? {
        Some(what) => Ok(format!(in alloc; "{mark}{text} > {what:?}")?),
        None => Ok(format!(in alloc; "{mark}{text}")?),
    }
}

/// The same of a line whose words have one blank between them.
pub(crate) fn told(alloc: Global, core: &Core, now: u64, line: &str) -> Result<String, Fail> {
    let mut words = Seq::new(alloc);
    for word in line.split(' ') {
        words.push(Text::from_str(alloc, word)?)?;
    }
    // No row has so many, and a request never has as many as a machine could count.
    if words.as_slice().len() > 1_000 {
        return Ok(String::from_str(alloc, "too many words for a row")?);
    }
    match command(alloc, &words) {
        Ok(request) => told_of_request(alloc, core, now, &request),
        Err(error) => {
            let text = error.refusal(alloc)?;
            let text = text.as_str();
            Ok(format!(in alloc; "! {text}")?)
        }
    }
}
