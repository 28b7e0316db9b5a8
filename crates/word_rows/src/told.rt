//! What comes of words.
use client_words::command;
use f2b_base::{Seq, Text};
use std::alloc::Global;
use std::test::Fail;

/// How the request of words prints, or what a client is told of them.
pub(crate) fn told(alloc: Global, words: &Seq<Text>) -> Result<String, Fail> {
    // No row has so many, and a request never has as many as a machine could count.
    if words.as_slice().len() > 1_000 {
        return Ok(String::from_str(alloc, "too many words for a row")?);
    }
    match command(alloc, words) {
        Ok(request) => Ok(format!(in alloc; "{request:?}")?),
        Err(error) => {
            let text = error.refusal(alloc)?;
            Ok(String::from_str(alloc, text.as_str())?)
        }
    }
}

/// The same of a line whose words have one blank between them.
pub(crate) fn told_of_line(alloc: Global, line: &str) -> Result<String, Fail> {
    let mut words = Seq::new(alloc);
    for word in line.split(' ') {
        words.push(Text::from_str(alloc, word)?)?;
    }
    told(alloc, &words)
}

/// The same of words that have blanks.
pub(crate) fn told_of_words(alloc: Global, words: &[&str]) -> Result<String, Fail> {
    let mut seq = Seq::new(alloc);
    for word in words {
        seq.push(Text::from_str(alloc, word)?)?;
    }
    told(alloc, &seq)
}
