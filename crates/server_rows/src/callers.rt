//! Clients of a run, and what they send.
use client_frames::{are_request, request_frame};
use f2b_base::{Bytes, Seq, Text};
use f2b_mem::ClientPlan;
use std::alloc::Global;
use std::test::Fail;

/// A client.
pub(crate) struct Caller {
    /// It connects once so many pauses were made.
    pub pauses: u64,
    /// The requests that it sends, each as its words with blanks between them.
    pub asks: &'static [&'static str],
    /// The bytes that it sends behind them.
    pub tail: &'static [u8],
}

/// The frame of a request.
pub(crate) fn frame(alloc: Global, ask: &str) -> Result<Bytes, Fail> {
    let mut words = Seq::new(alloc);
    for word in ask.split_whitespace() {
        words.push(Text::from_str(alloc, word)?)?;
    }
    if !are_request(&words) {
        return Err("no request".into());
    }
    Ok(request_frame(alloc, &words)?)
}

/// All that a client sends.
pub(crate) fn sent(alloc: Global, caller: &Caller) -> Result<Bytes, Fail> {
    let mut sent = Bytes::new(alloc);
    for ask in caller.asks {
        sent.push_slice(frame(alloc, ask)?.as_slice())?;
    }
    sent.push_slice(caller.tail)?;
    Ok(sent)
}

/// Clients that each give at once all that is read of them.
pub(crate) fn plans(alloc: Global, callers: &[Caller]) -> Result<Seq<ClientPlan>, Fail> {
    let mut plans = Seq::new(alloc);
    for caller in callers {
        plans.push(ClientPlan {
            pauses: caller.pauses,
            sent: sent(alloc, caller)?,
            piece: u32::MAX,
        })?;
    }
    Ok(plans)
}
