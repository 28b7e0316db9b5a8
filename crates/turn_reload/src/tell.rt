//! What a client is told that asked for the configuration to be read again.
ghost use Rattle.std.specs.Prelude.{◌≡◌, ◌<◌, ◌≤◌, [], IfOk, length};
ghost use Rattle.client_frames.specs.Frames.{most_text};
ghost use Rattle.client_replies.specs.Replies.{refused, sendable};
ghost use Rattle.client_table.specs.Clients.{answered, changed_at, unwritten_at};
ghost use Rattle.turn_reload.specs.Telling.{IsTold, ok_answer};

use client_frames::Answer;
use client_table::ClientTable;
use f2b_base::{NoMemory, Text};
use run_steps::Running;
use std::alloc::Global;

// The most bytes of a reply's text.
const MOST_TEXT: usize = 67_108_864;

// That the configuration is taken.
fn accepted(alloc: Global) -> Result<Answer, NoMemory>
    ensures is { IfOk result (λ answer. answer ≡ ok_answer) }
    ensures short { IfOk result (λ answer. length answer.text ≤ most_text) }
{
    Ok(Answer {
        accepted: true,
        text: Text::from_str(alloc, "OK")?,
    })
}

/// Why it is not, or that this cannot be sent.
pub(crate) fn refusal(alloc: Global, why: Text) -> Result<Answer, NoMemory>
    ensures is { IfOk result (λ answer. answer ≡ sendable (refused why)) }
    ensures short { IfOk result (λ answer. length answer.text ≤ most_text) }
{
    if why.as_str().len() <= MOST_TEXT {
        return Ok(Answer {
            accepted: false,
            text: why,
        });
    }
    Ok(Answer {
        accepted: false,
        text: Text::from_str(alloc, "Reply too long")?,
    })
}

/// Tells the client at a place that the configuration is taken.
pub(crate) fn tell_taken(
    alloc: Global,
    clients: ClientTable,
    place: usize,
) -> Result<ClientTable, NoMemory>
    requires within { place < length clients }
    requires written { unwritten_at place clients ≡ [] }
    ensures { IfOk result (λ after. after ≡ changed_at place (answered ok_answer) clients) }
{
    let mut clients = clients;
    let answer = accepted(alloc)?;
    clients.answer(place, &answer)?;
    Ok(clients)
}

/// Tells the client at a place so.
pub(crate) fn tell<'f>(
    running: Running<'f>,
    place: usize,
    answer: &Answer,
) -> Result<Running<'f>, NoMemory>
    requires within { place < length running.clients }
    requires written { unwritten_at place running.clients ≡ [] }
    requires short { length answer.now.text ≤ most_text }
    ensures { IfOk result (IsTold place answer.now running.entry) }
{
    let mut running = running;
    running.clients.answer(place, answer)?;
    Ok(running)
}
