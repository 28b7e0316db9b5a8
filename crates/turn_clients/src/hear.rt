//! What came of a client, heard and responded to.
ghost use Rattle.std.specs.Prelude.{◌≡◌, ◌<◌, length, IfErr, IfOk, IfSome};
ghost use Rattle.client_table.specs.Clients.{AnswersRead, asks_at};
ghost use Rattle.run_law.specs.Serving.{reads};
ghost use Rattle.run_law.specs.Stages.{HasCause, IsSteady};
ghost use Rattle.run_law.specs.Stages.{Brings, BringFails};
ghost use Rattle.run_steps.specs.Keeping.{KeepsRunning, news_of};
ghost use Rattle.std.specs.Prelude.{[]};
ghost use Rattle.turn_clients.specs.Responding.{IsFitReply};
ghost use Rattle.turn_clients.specs.Serving.{IsWrittenIf, behind_read};
ghost use Rattle.run_steps.specs.Keeping.{IsPlacedIn};
ghost use Rattle.turn_clients.specs.Responding.{IsFit};
ghost use Rattle.turn_clients.specs.Serving.{HasHeard, ServeFails, Serves};

use crate::response::{Reply, Response, respond};
use crate::take::take;
use f2b_base::NoMemory;
use f2b_world::{Disk, GateRead, World};
use run_law::Status;
use run_steps::Running;
use std::alloc::Global;

// What came of the client at a place is taken, and the reply to it is put in.
#[tactic(auto, using(crate::proofs::HearLemmas::taking_in, crate::proofs::ResponseLemmas::few_words))]
fn heard<'f>(
    alloc: Global,
    running: Running<'f>,
    place: usize,
    answer: GateRead,
) -> Result<(Running<'f>, Option<Response>), NoMemory>
    requires within { place < length running.clients }
    requires answers { AnswersRead (asks_at place running.clients) answer }
    ensures heard { IfOk result (λ r. HasHeard place answer running.entry r.0 r.1) }
    ensures fit { IfOk result (λ r. IfSome r.1 IsFit) }
{
    let mut running = running;
    let now = running.clocked.now;
    let heard = running.clients.read(place, answer, now);
    let response = respond(alloc, &running.clocked, heard)?;
    if let Some(Response::Replies(given)) = &response {
        running.clients.answer(place, &given.answer)?;
    }
    Ok((running, response))
}

// Takes what happens by a request that is replied to.
fn take_reply<'f, W: World + Disk>(
    alloc: Global,
    world: &mut W,
    running: Running<'f>,
    given: Reply,
) -> Result<Running<'f>, Status>
    requires fit { IsFitReply given }
    requires placed { IsPlacedIn (W.stands world.old).told running.clocked }
    ensures ok { IfOk result (Brings KeepsRunning (W.stands world.old) (W.stands world.new) (news_of [] given.what given.behind) running.entry) }
    ensures err { IfErr result (BringFails KeepsRunning (W.stands world.old) (W.stands world.new) (news_of [] given.what given.behind) running.entry) }
    ensures cause { IfErr result (HasCause (W.stands world.old) (W.stands world.new)) }
    ensures steady { IsSteady (W.stands world.old) (W.stands world.new) }
    ensures clients { IfOk result (λ after. after.clients ≡ running.entry.clients) }
    ensures left { IfOk result (λ after. after.left ≡ running.entry.left) }
    ensures placed { IfOk result (λ after. IsPlacedIn (W.stands world.new).told after.clocked) }
{
    let Reply {
        answer: _,
        what,
        behind,
    } = given;
    take(alloc, world, running, what, behind.as_slice())
}

/// Takes what a read of the client at a place was answered: the reply is put in, and then what happens by it is taken. Tells whether the
/// configuration is to be read again for it.
#[tactic(auto, using(crate::proofs::HearLemmas::hears, run_law::proofs::CauseLemmas::counting))]
pub(crate) fn hear<'f, W: World + Disk>(
    alloc: Global,
    world: &mut W,
    running: Running<'f>,
    place: usize,
    answer: GateRead,
) -> Result<(Running<'f>, bool), Status>
    requires within { place < length running.clients }
    requires answers { AnswersRead (asks_at place running.clients) answer }
    requires placed { IsPlacedIn (W.stands world.old).told running.clocked }
    ensures ok { IfOk result (λ r. Serves (W.stands world.old) (W.stands world.new) (reads answer place) (behind_read r.1 place) running.entry r.0) }
    ensures err { IfErr result (ServeFails (W.stands world.old) (W.stands world.new) (reads answer place) running.entry) }
    ensures cause { IfErr result (HasCause (W.stands world.old) (W.stands world.new)) }
    ensures steady { IsSteady (W.stands world.old) (W.stands world.new) }
    ensures many { IfOk result (λ r. length r.0.clients ≡ length running.entry.clients) }
    ensures written { IfOk result (λ r. IsWrittenIf r.1 place r.0) }
    ensures left { IfOk result (λ r. r.0.left ≡ running.entry.left) }
    ensures placed { IfOk result (λ r. IsPlacedIn (W.stands world.new).told r.0.clocked) }
{
    let (running, response) = heard(alloc, running, place, answer)?;
    match response {
        None => Ok((running, false)),
        Some(Response::ReadsAgain) => Ok((running, true)),
        Some(Response::Replies(given)) => {
            let running = take_reply(alloc, world, running, given)?;
            Ok((running, false))
        }
    }
}
