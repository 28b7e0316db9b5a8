//! One client, served once.
ghost use Rattle.std.specs.Prelude.{◌≡◌, ◌<◌, ◌-◌, length, IfErr, IfOk};
ghost use Rattle.client_table.specs.Clients.{AnswersWrite, IsBounded, Reads, after_write, asks_at, changed_at, most_clients};
ghost use Rattle.run_law.specs.Stages.{HasCause, IsSteady, Moves, MoveFails};
ghost use Rattle.run_law.specs.Turn.{to_clients};
ghost use Rattle.run_steps.specs.Keeping.{IsPlacedIn, KeepsRunning};
ghost use Rattle.turn_clients.specs.Serving.{HasClients, IsNearer, IsWrittenIf, behind_read, onward_from};

use crate::close::{close, close_over};
use crate::hear::hear;
use client_table::Next;
use f2b_world::{Disk, Gate, GateRead, GateWrite, World};
use run_law::Status;
use run_steps::Running;
use std::alloc::Global;

// The client at a place was written to, with this answer.
fn wrote<'f>(running: Running<'f>, place: usize, answer: GateWrite) -> Running<'f>
    requires within { place < length running.clients }
    requires answers { AnswersWrite (asks_at place running.clients) answer }
    ensures { HasClients (changed_at place (after_write running.entry.clocked.now answer) running.entry.clients) running.entry result }
{
    let mut running = running;
    let now = running.clocked.now;
    running.clients.wrote(place, answer, now);
    running
}

// Reads the client at a place, which asks for it, and takes what came. Tells whether the configuration is to be read again for it.
#[tactic(auto, using(crate::proofs::ServeLemmas::reading, run_law::proofs::CauseLemmas::counting, run_law::proofs::CauseLemmas::placing))]
fn read<'f, W: World + Disk + Gate>(
    alloc: Global,
    world: &mut W,
    running: Running<'f>,
    place: usize,
    most: u32,
) -> Result<(Running<'f>, bool), Status>
    requires within { place < length running.clients }
    requires asks { asks_at place running.clients ≡ Reads most }
    requires bounded { IsBounded (Reads most) }
    requires placed { IsPlacedIn (W.stands world.old).told running.clocked }
    ensures ok { IfOk result (λ r. Moves KeepsRunning (W.stands world.old) (W.stands world.new) (to_clients place) (behind_read r.1 place) running.entry r.0) }
    ensures err { IfErr result (MoveFails KeepsRunning (W.stands world.old) (W.stands world.new) (to_clients place) running.entry) }
    ensures cause { IfErr result (HasCause (W.stands world.old) (W.stands world.new)) }
    ensures steady { IsSteady (W.stands world.old) (W.stands world.new) }
    ensures many { IfOk result (λ r. length r.0.clients ≡ length running.entry.clients) }
    ensures written { IfOk result (λ r. IsWrittenIf r.1 place r.0) }
    ensures left { IfOk result (λ r. r.0.left ≡ running.entry.left) }
    ensures placed { IfOk result (λ r. IsPlacedIn (W.stands world.new).told r.0.clocked) }
{
    match world.gate_read(running.clients.conn(place), most) {
        GateRead::NoMemory => Err(Status::NoMemory),
        answer => hear(alloc, world, running, place, answer),
    }
}

// Reads the client at a place, which asks for it, and gives the place to go on from, unless the configuration is to be read again for it.
#[tactic(auto, using(crate::proofs::ServeLemmas::serving, run_law::proofs::CauseLemmas::counting))]
fn read_one<'f, W: World + Disk + Gate>(
    alloc: Global,
    world: &mut W,
    running: Running<'f>,
    place: usize,
    most: u32,
) -> Result<(Running<'f>, Option<usize>), Status>
    requires within { place < length running.clients }
    requires few { place < most_clients }
    requires asks { asks_at place running.clients ≡ Reads most }
    requires bounded { IsBounded (Reads most) }
    requires placed { IsPlacedIn (W.stands world.old).told running.clocked }
    ensures ok { IfOk result (λ r. Moves KeepsRunning (W.stands world.old) (W.stands world.new) (to_clients place) (onward_from r.1 place) running.entry r.0) }
    ensures err { IfErr result (MoveFails KeepsRunning (W.stands world.old) (W.stands world.new) (to_clients place) running.entry) }
    ensures cause { IfErr result (HasCause (W.stands world.old) (W.stands world.new)) }
    ensures steady { IsSteady (W.stands world.old) (W.stands world.new) }
    ensures nearer { IfOk result (λ r. IsNearer running.entry place r.0 r.1) }
    ensures left { IfOk result (λ r. r.0.left ≡ running.entry.left) }
    ensures placed { IfOk result (λ r. IsPlacedIn (W.stands world.new).told r.0.clocked) }
{
    let (running, again) = read(alloc, world, running, place, most)?;
    if again {
        return Ok((running, None));
    }
    let (running, next) = close_over(world, running, place);
    Ok((running, Some(next)))
}

/// Writes to the client at a place or reads it, as it asks, ends its connection where it is over, and gives the place to go on from, unless
/// the configuration is to be read again for it, which comes next then.
#[tactic(auto, using(crate::proofs::ServeLemmas::serving, run_law::proofs::CauseLemmas::counting, run_law::proofs::CauseLemmas::placing))]
pub(crate) fn serve<'f, W: World + Disk + Gate>(
    alloc: Global,
    world: &mut W,
    running: Running<'f>,
    place: usize,
) -> Result<(Running<'f>, Option<usize>), Status>
    requires within { place < length running.clients }
    requires few { place < most_clients }
    requires placed { IsPlacedIn (W.stands world.old).told running.clocked }
    ensures ok { IfOk result (λ r. Moves KeepsRunning (W.stands world.old) (W.stands world.new) (to_clients place) (onward_from r.1 place) running.entry r.0) }
    ensures err { IfErr result (MoveFails KeepsRunning (W.stands world.old) (W.stands world.new) (to_clients place) running.entry) }
    ensures cause { IfErr result (HasCause (W.stands world.old) (W.stands world.new)) }
    ensures steady { IsSteady (W.stands world.old) (W.stands world.new) }
    ensures nearer { IfOk result (λ r. IsNearer running.entry place r.0 r.1) }
    ensures left { IfOk result (λ r. r.0.left ≡ running.entry.left) }
    ensures placed { IfOk result (λ r. IsPlacedIn (W.stands world.new).told r.0.clocked) }
{
    match running.clients.next(place) {
        Next::Write(bytes) => {
            let answer = world.gate_write(running.clients.conn(place), bytes);
            let running = wrote(running, place, answer);
            let (running, next) = close_over(world, running, place);
            Ok((running, Some(next)))
        }
        Next::Read(most) => read_one(alloc, world, running, place, most),
        Next::Nothing => Ok((close(world, running, place), Some(place))),
    }
}
