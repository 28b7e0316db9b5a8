//! Taking what an event brings.
ghost use Rattle.std.specs.Prelude.{◌≡◌, ◌++◌, Option, Some, IfErr, IfOk, IfSome};
ghost use Rattle.run_law.specs.Said.{lines_of};
ghost use Rattle.run_law.specs.Stages.{Brings, BringFails, IsSteady, IsUnsaid};
ghost use Rattle.run_steps.specs.Keeping.{IsPlacedIn, IsStorableAt, IsTimedAlike, IsUnbrought, KeepsClocked, Makes, news_of};
ghost use Rattle.run_steps.specs.Writing.{WriteFails, Writes};

use crate::clocked::Clocked;
use crate::say::{refuse, say_all};
use crate::told::{push_lines, push_told};
use f2b_base::{Bytes, Input, NoMemory, Seq, What};
use f2b_model::Told;
use f2b_world::{Disk, World};
use reconcile::EngineError;
use run_law::Status;
use std::alloc::Global;

// Writes an input and makes its step, with what it tells. Where it is not written the run ends, once that is said.
#[tactic(auto, using(crate::proofs::WriteLemmas::writing, run_law::proofs::CauseLemmas::counting))]
fn step<W: World + Disk>(
    alloc: Global,
    world: &mut W,
    clocked: Clocked,
    what: What,
) -> Result<(Clocked, Told), Status>
    requires storable { IsStorableAt clocked what }
    requires placed { IsPlacedIn (W.stands world.old).told clocked }
    ensures ok { IfOk result (λ r. Writes (W.stands world.old) (W.stands world.new) clocked what r.0 r.1) }
    ensures err { IfErr result (WriteFails (W.stands world.old) (W.stands world.new) clocked what) }
    ensures cause { IfErr result (IsUnbrought clocked (Some what) (W.stands world.old) (W.stands world.new)) }
    ensures steady { IsSteady (W.stands world.old) (W.stands world.new) }
    ensures placed { IfOk result (λ r. IsPlacedIn (W.stands world.new).told r.0) }
{
    let Clocked { engine, now, word } = clocked;
    let input = Input {
        secs: now,
        word,
        what,
    };
    match engine.take(alloc, world, input) {
        Ok((engine, told)) => Ok((Clocked { engine, now, word }, told)),
        Err(EngineError::Spent) => Err(refuse(alloc, world, now, Status::NumbersSpent)),
        Err(EngineError::Full { need, limit }) => {
            Err(refuse(alloc, world, now, Status::JournalFull { need, limit }))
        }
        Err(EngineError::DiskFault) => Err(refuse(alloc, world, now, Status::DiskFault)),
        Err(EngineError::NoMemory) => Err(Status::NoMemory),
    }
}

// Lines that come first, those of what a step told, and lines that come behind.
fn lines_in(
    alloc: Global,
    now: u64,
    before: &[Bytes],
    told: &Told,
    behind: &[Bytes],
) -> Result<Seq<Bytes>, NoMemory>
    ensures { IfOk result (λ lines. lines ≡ before.now ++ lines_of now told.now ++ behind.now) }
{
    let mut lines = Seq::new(alloc);
    push_lines(&mut lines, before)?;
    push_told(alloc, &mut lines, now, told)?;
    push_lines(&mut lines, behind)?;
    Ok(lines)
}

// Takes an input with its lines.
#[tactic(auto, using(crate::proofs::BringLemmas::bringing, crate::proofs::BringLemmas::unbrought, run_law::proofs::CauseLemmas::counting))]
fn bring_input<W: World + Disk>(
    alloc: Global,
    world: &mut W,
    clocked: Clocked,
    before: &[Bytes],
    what: What,
    behind: &[Bytes],
) -> Result<Clocked, Status>
    requires storable { IsStorableAt clocked what }
    requires placed { IsPlacedIn (W.stands world.old).told clocked }
    ensures ok { IfOk result (Brings KeepsClocked (W.stands world.old) (W.stands world.new) (news_of before.now (Some what) behind.now) clocked) }
    ensures err { IfErr result (BringFails KeepsClocked (W.stands world.old) (W.stands world.new) (news_of before.now (Some what) behind.now) clocked) }
    ensures cause { IfErr result (IsUnbrought clocked (Some what) (W.stands world.old) (W.stands world.new)) }
    ensures steady { IsSteady (W.stands world.old) (W.stands world.new) }
    ensures makes { IfOk result (Makes clocked (Some what)) }
    ensures rest { IfOk result (IsTimedAlike clocked) }
    ensures placed { IfOk result (IsPlacedIn (W.stands world.new).told) }
{
    let (clocked, told) = step(alloc, world, clocked, what)?;
    let lines = lines_in(alloc, clocked.now, before, &told, behind)?;
    say_all(alloc, world, lines.as_slice())?;
    Ok(clocked)
}

// Says lines that come first and lines that come behind.
#[tactic(auto, using(crate::proofs::BringLemmas::bringing, run_law::proofs::CauseLemmas::counting))]
fn bring_lines<W: World>(
    alloc: Global,
    world: &mut W,
    clocked: Clocked,
    before: &[Bytes],
    behind: &[Bytes],
) -> Result<Clocked, Status>
    requires { IsPlacedIn (W.stands world.old).told clocked }
    ensures ok { IfOk result (Brings KeepsClocked (W.stands world.old) (W.stands world.new) (news_of before.now Option.None behind.now) clocked) }
    ensures err { IfErr result (BringFails KeepsClocked (W.stands world.old) (W.stands world.new) (news_of before.now Option.None behind.now) clocked) }
    ensures cause { IfErr result (IsUnsaid (W.stands world.old) (W.stands world.new)) }
    ensures steady { IsSteady (W.stands world.old) (W.stands world.new) }
    ensures same { IfOk result (λ after. after ≡ clocked) }
    ensures placed { IfOk result (IsPlacedIn (W.stands world.new).told) }
{
    let mut lines = Seq::new(alloc);
    push_lines(&mut lines, before)?;
    push_lines(&mut lines, behind)?;
    say_all(alloc, world, lines.as_slice())?;
    Ok(clocked)
}

/// Takes what an event brings: lines that come first, what happened, if that is an input, and lines that come behind. An input is on
/// the disk before its lines are said.
#[tactic(auto, using(crate::proofs::BringLemmas::unbrought))]
pub fn bring<W: World + Disk>(
    alloc: Global,
    world: &mut W,
    clocked: Clocked,
    before: &[Bytes],
    what: Option<What>,
    behind: &[Bytes],
) -> Result<Clocked, Status>
    requires storable { IfSome what (IsStorableAt clocked) }
    requires placed { IsPlacedIn (W.stands world.old).told clocked }
    ensures ok { IfOk result (Brings KeepsClocked (W.stands world.old) (W.stands world.new) (news_of before.now what behind.now) clocked) }
    ensures err { IfErr result (BringFails KeepsClocked (W.stands world.old) (W.stands world.new) (news_of before.now what behind.now) clocked) }
    ensures cause { IfErr result (IsUnbrought clocked what (W.stands world.old) (W.stands world.new)) }
    ensures steady { IsSteady (W.stands world.old) (W.stands world.new) }
    ensures makes { IfOk result (Makes clocked what) }
    ensures rest { IfOk result (IsTimedAlike clocked) }
    ensures placed { IfOk result (IsPlacedIn (W.stands world.new).told) }
{
    match what {
        Some(what) => bring_input(alloc, world, clocked, before, what, behind),
        None => bring_lines(alloc, world, clocked, before, behind),
    }
}
