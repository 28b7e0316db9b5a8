//! The run of the server.
ghost use Rattle.std.specs.Prelude.{◌≡◌, ◌≤◌, ◌<◌, IfErr, IfOk, IfSome, IsSome, None, OnOk, map, string_bytes};
ghost use Rattle.ban_journal.specs.Places.{IsPlaced};
ghost use Rattle.f2b_base.specs.declared.view.View.{View};
ghost use Rattle.f2b_world.specs.Told.{Adds};
ghost use Rattle.f2b_model.specs.Storable.{AreStorableDefs};
ghost use Rattle.filter_regex.specs.Rules.{rules_of};
ghost use Rattle.run_jobs.specs.Runs.{HoldBytes, TriesJobsInOrder};
ghost use Rattle.run_law.specs.Served.{IsCaused, IsRun};
ghost use Rattle.run_law.specs.Stages.{HasCause, IsSteady};
ghost use Rattle.run_law.specs.Stops.{BeginsOn, held_in};
ghost use Rattle.run_law.specs.Words.{plan_of};
ghost use Rattle.run_law.specs.declared.status.Status.TheVariants.{TurnsSpent as AllTurns};
ghost use Rattle.run_replies.specs.Replied.{RepliesBehindInputs, RepliesInOrder};
ghost use Rattle.run_start.specs.Followed.{ArePlaces, rules_in};
ghost use Rattle.run_steps.specs.Keeping.{IsPlacedIn};
ghost use Rattle.run_trees.specs.Trees.{IsOfTree};
ghost use Rattle.server_top.specs.Prepared.{BeginsSound, OpensTo, PlanHalts, Prepares, ResumeFails, Resumes};
ghost use Rattle.server_top.specs.Reloads.{FirstHalts, FirstTakes, GoesOnWith, NextHalts, NextTakes, TakeHalts, Takes, left_at, left_behind, left_in};
ghost use Rattle.server_top.specs.Turns.{Asks};
ghost use Rattle.server_top.specs.Usage.{IsOfUsage};

use crate::turns::{go_on, take_turns};
use crate::words::read_words;
use child_table::ChildTable;
use client_table::ClientTable;
use f2b_world::{Children, Directories, Disk, Gate, Store, World};
use filter_regex::Filter;
use jail_conf::Settings;
use reconcile::Engine;
use run_law::{Plan, Status};
use run_load::{listen, load_journal};
use run_start::{first_turn, follow};
use run_steps::{Clocked, Running, refuse};
use run_trees::{Configuration, read_configuration};
use std::alloc::Global;
use turn_reload::{Reloaded, Reread, follow_on, reload};

// The state that was stored, and behind it the socket.
#[tactic(auto, using(crate::proofs::ServeLemmas::letting_in, run_law::proofs::CauseLemmas::counting))]
fn open<W: World + Store + Disk + Gate>(
    alloc: Global,
    world: &mut W,
    plan: &Plan,
    settings: &Settings,
) -> Result<Engine, Status>
    ensures ok { IfOk result (OpensTo (W.stands world.old) (W.stands world.new) plan.now settings.now) }
    ensures err { IfErr result (ResumeFails (W.stands world.old) (W.stands world.new) plan.now settings.now) }
    ensures cause { IfErr result (HasCause (W.stands world.old) (W.stands world.new)) }
    ensures steady { IsSteady (W.stands world.old) (W.stands world.new) }
    ensures placed { IfOk result (λ engine. IsPlaced engine.journal (W.stands world.new).told) }
{
    let engine = load_journal(alloc, world, plan, settings)?;
    listen(alloc, world, settings)?;
    Ok(engine)
}

// The state that was stored, with the configuration as its next input.
#[tactic(auto, using(crate::proofs::ServeLemmas::resuming, run_law::proofs::CauseLemmas::counting))]
fn resume<W: World + Directories + Store + Disk + Gate>(
    alloc: Global,
    world: &mut W,
    plan: &Plan,
    settings: &Settings,
) -> Result<Clocked, Status>
    requires defined { IsOfTree settings.now }
    requires storable { AreStorableDefs settings.now.defs }
    ensures ok { IfOk result (Resumes (W.stands world.old) (W.stands world.new) plan.now settings.now) }
    ensures rules { IfOk result (λ clocked. rules_in clocked ≡ map rules_of settings.now.defs.jails) }
    ensures places { IfOk result ArePlaces }
    ensures err { IfErr result (ResumeFails (W.stands world.old) (W.stands world.new) plan.now settings.now) }
    ensures cause { IfErr result (HasCause (W.stands world.old) (W.stands world.new)) }
    ensures steady { IsSteady (W.stands world.old) (W.stands world.new) }
    ensures placed { IfOk result (IsPlacedIn (W.stands world.new).told) }
{
    let engine = open(alloc, world, plan, settings)?;
    let clocked = first_turn(alloc, world, plan, settings, engine)?;
    Ok(clocked)
}

// The start: the filters of all jails, and what is kept of the server before its first turn.
#[tactic(auto, using(crate::proofs::ServeLemmas::preparing, run_law::proofs::CauseLemmas::counting))]
fn prepare<W: World + Directories + Store + Disk + Gate>(
    alloc: Global,
    world: &mut W,
    plan: &Plan,
) -> Result<(Vec<Filter>, Clocked), Status>
    ensures ok { IfOk result (λ r. Prepares (W.stands world.old) (W.stands world.new) plan.now r.1) }
    ensures filters { IfOk result (λ r. r.0.items ≡ rules_in r.1) }
    ensures places { IfOk result (λ r. ArePlaces r.1) }
    ensures err { IfErr result (PlanHalts (W.stands world.old) (W.stands world.new) plan.now) }
    ensures cause { IfErr result (HasCause (W.stands world.old) (W.stands world.new)) }
    ensures steady { IsSteady (W.stands world.old) (W.stands world.new) }
    ensures placed { IfOk result (λ r. IsPlacedIn (W.stands world.new).told r.1) }
{
    let Configuration { settings, filters } = read_configuration(alloc, world, plan)?;
    let clocked = resume(alloc, world, plan, &settings)?;
    Ok((filters, clocked))
}

// Reads the configuration again for the client that asks for it, and makes turns up to the next one, until one is taken: then it is given, with
// its filters and with the place of that client, or nothing where all turns were made.
#[tactic(auto, using(crate::proofs::ReloadLemmas::until, run_law::proofs::CauseLemmas::counting))]
fn until_taken<'f, W: World + Directories + Children + Disk + Gate>(
    alloc: Global,
    world: &mut W,
    plan: &Plan,
    asked: Option<(Running<'f>, usize)>,
) -> Result<Option<(Vec<Filter>, Reloaded, usize)>, Status>
    requires asks { IfSome asked (λ r. Asks r.0 r.1) }
    requires placed { IfSome asked (λ r. IsPlacedIn (W.stands world.old).told r.0.clocked) }
    ensures ok { IfOk result (Takes (W.stands world.old) (W.stands world.new) plan.now asked.entry) }
    ensures err { IfErr result (TakeHalts (W.stands world.old) (W.stands world.new) plan.now asked.entry) }
    ensures cause { IfErr result (HasCause (W.stands world.old) (W.stands world.new)) }
    ensures steady { IsSteady (W.stands world.old) (W.stands world.new) }
    ensures taken { IfOk result (λ o. IfSome o (λ r. GoesOnWith r.0.items r.1 r.2)) }
    ensures fewer { IfOk result (λ o. left_behind o ≤ left_in asked.entry) }
    ensures placed { IfOk result (λ o. IfSome o (λ r. IsPlacedIn (W.stands world.new).told r.1.clocked)) }
{
    let mut asked = asked;
    'asked: while let Some((running, place)) = asked {
        match reload(alloc, world, plan, running, place)? {
            Reread::Untaken(running) => asked = go_on(alloc, world, running, place)?,
            Reread::Taken { filters, reloaded } => return Ok(Some((filters, reloaded, place))),
        }
    }
    Ok(None)
}

// The turns from the first one on, until a configuration is taken: the logs borrow these filters, which are let go then.
#[tactic(auto, using(crate::proofs::ReloadLemmas::first, run_law::proofs::CauseLemmas::counting))]
fn first_turns<W: World + Directories + Children + Disk + Gate>(
    alloc: Global,
    world: &mut W,
    plan: &Plan,
    filters: Vec<Filter>,
    clocked: Clocked,
) -> Result<Option<(Vec<Filter>, Reloaded, usize)>, Status>
    requires some { 1 ≤ plan.now.turns }
    requires filters { filters.items ≡ rules_in clocked }
    requires places { ArePlaces clocked }
    requires placed { IsPlacedIn (W.stands world.old).told clocked }
    ensures ok { IfOk result (FirstTakes (W.stands world.old) (W.stands world.new) plan.now clocked) }
    ensures err { IfErr result (FirstHalts (W.stands world.old) (W.stands world.new) plan.now clocked) }
    ensures cause { IfErr result (HasCause (W.stands world.old) (W.stands world.new)) }
    ensures steady { IsSteady (W.stands world.old) (W.stands world.new) }
    ensures taken { IfOk result (λ o. IfSome o (λ r. GoesOnWith r.0.items r.1 r.2)) }
    ensures placed { IfOk result (λ o. IfSome o (λ r. IsPlacedIn (W.stands world.new).told r.1.clocked)) }
{
    let logs = follow(alloc, filters.as_slice(), &clocked)?;
    let running = Running {
        clocked,
        logs,
        children: ChildTable::new(alloc),
        clients: ClientTable::new(alloc),
        left: plan.turns,
    };
    let asked = take_turns(alloc, world, running)?;
    let taken = until_taken(alloc, world, plan, asked)?;
    Ok(taken)
}

// The turns behind the client for which this configuration was taken, until the next one is.
#[tactic(auto, using(crate::proofs::ReloadLemmas::next, run_law::proofs::CauseLemmas::counting))]
fn next_turns<W: World + Directories + Children + Disk + Gate>(
    alloc: Global,
    world: &mut W,
    plan: &Plan,
    filters: &[Filter],
    reloaded: Reloaded,
    place: usize,
) -> Result<Option<(Vec<Filter>, Reloaded, usize)>, Status>
    requires taken { GoesOnWith filters.now reloaded place }
    requires placed { IsPlacedIn (W.stands world.old).told reloaded.clocked }
    ensures ok { IfOk result (NextTakes (W.stands world.old) (W.stands world.new) plan.now reloaded place) }
    ensures err { IfErr result (NextHalts (W.stands world.old) (W.stands world.new) plan.now reloaded place) }
    ensures cause { IfErr result (HasCause (W.stands world.old) (W.stands world.new)) }
    ensures steady { IsSteady (W.stands world.old) (W.stands world.new) }
    ensures taken { IfOk result (λ o. IfSome o (λ r. GoesOnWith r.0.items r.1 r.2)) }
    ensures fewer { IfOk result (λ o. left_behind o < left_at reloaded place) }
    ensures placed { IfOk result (λ o. IfSome o (λ r. IsPlacedIn (W.stands world.new).told r.1.clocked)) }
{
    let running = follow_on(alloc, filters, reloaded)?;
    let asked = go_on(alloc, world, running, place)?;
    let taken = until_taken(alloc, world, plan, asked)?;
    Ok(taken)
}

// What the plan asks for.
#[tactic(auto, using(crate::proofs::ReloadLemmas::serving, run_law::proofs::CauseLemmas::counting))]
fn serve<W: World + Directories + Children + Store + Disk + Gate>(
    alloc: Global,
    world: &mut W,
    plan: &Plan,
) -> Result<(), Status>
    requires { 1 ≤ plan.now.turns }
    ensures ok { OnOk result (PlanHalts (W.stands world.old) (W.stands world.new) plan.now AllTurns) }
    ensures err { IfErr result (PlanHalts (W.stands world.old) (W.stands world.new) plan.now) }
    ensures cause { IfErr result (HasCause (W.stands world.old) (W.stands world.new)) }
    ensures steady { IsSteady (W.stands world.old) (W.stands world.new) }
{
    let (filters, clocked) = prepare(alloc, world, plan)?;
    let mut taken = first_turns(alloc, world, plan, filters, clocked)?;
    'reloads: while let Some((filters, reloaded, place)) = taken {
        taken = next_turns(alloc, world, plan, filters.as_slice(), reloaded, place)?;
    }
    Ok(())
}

// Reads the words, and does what they ask for.
#[tactic(auto, using(crate::proofs::UsageLemmas::running))]
fn run<W: World + Directories + Children + Store + Disk + Gate>(
    alloc: Global,
    words: &[String],
    world: &mut W,
) -> Result<(), Status>
    ensures ok { OnOk result (BeginsSound (W.stands world.old).told → IsRun (W.stands world.old).told (W.stands world.new).told (map string_bytes words.now) AllTurns) }
    ensures err { IfErr result (λ status. BeginsSound (W.stands world.old).told → IsRun (W.stands world.old).told (W.stands world.new).told (map string_bytes words.now) status) }
    ensures cause { IfErr result (IsCaused (map string_bytes words.now) (W.stands world.old) (W.stands world.new)) }
    ensures planned { OnOk result (IsSome (plan_of (map string_bytes words.now))) }
    ensures usage { IfErr result (λ status. plan_of (map string_bytes words.now) ≡ None → IsOfUsage status) }
{
    let Some(plan) = read_words(alloc, words)? else {
        return Err(refuse(alloc, world, 0, Status::Usage));
    };
    serve(alloc, world, &plan)
}

/// Runs the server as its words ask: `--conf DIR` follows the logs of the enabled jails of the configuration in that directory, and serves
/// clients at its socket. Where one of them asks for a reload the configuration is read again within the turn: it is taken whole, or the client
/// is told why not and nothing changes. Once one has asked for a stop, no log is looked at any more and the lanes are taken down; clients are
/// still served, and the run ends once all jobs are settled and all replies are taken. `--turns N` ends the run after N turns, and
/// `--journal-limit BYTES` says how long a slot of the journal may get.
///
/// Each call on the outside is the one that the law gives after the calls before it, and the run ends where the law gives none. The run
/// goes on from the state that its slots come to, and keeps each input over a stop before anything tells of it. Lines are said in the order
/// of what happened, all that an event tells in one call, before any other call. In each lane the jobs that the run has tried are the first
/// of those that were made for it, in order.
#[tactic(auto, using(crate::proofs::TriedLemmas::tries, crate::proofs::RepliedLemmas::replies, crate::proofs::RepliedLemmas::replies_behind))]
pub fn server<W: World + Directories + Children + Store + Disk + Gate>(
    alloc: Global,
    words: &[String],
    world: &mut W,
) -> Status
    // Where the history is told, and the state that its slots come to is sound, as one is that a run has stored.
    ensures law { BeginsSound (W.stands world.old).told → IsRun (W.stands world.old).told (W.stands world.new).told (map string_bytes words.now) result }
    ensures tried { BeginsSound (W.stands world.old).told → Adds (W.stands world.old).told (W.stands world.new).told (λ g es. HoldBytes (held_in g) → TriesJobsInOrder (map string_bytes words.now) (held_in g) es) }
    ensures replied { BeginsSound (W.stands world.old).told → Adds (W.stands world.old).told (W.stands world.new).told (λ g es. RepliesInOrder (map string_bytes words.now) (held_in g) es) }
    ensures behind { BeginsSound (W.stands world.old).told → Adds (W.stands world.old).told (W.stands world.new).told (λ g es. (v : View) → BeginsOn v g → RepliesBehindInputs (map string_bytes words.now) (held_in g) es) }

    // In every world, told or not.
    ensures cause { IsCaused (map string_bytes words.now) (W.stands world.old) (W.stands world.new) result }
    ensures usage { plan_of (map string_bytes words.now) ≡ None → IsOfUsage result }
{
    match run(alloc, words, world) {
        Ok(()) => Status::TurnsSpent,
        Err(status) => status,
    }
}
