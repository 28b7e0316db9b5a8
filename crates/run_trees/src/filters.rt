//! The filters of a configuration's jails.
ghost use Rattle.std.specs.Prelude.{◌≡◌, ◌++◌, [], ◌∷◌, OnErr, OnOk, map};
ghost use Rattle.f2b_model.specs.Lists.{AllOf};
ghost use Rattle.filter_regex.specs.Rules.{IsSupported, rules_of};
ghost use Rattle.run_law.specs.Patterns.{patterns_of};
ghost use Rattle.run_law.specs.Stages.{HasCause, IsSteady};
ghost use Rattle.run_steps.specs.Starting.{LeavesSlots};
ghost use Rattle.run_trees.specs.Reads.{BuildFails, Builds, BuildsShort, IfTaken, IfUntaken, IsUnrefused, Reads, ReadsShort, not_taken, with_left};
ghost use Rattle.run_law.specs.Reading.{IsUntaken};
ghost use Rattle.run_trees.specs.Trees.{IsCaused, IsOfTree};

use f2b_base::{JailDef, NoMemory, Plain};
use f2b_world::World;
use filter_regex::{Filter, PatternError};
use jail_conf::Settings;
use run_law::{Plan, Status};
use std::alloc::Global;

// Builds the filter of one jail, one of whose patterns may be refused.
#[tactic(auto, using(crate::proofs::BuildLemmas::building))]
fn build_filter<W: World>(
    alloc: Global,
    world: &mut W,
    jail: &JailDef,
) -> Result<Result<Filter, Status>, NoMemory>
    requires { IsSupported jail.now }
    ensures value { IfTaken result (λ filter. filter ≡ rules_of jail.now) }
    ensures taken { IfTaken result (λ filter. Builds (W.stands world.old) (W.stands world.new) jail.now) }
    ensures untaken { IfUntaken result (BuildFails (W.stands world.old) (W.stands world.new) jail.now) }
    ensures lost { OnErr result (BuildsShort (W.stands world.old) (W.stands world.new) jail.now) }
    ensures given { IfTaken result (λ filter. IsUnrefused (W.stands world.old) (W.stands world.new)) }
    ensures unrefused { OnErr result (IsUnrefused (W.stands world.old) (W.stands world.new)) }
    ensures still { IfTaken result (λ filter. LeavesSlots (W.stands world.old) (W.stands world.new)) }
    ensures why { IfUntaken result IsUntaken }
    ensures cause { IfUntaken result (IsCaused (W.stands world.old) (W.stands world.new) jail.now) }
    ensures steady { IsSteady (W.stands world.old) (W.stands world.new) }
{
    // A copy for a refusal, which needs no memory then.
    let name = jail.name.copy()?;
    match Filter::build(alloc, world, jail) {
        Ok(filter) => Ok(Ok(filter)),
        Err(PatternError::NoMemory) => Err(NoMemory),
        Err(PatternError::Refused { place, kind }) => Ok(Err(Status::PatternRefused {
            jail: name,
            place,
            kind,
        })),
    }
}

// Adds a filter behind the others.
fn push_filter(filters: &mut Vec<Filter>, filter: Filter) -> Result<(), NoMemory>
    ensures { OnOk result (filters.new.items ≡ filters.old.items ++ filter ∷ []) }
{
    filters.push(filter)?;
    Ok(())
}

/// Builds the filters of all jails, in their order: each pattern by one call, up to the first that is not built.
#[tactic(auto, using(crate::proofs::JailLemmas::all_built, run_steps::proofs::StartLemmas::leaving, run_law::proofs::CauseLemmas::counting))]
pub fn build_filters<W: World>(
    alloc: Global,
    world: &mut W,
    plan: &Plan,
    settings: &Settings,
) -> Result<Result<Vec<Filter>, Status>, NoMemory>
    requires tree { IsOfTree settings.now }
    requires supported { AllOf IsSupported settings.now.defs.jails }
    ensures value { IfTaken result (λ filters. filters.items ≡ map rules_of settings.now.defs.jails) }

    // Whoever reads.
    ensures taken { IfTaken result (λ filters. Reads (W.stands world.old) (W.stands world.new) plan.now (with_left settings.now (patterns_of settings.now.defs)) (with_left settings.now [])) }
    ensures untaken { IfUntaken result (λ status. Reads (W.stands world.old) (W.stands world.new) plan.now (with_left settings.now (patterns_of settings.now.defs)) (not_taken status)) }
    ensures lost { OnErr result (ReadsShort (W.stands world.old) (W.stands world.new) plan.now (with_left settings.now (patterns_of settings.now.defs))) }

    // Memory runs out only where no answer refuses it.
    ensures unrefused { OnErr result (IsUnrefused (W.stands world.old) (W.stands world.new)) }

    ensures still { IfTaken result (λ filters. LeavesSlots (W.stands world.old) (W.stands world.new)) }
    ensures why { IfUntaken result IsUntaken }
    ensures cause { IfUntaken result (HasCause (W.stands world.old) (W.stands world.new)) }
    ensures steady { IsSteady (W.stands world.old) (W.stands world.new) }
{
    let mut filters = Vec::new(alloc);
    for jail in settings.defs.jails.as_slice() {
        match build_filter(alloc, world, jail)? {
            Ok(filter) => push_filter(&mut filters, filter)?,
            Err(status) => return Ok(Err(status)),
        }
    }
    Ok(Ok(filters))
}
