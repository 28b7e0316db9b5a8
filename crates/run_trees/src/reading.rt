//! A configuration with the filters of its jails, for whoever reads it.
ghost use Rattle.std.specs.Prelude.{◌≡◌, IfErr, IfOk, OnErr, OnOk, [], map};
ghost use Rattle.f2b_model.specs.Bounds.{IsBounded};
ghost use Rattle.f2b_model.specs.Lists.{AllOf};
ghost use Rattle.f2b_model.specs.Sound.{AreFitDefs};
ghost use Rattle.f2b_model.specs.Storable.{AreStorableDefs};
ghost use Rattle.filter_regex.specs.Rules.{IsSupported, rules_of};
ghost use Rattle.run_law.specs.Points.{AtStore, AtTree};
ghost use Rattle.run_law.specs.Stages.{HasCause, IsSteady};
ghost use Rattle.run_steps.specs.Starting.{LeavesSlots, Starts, StartFails};
ghost use Rattle.run_trees.specs.Reads.{IfTaken, IfUntaken, IsUnrefused, Reads, ReadsShort, at_tree, not_taken, with_left};
ghost use Rattle.run_law.specs.Reading.{IsUntaken};
ghost use Rattle.run_trees.specs.Trees.{IsOfTree};

use crate::configuration::Configuration;
use crate::filters::build_filters;
use crate::tree::read_tree;
use f2b_base::NoMemory;
use f2b_world::World;
use run_law::{Plan, Status};
use run_steps::refuse;
use std::alloc::Global;

/// Reads the configuration of a plan, and builds the filters of its jails. Where it is not taken the status says why; nothing is said of that
/// here.
#[tactic(auto, using(crate::proofs::ReadsLemmas::reading, run_steps::proofs::StartLemmas::leaving, run_law::proofs::CauseLemmas::counting))]
pub fn try_configuration<W: World>(
    alloc: Global,
    world: &mut W,
    plan: &Plan,
) -> Result<Result<Configuration, Status>, NoMemory>
    // Whoever reads: the start of a run, or a client that asked for it.
    ensures taken { IfTaken result (λ read. Reads (W.stands world.old) (W.stands world.new) plan.now at_tree (with_left read.settings [])) }
    ensures untaken { IfUntaken result (λ status. Reads (W.stands world.old) (W.stands world.new) plan.now at_tree (not_taken status)) }
    ensures lost { OnErr result (ReadsShort (W.stands world.old) (W.stands world.new) plan.now at_tree) }

    // Memory runs out only where no answer refuses it.
    ensures unrefused { OnErr result (IsUnrefused (W.stands world.old) (W.stands world.new)) }

    ensures defined { IfTaken result (λ read. IsOfTree read.settings) }
    ensures fit { IfTaken result (λ read. AreFitDefs read.settings.defs) }
    ensures supported { IfTaken result (λ read. AllOf IsSupported read.settings.defs.jails) }
    ensures storable { IfTaken result (λ read. AreStorableDefs read.settings.defs) }
    ensures bounded { IfTaken result (λ read. AllOf IsBounded read.settings.defs.jails) }
    ensures filters { IfTaken result (λ read. read.filters.items ≡ map rules_of read.settings.defs.jails) }
    ensures still { IfTaken result (λ read. LeavesSlots (W.stands world.old) (W.stands world.new)) }
    ensures why { IfUntaken result IsUntaken }
    ensures cause { IfUntaken result (HasCause (W.stands world.old) (W.stands world.new)) }
    ensures steady { IsSteady (W.stands world.old) (W.stands world.new) }
{
    let settings = match read_tree(alloc, world, plan)? {
        Ok(settings) => settings,
        Err(status) => return Ok(Err(status)),
    };
    match build_filters(alloc, world, plan, &settings)? {
        Ok(filters) => Ok(Ok(Configuration { settings, filters })),
        Err(status) => Ok(Err(status)),
    }
}

/// The configuration that a run starts with, which ends where it is not taken: why is said, unless that cannot be said.
#[tactic(auto, using(crate::proofs::ReadsLemmas::starting, run_law::proofs::CauseLemmas::counting))]
pub fn read_configuration<W: World>(
    alloc: Global,
    world: &mut W,
    plan: &Plan,
) -> Result<Configuration, Status>
    ensures ok { IfOk result (λ read. Starts (W.stands world.old) (W.stands world.new) plan.now AtTree (AtStore read.settings)) }
    ensures still { OnOk result (LeavesSlots (W.stands world.old) (W.stands world.new)) }
    ensures defined { IfOk result (λ read. IsOfTree read.settings) }
    ensures fit { IfOk result (λ read. AreFitDefs read.settings.defs) }
    ensures supported { IfOk result (λ read. AllOf IsSupported read.settings.defs.jails) }
    ensures storable { IfOk result (λ read. AreStorableDefs read.settings.defs) }
    ensures bounded { IfOk result (λ read. AllOf IsBounded read.settings.defs.jails) }
    ensures filters { IfOk result (λ read. read.filters.items ≡ map rules_of read.settings.defs.jails) }
    ensures err { IfErr result (StartFails (W.stands world.old) (W.stands world.new) plan.now AtTree) }
    ensures cause { IfErr result (HasCause (W.stands world.old) (W.stands world.new)) }
    ensures steady { IsSteady (W.stands world.old) (W.stands world.new) }
{
    match try_configuration(alloc, world, plan)? {
        Ok(read) => Ok(read),
        // No clock was read yet: the line has the second 0.
        Err(status) => Err(refuse(alloc, world, 0, status)),
    }
}
