//! What a tree of files comes to.
ghost use Rattle.std.specs.Prelude.{IfErr, IfOk, OnErr};
ghost use Rattle.f2b_base.specs.declared.outside.TreeAnswer.TheVariants.{Tree as TreeGiven};
ghost use Rattle.f2b_model.specs.Bounds.{IsBounded};
ghost use Rattle.f2b_model.specs.Lists.{AllOf};
ghost use Rattle.f2b_model.specs.Sound.{AreFitDefs};
ghost use Rattle.f2b_model.specs.Storable.{AreStorableDefs};
ghost use Rattle.filter_regex.specs.Rules.{IsSupported};
ghost use Rattle.run_law.specs.Patterns.{patterns_of};
ghost use Rattle.run_law.specs.Stages.{HasCause, IsSteady};
ghost use Rattle.run_steps.specs.Starting.{LeavesSlots};
ghost use Rattle.run_trees.specs.Reads.{IfTaken, IfUntaken, IsUnrefused, Reads, ReadsShort, at_tree, not_taken, with_left};
ghost use Rattle.run_law.specs.Reading.{IsUntaken};
ghost use Rattle.run_trees.specs.Trees.{IsDecided, IsOfTree, IsOutcome, MayWantMemory};

use f2b_base::{NoMemory, Tree, TreeAnswer};
use f2b_world::World;
use jail_conf::{ConfFail, Fail, Settings, conf};
use run_law::{Plan, Status};
use std::alloc::Global;

// What was made of a tree, or why it is not taken. No memory is asked for.
fn decided(made: Result<Settings, ConfFail>) -> Result<Result<Settings, Status>, NoMemory>
    ensures { IsOutcome made result }
{
    match made {
        Ok(settings) => Ok(Ok(settings)),
        Err(Fail::Refused(error)) => Ok(Err(Status::ConfRefused(error))),
        Err(Fail::NoMemory) => Err(NoMemory),
    }
}

// The configuration of a tree, or why it is not taken.
#[tactic(auto, using(crate::proofs::TreeLemmas::deciding))]
fn decide(alloc: Global, tree: &Tree) -> Result<Result<Settings, Status>, NoMemory>
    ensures { IfOk result (IsDecided (TreeGiven tree.now)) }
{
    decided(conf(alloc, tree))
}

// The configuration of an answer, or why it is not taken. Memory is asked for nothing but the configuration of a tree.
fn take_answer(alloc: Global, answer: TreeAnswer) -> Result<Result<Settings, Status>, NoMemory>
    ensures is { IfOk result (IsDecided answer) }
    ensures lost { IfErr result (λ lost. MayWantMemory answer) }
{
    match answer {
        TreeAnswer::Tree(tree) => decide(alloc, &tree),
        TreeAnswer::Failed => Ok(Err(Status::ConfFault)),
        TreeAnswer::TooLarge => Ok(Err(Status::ConfTooLarge)),
        TreeAnswer::NoMemory => Err(NoMemory),
    }
}

/// Reads the configuration of a plan, which may not be taken: where it could not be read, is too large, or is refused.
#[tactic(auto, using(crate::proofs::TreeLemmas::reading, crate::proofs::SupportLemmas::supporting))]
pub fn read_tree<W: World>(
    alloc: Global,
    world: &mut W,
    plan: &Plan,
) -> Result<Result<Settings, Status>, NoMemory>
    // Whoever reads.
    ensures taken { IfTaken result (λ settings. Reads (W.stands world.old) (W.stands world.new) plan.now at_tree (with_left settings (patterns_of settings.defs))) }
    ensures untaken { IfUntaken result (λ status. Reads (W.stands world.old) (W.stands world.new) plan.now at_tree (not_taken status)) }
    ensures lost { OnErr result (ReadsShort (W.stands world.old) (W.stands world.new) plan.now at_tree) }

    // Memory runs out only where no answer refuses it.
    ensures given { IfTaken result (λ settings. IsUnrefused (W.stands world.old) (W.stands world.new)) }
    ensures unrefused { OnErr result (IsUnrefused (W.stands world.old) (W.stands world.new)) }

    ensures defined { IfTaken result IsOfTree }
    ensures fit { IfTaken result (λ settings. AreFitDefs settings.defs) }
    ensures supported { IfTaken result (λ settings. AllOf IsSupported settings.defs.jails) }
    ensures storable { IfTaken result (λ settings. AreStorableDefs settings.defs) }
    ensures bounded { IfTaken result (λ settings. AllOf IsBounded settings.defs.jails) }
    ensures still { IfTaken result (λ settings. LeavesSlots (W.stands world.old) (W.stands world.new)) }
    ensures why { IfUntaken result IsUntaken }
    ensures cause { IfUntaken result (HasCause (W.stands world.old) (W.stands world.new)) }
    ensures steady { IsSteady (W.stands world.old) (W.stands world.new) }
{
    let answer = world.config(plan.root.as_str());
    match take_answer(alloc, answer)? {
        Ok(settings) => Ok(Ok(settings)),
        Err(status) => Ok(Err(status)),
    }
}
