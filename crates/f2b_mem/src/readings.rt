//! Readings and trees by their numbers.
ghost use Rattle.std.specs.Prelude.{◌≡◌, ◌≢◌, if◌then◌else◌, IfOk, IsTrue};
ghost use Rattle.f2b_base.specs.declared.outside.TreeAnswer.TheVariants.{Tree as ConfigTree, Failed as TreeFailed, TooLarge as ConfigTooLarge};
ghost use Rattle.f2b_world.specs.Bounds.{FitsTree};
ghost use Rattle.f2b_world.specs.Trees.{KeepsTree};
ghost use Rattle.f2b_mem.specs.Script.{reading_at, tree_at, tree_or_too_large};
ghost use Rattle.f2b_mem.specs.TreeBounds.{is_tree};

use crate::tree_bounds::{is_tree, know_files};
use f2b_base::{NoMemory, Plain, Reading, Seq, Tree, TreeAnswer};
use std::alloc::Global;

/// The reading of that number.
pub fn reading_at(readings: &[Reading], number: u64) -> Reading
    ensures { result ≡ reading_at readings.now number }
{
    let Some(last) = readings.len().checked_sub(1) else {
        return Reading { secs: 0, word: 0 };
    };
    readings[(number as usize).min(last)]
}

// A tree that keeps to the bounds of one, or too large.
fn tree_within(tree: &Tree) -> Result<TreeAnswer, NoMemory>
    ensures value { IfOk result (λ answer. answer ≡ (if is_tree tree.now.files then ConfigTree tree.now else ConfigTooLarge)) }
    ensures bounds { IfOk result KeepsTree }
    ensures texts { IfOk result FitsTree }
{
    let files = tree.files.as_slice();
    if !is_tree(files) {
        return Ok(TreeAnswer::TooLarge);
    }
    know_files(files);
    Ok(TreeAnswer::Tree(tree.copy()?))
}

// A script's tree.
fn copied(tree: &TreeAnswer) -> Result<TreeAnswer, NoMemory>
    ensures value { IfOk result (λ answer. answer ≡ tree_or_too_large tree.now) }
    ensures cause { IfOk result (λ answer. answer ≢ TreeFailed) }
    ensures bounds { IfOk result KeepsTree }
    ensures texts { IfOk result FitsTree }
{
    match tree {
        TreeAnswer::Tree(tree) => tree_within(tree),
        _ => Ok(TreeAnswer::TooLarge),
    }
}

/// The tree of that number, unless the call fails.
pub fn tree_at(
    alloc: Global,
    trees: &[TreeAnswer],
    number: u64,
    failing: bool,
) -> Result<TreeAnswer, NoMemory>
    ensures value { IfOk result (λ answer. answer ≡ (if failing then TreeFailed else tree_at trees.now number)) }
    ensures cause { IfOk result (λ answer. answer ≡ TreeFailed → IsTrue failing) }
    ensures bounds { IfOk result KeepsTree }
    ensures texts { IfOk result FitsTree }
{
    if failing {
        return Ok(TreeAnswer::Failed);
    }
    let Some(last) = trees.len().checked_sub(1) else {
        return Ok(TreeAnswer::Tree(Tree {
            files: Seq::new(alloc),
        }));
    };
    copied(&trees[(number as usize).min(last)])
}
