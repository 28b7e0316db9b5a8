//! The place of a child among others.
ghost use Rattle.std.specs.Prelude.{◌≡◌, ◌==◌, ◌≤◌, length, nat_lt, position};
ghost use Rattle.std.specs.List.{list_any};
ghost use Rattle.child_table.specs.Places.{place_for};
ghost use Rattle.child_table.specs.declared.child.Child.{Child};

use crate::child::Child;

/// The first place with a greater number.
fn first_above(children: &[Child], job: u64) -> Option<usize>
    ensures { result ≡ position (λ (other : Child). nat_lt job other.job) children.now }
{
    children.iter().position(|other| job < other.job)
}

/// The place behind all that have no greater number.
#[tactic(auto, using(crate::proofs::PlaceLemmas::place_none, crate::proofs::PlaceLemmas::place_within))]
pub(crate) fn place_for(children: &[Child], job: u64) -> usize
    ensures place { result ≡ place_for job children.now }
    ensures within { result ≤ length children.now }
{
    match first_above(children, job) {
        Some(place) => place,
        None => children.len(),
    }
}

/// Whether one runs for the job.
pub(crate) fn runs(children: &[Child], job: u64) -> bool
    ensures { result ≡ list_any (λ (other : Child). other.job == job) children.now }
{
    children.iter().any(|other| other.job == job)
}
