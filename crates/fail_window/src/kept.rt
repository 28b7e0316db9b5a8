//! The failures that a window keeps: one of them in the window itself, or any number in a block of their own.
ghost use Rattle.std.specs.Prelude.{◌≡◌, ◌≤◌, ◌<◌, ◌+◌, ◌-◌, [], ◌∷◌, true, Some, length, slice_get, OnErr, IfNone, IfOk, IfSome};
ghost use Rattle.std.specs.List.{list_any};
ghost use Rattle.f2b_base.specs.declared.ban.Failure.{Failure};
ghost use Rattle.f2b_model.specs.Full.{is_of, is_recent};
ghost use Rattle.f2b_model.specs.Lists.{AllOf, IsInOrder};
ghost use Rattle.fail_window.specs.Kept.{failures_of};
ghost use Rattle.fail_window.specs.Added.{IsAdded};
ghost use Rattle.fail_window.specs.Opened.{IsTidy};
ghost use Rattle.fail_window.specs.Times.{by_time, is_within_findtime};

use crate::runs::{add_to, is_close, is_recent};
use f2b_base::{Failure, NoMemory, Plain};
use std::alloc::Global;
use std::collections::VecDeque;

/// Failures in order of time, then of arrival.
#[derive(Drop)]
pub enum Kept {
    /// One that is kept without a block: most addresses fail once.
    Alone(Failure),
    /// Any number of them, in a block where there are some.
    Listed(VecDeque<Failure>),
}

/// A list of one failure.
fn alone(alloc: Global, failure: Failure) -> Result<Vec<Failure>, NoMemory>
    ensures { IfOk result (λ failures. failures.items ≡ failure ∷ []) }
{
    let mut failures = Vec::new(alloc);
    failures.push(failure)?;
    Ok(failures)
}

/// Copies of a list's failures.
fn copied(list: &VecDeque<Failure>, alloc: Global) -> Result<Vec<Failure>, NoMemory>
    ensures { IfOk result (λ copies. copies.items ≡ list.now.items) }
{
    let mut copies = Vec::new(alloc);
    for failure in list.iter() {
        copies.push(failure.copy()?)?;
    }
    Ok(copies)
}

impl Kept {
    /// None.
    pub fn new(alloc: Global) -> Kept
        ensures { failures_of result ≡ [] }
    {
        Kept::Listed(VecDeque::new(alloc))
    }

    /// How many there are.
    pub fn len(&self) -> usize
        ensures { result ≡ length (failures_of self.now) }
    {
        match self {
            Kept::Alone(_) => 1,
            Kept::Listed(list) => list.len(),
        }
    }

    /// The last of them.
    fn last(&self) -> Option<&Failure>
        ensures none { IfNone result (failures_of self.now ≡ []) }
        ensures last { IfSome result (λ last. slice_get (failures_of self.now) (length (failures_of self.now) - 1) ≡ Some last.now) }
    {
        match self {
            Kept::Alone(failure) => Some(failure),
            Kept::Listed(list) => list.back(),
        }
    }

    /// Whether some failure is later than `findtime` before a moment. Looks at the last one alone.
    pub fn failed_lately(&self, now: u64, findtime: u64) -> bool
        requires { IsInOrder by_time (failures_of self.now) }
        ensures { result ≡ list_any (is_within_findtime now findtime) (failures_of self.now) }
    {
        match self.last() {
            Some(last) => is_close(last.time, now, findtime),
            None => false,
        }
    }

    /// Whether some failure is later than two `findtime` before a moment.
    fn has_recent(&self, at: u64, findtime: u64) -> bool
        requires { IsInOrder by_time (failures_of self.now) }
        ensures { result ≡ list_any (is_recent at findtime) (failures_of self.now) }
    {
        match self.last() {
            Some(last) => is_recent(at, findtime, last),
            None => false,
        }
    }

    /// Adds one more failure of the address at a moment, without those that are not recent then, and tells whether it fills a window.
    pub fn add(
        &mut self,
        alloc: Global,
        failure: Failure,
        now: u64,
        findtime: u64,
        maxretry: u32,
    ) -> Result<bool, NoMemory>
        requires tidy { IsTidy findtime maxretry (failures_of self.old) }
        requires not_later { failure.time ≤ now }
        requires recent { now < failure.time + findtime }
        requires forward { AllOf (λ (f : Failure). f.time ≤ now) (failures_of self.old) }
        requires own { AllOf (λ (f : Failure). is_of failure.addr f ≡ true) (failures_of self.old) }
        ensures ok { IfOk result (IsAdded findtime maxretry now (failures_of self.old) (failures_of self.new) failure) }
        ensures err { OnErr result (failures_of self.new ≡ failures_of self.old) }
    {
        if !self.has_recent(now, findtime) {
            *self = Kept::Alone(failure);
            return Ok(maxretry == 1);
        }
        match self {
            Kept::Alone(first) => {
                let mut list = VecDeque::with_capacity(alloc, 2)?;
                list.push_back(first.copy()?)?;
                let full = add_to(&mut list, failure, now, findtime, maxretry)?;
                *self = Kept::Listed(list);
                Ok(full)
            }
            Kept::Listed(list) => add_to(list, failure, now, findtime, maxretry),
        }
    }

    /// The failures as a list. Takes memory for one that is kept without a block, and for no others.
    pub fn into_vec(self, alloc: Global) -> Result<Vec<Failure>, NoMemory>
        ensures ok { IfOk result (λ failures. failures.items ≡ failures_of self) }
        ensures err { OnErr result (length (failures_of self) ≡ 1) }
    {
        match self {
            Kept::Alone(failure) => alone(alloc, failure),
            Kept::Listed(list) => Ok(list.into_vec()),
        }
    }

    /// Copies of the failures.
    pub fn to_vec(&self, alloc: Global) -> Result<Vec<Failure>, NoMemory>
        ensures { IfOk result (λ copies. copies.items ≡ failures_of self.now) }
    {
        match self {
            Kept::Alone(failure) => alone(alloc, failure.copy()?),
            Kept::Listed(list) => copied(list, alloc),
        }
    }
}
