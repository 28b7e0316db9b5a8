//! `Window` and its calls.
ghost use Rattle.std.specs.Prelude.{◌≡◌, ◌<◌, ◌≤◌, ◌+◌, ◌-◌, ◌*◌, [], length, true, OnOk, OnErr, IfOk};
ghost use Rattle.std.specs.List.{list_any};
ghost use Rattle.f2b_base.specs.declared.ban.Failure.{Failure};
ghost use Rattle.f2b_model.specs.Full.{is_of};
ghost use Rattle.f2b_model.specs.Lists.{AllOf};
ghost use Rattle.fail_window.specs.Opened.{GoesOn, IsOpen, KeepsLimits, TellsFull};
ghost use Rattle.fail_window.specs.Times.{is_within_findtime};

use crate::kept::Kept;
use f2b_base::{Failure, NoMemory, Plain, Seq};
use std::alloc::Global;
use std::marker::Model;

/// The failures of one address that can still fill it, with the limits of its jail.
#[derive(Drop)]
pub struct Window {
    findtime: u64,
    maxretry: u32,
    kept: Kept,
    alloc: Global,
}

impl Model for Window {
    ghost use Rattle.fail_window.specs.Kept.{failures_of};
    ghost use Rattle.fail_window.specs.Opened.{IsTidy, Opened};

    ghost Value = { Opened };

    ghost view = { λ w. record { findtime = w.findtime; maxretry = w.maxretry; failures = failures_of w.kept } };

    ghost invariant = { λ w. IsTidy w.findtime w.maxretry (failures_of w.kept) };
}

impl Window {
    /// A window with no failures. Takes no memory.
    pub fn new(alloc: Global, findtime: u64, maxretry: u32) -> Window
        requires findtime { 1 ≤ findtime }
        requires maxretry { 1 ≤ maxretry }
        ensures { result ≡ record { findtime = findtime; maxretry = maxretry; failures = [] } }
    {
        Window {
            findtime,
            maxretry,
            kept: Kept::new(alloc),
            alloc,
        }
    }

    /// Takes one more failure of the address, at a moment in seconds since 1970, and tells whether it is now full. What is too old
    /// to fill it from this moment on goes.
    pub fn add(&mut self, failure: Failure, now: u64) -> Result<bool, NoMemory>
        requires not_later { failure.time ≤ now }
        requires recent { now < failure.time + self.old.findtime }
        requires forward { AllOf (λ (f : Failure). f.time ≤ now) self.old.failures }
        requires own { AllOf (λ (f : Failure). is_of failure.addr f ≡ true) self.old.failures }

        ensures limits { OnOk result (KeepsLimits self.old self.new) }
        ensures stands { OnOk result (GoesOn now self.old self.new failure) }
        ensures full { IfOk result (TellsFull now self.old failure) }
        ensures err { OnErr result (self.new ≡ self.old) }
    {
        self.kept
            .add(self.alloc, failure, now, self.findtime, self.maxretry)
    }

    /// How many failures are kept.
    pub fn len(&self) -> u64
        ensures count { result ≡ length self.now.failures }
        ensures short { IsOpen self.now → result ≤ 2 * self.now.maxretry - 2 }
    {
        self.kept.len() as u64
    }

    /// Whether some failure is later than `findtime` seconds before a moment, in seconds since 1970. Takes no memory, and looks at the
    /// last failure alone.
    pub fn failed_lately(&self, now: u64) -> bool
        ensures { result ≡ list_any (is_within_findtime now self.now.findtime) self.now.failures }
    {
        self.kept.failed_lately(now, self.findtime)
    }

    /// The failures, in order of time, then of arrival. Takes memory for one that stands alone, and for no others.
    pub fn into_failures(self) -> Result<Seq<Failure>, NoMemory>
        ensures ok { IfOk result (λ failures. failures ≡ self.failures) }
        ensures err { OnErr result (length self.failures ≡ 1) }
    {
        Ok(Seq::from(self.kept.into_vec(self.alloc)?))
    }

    /// A copy of the failures, in order of time, then of arrival.
    pub fn failures(&self) -> Result<Seq<Failure>, NoMemory>
        ensures { IfOk result (λ failures. failures ≡ self.now.failures) }
    {
        Ok(Seq::from(self.kept.to_vec(self.alloc)?))
    }
}
