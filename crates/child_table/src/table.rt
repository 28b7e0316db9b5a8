//! `ChildTable` and its methods. The children stand in one list by the numbers of their jobs, and beside it the numbers of the jobs whose
//! check has passed.
ghost use Rattle.std.specs.Prelude.{◌≡◌, ◌<◌, ◌≤◌, ◌↔◌, false, length, remove, slice_get, Some, IsTrue, IfOk, OnOk, OnErr};
ghost use Rattle.child_table.specs.Children.{ByJob, ended, has_passed, jobs_of, most_children, nobody, not_started, passed_by, runs, started};

use crate::child::{Child, MOST_CHILDREN};
use crate::numbers::{has, jobs_of, use_by};
use crate::place::{place_for, runs};
use f2b_base::{NoMemory, Seq};
use std::alloc::Global;
use std::marker::Model;

/// The commands that run, and the checks that have passed.
#[derive(Drop)]
pub struct ChildTable {
    alloc: Global,
    running: Seq<Child>,
    passed: Seq<u64>,
}

impl Model for ChildTable {
    ghost use Rattle.child_table.specs.Children.{Children, AreChildren};

    ghost Value = { Children };

    ghost view = { λ t. record { running = t.running; passed = t.passed } };

    ghost invariant = { λ t. AreChildren t.running };
}

impl ChildTable {
    /// Nothing runs, and no check has passed. Takes no memory.
    pub fn new(alloc: Global) -> ChildTable
        ensures { result ≡ nobody }
    {
        ChildTable {
            alloc,
            running: Seq::new(alloc),
            passed: Seq::new(alloc),
        }
    }

    /// How many run.
    pub fn count(&self) -> usize
        ensures count { result ≡ length self.now.running }

        // What always holds: there are few, and none runs for a job that has one already.
        ensures few { result ≤ most_children }
        ensures by_job { ByJob 0 self.now.running }
    {
        self.running.len()
    }

    /// Whether as many run as may. Ask it before `start`.
    pub fn is_full(&self) -> bool
        ensures full { IsTrue result ↔ (length self.now.running ≡ most_children) }
        ensures room { result ≡ false → length self.now.running < most_children }
    {
        self.running.len() == MOST_CHILDREN
    }

    /// The child at a place. They stand by the numbers of their jobs.
    pub fn at(&self, place: usize) -> Child
        requires { place < length self.now.running }
        ensures { slice_get self.now.running place ≡ Some result }
    {
        self.running.as_slice()[place]
    }

    /// Whether the job's command or its check runs. Ask it before `start`.
    #[tactic(auto, using(crate::proofs::PlaceLemmas::has_job))]
    pub fn runs(&self, job: u64) -> bool
        ensures { result ≡ runs job self.now }
    {
        runs(self.running.as_slice(), job)
    }

    /// The numbers of the jobs for which something runs, rising.
    pub fn jobs(&self) -> Result<Seq<u64>, NoMemory>
        ensures { IfOk result (λ jobs. jobs ≡ jobs_of self.now.running) }
    {
        jobs_of(self.alloc, self.running.as_slice())
    }

    /// Adds a child that was started, where there is room and nothing runs for its job. The command of a job uses up the check that passed before it. An error changes nothing.
    #[tactic(auto, using(crate::proofs::OrderLemmas::children_more, crate::proofs::PlaceLemmas::placed_there))]
    pub fn start(&mut self, child: Child) -> Result<(), NoMemory>
        requires room { length self.old.running < most_children }
        requires apart { runs child.job self.old ≡ false }
        ensures ok { OnOk result (self.new ≡ started child self.old) }
        ensures err { OnErr result (self.new ≡ self.old) }
    {
        let place = place_for(self.running.as_slice(), child.job);
        self.running.insert(place, child)?;
        use_by(&mut self.passed, child);
        Ok(())
    }

    /// Takes out the child at a place, which has ended: the next one stands there then.
    #[tactic(auto, using(crate::proofs::OrderLemmas::children_less))]
    pub fn end(&mut self, place: usize)
        requires { place < length self.old.running }
        ensures { self.new ≡ ended place self.old }
    {
        let _ = self.running.remove(place);
    }

    /// Whether a check of the job has passed, and the job's command was not started since.
    pub fn has_passed(&self, job: u64) -> bool
        ensures { result ≡ has_passed job self.now }
    {
        has(self.passed.as_slice(), job)
    }

    /// Notes that the check of a job has passed. An error changes nothing.
    pub fn pass(&mut self, job: u64) -> Result<(), NoMemory>
        ensures ok { OnOk result (self.new ≡ passed_by job self.old) }
        ensures err { OnErr result (self.new ≡ self.old) }
    {
        self.passed.push(job)
    }

    /// Notes that a child could not be started. The command of a job uses up the check that passed before it then too: it was a try.
    pub fn fail_start(&mut self, child: Child)
        ensures { self.new ≡ not_started child self.old }
    {
        use_by(&mut self.passed, child);
    }
}
