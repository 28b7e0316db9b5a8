//! `LaneBook` and its calls.
ghost use Rattle.std.specs.Prelude.{◌≡◌, ◌≤◌, ◌++◌, false, [], Some, option_copied, OnOk, IfOk};
ghost use Rattle.f2b_base.specs.declared.input.What.TheVariants.{CheckFailed, Ended};
ghost use Rattle.f2b_model.specs.Checks.{check_of, checked_lane, lane_of};
ghost use Rattle.f2b_model.specs.Jobs.{AreById};
ghost use Rattle.f2b_model.specs.Lanes.{all_down, all_up, books_now, check_failed, lane_down, lane_failed, lane_up, lanes_issued, lanes_of, missing_up, others_down, restarted, stopped, try_ended, are_just};
ghost use Rattle.f2b_model.specs.LanesTold.{lanes_told, told_check};
ghost use Rattle.f2b_model.specs.Storable.{most_numbers};
ghost use Rattle.f2b_base.specs.Limits.{last_moment};
ghost use Rattle.lane_moves.specs.CheckText.{check_text_of};
ghost use Rattle.f2b_model.specs.Active.{held_of};

use crate::book::JobBook;
use crate::orders::{order_down, order_restart, order_told, order_up};
use crate::tells::{tell_check, tell_try};
use crate::texts::check_text;
use crate::up::{
    has_others, is_up_by_name, lacks_some, lane_of, missing, others, take_out, with_check,
};
use action_queue::{Lanes, is_success};
use f2b_base::{Defs, Job, LaneId, NoMemory, Outcome, Plain, Seq, Text, UpLane};
use f2b_model::{Happening, JailBans, LaneHappening};
use std::alloc::Global;
use std::marker::Model;

/// The lanes that are up, whether a stop was asked for, and the jobs that are not settled. After an error of a call that changes them
/// some of its jobs may be made and others not: let them go.
#[derive(Drop)]
pub struct LaneBook {
    alloc: Global,
    /// In order of coming up.
    up: Seq<UpLane>,
    stopping: bool,
    book: JobBook,
}

impl Model for LaneBook {
    ghost use Rattle.std.specs.Prelude.{List};
    ghost use Rattle.f2b_base.specs.declared.job.Job.{Job};
    ghost use Rattle.f2b_model.specs.Lanes.{Lanes};

    ghost Value = { Lanes (List Job) };

    ghost view = { λ a. record { up = a.up; stopping = a.stopping; jobs = a.book.jobs; next_job = a.book.next } };
}

impl LaneBook {
    /// No lane is up, and no job was made. Takes no memory.
    pub fn new(alloc: Global) -> LaneBook
        ensures { result ≡ record { up = []; stopping = false; jobs = []; next_job = 0 } }
    {
        LaneBook {
            alloc,
            up: Seq::new(alloc),
            stopping: false,
            book: JobBook::new(alloc),
        }
    }

    /// Lanes that are up, with their jobs by id.
    pub fn of(
        alloc: Global,
        up: &Seq<UpLane>,
        stopping: bool,
        jobs: &Seq<Job>,
        next_job: u64,
    ) -> Result<LaneBook, NoMemory>
        requires ids { AreById 0 jobs.now next_job }
        requires few { next_job ≤ most_numbers }
        ensures { IfOk result (λ actions. actions ≡ record { up = up.now; stopping = stopping; jobs = jobs.now; next_job = next_job }) }
    {
        Ok(LaneBook {
            alloc,
            up: up.copy()?,
            stopping,
            book: JobBook::of(alloc, jobs.as_slice(), next_job)?,
        })
    }

    /// The lanes that are up, in order of coming up.
    pub fn up(&self) -> &[UpLane]
        ensures { result.now ≡ self.now.up }
    {
        self.up.as_slice()
    }

    /// Whether a stop was asked for.
    pub fn is_stopping(&self) -> bool
        ensures { result ≡ self.now.stopping }
    {
        self.stopping
    }

    /// The jobs that are not settled.
    pub fn jobs(&self) -> &Lanes
        ensures { result.now ≡ self.now.jobs }
    {
        self.book.jobs()
    }

    /// The id of the job to come.
    pub fn next_job(&self) -> u64
        ensures id { result ≡ self.now.next_job }
        ensures few { result ≤ most_numbers }
    {
        self.book.next()
    }

    /// Makes the jobs of what a step told: one for each lane that takes a ban which began or ended, in order of coming up.
    pub fn issue(&mut self, told: &[Happening], at: u64) -> Result<(), NoMemory>
        ensures { OnOk result (self.new ≡ lanes_issued books_now at told.now self.old) }
    {
        order_told(&mut self.book, self.up.as_slice(), told, at)
    }

    /// Takes the ending of a try at a moment, in seconds since 1970, and tells of it where it failed. It counts where the job is the
    /// first of its lane.
    pub fn ended(
        &mut self,
        told: &mut Seq<LaneHappening>,
        job: u64,
        outcome: Outcome,
        at: u64,
    ) -> Result<(), NoMemory>
        requires { at ≤ last_moment }
        ensures lanes { OnOk result (self.new ≡ try_ended books_now at job outcome self.old) }
        ensures told { OnOk result (told.new ≡ told.old ++ lanes_told books_now at (Ended job outcome) self.old) }
    {
        if !self.book.is_head(job) {
            return Ok(());
        }
        if is_success(outcome) {
            self.book.settle(job, outcome, at);
            return Ok(());
        }
        match self.book.find(job) {
            Some(first) => {
                let first = first.copy()?;
                let settled = self.book.settle(job, outcome, at);
                tell_try(told, first, outcome, settled)
            }
            None => Ok(()),
        }
    }

    /// The lane whose check is run before a try of the job: the job is a Ban or an Unban and the first of its lane, and the lane is
    /// up, has a check and is not about to stop. Takes no memory.
    pub fn check_of(&self, job: u64) -> Option<&UpLane>
        ensures { option_copied result ≡ check_of self.now.up job self.now.jobs }
    {
        let lane = self.book.checked(job)?;
        if self.book.is_closing(lane) {
            return None;
        }
        with_check(self.up.as_slice(), lane)
    }

    /// The command of the check that is run before a try of the job, with the values of a Start of its lane. There is one exactly where
    /// `check_of` has a lane.
    pub fn check_text(&self, job: u64) -> Result<Option<Text>, NoMemory>
        ensures { IfOk result (λ text. text ≡ check_text_of (check_of self.now.up job self.now.jobs)) }
    {
        match self.check_of(job) {
            Some(lane) => Ok(Some(check_text(self.alloc, lane)?)),
            None => Ok(None),
        }
    }

    /// Takes it that the check of a job failed, with these bans, and tells of it. It counts where the job is a Ban or an Unban and the
    /// first of its lane: the lane's jobs are voided up to its first Stop, and where it has none and is up it starts anew.
    pub fn check_failed(
        &mut self,
        told: &mut Seq<LaneHappening>,
        held: &[JailBans],
        job: u64,
        outcome: Outcome,
        at: u64,
    ) -> Result<(), NoMemory>
        ensures lanes { OnOk result (self.new ≡ check_failed books_now at (held_of held.now) job self.old) }
        ensures told { OnOk result (told.new ≡ told.old ++ lanes_told books_now at (CheckFailed job outcome) self.old) }
    {
        match self.book.checked(job) {
            Some(lane) => {
                // A copy: the job that names the lane is about to go.
                let lane = lane.copy()?;
                self.lane_failed(told, held, job, &lane, outcome, at)
            }
            None => Ok(()),
        }
    }

    /// Takes each lane down, with these bans, and is stopping from then on.
    pub fn stop(&mut self, held: &[JailBans], at: u64) -> Result<(), NoMemory>
        ensures { OnOk result (self.new ≡ stopped books_now at (held_of held.now) self.old) }
    {
        // A copy: each lane that goes down leaves the list.
        let lanes = self.up.copy()?;
        self.all_down(lanes.as_slice(), held, at)?;
        self.stopping = true;
        Ok(())
    }

    /// Takes the lanes down that a configuration does not keep, with these bans, and is not stopping any more.
    pub fn others_down(&mut self, held: &[JailBans], defs: &Defs, at: u64) -> Result<(), NoMemory>
        ensures { OnOk result (self.new ≡ others_down books_now at (held_of held.now) (lanes_of defs.now) (record self.old { stopping = false })) }
    {
        let lanes = others(self.alloc, self.up.as_slice(), defs)?;
        self.stopping = false;
        self.all_down(lanes.as_slice(), held, at)
    }

    /// Brings the lanes of a configuration up that are not up, with these bans.
    pub fn missing_up(&mut self, held: &[JailBans], defs: &Defs, at: u64) -> Result<(), NoMemory>
        ensures { OnOk result (self.new ≡ missing_up books_now at (held_of held.now) (lanes_of defs.now) self.old) }
    {
        let lanes = missing(self.alloc, self.up.as_slice(), defs)?;
        self.all_up(lanes.as_slice(), held, at)
    }

    /// Whether the lanes that are up are just those of a configuration, so that it would take none down and bring none up. Takes no
    /// memory.
    pub fn are_just(&self, defs: &Defs) -> bool
        ensures { result ≡ are_just (lanes_of defs.now) self.now.up }
    {
        !has_others(self.up.as_slice(), defs) && !lacks_some(self.up.as_slice(), defs)
    }

    /// Takes it that the check of a lane failed before a try of its first job.
    fn lane_failed(
        &mut self,
        told: &mut Seq<LaneHappening>,
        held: &[JailBans],
        job: u64,
        lane: &LaneId,
        outcome: Outcome,
        at: u64,
    ) -> Result<(), NoMemory>
        requires { checked_lane job self.old.jobs ≡ Some lane.now }
        ensures lanes { OnOk result (self.new ≡ lane_failed books_now at (held_of held.now) lane.now self.old) }
        ensures told { OnOk result (told.new ≡ told.old ++ told_check outcome self.old.up self.old.jobs (Some lane.now)) }
    {
        let closing = self.book.is_closing(lane);
        let restarts = !closing && is_up_by_name(self.up.as_slice(), lane);
        tell_check(told, lane, outcome, restarts)?;
        self.book.void(job);
        if closing {
            return Ok(());
        }
        self.restart(held, lane, at)?;
        Ok(())
    }

    /// Starts a lane anew where it is up, with these bans: it stops, starts, and takes them again.
    fn restart(&mut self, held: &[JailBans], lane: &LaneId, at: u64) -> Result<(), NoMemory>
        ensures { OnOk result (self.new ≡ restarted books_now at (held_of held.now) (lane_of lane.now self.old.up) self.old) }
    {
        match lane_of(self.up.as_slice(), lane) {
            Some(lane) => order_restart(&mut self.book, lane, held, at),
            None => Ok(()),
        }
    }

    /// Takes a lane down, with these bans: they are taken back, it stops, and is not up any more.
    fn lane_down(&mut self, lane: &UpLane, held: &[JailBans], at: u64) -> Result<(), NoMemory>
        ensures { OnOk result (self.new ≡ lane_down books_now at (held_of held.now) lane.now self.old) }
    {
        order_down(&mut self.book, lane, held, at)?;
        take_out(&mut self.up, lane);
        Ok(())
    }

    /// Brings a lane up, with these bans: it starts, takes them, and is up from then on.
    fn lane_up(&mut self, lane: &UpLane, held: &[JailBans], at: u64) -> Result<(), NoMemory>
        ensures { OnOk result (self.new ≡ lane_up books_now at (held_of held.now) lane.now self.old) }
    {
        order_up(&mut self.book, lane, held, at)?;
        self.up.push(lane.copy()?)?;
        Ok(())
    }

    /// Takes these lanes down, one after the other.
    fn all_down(&mut self, lanes: &[UpLane], held: &[JailBans], at: u64) -> Result<(), NoMemory>
        ensures { OnOk result (self.new ≡ all_down books_now at (held_of held.now) lanes.now self.old) }
    {
        for lane in lanes {
            self.lane_down(lane, held, at)?;
        }
        Ok(())
    }

    /// Brings these lanes up, one after the other.
    fn all_up(&mut self, lanes: &[UpLane], held: &[JailBans], at: u64) -> Result<(), NoMemory>
        ensures { OnOk result (self.new ≡ all_up books_now at (held_of held.now) lanes.now self.old) }
    {
        for lane in lanes {
            self.lane_up(lane, held, at)?;
        }
        Ok(())
    }
}
