//! `LogSet` and its methods.
ghost use Rattle.std.specs.Prelude.{◌≡◌, ◌<◌, ◌≤◌, ◌^◌, length, IfOk, IfSome, OnErr, OnOk};

use crate::change::{Change, change_named};
use crate::followers::go_on;
use crate::jail_search::JailSearch;
use crate::log::Log;
use crate::searches::{first_awake, searches};
use crate::taken::{Taken, is_rotated, read};
use f2b_base::{Cidr, FileLook, JailDef, NoMemory, Place, Plain, Seq, Text};
use filter_regex::Filter;
use ignore_set::IgnoreSet;
use log_follow::{Ask, Follower};
use std::alloc::Global;
use std::marker::Model;

/// The logs of all jails.
#[derive(Drop)]
pub struct LogSet<'f> {
    jails: Vec<JailSearch<'f>>,
    logs: Vec<Log>,
}

impl<'f> Model for LogSet<'f> {
    ghost use Rattle.log_set.specs.Logs.{Logs};

    ghost Value = { Logs };

    ghost view = { λ set. record { jails = set.jails.items; logs = set.logs.items } };
}

impl<'f> LogSet<'f> {
    ghost use Rattle.std.specs.Prelude.{[], map};
    ghost use Rattle.f2b_model.specs.Storable.{IsJailName, IsStorableWhat};
    ghost use Rattle.filter_regex.specs.Rules.{rules_of};
    ghost use Rattle.log_follow.specs.Watches.{IsPlace};
    ghost use Rattle.log_set.specs.Logs.{AddsLog, AnswersAt, AsksAt, BelongsTo, ChangesJail, ComesNext, GoesOn, IsAskAt, IsLogRead, IsSetOf, LiesAt, MovesAt, TakesAt, awake, counting, ignoring, resting};

    /// A set of the jails with these definitions, whose filters are borrowed. None is idle, and there are no logs yet.
    pub fn new(
        alloc: Global,
        filters: &'f [Filter],
        definitions: &[JailDef],
    ) -> Result<LogSet<'f>, NoMemory>
        requires { filters.now ≡ map rules_of definitions.now }
        ensures { IfOk result (λ set. IsSetOf set (map awake definitions.now) []) }
    {
        let jails = searches(alloc, filters, definitions)?;
        Ok(LogSet {
            jails,
            logs: Vec::new(alloc),
        })
    }

    /// Follows one log more of the jail with that name, from a place on. An error changes nothing.
    ///
    /// A caller knows the name of a jail of its configuration, or of what was stored.
    pub fn add(
        &mut self,
        alloc: Global,
        jail: &Text,
        path: &Text,
        place: &Place,
    ) -> Result<(), NoMemory>
        requires named { IsJailName jail.now }
        requires place { IsPlace place.now }
        ensures ok { OnOk result (AddsLog self.old self.new jail.now path.now place.now) }
        ensures err { OnErr result (self.new ≡ self.old) }
    {
        let follower = Follower::new(alloc, place)?;
        let jail = jail.copy()?;
        let path = path.copy()?;
        self.logs.push(Log {
            jail,
            path,
            follower,
        })?;
        Ok(())
    }

    /// How many jails there are.
    pub fn jails(&self) -> usize
        ensures { result ≡ length self.now.jails }
    {
        self.jails.len()
    }

    /// How many logs there are.
    pub fn len(&self) -> usize
        ensures { result ≡ length self.now.logs }
    {
        self.logs.len()
    }

    /// The place of the next log to look at, from a place on: its jail is there and not idle.
    pub fn next(&self, from: usize) -> Option<usize>
        requires { from ≤ length self.now.logs }
        ensures next { ComesNext self.now from result }
        ensures onward { IfSome result (λ place. from ≤ place) }
        ensures within { IfSome result (λ place. place < length self.now.logs) }
        ensures numbered { IfSome result (λ place. place < usize.MAX) }
    {
        let place = first_awake(self.jails.as_slice(), &self.logs.as_slice()[from..])?;
        Some(from + place)
    }

    /// The name of the jail of the log at a place.
    pub fn jail(&self, place: usize) -> &str
        requires { place < length self.now.logs }
        ensures { BelongsTo self.now place result.now }
    {
        self.logs[place].jail.as_str()
    }

    /// Where the log at a place lies.
    pub fn path(&self, place: usize) -> &str
        requires { place < length self.now.logs }
        ensures { LiesAt self.now place result.now }
    {
        self.logs[place].path.as_str()
    }

    /// What to look for in the log at a place. Takes no memory.
    pub fn ask(&self, place: usize) -> Ask
        requires { place < length self.now.logs }
        ensures ask { AsksAt self.now place result }
        ensures follower { IsAskAt self.now place result }
    {
        self.logs[place].follower.ask()
    }

    /// Takes what a look at the log at a place brought that was made as `ask` says, at `now` in seconds since 1970. The input that
    /// it makes can be stored. Where memory runs out the lines of the look may be lost.
    pub fn take(
        &mut self,
        alloc: Global,
        place: usize,
        look: &FileLook,
        now: u64,
    ) -> Result<Taken, NoMemory>
        requires place { place < length self.old.logs }
        requires look { AnswersAt self.old place look.now }
        requires now { now < 2 ^ 40 }
        ensures taken { IfOk result (TakesAt self.old place now look.now) }
        ensures input { IfOk result (λ taken. IfSome taken.read IsLogRead) }
        ensures storable { IfOk result (λ taken. IfSome taken.read IsStorableWhat) }
        ensures moves { OnOk result (MovesAt self.old self.new place look.now) }
        ensures len { length self.new.logs ≡ length self.old.logs }
    {
        let looked = self.logs[place].take(alloc, look)?;
        let rotated = is_rotated(&looked.step);
        let read = read(alloc, &mut self.jails, &self.logs[place], looked, now)?;
        Ok(Taken { read, rotated })
    }

    /// From now on never bans these addresses in the jail with that name, and all others. An error changes nothing.
    pub fn set_ignore(
        &mut self,
        alloc: Global,
        jail: &Text,
        list: &Seq<Cidr>,
    ) -> Result<(), NoMemory>
        ensures ok { OnOk result (ChangesJail self.old self.new jail.now (ignoring list.now)) }
        ensures err { OnErr result (self.new ≡ self.old) }
    {
        let ignore = IgnoreSet::new(alloc, list)?;
        change_named(&mut self.jails, jail, Change::Ignore(ignore));
        Ok(())
    }

    /// From now on counts failures in the jail with that name for so many seconds.
    pub fn set_findtime(&mut self, jail: &Text, secs: u64)
        ensures { ChangesJail self.old self.new jail.now (counting secs) }
    {
        change_named(&mut self.jails, jail, Change::Findtime(secs));
    }

    /// From now on looks at no log of the jail with that name, or at each again.
    pub fn set_idle(&mut self, jail: &Text, idle: bool)
        ensures { ChangesJail self.old self.new jail.now (resting idle) }
    {
        change_named(&mut self.jails, jail, Change::Idle(idle));
    }

    /// Lets logs go on as they were followed before, in another set: each by its jail's name and its path. An old log whose like is not
    /// in the set is followed no more.
    pub fn go_on(&mut self, old: Vec<Log>)
        ensures { GoesOn old.items self.old self.new }
    {
        go_on(&mut self.logs, old);
    }

    /// The logs alone, which outlive the filters.
    pub fn into_logs(self) -> Vec<Log>
        ensures { result.items ≡ self.entry.logs }
    {
        let LogSet { jails: _, logs } = self;
        logs
    }
}
