//! A script that is played, and the history of what was.
ghost use Rattle.std.specs.Prelude.{false, ◌≡◌, ◌≢◌, ◌<◌, ◌≤◌, ◌^◌, ◌-◌, Some, [], None, length, count_by, slice_get, option_copied, if◌then◌else◌, All, IsUtf8, IfOk, OnOk, OnErr, IsTrue};
ghost use Rattle.f2b_base.specs.declared.outside.TreeAnswer.TheVariants.{Failed as TreeFailed};
ghost use Rattle.f2b_world.specs.declared.answer.PollAnswer.TheVariants.{Failed as PollFailed};
ghost use Rattle.f2b_world.specs.declared.event.Event.TheVariants.{DiskWrite};
ghost use Rattle.f2b_world.specs.Bounds.{FitsTree};
ghost use Rattle.f2b_world.specs.Trees.{IsInByteOrder, KeepsTree};
ghost use Rattle.f2b_mem.specs.Books.{WhereTold, is_kept};
ghost use Rattle.f2b_mem.specs.Commands.{polled, ran_in};
ghost use Rattle.f2b_mem.specs.Listings.{AreNames};
ghost use Rattle.f2b_mem.specs.Plays.{played, fails, is_clock, is_config, is_pause, first_waiting, accepted_in, giving, given_to, slot_in, Lists, Plays};
ghost use Rattle.f2b_mem.specs.Script.{reading_at, tree_at, content_at};
ghost use Rattle.f2b_mem.specs.Stages.{PlaysOn, is_write};

use crate::book::Book;
use crate::commands::polled;
use crate::content::content_at;
use crate::events::write_event;
use crate::giving::{given_at, giving};
use crate::names::names_at;
use crate::plans::client_at;
use crate::progress::Progress;
use crate::readings::{reading_at, tree_at};
use crate::script::Script;
use crate::slots::Slots;
use crate::waiting::first_waiting;
use f2b_base::{NoMemory, Plain, Reading, Seq, Text, TreeAnswer};
use f2b_world::{Event, PollAnswer, Wrote};
use std::alloc::Global;
use std::marker::Model;

/// A script that is played. What it answers goes by its history as long as that is told.
#[derive(Drop)]
pub struct Stage {
    script: Script,
    book: Book,
    progress: Progress,
    slots: Slots,
}

impl Model for Stage {
    ghost use Rattle.std.specs.Prelude.{◌<◌, ◌^◌, length};
    ghost use Rattle.f2b_mem.specs.Books.{WhereTold};
    ghost use Rattle.f2b_mem.specs.Stages.{Playing, IsPlayed};

    ghost Value = { Playing };

    ghost view = { λ s. record { script = s.script; told = s.book } };

    ghost invariant = { λ s. (length s.script.clients < 2 ^ 32)
        × WhereTold s.book (IsPlayed s.script s.progress s.slots.zero s.slots.one) };
}

impl Stage {
    /// Nothing was played yet.
    pub fn new(alloc: Global, script: Script) -> Result<Stage, NoMemory>
        requires { length script.clients < 2 ^ 32 }
        ensures { IfOk result (λ stage. stage ≡ record { script = script; told = Some [] }) }
    {
        let progress = Progress::new(alloc, script.clients.len())?;
        let slots = Slots {
            zero: script.image.slot0.copy()?,
            one: script.image.slot1.copy()?,
        };
        Ok(Stage {
            script,
            book: Book::new(alloc),
            progress,
            slots,
        })
    }

    /// What is played.
    pub fn script(&self) -> &Script
        ensures { result.now ≡ self.now.script }
    {
        &self.script
    }

    pub fn is_told(&self) -> bool
        ensures { result ≡ is_kept self.now.told }
    {
        self.book.is_whole()
    }

    pub fn events(&self) -> &[Event]
        ensures history { WhereTold self.now.told (λ events. result.now ≡ events) }
        ensures plays { WhereTold self.now.told (Plays self.now.script) }
    {
        self.book.events()
    }

    /// Whether the call that comes fails.
    pub fn is_failing(&self) -> bool
        ensures { WhereTold self.now.told (λ events. result ≡ fails self.now.script events) }
    {
        self.script
            .fails
            .as_slice()
            .contains(&self.progress.counts.calls)
    }

    /// The reading of the clock that comes.
    pub fn reading(&self) -> Reading
        ensures { WhereTold self.now.told (λ events. result ≡ reading_at self.now.script.readings (count_by is_clock events)) }
    {
        reading_at(self.script.readings.as_slice(), self.progress.counts.clocks)
    }

    /// The tree of the configuration that comes, unless the call fails.
    pub fn tree(&self, alloc: Global, failing: bool) -> Result<TreeAnswer, NoMemory>
        ensures value { IfOk result (λ tree. WhereTold self.now.told (λ events. tree ≡ (if failing then TreeFailed else tree_at self.now.script.trees (count_by is_config events)))) }
        ensures cause { IfOk result (λ tree. tree ≡ TreeFailed → IsTrue failing) }
        ensures failing { IfOk result (λ tree. IsTrue failing → tree ≡ TreeFailed) }
        ensures bounds { IfOk result KeepsTree }
        ensures texts { IfOk result FitsTree }
    {
        let trees = self.script.trees.as_slice();
        tree_at(alloc, trees, self.progress.counts.configs, failing)
    }

    /// The content of a file.
    pub fn content(&self, path: &str) -> Option<&[u8]>
        ensures { WhereTold self.now.told (λ events. option_copied result ≡ content_at self.now.script.changes path.now (count_by is_pause events)) }
    {
        content_at(
            self.script.changes.as_slice(),
            path,
            self.progress.counts.pauses,
        )
    }

    /// The names of the files that stand in a directory, in byte order.
    pub fn names(&self, alloc: Global, dir: &str) -> Result<Seq<Text>, NoMemory>
        ensures listed { IfOk result (λ names. WhereTold self.now.told (λ events. AreNames self.now.script.changes dir.now (count_by is_pause events) names)) }
        ensures texts { IfOk result (All IsUtf8) }
        ensures ordered { IfOk result IsInByteOrder }
    {
        let changes = self.script.changes.as_slice();
        names_at(alloc, changes, dir, self.progress.counts.pauses)
    }

    /// The client that is accepted next.
    pub fn waiting(&self) -> Option<u32>
        ensures { WhereTold self.now.told (λ events. result ≡ first_waiting 0 self.now.script.clients (count_by is_pause events) (accepted_in events)) }
    {
        first_waiting(
            self.script.clients.as_slice(),
            self.progress.counts.pauses,
            self.progress.accepted.as_slice(),
        )
    }

    /// What a slot holds.
    pub fn slot(&self, slot: u8) -> &[u8]
        requires { slot < 2 }
        ensures { WhereTold self.now.told (λ events. result.now ≡ (slot_in self.now.script events slot).now) }
    {
        self.slots.get(slot)
    }

    /// What the command of a job answers.
    pub fn polled(&self, job: u64) -> PollAnswer
        ensures value { WhereTold self.now.told (λ events. result ≡ polled self.now.script.children (ran_in events).running job) }
        ensures cause { result ≢ PollFailed }
    {
        let commands = &self.progress.commands;
        polled(
            self.script.children.as_slice(),
            commands.running.as_slice(),
            job,
        )
    }

    /// The bytes that a client gives next.
    pub fn piece(&self, conn: u32, max: u32) -> &[u8]
        ensures value { WhereTold self.now.told (λ events. result.now ≡ giving (slice_get self.now.script.clients conn) (given_to conn events) max) }
        ensures short { length result.now ≤ max }
    {
        let plan = client_at(self.script.clients.as_slice(), conn as usize);
        giving(plan, given_at(self.progress.given.as_slice(), conn), max)
    }

    /// Adds an event that the script plays, or changes nothing.
    pub fn tell(&mut self, event: Event) -> Result<(), NoMemory>
        requires played { WhereTold self.old.told (λ events. event ≡ played self.old.script events event) }
        requires listed { WhereTold self.old.told (λ events. Lists self.old.script events event) }
        requires kind { is_write event ≡ false }
        ensures ok { OnOk result (PlaysOn self.old event self.new) }
        ensures err { OnErr result (self.new ≡ self.old) }
    {
        self.book.reserve()?;
        let noted = self.progress.note(&event);
        self.book.add(event, noted);
        Ok(())
    }

    /// Adds an event that the script plays. Where there is no memory for it the history ends.
    pub fn tell_or_end(&mut self, event: Event)
        requires played { WhereTold self.old.told (λ events. event ≡ played self.old.script events event) }
        requires listed { WhereTold self.old.told (λ events. Lists self.old.script events event) }
        requires kind { is_write event ≡ false }
        ensures { PlaysOn self.old event self.new }
    {
        let noted = self.progress.note(&event);
        self.book.add(event, noted);
    }

    // A call for whose event there was no memory. The history ends.
    fn lose(&mut self)
        ensures { self.new ≡ record { script = self.old.script; told = None } }
    {
        self.progress.skip();
        self.book.end();
    }

    /// Adds an event that the script plays, where there was memory to make it. Where there was none the history ends.
    pub fn tell_made(&mut self, event: Result<Event, NoMemory>)
        requires played { IfOk event (λ e. WhereTold self.old.told (λ events. e ≡ played self.old.script events e)) }
        requires listed { IfOk event (λ e. WhereTold self.old.told (λ events. Lists self.old.script events e)) }
        requires kind { IfOk event (λ e. is_write e ≡ false) }
        ensures ok { IfOk event (λ e. PlaysOn self.old e self.new) }
        ensures err { OnErr event (self.new ≡ record { script = self.old.script; told = None }) }
    {
        match event {
            Ok(event) => self.tell_or_end(event),
            Err(NoMemory) => self.lose(),
        }
    }

    /// Writes to a slot, or changes nothing.
    pub fn write(
        &mut self,
        alloc: Global,
        slot: u8,
        at: usize,
        bytes: &[u8],
        answer: Wrote,
    ) -> Result<(), NoMemory>
        requires slot { slot < 2 }
        requires played { WhereTold self.old.told (λ events. DiskWrite slot at bytes.now answer ≡ played self.old.script events (DiskWrite slot at bytes.now answer)) }
        ensures ok { OnOk result (PlaysOn self.old (DiskWrite slot at bytes.now answer) self.new) }
        ensures err { OnErr result (self.new ≡ self.old) }
    {
        let event = write_event(alloc, slot, at, bytes, answer)?;
        self.book.reserve()?;
        self.slots.write(alloc, slot, at, bytes)?;
        let noted = self.progress.note(&event);
        self.book.add(event, noted);
        Ok(())
    }
}
