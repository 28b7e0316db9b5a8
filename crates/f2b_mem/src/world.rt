//! The world in memory.
ghost use Rattle.std.specs.Prelude.{◌≡◌, ◌<◌, ◌^◌, Some, [], length, IfOk};
ghost use Rattle.f2b_mem.specs.Books.{WhereTold, is_kept};
ghost use Rattle.f2b_mem.specs.Plays.{Plays};

use crate::answers::{is_too_big, made, said};
use crate::counts::counted;
use crate::events::{make_event, say_event};
use crate::script::{Image, Script};
use crate::stage::Stage;
use f2b_base::{NoMemory, Reading};
use f2b_world::{Event, Faults, Made, Outside, Patterns, Said, Sink, Time, World};
use std::alloc::Global;

/// A world that plays a script.
#[derive(Drop)]
pub struct MemWorld {
    pub(crate) alloc: Global,
    pub(crate) stage: Stage,
    pub(crate) faults: Faults,
}

impl MemWorld {
    ghost use Rattle.f2b_world.specs.Faults.{Fault};
    ghost use Rattle.f2b_mem.specs.Worlds.{script_of, events_of, faults_of};

    /// A world in which nothing has happened yet. It is told, and its slots hold what the script says.
    pub fn new(alloc: Global, script: Script) -> Result<MemWorld, NoMemory>
        requires { length script.clients < 2 ^ 32 }
        ensures script { IfOk result (λ world. script_of world ≡ script) }
        ensures told { IfOk result (λ world. events_of world ≡ Some []) }
        ensures faults { IfOk result (λ world. (kind : Fault) → faults_of world kind ≡ 0) }
    {
        Ok(MemWorld {
            alloc,
            stage: Stage::new(alloc, script)?,
            faults: Faults::NONE,
        })
    }

    /// The same on an image, in place of the script's.
    pub fn reopened(alloc: Global, image: Image, script: Script) -> Result<MemWorld, NoMemory>
        requires { length script.clients < 2 ^ 32 }
        ensures script { IfOk result (λ world. script_of world ≡ record script { image = image }) }
        ensures told { IfOk result (λ world. events_of world ≡ Some []) }
        ensures faults { IfOk result (λ world. (kind : Fault) → faults_of world kind ≡ 0) }
    {
        let mut script = script;
        script.image = image;
        MemWorld::new(alloc, script)
    }

    /// The script that it plays.
    pub fn script(&self) -> &Script
        ensures { result.now ≡ script_of self.now }
    {
        self.stage.script()
    }

    /// Whether the history is whole. Where memory ran out it is not, and never will be again.
    pub fn is_told(&self) -> bool
        ensures { result ≡ is_kept (events_of self.now) }
    {
        self.stage.is_told()
    }

    /// The history, where it is whole. Each event in it has the answer that the script gives after the events before it. One answer
    /// the script leaves open: whether a pattern is built that is not to fail.
    pub fn events(&self) -> &[Event]
        ensures history { WhereTold (events_of self.now) (λ events. result.now ≡ events) }
        ensures plays { WhereTold (events_of self.now) (Plays (script_of self.now)) }
    {
        self.stage.events()
    }
}

impl Outside for MemWorld {
    ghost use Rattle.std.specs.Prelude.{None};
    ghost use Rattle.f2b_mem.specs.Worlds.{history_of_world, counts};

    ghost stands = { λ m. record { told = history_of_world m; talk = None; shelf = None; faults = counts m.faults } };
}

impl Sink for MemWorld {
    fn say(&mut self, bytes: &[u8]) -> Said {
        let failing = self.stage.is_failing();
        let answer = said(failing);
        self.faults.sink = counted(self.faults.sink, failing);
        self.stage.tell_made(say_event(self.alloc, bytes, answer));
        answer
    }
}

impl Patterns for MemWorld {
    fn make(&mut self, text: &str) -> Made {
        let failing = self.stage.is_failing();
        let made = made(self.alloc, text, failing);
        let Ok(event) = make_event(self.alloc, text, &made) else {
            return Made::NoMemory;
        };
        let Ok(()) = self.stage.tell(event) else {
            return Made::NoMemory;
        };
        self.faults.patterns = counted(self.faults.patterns, is_too_big(&made));
        made
    }
}

impl Time for MemWorld {
    fn clock(&mut self) -> Reading {
        let answer = self.stage.reading();
        self.stage.tell_or_end(Event::Clock { answer });
        answer
    }

    fn pause(&mut self, ms: u32) {
        self.stage.tell_or_end(Event::Pause { ms });
    }
}

impl World for MemWorld {}
