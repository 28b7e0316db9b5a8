//! A history that stops for good where memory ran out.
ghost use Rattle.std.specs.Prelude.{None, ◌≡◌, ◌<◌, ◌^◌, [], Some, IfSome, IsTrue, length};
ghost use Rattle.f2b_mem.specs.Books.{Grows, is_kept};

use f2b_base::NoMemory;
use f2b_world::Event;
use std::alloc::Global;
use std::marker::Model;

/// The events so far, or nothing once one of them was lost.
#[derive(Drop)]
pub struct Book {
    whole: bool,
    events: Vec<Event>,
}

impl Model for Book {
    ghost use Rattle.std.specs.Prelude.{Option, List, Some, None, if◌then◌else◌};
    ghost use Rattle.f2b_world.specs.declared.event.Event.{Event};

    ghost Value = { Option (List Event) };

    ghost view = { λ b. if b.whole then Some b.events.items else None };
}

impl Book {
    pub fn new(alloc: Global) -> Self
        ensures { result ≡ Some [] }
    {
        Book {
            whole: true,
            events: Vec::new(alloc),
        }
    }

    /// Whether it has all events.
    pub fn is_whole(&self) -> bool
        ensures { result ≡ is_kept self.now }
    {
        self.whole
    }

    pub fn events(&self) -> &[Event]
        ensures { IfSome self.now (λ events. result.now ≡ events) }
    {
        self.events.as_slice()
    }

    /// Makes room for an event, or changes nothing.
    pub fn reserve(&mut self) -> Result<(), NoMemory>
        ensures { self.new ≡ self.old }
    {
        if self.whole {
            self.events.try_reserve(1)?;
        }
        Ok(())
    }

    /// Ends the history.
    pub fn end(&mut self)
        ensures { self.new ≡ None }
    {
        self.whole = false;
    }

    /// Adds an event. The history ends where there is no memory for it, or where it was not noted.
    pub fn add(&mut self, event: Event, noted: bool)
        ensures grows { IfSome self.new (λ _. Grows self.old event self.new) }
        ensures noted { IfSome self.new (λ _. IsTrue noted) }
        ensures short { IfSome self.new (λ events. length events < 2 ^ 64) }
    {
        let added = self.events.push(event).is_ok();
        let _count = self.events.len();
        self.whole = self.whole && noted && added;
    }
}
