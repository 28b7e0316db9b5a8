//! How much of a script was played.
ghost use Rattle.std.specs.Prelude.{◌≡◌, ◌≤◌, true};
ghost use Rattle.f2b_mem.specs.Plays.{is_clock, is_config, is_pause};
ghost use Rattle.f2b_mem.specs.Stages.{Counted};
ghost use Rattle.f2b_mem.specs.Script.{counted};

use f2b_world::Event;

/// How many calls there were, and how many of some kinds.
#[derive(Clone, Copy, Debug, PartialEq, Eq)]
pub struct Counts {
    pub calls: u64,
    pub clocks: u64,
    pub configs: u64,
    pub pauses: u64,
}

/// A count that stays at the greatest number.
pub fn counted(count: u64, more: bool) -> u64
    ensures value { result ≡ counted count more }
    ensures steady { count ≤ result }
{
    if more { count.saturating_add(1) } else { count }
}

fn is_clock(event: &Event) -> bool
    ensures { result ≡ is_clock event.now }
{
    matches!(event, Event::Clock { .. })
}

fn is_config(event: &Event) -> bool
    ensures { result ≡ is_config event.now }
{
    matches!(event, Event::Config { .. })
}

fn is_pause(event: &Event) -> bool
    ensures { result ≡ is_pause event.now }
{
    matches!(event, Event::Pause { .. })
}

impl Counts {
    /// None yet.
    pub const NONE: Counts = Counts {
        calls: 0,
        clocks: 0,
        configs: 0,
        pauses: 0,
    };

    /// One call more, of which nothing else is known.
    pub fn skip(&mut self)
        ensures { self.new ≡ record self.old { calls = counted self.old.calls true } }
    {
        self.calls = counted(self.calls, true);
    }

    /// The call of this event more.
    pub fn note(&mut self, event: &Event)
        ensures { Counted self.old event.now self.new }
    {
        self.calls = counted(self.calls, true);
        self.clocks = counted(self.clocks, is_clock(event));
        self.configs = counted(self.configs, is_config(event));
        self.pauses = counted(self.pauses, is_pause(event));
    }
}
