//! Counts of faults.
ghost use Rattle.std.specs.Prelude.{◌≡◌, ◌+◌, ◌≤◌};
ghost use Rattle.f2b_world.specs.Faults.{Rose};

/// How often each kind of fault of the outside came. Each count stays at the greatest number once it is there.
#[derive(Clone, Copy, Debug, PartialEq, Eq)]
pub struct Faults {
    pub sink: u64,
    pub disk: u64,
    /// How often a pattern was refused for its size.
    pub patterns: u64,
    pub configuration: u64,
    pub logs: u64,
    pub children: u64,
    pub gate: u64,
}

impl Faults {
    /// None yet.
    pub const NONE: Faults = Faults {
        sink: 0,
        disk: 0,
        patterns: 0,
        configuration: 0,
        logs: 0,
        children: 0,
        gate: 0,
    };
}

/// The count after one fault more.
pub fn raised(count: u64) -> u64
    ensures rose { Rose count result }
    ensures steady { count ≤ result }
    ensures once { result ≤ count + 1 }
{
    count.saturating_add(1)
}
