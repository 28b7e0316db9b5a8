//! How many lines each pattern of a list decided.
ghost use Rattle.std.specs.Prelude.{◌≡◌, replicate, IfOk, OnOk};
ghost use Rattle.regex_tool.specs.Counts.{raised_by};

use crate::counts::plus_if;
use f2b_base::NoMemory;
use std::alloc::Global;
use std::marker::Model;

/// A count for each pattern of a list, which contracts see as a list.
#[derive(Drop)]
pub(crate) struct Decided {
    counts: Vec<u64>,
}

impl Model for Decided {
    ghost use Rattle.std.specs.Prelude.{ℕ, List};

    ghost Value = { List ℕ };

    ghost view = { λ d. d.counts.items };
}

impl Decided {
    /// No lines yet, by so many patterns.
    pub(crate) fn new(alloc: Global, patterns: usize) -> Result<Decided, NoMemory>
        ensures { IfOk result (λ decided. decided ≡ replicate patterns 0) }
    {
        Ok(Decided {
            counts: vec![in alloc; 0u64; patterns]?,
        })
    }

    /// How many lines each of them decided.
    pub(crate) fn counts(&self) -> &[u64]
        ensures { result.now ≡ self.now }
    {
        self.counts.as_slice()
    }

    /// Counts a line that the pattern with this number decided, if there is one. Numbers count from 1.
    pub(crate) fn raise_by(&mut self, number: Option<u32>) -> Result<(), NoMemory>
        ensures { OnOk result (self.new ≡ raised_by number self.old) }
    {
        let Some(number) = number else {
            return Ok(());
        };
        if number == 0 {
            return Ok(());
        }
        let place = number as usize - 1;
        if place < self.counts.len() {
            self.counts[place] = plus_if(true, self.counts[place])?;
        }
        Ok(())
    }
}
