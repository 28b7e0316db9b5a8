//! Which calls fail.
ghost use Rattle.std.specs.Prelude.{◌≡◌, true};
ghost use Rattle.f2b_mem.specs.Calls.{fails_next, none_made};
ghost use Rattle.f2b_mem.specs.Script.{counted};

use crate::counts::counted;
use f2b_base::Seq;

/// Which calls fail, and how many were made.
#[derive(Drop)]
pub struct Calls {
    /// The places of the calls that fail, from 0.
    pub fails: Seq<u64>,
    /// How many were made. It stays at the greatest number.
    pub made: u64,
}

impl Calls {
    /// The calls at these places fail, and none was made yet.
    pub fn new(fails: Seq<u64>) -> Calls
        ensures { result ≡ none_made fails }
    {
        Calls { fails, made: 0 }
    }

    /// Counts a call, and answers whether it fails.
    pub fn count(&mut self) -> bool
        ensures failing { result ≡ fails_next self.old }
        ensures made { self.new.made ≡ counted self.old.made true }
        ensures fails { self.new.fails ≡ self.old.fails }
    {
        let failing = self.fails.as_slice().contains(&self.made);
        self.made = counted(self.made, true);
        failing
    }
}
