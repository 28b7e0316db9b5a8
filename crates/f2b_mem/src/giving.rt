//! What a client of a script gives next.
ghost use Rattle.std.specs.Prelude.{◌≡◌, ◌≤◌, length, slice_index, option_copied};
ghost use Rattle.f2b_mem.specs.Plays.{giving};

use crate::pieces::piece_of;
use crate::script::ClientPlan;

/// The count at a place, which is 0 where there is none.
pub fn given_at(given: &[u64], place: u32) -> u64
    ensures { result ≡ slice_index given.now place }
{
    match given.get(place as usize) {
        Some(count) => *count,
        None => 0,
    }
}

/// The bytes that a client gives next, which gave so many.
pub fn giving(plan: Option<&ClientPlan>, given: u64, max: u32) -> &[u8]
    ensures value { result.now ≡ giving (option_copied plan.entry) given max }
    ensures short { length result.now ≤ max }
{
    match plan {
        Some(plan) => piece_of(plan.sent.as_slice(), given, max.min(plan.piece.max(1))),
        None => &[],
    }
}
