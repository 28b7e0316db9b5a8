//! Which client of a script is accepted next.
ghost use Rattle.std.specs.Prelude.{◌≡◌, ◌<◌, ◌^◌, length};
ghost use Rattle.f2b_mem.specs.Plays.{first_waiting};

use crate::script::ClientPlan;

/// The first client that has connected after so many pauses and was not accepted.
pub fn first_waiting(plans: &[ClientPlan], pauses: u64, accepted: &[u32]) -> Option<u32>
    requires { length plans.now < 2 ^ 32 }
    ensures { result ≡ first_waiting 0 plans.now pauses accepted.now }
{
    let mut number = 0;
    for plan in plans {
        if plan.pauses <= pauses && !accepted.contains(&number) {
            return Some(number);
        }
        number += 1;
    }
    None
}
