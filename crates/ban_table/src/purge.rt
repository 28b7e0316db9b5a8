//! The dropping of old past entries. Each one that goes is counted off for its address.
//!
//! Entries nearly always stand in the order of their ends, since time does not go back. Then the old ones stand in front, and to drop
//! them costs by what goes. Entries in another order are all passed over.
ghost use Rattle.std.specs.Prelude.{◌≡◌, nat_lt, List, filter};
ghost use Rattle.f2b_base.specs.declared.ban.Ban.{Ban};
ghost use Rattle.f2b_model.specs.Sound.{IsRisingEnds};
ghost use Rattle.ban_table.specs.Counts.{IsCountOf};

use crate::counts::Counts;
use crate::past::PastBans;

/// Drops the entries that ended at a limit or before.
pub fn purge(past: &mut PastBans, counts: &mut Counts, limit: u64)
    ensures items { past.new.items ≡ filter (λ p. nat_lt limit p.end) past.old.items }
    ensures room { past.new.room ≡ past.old.room }
    ensures counts { (bans : List Ban) → IsCountOf counts.old bans past.old.items → IsCountOf counts.new bans past.new.items }
{
    if past.is_in_order() {
        purge_front(past, counts, limit);
    } else {
        sift(past, counts, limit);
    }
}

/// While the first entry is old, it goes.
fn purge_front(past: &mut PastBans, counts: &mut Counts, limit: u64)
    requires { IsRisingEnds past.old.items }
    ensures items { past.new.items ≡ filter (λ p. nat_lt limit p.end) past.old.items }
    ensures room { past.new.room ≡ past.old.room }
    ensures counts { (bans : List Ban) → IsCountOf counts.old bans past.old.items → IsCountOf counts.new bans past.new.items }
{
    while let Some(entry) = past.pop_until(limit) {
        counts.fewer(entry.addr);
    }
}

/// Each entry is taken out in front, and put behind again where it is not old.
fn sift(past: &mut PastBans, counts: &mut Counts, limit: u64)
    ensures items { past.new.items ≡ filter (λ p. nat_lt limit p.end) past.old.items }
    ensures room { past.new.room ≡ past.old.room }
    ensures counts { (bans : List Ban) → IsCountOf counts.old bans past.old.items → IsCountOf counts.new bans past.new.items }
{
    for _ in 0..past.len() {
        let entry = past.pop();
        if limit < entry.end {
            past.push(entry);
        } else {
            counts.fewer(entry.addr);
        }
    }
}
