//! The table of the bans that are stored.
ghost use Rattle.std.specs.Prelude.{◌≡◌, nat_le, filter, IfOk};
ghost use Rattle.f2b_base.specs.declared.ban.Past.{Past};
ghost use Rattle.f2b_model.specs.Sound.{IsOnceEach, IsRisingSerials};
ghost use Rattle.f2b_model.specs.StorableViews.{is_over};

use ban_table::{BanLists, BanTable};
use f2b_base::{Ban, NoMemory, Past, Plain, Seq, Until};
use std::alloc::Global;

/// The last moment at which a past ban may have ended: it is not to come, and no active ban ends before it.
fn last_end(active: &[Ban], at: u64) -> u64
    ensures { (past : Past) → is_over at active.now past ≡ nat_le past.end result }
{
    let mut last = at;
    for ban in active {
        if let Until::At(end) = ban.until {
            last = last.min(end);
        }
    }
    last
}

/// Leaves the past bans out that ended after a moment.
fn keep_until(past: &mut Seq<Past>, last: u64)
    ensures { past.new ≡ filter (λ p. nat_le p.end last) past.old }
{
    past.retain(|entry| entry.end <= last);
}

/// A table of these bans, and of the past ones that are over at a moment: a past ban that is to end, or that ended after an active
/// one will, is left out.
pub fn table_of(
    alloc: Global,
    active: &Seq<Ban>,
    past: &Seq<Past>,
    at: u64,
) -> Result<BanTable, NoMemory>
    requires rising { IsRisingSerials active.now }
    requires once { IsOnceEach active.now }
    ensures table { IfOk result (λ table. table ≡ record { active = active.now; past = filter (is_over at active.now) past.now }) }
{
    let active = active.copy()?;
    let mut past = past.copy()?;
    let last = last_end(active.as_slice(), at);
    keep_until(&mut past, last);
    BanTable::of(alloc, &BanLists { active, past })
}
