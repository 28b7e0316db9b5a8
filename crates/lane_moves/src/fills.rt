//! What the tags of a command stand for.
ghost use Rattle.std.specs.Prelude.{◌≡◌, ◌≤ℤ◌, pos, None, Some, ℕ, List, IfOk, IsOk};
ghost use Rattle.f2b_base.specs.declared.addr.Family.{Family};
ghost use Rattle.f2b_model.specs.Orders.{family_of, fill_of, lasting, shown_family};

use f2b_base::{Addr, Ban, Family, NoMemory, Text, Until};
use f2b_model::Fill;
use std::alloc::Global;

/// The family of an address.
fn family_of(addr: Addr) -> Family
    ensures { result ≡ family_of addr }
{
    match addr {
        Addr::V4(_) => Family::Inet4,
        Addr::V6(_) => Family::Inet6,
    }
}

/// The family of a lane as its Start and Stop show it.
fn shown_family(family: Family) -> Family
    ensures { result ≡ shown_family family }
{
    match family {
        Family::Both | Family::Inet4 => Family::Inet4,
        Family::Inet6 => Family::Inet6,
    }
}

/// How many seconds a ban lasts, -1 where it never ends. Moments are below 2^40, so each such span fits; one that does not is
/// refused as if there were no memory.
fn lasting(begin: u64, until: Until) -> Result<i64, NoMemory>
    ensures value { IfOk result (λ seconds. seconds ≡ lasting begin until) }
    ensures fits { lasting begin until ≤ℤ pos 9223372036854775807 → IsOk result }
{
    match until {
        Until::Never => Ok(-1),
        Until::At(end) => i64::try_from(end.saturating_sub(begin)).map_err(|_| NoMemory),
    }
}

/// The values of a ban's job that shows these lines, whatever the lane and the name of the jail.
pub(crate) fn ban_fill(alloc: Global, ban: Ban, lines: &str) -> Result<Fill, NoMemory>
    ensures { IfOk result (λ fill. (family : Family) (jail : List ℕ)
        → fill ≡ record (fill_of family (Some (record { jail = jail; ban = ban }))) { matches = lines.now }) }
{
    Ok(Fill {
        ip: Some(ban.addr),
        family: family_of(ban.addr),
        failures: ban.failures,
        time: ban.begin,
        bantime: lasting(ban.begin, ban.until)?,
        bancount: ban.count,
        matches: Text::from_str(alloc, lines)?,
    })
}

/// The values of a Start or a Stop of a lane of a family.
pub(crate) fn lane_fill(alloc: Global, family: Family) -> Fill
    ensures { result ≡ fill_of family None }
{
    Fill {
        ip: None,
        family: shown_family(family),
        failures: 0,
        time: 0,
        bantime: 0,
        bancount: 0,
        matches: Text::new(alloc),
    }
}
