//! When two actions or lanes are one, and whether a lane takes an address.
ghost use Rattle.std.specs.Prelude.{◌≡◌};
ghost use Rattle.f2b_model.specs.Families.{in_family, same_action, same_up};
ghost use Rattle.f2b_model.specs.Orders.{is_lane, lane_id};

use f2b_base::{ActionDef, Addr, Family, LaneId, Text, UpLane};

/// Whether an address is of a family: each is of Both.
pub(crate) fn in_family(family: Family, addr: Addr) -> bool
    ensures { result ≡ in_family family addr }
{
    match (family, addr) {
        (Family::Both, _) => true,
        (Family::Inet4, Addr::V4(_)) | (Family::Inet6, Addr::V6(_)) => true,
        (Family::Inet4, Addr::V6(_)) | (Family::Inet6, Addr::V4(_)) => false,
    }
}

/// Whether two actions are one, in name, family, texts and timeout.
fn same_action(a: &ActionDef, b: &ActionDef) -> bool
    ensures { result ≡ same_action a.now b.now }
{
    a.name == b.name
        && (a.family.same(b.family)
            && (a.start == b.start
                && (a.stop == b.stop
                    && (a.ban == b.ban
                        && (a.unban == b.unban
                            && (a.check == b.check && a.timeout == b.timeout))))))
}

/// Whether a lane that is up is that of a jail and an action, with the same texts.
pub(crate) fn same_up(lane: &UpLane, jail: &Text, action: &ActionDef) -> bool
    ensures { result ≡ same_up lane.now (record { jail = jail.now; action = action.now }) }
{
    lane.jail == *jail && same_action(&lane.action, action)
}

/// Whether a lane that is up has the jail, the name and the family of an action, whatever its texts.
pub(crate) fn is_lane(lane: &UpLane, jail: &Text, action: &ActionDef) -> bool
    ensures { result ≡ is_lane (lane_id (record { jail = jail.now; action = action.now })) lane.now }
{
    lane.jail == *jail
        && (lane.action.name == action.name && lane.action.family.same(action.family))
}

/// Whether a lane that is up has that name.
pub(crate) fn has_name(lane: &UpLane, id: &LaneId) -> bool
    ensures { result ≡ is_lane id.now lane.now }
{
    lane.jail == id.jail && (lane.action.name == id.action && lane.action.family.same(id.family))
}
