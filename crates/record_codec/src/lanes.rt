//! Lanes of jobs.
ghost use Rattle.std.specs.Prelude.{◌≡◌, ◌++◌, OnOk};
ghost use Rattle.std.specs.List.{list_any};
ghost use Rattle.f2b_base.specs.declared.job.UpLane.{UpLane as Lane};
ghost use Rattle.record_fields.specs.Codec.{Gives, capped};
ghost use Rattle.record_fields.specs.Lists.{is_new};
ghost use Rattle.record_codec.specs.Lanes.{lane_id, up_lane, same_up};

use crate::actions::{action_len, put_action, put_family, take_action, take_family};
use crate::names::{name_len, put_name, take_name};
use f2b_base::{Bytes, LaneId, NoMemory, UpLane};
use record_fields::{Fault, Items, Spell, byte_len, joined_len, put_text, take_text, text_len};
use std::alloc::Global;

/// Adds which lane it is.
#[tactic(auto, unfolding(crate::specs::Lanes::lane_id))]
pub(crate) fn put_lane(lane: &LaneId, out: &mut Bytes) -> Result<(), NoMemory>
    ensures { OnOk result (out.new ≡ out.old ++ lane_id.spell lane.now) }
{
    put_name(&lane.jail, out)?;
    put_text(&lane.action, out)?;
    put_family(lane.family, out)
}

/// How long that is.
#[tactic(auto, unfolding(crate::specs::Lanes::lane_id))]
pub(crate) fn lane_len(lane: &LaneId) -> u64
    ensures { result ≡ capped (lane_id.spell lane.now) }
{
    joined_len(
        name_len(&lane.jail),
        joined_len(text_len(&lane.action), byte_len()),
    )
}

/// Which lane it is, at the front of the bytes.
#[tactic(auto, unfolding(crate::specs::Lanes::lane_id))]
pub(crate) fn take_lane(alloc: Global, bytes: &[u8]) -> Result<(LaneId, &[u8]), Fault>
    ensures { Gives (λ x. (x.0, x.1.now)) result (lane_id.read bytes.now) }
{
    let (jail, rest) = take_name(alloc, bytes)?;
    let (action, rest) = take_text(alloc, rest)?;
    let (family, rest) = take_family(rest)?;
    Ok((
        LaneId {
            jail,
            action,
            family,
        },
        rest,
    ))
}

/// Lanes that are up, each of which stands once.
#[derive(Clone, Copy, Drop)]
pub(crate) struct UpLanes;

impl Spell<UpLane> for UpLanes {
    ghost spelling = { up_lane.spell };

    #[tactic(auto, unfolding(crate::specs::Lanes::up_lane))]
    fn put(item: &UpLane, out: &mut Bytes) -> Result<(), NoMemory> {
        put_name(&item.jail, out)?;
        put_action(&item.action, out)
    }

    #[tactic(auto, unfolding(crate::specs::Lanes::up_lane))]
    fn len(item: &UpLane) -> u64 {
        joined_len(name_len(&item.jail), action_len(&item.action))
    }
}

fn same_up(one: &UpLane, other: &UpLane) -> bool
    ensures { result ≡ same_up one.now other.now }
{
    other.jail == one.jail
        && (other.action.name == one.action.name && other.action.family.same(one.action.family))
}

fn has_lane(before: &[UpLane], item: &UpLane) -> bool
    ensures { result ≡ list_any (λ (u : Lane). same_up u item.now) before.now }
{
    before.iter().any(|lane| same_up(lane, item))
}

impl Items<UpLane> for UpLanes {
    ghost reading = { λ _. up_lane.read };

    ghost allowed = { λ _. is_new same_up };

    #[tactic(auto, unfolding(crate::specs::Lanes::up_lane))]
    fn take<'a>(&self, alloc: Global, bytes: &'a [u8]) -> Result<(UpLane, &'a [u8]), Fault> {
        let (jail, rest) = take_name(alloc, bytes)?;
        let (action, rest) = take_action(alloc, rest)?;
        Ok((UpLane { jail, action }, rest))
    }

    fn allows(&self, before: &[UpLane], item: &UpLane) -> bool {
        !has_lane(before, item)
    }
}
