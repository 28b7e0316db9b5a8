//! What a stop leaves of the slots of a world in memory.
ghost use Rattle.std.specs.Prelude.{◌≡◌, ◌==◌, ◌&&◌, ◌-◌, ◌≤◌, if◌then◌else◌, IsSome, length, take, IfOk, OnOk};
ghost use Rattle.f2b_world.specs.Slots.{Slot, Permits, settled, slot_after, slot_step};
ghost use Rattle.f2b_mem.specs.Books.{WhereTold};
ghost use Rattle.f2b_mem.specs.Torn.{is_inside, torn_from, torn_slot, IsKept, IsTorn, IsPermitted};

use crate::script::Image;
use crate::slots::write_bytes;
use crate::world::MemWorld;
use f2b_base::{Bytes, NoMemory, Seq};
use f2b_world::{Event, Synced};
use std::alloc::Global;

/// A slot: what a read gives, and the ranges that were written since the last sync, the last one first.
#[derive(Drop)]
pub struct Kept {
    pub now: Bytes,
    pub ranges: Seq<(u64, u64)>,
}

// The slot after an event.
fn step(alloc: Global, kept: &mut Kept, slot: u8, event: &Event) -> Result<(), NoMemory>
    ensures { OnOk result ((s : Slot) → IsKept s kept.old → IsKept (slot_step slot s event.now) kept.new) }
{
    match event {
        Event::DiskWrite {
            slot: other,
            at,
            bytes,
            ..
        } if *other == slot => {
            kept.ranges.insert(0, (*at, bytes.len() as u64))?;
            write_bytes(alloc, &mut kept.now, *at as usize, bytes.as_slice())
        }
        Event::DiskSync {
            slot: other,
            answer: Synced::Done,
        } if *other == slot => {
            kept.ranges = Seq::new(alloc);
            Ok(())
        }
        _ => Ok(()),
    }
}

// The slot after these events.
fn slot_after(alloc: Global, first: &[u8], slot: u8, events: &[Event]) -> Result<Kept, NoMemory>
    ensures { IfOk result (IsKept (slot_after slot (settled first.now) events.now)) }
{
    let mut kept = Kept {
        now: Bytes::from_slice(alloc, first)?,
        ranges: Seq::new(alloc),
    };
    for event in events {
        step(alloc, &mut kept, slot, event)?;
    }
    Ok(kept)
}

// Whether an offset is in one of the ranges.
fn is_inside(place: u64, ranges: &[(u64, u64)]) -> bool
    ensures { result ≡ is_inside place ranges.now }
{
    ranges
        .iter()
        .any(|range| range.0 <= place && place - range.0 < range.1)
}

fn torn_byte(inside: bool, byte: u8, left: u32, fill: u8) -> u8
    ensures { result ≡ (if inside && (left == 0) then fill else byte) }
{
    if inside && left == 0 { fill } else { byte }
}

fn left_after(inside: bool, left: u32) -> u32
    ensures { result ≡ (if inside then left - 1 else left) }
{
    if inside { left.saturating_sub(1) } else { left }
}

// A slot of whose unsynced bytes the first `keep` are kept and the others are `fill`.
fn torn_bytes(
    alloc: Global,
    bytes: &[u8],
    ranges: &[(u64, u64)],
    keep: u32,
    fill: u8,
) -> Result<Bytes, NoMemory>
    ensures { IfOk result (λ torn. torn ≡ torn_from 0 bytes.now ranges.now keep fill) }
{
    let mut torn = Bytes::new(alloc);
    let mut left = keep;
    for index in 0..bytes.len() {
        let inside = is_inside(index as u64, ranges);
        torn.push(torn_byte(inside, bytes[index], left, fill))?;
        left = left_after(inside, left);
    }
    Ok(torn)
}

// What a stop after these events leaves of a slot.
fn torn_after(
    alloc: Global,
    first: &[u8],
    slot: u8,
    events: &[Event],
    keep: u32,
    fill: u8,
) -> Result<Bytes, NoMemory>
    ensures bytes { IfOk result (λ torn. torn ≡ torn_slot (slot_after slot (settled first.now) events.now) keep fill) }
    ensures permitted { IfOk result (Permits (slot_after slot (settled first.now) events.now)) }
{
    let kept = slot_after(alloc, first, slot, events)?;
    let now = kept.now.as_slice();
    let ranges = kept.ranges.as_slice();
    let torn = torn_bytes(alloc, now, ranges, keep, fill)?;
    Ok(torn)
}

impl MemWorld {
    ghost use Rattle.f2b_mem.specs.Worlds.{script_of, events_of};

    /// What a stop after the first `at` events may leave, where of each slot's unsynced bytes the first `keep` were kept and the
    /// others are `fill`.
    pub fn torn(&self, at: u64, keep: u32, fill: u8) -> Result<Image, NoMemory>
        requires told { IsSome (events_of self.now) }
        requires within { WhereTold (events_of self.now) (λ events. at ≤ length events) }
        ensures bytes { IfOk result (λ image. WhereTold (events_of self.now) (λ events. IsTorn (script_of self.now) (take at events) keep fill image)) }
        ensures permitted { IfOk result (λ image. WhereTold (events_of self.now) (λ events. IsPermitted (script_of self.now) (take at events) image)) }
    {
        let events = self.events();
        let first = &events[..(at as usize).min(events.len())];
        let image = &self.script().image;
        let slot0 = torn_after(self.alloc, image.slot0.as_slice(), 0, first, keep, fill)?;
        let slot1 = torn_after(self.alloc, image.slot1.as_slice(), 1, first, keep, fill)?;
        Ok(Image { slot0, slot1 })
    }
}
