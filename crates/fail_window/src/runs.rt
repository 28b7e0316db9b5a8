//! Failures of one address in order of time: where one goes in, which are too old, and which stand close together.
ghost use Rattle.std.specs.Prelude.{◌≡◌, ◌+◌, ◌≤◌, ◌<◌, ◌↔◌, ℕ, true, nat_lt, filter, insert, IfOk, OnErr};
ghost use Rattle.std.specs.VecDeque.{deque_len, deque_capacity};
ghost use Rattle.f2b_base.specs.declared.ban.Failure.{Failure};
ghost use Rattle.f2b_model.specs.Full.{is_of, is_recent};
ghost use Rattle.f2b_model.specs.Lists.{placed, AllOf, IsInOrder};
ghost use Rattle.fail_window.specs.Added.{IsAdded};
ghost use Rattle.fail_window.specs.Opened.{IsTidy};
ghost use Rattle.fail_window.specs.Times.{by_time, IsRunAt};

use f2b_base::{Failure, NoMemory};
use std::collections::VecDeque;

/// The place behind all failures that are not later than this one.
fn place_of(kept: &VecDeque<Failure>, failure: &Failure) -> usize
    requires { IsInOrder by_time kept.now.items }
    ensures within { result ≤ deque_len kept.now }
    ensures place { placed by_time failure.now kept.now.items ≡ insert kept.now.items result failure.now }
{
    kept.partition_point(|other| other.time <= failure.time)
}

/// Whether a failure is later than two `findtime` before a moment.
pub fn is_recent(at: u64, findtime: u64, failure: &Failure) -> bool
    ensures { result ≡ is_recent at findtime failure.now }
{
    let time = failure.time;
    // Halved on this side, since twice `findtime` may be no number of 64 bits.
    at < time || (at - time) / 2 < findtime
}

/// Drops the failures that are not recent at a moment, which stand in front.
fn drop_old(kept: &mut VecDeque<Failure>, at: u64, findtime: u64)
    requires { IsInOrder by_time kept.old.items }
    ensures kept { kept.new.items ≡ filter (is_recent at findtime) kept.old.items }
    ensures fewer { deque_len kept.new ≤ deque_len kept.old }
    ensures room { deque_capacity kept.new ≡ deque_capacity kept.old }
{
    let old = kept.partition_point(|failure| !is_recent(at, findtime, failure));
    'drops: for _ in 0..old {
        let _ = kept.pop_front();
    }
}

/// Whether a moment is less than `findtime` seconds after another.
pub fn is_close(first: u64, last: u64, findtime: u64) -> bool
    ensures { result ≡ nat_lt last (first + findtime) }
{
    last < first || last - first < findtime
}

/// Whether the `maxretry` failures from a place on are there, the last less than `findtime` seconds after the first.
fn is_run(kept: &VecDeque<Failure>, index: usize, findtime: u64, maxretry: usize) -> bool
    requires there { index + maxretry ≤ deque_len kept.now }
    requires maxretry { 1 ≤ maxretry }
    ensures { result ≡ true ↔ IsRunAt findtime maxretry kept.now.items index }
{
    let first = kept[index].time;
    let last = kept[index + (maxretry - 1)].time;
    is_close(first, last, findtime)
}

/// Whether some `maxretry` neighbours, of which one stands at a place, are so close.
fn has_run_with(kept: &VecDeque<Failure>, place: usize, findtime: u64, maxretry: usize) -> bool
    requires place { place < deque_len kept.now }
    requires maxretry { 1 ≤ maxretry }
    ensures found { result ≡ true → (k : ℕ) × IsRunAt findtime maxretry kept.now.items k }
    ensures none { (k : ℕ) → k ≤ place → place < k + maxretry → IsRunAt findtime maxretry kept.now.items k → result ≡ true }
{
    if kept.len() < maxretry {
        return false;
    }
    // The runs without this place were looked at when the last of each came.
    let first = (place + 1).saturating_sub(maxretry);
    let end = place.min(kept.len() - maxretry) + 1;
    for index in first..end {
        if is_run(kept, index, findtime, maxretry) {
            return true;
        }
    }
    false
}

/// Adds one more failure of the address at a moment, without those that are not recent then, and tells whether it fills a window.
pub fn add_to(
    kept: &mut VecDeque<Failure>,
    failure: Failure,
    now: u64,
    findtime: u64,
    maxretry: u32,
) -> Result<bool, NoMemory>
    requires tidy { IsTidy findtime maxretry kept.old.items }
    requires not_later { failure.time ≤ now }
    requires recent { now < failure.time + findtime }
    requires forward { AllOf (λ (f : Failure). f.time ≤ now) kept.old.items }
    requires own { AllOf (λ (f : Failure). is_of failure.addr f ≡ true) kept.old.items }
    ensures ok { IfOk result (IsAdded findtime maxretry now kept.old.items kept.new.items failure) }
    ensures err { OnErr result (kept.new.items ≡ kept.old.items) }
{
    kept.reserve(1)?;
    drop_old(kept, now, findtime);
    let place = place_of(kept, &failure);
    kept.insert(place, failure)?;
    Ok(has_run_with(kept, place, findtime, maxretry as usize))
}
