//! The calls on the disk that change a slot.
ghost use Rattle.std.specs.Prelude.{◌≡◌, ◌+◌, ◌<◌, ◌^◌, [], ◌∷◌, IfErr, OnOk, length};
ghost use Rattle.f2b_world.specs.Told.{HasLength};
ghost use Rattle.ban_journal.specs.Answers.{Stops, Wrote as HasWritten};
ghost use Rattle.ban_journal.specs.Places.{least_bytes};
ghost use Rattle.slot_writes.specs.Entries.{behind_gate, clearing, turn_calls};
ghost use Rattle.slot_writes.specs.Writes.{Put, Sync};

use crate::fault::Fault;
use f2b_world::{Disk, Synced, Wrote};
use journal_slots::Head;

/// Writes bytes from a place on.
#[tactic(auto, using(crate::proofs::CallLemmas::put_exits))]
fn put<D: Disk>(disk: &mut D, slot: u8, at: u64, bytes: &[u8]) -> Result<(), Fault>
    requires slot { slot < 2 }
    requires within { HasLength (D.stands disk.old).told slot at }
    ensures ok { OnOk result (HasWritten (Put slot at bytes.now ∷ []) (D.stands disk.old) (D.stands disk.new)) }
    ensures err { IfErr result (λ fault. Stops (Put slot at bytes.now ∷ []) (D.stands disk.old) (D.stands disk.new) fault) }
    ensures long { OnOk result (HasLength (D.stands disk.new).told slot (at + length bytes.now)) }
{
    match disk.disk_write(slot, at, bytes) {
        Wrote::Done => Ok(()),
        Wrote::Failed => Err(Fault::Disk),
        Wrote::NoMemory => Err(Fault::NoMemory),
    }
}

/// Makes what was written last over a stop.
#[tactic(auto, using(crate::proofs::CallLemmas::sync_exits))]
fn sync<D: Disk>(disk: &mut D, slot: u8) -> Result<(), Fault>
    requires { slot < 2 }
    ensures ok { OnOk result (HasWritten (Sync slot ∷ []) (D.stands disk.old) (D.stands disk.new)) }
    ensures err { IfErr result (λ fault. Stops (Sync slot ∷ []) (D.stands disk.old) (D.stands disk.new) fault) }
{
    match disk.disk_sync(slot) {
        Synced::Done => Ok(()),
        Synced::Failed => Err(Fault::Disk),
    }
}

/// Writes bytes from a place on, and syncs.
#[tactic(auto, using(crate::proofs::CallLemmas::synced_exits))]
fn put_synced<D: Disk>(disk: &mut D, slot: u8, at: u64, bytes: &[u8]) -> Result<(), Fault>
    requires slot { slot < 2 }
    requires within { HasLength (D.stands disk.old).told slot at }
    ensures ok { OnOk result (HasWritten (Put slot at bytes.now ∷ Sync slot ∷ []) (D.stands disk.old) (D.stands disk.new)) }
    ensures err { IfErr result (λ fault. Stops (Put slot at bytes.now ∷ Sync slot ∷ []) (D.stands disk.old) (D.stands disk.new) fault) }
    ensures long { OnOk result (HasLength (D.stands disk.new).told slot (at + length bytes.now)) }
{
    put(disk, slot, at, bytes)?;
    sync(disk, slot)?;
    Ok(())
}

/// Puts bytes behind the closed gate at a place, syncs, and then opens the gate, and syncs.
#[tactic(auto, using(crate::proofs::CallLemmas::behind_exits))]
pub(crate) fn put_behind<D: Disk>(
    disk: &mut D,
    slot: u8,
    gate: u64,
    bytes: &[u8],
) -> Result<(), Fault>
    requires slot { slot < 2 }
    requires small { gate + 1 < 2 ^ 64 }
    requires within { HasLength (D.stands disk.old).told slot (gate + 1) }
    ensures ok { OnOk result (HasWritten (behind_gate slot gate bytes.now) (D.stands disk.old) (D.stands disk.new)) }
    ensures err { IfErr result (λ fault. Stops (behind_gate slot gate bytes.now) (D.stands disk.old) (D.stands disk.new) fault) }
    ensures long { OnOk result (HasLength (D.stands disk.new).told slot (gate + 1 + length bytes.now)) }
{
    put_synced(disk, slot, gate + 1, bytes)?;
    put_synced(disk, slot, gate, &[1])?;
    Ok(())
}

/// Makes the slot one that means nothing: sixteen zeros where it is short, a closed gate where its gate is open.
#[tactic(auto, using(crate::proofs::CallLemmas::clear_exits))]
fn clear<D: Disk>(disk: &mut D, slot: u8, head: Head) -> Result<(), Fault>
    requires slot { slot < 2 }
    requires within { HasLength (D.stands disk.old).told slot (least_bytes head) }
    ensures ok { OnOk result (HasWritten (clearing slot head) (D.stands disk.old) (D.stands disk.new)) }
    ensures err { IfErr result (λ fault. Stops (clearing slot head) (D.stands disk.old) (D.stands disk.new) fault) }
    ensures long { OnOk result (HasLength (D.stands disk.new).told slot 1) }
{
    match head {
        Head::Short => put_synced(disk, slot, 0, &[0; 16]),
        Head::Ajar => put_synced(disk, slot, 0, &[0]),
        Head::Shut => Ok(()),
    }
}

/// Writes a slot anew: clears it, puts what it begins with behind its gate, and an entry behind that.
#[tactic(auto, using(crate::proofs::CallLemmas::turn_exits))]
pub(crate) fn turn<D: Disk>(
    disk: &mut D,
    slot: u8,
    head: Head,
    whole: &[u8],
    entry: &[u8],
) -> Result<(), Fault>
    requires slot { slot < 2 }
    requires small { length whole.now + 1 < 2 ^ 64 }
    requires within { HasLength (D.stands disk.old).told slot (least_bytes head) }
    ensures ok { OnOk result (HasWritten (turn_calls slot head whole.now entry.now) (D.stands disk.old) (D.stands disk.new)) }
    ensures err { IfErr result (λ fault. Stops (turn_calls slot head whole.now entry.now) (D.stands disk.old) (D.stands disk.new) fault) }
    ensures long { OnOk result (HasLength (D.stands disk.new).told slot (length whole.now + 1 + length entry.now)) }
{
    clear(disk, slot, head)?;
    put_behind(disk, slot, 0, whole)?;
    put_behind(disk, slot, whole.len() as u64, entry)?;
    Ok(())
}
