//! Where a journal stands by what both slots are.
ghost use Rattle.std.specs.Prelude.{◌≡◌, ◌<◌, false, IfOk, List, ℕ};
ghost use Rattle.journal_slots.specs.declared.head.Head.TheVariants.{Ajar};
ghost use Rattle.slot_reader.specs.Readings.{IsChecked};
ghost use Rattle.slot_reader.specs.declared.checked.Checked.TheVariants.{Empty as EmptySlot, Open as OpenedSlot};
ghost use Rattle.slot_reader.specs.Versions.{spelling};
ghost use Rattle.ban_journal.specs.Loads.{IsFound, is_fault};
ghost use Rattle.ban_journal.specs.Positions.{is_written_now};

use crate::load_error::LoadError;
use journal_slots::Head;
use slot_reader::{Checked, OpenSlot, Version};
use slot_writes::Position;

/// Whether it is the version that is written.
fn is_written(version: Version) -> bool
    ensures { result ≡ is_written_now (spelling version) }
{
    match version {
        Version::One => false,
        Version::Two => true,
    }
}

/// Where the journal stands whose newest slot this is, beside another one that begins so.
fn newest(limit: u64, slot: u8, opened: OpenSlot, other: Head) -> Position
    ensures { result ≡ record { limit = limit; slot = slot; generation = opened.generation; grows = is_written_now (spelling opened.version); gate = opened.gate; head = Ajar; other = other } }
{
    Position {
        limit,
        slot,
        generation: opened.generation,
        grows: is_written(opened.version),
        gate: opened.gate,
        head: Head::Ajar,
        other,
    }
}

/// Where the journal stands beside an empty slot 0.
#[tactic(auto, using(crate::proofs::FoundLemmas::beside_empty))]
fn beside_empty(limit: u64, head: Head, second: Checked) -> Result<Position, LoadError>
    ensures found { (now : ℕ → List ℕ) → IsChecked (now 0) (EmptySlot head) → IsChecked (now 1) second → IsFound limit now result }
    ensures slot { IfOk result (λ p. p.slot < 2) }
    ensures no_fault { is_fault result ≡ false }
{
    match second {
        Checked::Bad { at, .. } => Err(LoadError::NotAJournal { slot: 1, at }),
        Checked::Empty(other) => Ok(Position {
            limit,
            slot: 1,
            generation: 0,
            grows: false,
            gate: 0,
            head: other,
            other: head,
        }),
        Checked::Open(second) => Ok(newest(limit, 1, second, head)),
    }
}

/// Where the journal stands whose slot 0 is open.
#[tactic(auto, using(crate::proofs::FoundLemmas::beside_open))]
fn beside_open(limit: u64, first: OpenSlot, second: Checked) -> Result<Position, LoadError>
    ensures found { (now : ℕ → List ℕ) → IsChecked (now 0) (OpenedSlot first) → IsChecked (now 1) second → IsFound limit now result }
    ensures slot { IfOk result (λ p. p.slot < 2) }
    ensures no_fault { is_fault result ≡ false }
{
    match second {
        Checked::Bad { generation, at } => {
            if first.generation == generation {
                return Err(LoadError::NotAJournal { slot: 1, at: 1 });
            }
            Err(LoadError::NotAJournal { slot: 1, at })
        }
        Checked::Empty(head) => Ok(newest(limit, 0, first, head)),
        Checked::Open(second) => {
            if first.generation == second.generation {
                return Err(LoadError::NotAJournal { slot: 1, at: 1 });
            }
            if second.generation < first.generation {
                return Ok(newest(limit, 0, first, Head::Ajar));
            }
            Ok(newest(limit, 1, second, Head::Ajar))
        }
    }
}

/// Where a journal stands by what both slots are, or which of them is no journal.
#[tactic(auto, using(crate::proofs::FoundLemmas::first_bad))]
pub(crate) fn position_of(
    limit: u64,
    first: Checked,
    second: Checked,
) -> Result<Position, LoadError>
    ensures found { (now : ℕ → List ℕ) → IsChecked (now 0) first → IsChecked (now 1) second → IsFound limit now result }
    ensures slot { IfOk result (λ p. p.slot < 2) }
    ensures no_fault { is_fault result ≡ false }
{
    match first {
        Checked::Bad { at, .. } => Err(LoadError::NotAJournal { slot: 0, at }),
        Checked::Empty(head) => beside_empty(limit, head, second),
        Checked::Open(first) => beside_open(limit, first, second),
    }
}
