//! `Journal` and its calls.
ghost use Rattle.std.specs.Prelude.{◌≡◌, ◌+◌, ◌<◌, ◌≤◌, ◌^◌, true, false, IfOk, OnOk, length};
ghost use Rattle.f2b_world.specs.Told.{HasLength};
ghost use Rattle.journal_slots.specs.Starts.{last_generation};
ghost use Rattle.ban_journal.specs.Answers.{IsAnswer, Writes};
ghost use Rattle.ban_journal.specs.Kept.{Appends, RestsAppended, RestsTurned, TurnsOver};
ghost use Rattle.ban_journal.specs.Places.{IsPlaced};
ghost use Rattle.slot_writes.specs.Entries.{append_writes, appended, body, entry, fits, fresh_slot, fresh_start, need, turn_entry, turn_writes, turned};

use crate::append_error::AppendError;
use crate::calls::{put_behind, turn};
use crate::entry::{body_bytes, entry_bytes};
use crate::room::{as_said, has_room, needed};
use f2b_base::{Input, View};
use f2b_world::Disk;
use journal_slots::Head;
use record_codec::{input_len, view_len};
use slot_writes::Position;
use std::alloc::Global;
use std::marker::Model;

/// The greatest generation of a slot.
const LAST_GENERATION: u64 = 1 << 62;

/// A journal in two slots, which is seen as where it stands.
#[derive(Debug, Drop)]
pub struct Journal {
    pub(crate) position: Position,
}

impl Model for Journal {
    ghost use Rattle.std.specs.Prelude.{◌<◌};
    ghost use Rattle.slot_writes.specs.declared.position.Position.{Position as Standpoint};

    ghost Value = { Standpoint };

    ghost view = { λ j. j.position };

    ghost invariant = { λ j. j.position.slot < 2 };
}

impl Journal {
    /// The generation of the current slot, 0 where none is open.
    pub fn generation(&self) -> u64
        ensures { result ≡ self.now.generation }
    {
        self.position.generation
    }

    /// Whether an input fits: inputs may be added to the current slot, and with this one it is no longer than the limit.
    /// Takes no memory.
    #[tactic(auto, using(crate::proofs::RoomLemmas::fits_is))]
    pub fn fits(&self, input: &Input) -> bool
        ensures { result ≡ fits self.now input.now }
    {
        let at = self.position;
        if !at.grows {
            return false;
        }
        has_room(at.gate, input_len(input), at.limit)
    }

    #[tactic(auto, using(crate::proofs::JournalLemmas::append_exits))]
    fn appended<D: Disk>(
        self,
        alloc: Global,
        disk: &mut D,
        input: &Input,
    ) -> Result<Journal, AppendError>
        requires grows { self.grows ≡ true }
        requires room { self.gate + length (entry input.now) + 1 ≤ self.limit }
        requires placed { IsPlaced self (D.stands disk.old).told }
        ensures answer { Writes (appended self input.now) (append_writes self input.now) (D.stands disk.old) (D.stands disk.new) result }
        ensures long { OnOk result (HasLength (D.stands disk.new).told self.slot (self.gate + 1 + length (entry input.now))) }
    {
        let at = self.position;
        let bytes = entry_bytes(alloc, input)?;
        put_behind(disk, at.slot, at.gate, bytes.as_slice())?;
        let gate = at.gate + bytes.len() as u64;
        Ok(Journal {
            position: Position { gate, ..at },
        })
    }

    /// Appends an input: four calls on the disk. Ask `fits` first.
    #[tactic(auto, using(crate::proofs::JournalLemmas::append_laws))]
    pub fn append<D: Disk>(
        self,
        alloc: Global,
        disk: &mut D,
        input: &Input,
    ) -> Result<Journal, AppendError>
        requires room { fits self input.now ≡ true }
        requires placed { IsPlaced self (D.stands disk.old).told }
        ensures answer { Writes (appended self input.now) (append_writes self input.now) (D.stands disk.old) (D.stands disk.new) result }
        ensures means { Appends self input.now (D.stands disk.old).told (D.stands disk.new).told }
        ensures rests { IfOk result (RestsAppended self input.now (D.stands disk.old).told (D.stands disk.new).told) }
        ensures placed { IfOk result (λ after. IsPlaced after (D.stands disk.new).told) }
    {
        self.appended(alloc, disk, input)
    }

    #[tactic(auto, using(crate::proofs::JournalLemmas::turn_exits))]
    fn turned<D: Disk>(
        self,
        alloc: Global,
        disk: &mut D,
        view: &View,
        input: &Input,
    ) -> Result<Journal, AppendError>
        requires room { need view.now input.now ≤ self.limit }
        requires below { self.generation < last_generation }
        requires placed { IsPlaced self (D.stands disk.old).told }
        ensures answer { Writes (turned self view.now input.now) (turn_writes self view.now input.now) (D.stands disk.old) (D.stands disk.new) result }
        ensures long { OnOk result (HasLength (D.stands disk.new).told (fresh_slot self) (length (body (fresh_start self view.now)) + 1 + length (entry input.now))) }
    {
        let at = self.position;
        let whole = body_bytes(alloc, at.generation + 1, view)?;
        let bytes = entry_bytes(alloc, input)?;
        let slot = 1 - at.slot;
        turn(disk, slot, at.other, whole.as_slice(), bytes.as_slice())?;
        let gate = whole.len() as u64 + bytes.len() as u64;
        Ok(Journal {
            position: Position {
                limit: at.limit,
                slot,
                generation: at.generation + 1,
                grows: true,
                gate,
                head: Head::Ajar,
                other: at.head,
            },
        })
    }

    /// Changes slots: the other slot gets the view of what was stored so far, and then the input. Ask `fits` first: it is for an
    /// input that does not fit.
    #[tactic(auto, using(crate::proofs::JournalLemmas::turn_laws))]
    pub fn turn_over<D: Disk>(
        self,
        alloc: Global,
        disk: &mut D,
        view: &View,
        input: &Input,
    ) -> Result<Journal, AppendError>
        requires full { fits self input.now ≡ false }
        requires placed { IsPlaced self (D.stands disk.old).told }
        ensures answer { IsAnswer self.limit (turn_entry self view.now input.now) (D.stands disk.old) (D.stands disk.new) result }
        ensures means { TurnsOver self view.now input.now (D.stands disk.old).told (D.stands disk.new).told }
        ensures rests { IfOk result (RestsTurned self view.now input.now (D.stands disk.old).told (D.stands disk.new).told) }
        ensures placed { IfOk result (λ after. IsPlaced after (D.stands disk.new).told) }
    {
        let limit = self.position.limit;
        let bytes = needed(view_len(view), input_len(input));
        if u128::from(limit) < bytes {
            return Err(AppendError::Full {
                need: as_said(bytes),
                limit,
            });
        }
        if self.position.generation >= LAST_GENERATION {
            return Err(AppendError::Spent);
        }
        self.turned(alloc, disk, view, input)
    }
}
