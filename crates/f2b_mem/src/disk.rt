//! The slots of a world in memory.
ghost use Rattle.std.specs.Prelude.{◌≡◌};

use crate::answers::{len_answer, piece_answer, synced, wrote};
use crate::counts::counted;
use crate::events::read_event;
use crate::world::MemWorld;
use f2b_world::{Disk, Event, Len, Piece, Synced, Wrote};

impl Disk for MemWorld {
    fn disk_len(&mut self, slot: u8) -> Len {
        let failing = self.stage.is_failing();
        let answer = len_answer(failing, self.stage.slot(slot).len() as u64);
        self.faults.disk = counted(self.faults.disk, failing);
        self.stage.tell_or_end(Event::DiskLen { slot, answer });
        answer
    }

    fn disk_read(&mut self, slot: u8, at: u64, len: u64) -> Piece {
        let failing = self.stage.is_failing();
        let Ok(answer) = piece_answer(self.alloc, failing, self.stage.slot(slot), at, len) else {
            return Piece::NoMemory;
        };
        let Ok(event) = read_event(slot, at, len, &answer) else {
            return Piece::NoMemory;
        };
        let Ok(()) = self.stage.tell(event) else {
            return Piece::NoMemory;
        };
        self.faults.disk = counted(self.faults.disk, failing);
        answer
    }

    fn disk_write(&mut self, slot: u8, at: u64, bytes: &[u8]) -> Wrote {
        let failing = self.stage.is_failing();
        let answer = wrote(failing);
        let Ok(()) = self
            .stage
            .write(self.alloc, slot, at as usize, bytes, answer)
        else {
            return Wrote::NoMemory;
        };
        self.faults.disk = counted(self.faults.disk, failing);
        answer
    }

    fn disk_sync(&mut self, slot: u8) -> Synced {
        let failing = self.stage.is_failing();
        let answer = synced(failing);
        self.faults.disk = counted(self.faults.disk, failing);
        self.stage.tell_or_end(Event::DiskSync { slot, answer });
        answer
    }
}
