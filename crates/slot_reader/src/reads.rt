//! The calls on the disk that read a slot.
ghost use Rattle.std.specs.Prelude.{◌≡◌, ◌+◌, ◌<◌, IfOk, length};
ghost use Rattle.f2b_world.specs.Told.{HasLength};
ghost use Rattle.slot_reader.specs.Reads.{IsAllOf, IsPieceAt, OnlyReads, is_fault};

use crate::fault::Fault;
use f2b_base::Bytes;
use f2b_world::{Disk, Len, Piece};

/// How long a slot is.
#[tactic(auto, using(crate::proofs::ReadLemmas::reads))]
pub(crate) fn len_of<D: Disk>(disk: &mut D, slot: u8) -> Result<u64, Fault>
    requires { slot < 2 }
    ensures len { IfOk result (λ long. IsAllOf slot long (D.stands disk.new).told) }
    ensures reads { OnlyReads (is_fault result) (D.stands disk.old) (D.stands disk.new) }
{
    match disk.disk_len(slot) {
        Len::Bytes(long) => Ok(long),
        Len::Failed => Err(Fault::Disk),
    }
}

/// So many bytes of a slot, from a place on.
#[tactic(auto, using(crate::proofs::ReadLemmas::reads))]
pub(crate) fn piece_at<D: Disk>(disk: &mut D, slot: u8, at: u64, len: u64) -> Result<Bytes, Fault>
    requires slot { slot < 2 }
    requires within { HasLength (D.stands disk.old).told slot (at + len) }
    ensures piece { IfOk result (λ piece. IsPieceAt slot at len piece (D.stands disk.new).told) }
    ensures len { IfOk result (λ piece. length piece ≡ len) }
    ensures reads { OnlyReads (is_fault result) (D.stands disk.old) (D.stands disk.new) }
{
    match disk.disk_read(slot, at, len) {
        Piece::Bytes(piece) => Ok(piece),
        Piece::Failed => Err(Fault::Disk),
        Piece::NoMemory => Err(Fault::NoMemory),
    }
}
