//! Frames: bytes behind their number, in four bytes.
ghost use Rattle.std.specs.Prelude.{◌≡◌, ◌+◌, ◌≤◌, ◌<◌, ◌^◌, ◌++◌, length, OnOk};
ghost use Rattle.client_frames.specs.Comes.{IsWithin, missing, said_length};
ghost use Rattle.client_frames.specs.Frames.{four_bytes};

use f2b_base::{Bytes, NoMemory};

/// The most bytes of a request behind its length.
pub(crate) const MOST_REQUEST: u32 = 65_536;

/// The most bytes of a reply behind its length: 67,108,864 of text, and one before it.
pub(crate) const MOST_REPLY: u32 = 67_108_865;

/// The length that a frame says, once its four bytes have come.
#[tactic(auto, unfolding(crate::specs::Comes::said_length))]
pub(crate) fn said_length(came: &[u8]) -> Option<u32>
    ensures { result ≡ said_length came.now }
{
    match came {
        [first, second, third, fourth, ..] => {
            Some(u32::from_be_bytes([*first, *second, *third, *fourth]))
        }
        _ => None,
    }
}

/// How many bytes are missing of a frame's length, and once that has come, of the frame.
pub(crate) fn missing(came: &[u8]) -> u32
    requires { IsWithin came.now }
    ensures { result ≡ missing came.now }
{
    match said_length(came) {
        None => 4 - came.len() as u32,
        Some(count) => (4 + count as usize - came.len()) as u32,
    }
}

/// Adds a length.
#[tactic(auto, unfolding(crate::specs::Frames::four_bytes))]
pub(crate) fn push_length(frame: &mut Bytes, count: u32) -> Result<(), NoMemory>
    ensures { OnOk result (frame.new ≡ frame.old ++ four_bytes count) }
{
    frame.push_slice(&count.to_be_bytes())
}
