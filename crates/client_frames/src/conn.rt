//! `Conn`, which is fed what comes of one client.
ghost use Rattle.std.specs.Prelude.{◌≡◌, ◌≤◌, [], ◌++◌, Err, false, length, IfSome};
ghost use Rattle.client_frames.specs.Comes.{Hearing, Is, hearing_after, heard, missing, told, wanted};
ghost use Rattle.client_frames.specs.Frames.{most_request};

use crate::error::FrameError;
use crate::frame::missing;
use crate::request::heard;
use f2b_base::{Bytes, Seq, Text};
use std::alloc::Global;
use std::marker::Model;

/// A client's connection, as far as requests have come over it.
#[derive(Drop)]
pub struct Conn {
    alloc: Global,
    /// What came of the request that is not whole yet.
    came: Bytes,
    /// Whether a frame was refused.
    refused: bool,
}

impl Model for Conn {
    ghost Value = { Hearing };

    ghost view = { λ conn. record { came = conn.came; refused = conn.refused } };

    ghost invariant = { λ conn. conn.refused ≡ false → (1 ≤ missing conn.came) × (missing conn.came ≤ most_request) };
}

impl Conn {
    /// A connection over which nothing has come. Takes no memory.
    pub fn new(alloc: Global) -> Conn
        ensures { result ≡ record { came = []; refused = false } }
    {
        Conn {
            alloc,
            came: Bytes::new(alloc),
            refused: false,
        }
    }

    /// How many bytes are missing of a request's length, and once that has come, of the request. There are none where a frame was
    /// refused. Takes no memory.
    pub fn want(&self) -> u32
        ensures value { result ≡ wanted self.now }
        ensures some { self.now.refused ≡ false → 1 ≤ result }
        ensures few { result ≤ most_request }
    {
        if self.refused {
            return 0;
        }
        missing(self.came.as_slice())
    }

    /// Takes what came, at most as many bytes as are wanted, and gives the words of the request that it makes whole. A frame that is
    /// refused is the last one. Where memory is wanted nothing is changed.
    pub fn feed(&mut self, bytes: &[u8]) -> Result<Option<Seq<Text>>, FrameError>
        requires some { 1 ≤ length bytes.now }
        requires few { length bytes.now ≤ wanted self.old }
        ensures heard { IfSome (told result) (λ h. h ≡ heard (self.old.came ++ bytes.now)) }
        ensures is { IfSome (told result) (λ h. Is h (self.old.came ++ bytes.now)) }
        ensures after { IfSome (told result) (λ h. self.new ≡ hearing_after (self.old.came ++ bytes.now) h) }
        ensures wanting { result ≡ Err FrameError.NoMemory → self.new ≡ self.old }
    {
        let had = self.came.len();
        self.came.push_slice(bytes)?;
        match heard(self.alloc, self.came.as_slice()) {
            Ok(None) => Ok(None),
            Ok(Some(words)) => {
                self.came.clear();
                Ok(Some(words))
            }
            Err(FrameError::NoMemory) => {
                self.came.truncate(had);
                Err(FrameError::NoMemory)
            }
            Err(error) => {
                self.came = Bytes::new(self.alloc);
                self.refused = true;
                Err(error)
            }
        }
    }
}
