//! The frame that is being written to a client.
ghost use Rattle.std.specs.Prelude.{◌≡◌, ◌==◌, ◌≤◌, [], drop, length};
ghost use Rattle.client_table.specs.Clients.{most_frame};

use f2b_base::Bytes;
use std::alloc::Global;
use std::marker::Model;

/// What is unwritten of a frame. Its bytes stay where they are until all are written.
#[derive(Drop)]
pub(crate) struct Unwritten {
    alloc: Global,
    frame: Bytes,
    /// How many of its bytes were written.
    written: usize,
}

impl Model for Unwritten {
    ghost use Rattle.std.specs.Prelude.{◌≤◌, List, ℕ, drop, length};
    ghost use Rattle.client_table.specs.Clients.{most_frame};

    ghost Value = { List ℕ };

    ghost view = { λ u. drop u.written u.frame };

    ghost invariant = { λ u. (u.written ≤ length u.frame) × (length u.frame ≤ most_frame) };
}

impl Unwritten {
    /// Nothing. Takes no memory.
    pub fn new(alloc: Global) -> Unwritten
        ensures { result ≡ [] }
    {
        Unwritten {
            alloc,
            frame: Bytes::new(alloc),
            written: 0,
        }
    }

    /// A whole frame.
    pub fn of(alloc: Global, frame: Bytes) -> Unwritten
        requires { length frame ≤ most_frame }
        ensures { result ≡ frame }
    {
        Unwritten {
            alloc,
            frame,
            written: 0,
        }
    }

    /// The bytes.
    pub fn as_slice(&self) -> &[u8]
        ensures value { result.now ≡ self.now }
        ensures few { length result.now ≤ most_frame }
    {
        &self.frame.as_slice()[self.written..]
    }

    /// Whether there are none.
    pub fn is_empty(&self) -> bool
        ensures { result ≡ (length self.now == 0) }
    {
        self.as_slice().is_empty()
    }

    /// So many bytes were written. The memory of a frame that is written whole is given back.
    pub fn advance(&mut self, count: usize)
        requires { count ≤ length self.old }
        ensures { self.new ≡ drop count self.old }
    {
        self.written += count;
        if self.written == self.frame.len() {
            self.frame = Bytes::new(self.alloc);
            self.written = 0;
        }
    }
}
