//! What has been read of a text with tags.
ghost use Rattle.std.specs.Prelude.{◌≡◌, ◌≤◌, ◌<◌, length, drop, fold, max, slice_index, OnOk};
ghost use Rattle.tag_subst.specs.Marked.{no_text, added, cut};

use f2b_base::{NoMemory, Text};
use std::alloc::Global;
use std::marker::Model;

/// A text that knows how deep each of its bytes is.
#[derive(Drop)]
pub(crate) struct Settled {
    text: String,
    depths: Vec<u8>,
}

impl Model for Settled {
    ghost use Rattle.std.specs.Prelude.{◌≡◌, length, string_bytes};
    ghost use Rattle.tag_subst.specs.Marked.{Marked};

    ghost Value = { Marked };

    ghost view = { λ s. record { text = string_bytes s.text; depths = s.depths.items } };

    ghost invariant = { λ s. length s.depths.items ≡ length (string_bytes s.text) };
}

impl Settled {
    /// No text yet. Takes no memory.
    pub(crate) fn new(alloc: Global) -> Settled
        ensures { result ≡ no_text }
    {
        Settled {
            text: String::new(alloc),
            depths: Vec::new(alloc),
        }
    }

    /// The text.
    pub(crate) fn as_str(&self) -> &str
        ensures { result.now ≡ self.now.text }
    {
        self.text.as_str()
    }

    /// The greatest of this depth and those of the bytes from `place` on.
    pub(crate) fn greatest_depth(&self, depth: u8, place: usize) -> u8
        requires { place ≤ length self.now.text }
        ensures { result ≡ fold max depth (drop place self.now.depths) }
    {
        self.depths.as_slice()[place..]
            .iter()
            .copied()
            .fold(depth, |greatest, one| greatest.max(one))
    }

    /// Adds text of this depth.
    pub(crate) fn add(&mut self, text: &str, depth: u8) -> Result<(), NoMemory>
        ensures { OnOk result (self.new ≡ added text.now depth self.old) }
    {
        let len = self.depths.len();
        let all = len.checked_add(text.len()).ok_or(NoMemory)?;
        self.depths.resize(all, depth)?;
        if self.text.push_str(text).is_err() {
            self.depths.truncate(len);
            return Err(NoMemory);
        }
        Ok(())
    }

    /// Drops what stands from a `<` on.
    pub(crate) fn cut(&mut self, place: usize)
        requires { slice_index self.old.text place ≡ 60 }
        ensures { self.new ≡ cut place self.old }
    {
        self.text.truncate(place);
        self.depths.truncate(place);
    }

    /// The text, with memory of its own.
    pub(crate) fn into_text(self) -> Text
        ensures { result ≡ self.text }
    {
        let Settled { text, depths: _ } = self;
        Text::from(text)
    }
}
