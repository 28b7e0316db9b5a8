//! How the text of an item is read.

use crate::conf_error::ConfKind;
use crate::fail::Fail;
use f2b_base::Text;
use std::alloc::Global;

/// A way to read the text of an item.
pub(crate) trait ReadsItem<A> {
    ghost use Rattle.std.specs.Prelude.{ℕ, List, Result};
    ghost use Rattle.jail_conf.specs.declared.conf_error.ConfKind.{ConfKind};
    ghost use Rattle.jail_conf.specs.Then.{Gives};

    ghost reading: { Self → List ℕ → Result A ConfKind };

    /// The value, or what is wrong with the text.
    fn read(&self, alloc: Global, text: &str) -> Result<A, Fail<ConfKind>>
        ensures { Gives (reading self.now text.now) result };
}

/// The text as it is.
#[derive(Drop)]
pub(crate) struct AsWritten;

impl ReadsItem<Text> for AsWritten {
    ghost use Rattle.jail_conf.specs.Readers.{as_written};

    ghost reading = { λ _. as_written };

    fn read(&self, alloc: Global, text: &str) -> Result<Text, Fail<ConfKind>> {
        Ok(Text::from_str(alloc, text)?)
    }
}
