//! Items that choose one of a few words.
ghost use Rattle.std.specs.Prelude.{◌≡◌};
ghost use Rattle.jail_conf.specs.Choices.{truth};

use crate::conf_error::ConfKind;
use crate::fail::Fail;
use crate::reading::ReadsItem;
use crate::words::{is_one_of, trim};
use std::alloc::Global;

/// What a word of truth says.
fn truth(word: &[u8]) -> Option<bool>
    ensures { result ≡ truth word.now }
{
    if is_one_of("true yes on 1", word) {
        Some(true)
    } else if is_one_of("false no off 0", word) {
        Some(false)
    } else {
        None
    }
}

/// Whether something is wanted.
#[derive(Drop)]
pub(crate) struct Boolean;

impl ReadsItem<bool> for Boolean {
    ghost use Rattle.jail_conf.specs.Choices.{boolean};

    ghost reading = { λ _. boolean };

    fn read(&self, _alloc: Global, text: &str) -> Result<bool, Fail<ConfKind>> {
        match truth(trim(text).as_bytes()) {
            Some(holds) => Ok(holds),
            None => Err(Fail::Refused(ConfKind::BadBool)),
        }
    }
}

/// One of these words, and nothing comes of it.
#[derive(Drop)]
pub(crate) struct OneOf(pub &'static str);

impl ReadsItem<()> for OneOf {
    ghost use Rattle.jail_conf.specs.Choices.{one_of};

    ghost reading = { λ words. one_of words.0.now };

    fn read(&self, _alloc: Global, text: &str) -> Result<(), Fail<ConfKind>> {
        if is_one_of(self.0, trim(text).as_bytes()) {
            Ok(())
        } else {
            Err(Fail::Refused(ConfKind::Unsupported))
        }
    }
}

/// Nothing.
#[derive(Drop)]
pub(crate) struct Nothing;

impl ReadsItem<()> for Nothing {
    ghost use Rattle.jail_conf.specs.Choices.{nothing};

    ghost reading = { λ _. nothing };

    fn read(&self, _alloc: Global, text: &str) -> Result<(), Fail<ConfKind>> {
        if trim(text).is_empty() {
            Ok(())
        } else {
            Err(Fail::Refused(ConfKind::Unsupported))
        }
    }
}

/// That something is not wanted.
#[derive(Drop)]
pub(crate) struct OnlyFalse;

impl ReadsItem<()> for OnlyFalse {
    ghost use Rattle.jail_conf.specs.Choices.{only_false};

    ghost reading = { λ _. only_false };

    fn read(&self, alloc: Global, text: &str) -> Result<(), Fail<ConfKind>> {
        if Boolean.read(alloc, text)? {
            Err(Fail::Refused(ConfKind::Unsupported))
        } else {
            Ok(())
        }
    }
}
