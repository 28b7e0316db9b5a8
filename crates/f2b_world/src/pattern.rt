//! Patterns of lines, which contracts see as their texts.
ghost use Rattle.f2b_world.specs.Reading.{IsMadeOf};

mod matcher;
mod numbers;
mod set;
mod spans;

pub use matcher::Matcher;
use regex::{Error, Regex};
pub use set::{PatternSet, SetMatcher};
pub use spans::{Cut, HostSpans};
use std::alloc::Global;
use std::fmt;
use std::marker::Model;

/// A pattern that was built from its text. It does not search by itself: `matcher` makes what does.
#[derive(Drop)]
pub struct Pattern {
    regex: Regex,
}

impl Model for Pattern {
    ghost use Rattle.std.specs.Prelude.{◌≡◌, ℕ, List};
    ghost use Rattle.regex.specs.Strings.{regex_source, regex_config, IsReadFromSource};
    ghost use Rattle.regex.specs.Patterns.{default_config};

    ghost Value = { List ℕ };

    ghost view = { λ p. regex_source p.regex };

    ghost invariant = { λ p. (regex_config p.regex ≡ default_config) × IsReadFromSource p.regex };
}

impl fmt::Debug for Pattern {
    fn fmt<W: fmt::Write>(&self, f: &mut fmt::Formatter<W>) -> fmt::Result {
        let text = self.regex.as_str();
        write!(f, "{text:?}")
    }
}

/// What comes of a text that is to be a pattern.
#[derive(Debug, Drop)]
pub enum Made {
    Built(Pattern),
    /// The text is no pattern.
    Syntax,
    /// The text is a pattern that would take too much room.
    TooBig,
    NoMemory,
}

/// Builds the pattern of a text.
pub fn build_pattern(alloc: Global, text: &str) -> Made
    ensures { IsMadeOf text.now result }
{
    match Regex::new(alloc, text) {
        Ok(regex) => Made::Built(Pattern { regex }),
        Err(Error::Syntax(_)) => Made::Syntax,
        Err(Error::CompiledTooBig) => Made::TooBig,
        Err(Error::Internal) => Made::TooBig,
        Err(Error::OutOfMemory) => Made::NoMemory,
    }
}
