//! What a file includes.
ghost use Rattle.std.specs.Prelude.{◌≡◌, ◌<◌, ◌∷◌, Some, IfOk, IfSome, length, option_copied};
ghost use Rattle.ini_interp.specs.Merges.{includes, all_lines};

use crate::sections::Sections;
use f2b_base::{NoMemory, Seq, Text};
use std::alloc::Global;

/// The first line of a text, and what stands behind its LF, if there is one.
fn first_line(text: &str) -> (&str, Option<&str>)
    ensures lines { all_lines (Some text.now) ≡ result.0.now ∷ all_lines (option_copied result.1) }
    ensures shorter { IfSome result.1 (λ rest. length rest.now < length text.now) }
{
    match text.split_once('\n') {
        Some((line, rest)) => (line, Some(rest)),
        None => (text, None),
    }
}

/// The names on the lines of this item of [INCLUDES], in order. Empty lines are left out.
pub(crate) fn includes(alloc: Global, file: &Sections, name: &str) -> Result<Seq<Text>, NoMemory>
    ensures { IfOk result (λ names. names ≡ includes file.now name.now) }
{
    let mut names = Seq::new(alloc);
    let mut left = file.raw("INCLUDES", name);
    while let Some(text) = left {
        let (line, rest) = first_line(text);
        if !line.is_empty() {
            names.push(Text::from_str(alloc, line)?)?;
        }
        left = rest;
    }
    Ok(names)
}
