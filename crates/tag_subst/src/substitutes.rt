//! Texts with their static tags replaced.
ghost use Rattle.std.specs.Prelude.{◌≡◌, ◌≢◌, ◌≤◌, ◌-◌, IfOk, IfErr, OnOk};
ghost use Rattle.ini_interp.specs.declared.value_error.InterpError.TheVariants as interp;
ghost use Rattle.tag_subst.specs.Tags.{closed, read, substituted};
ghost use Rattle.tag_subst.specs.Values.{tag_value};

use crate::names::{is_open_at, is_reserved, name_start};
use crate::settled::Settled;
use crate::tag_error::TagError;
use crate::tag_values::{name_of, tag_value};
use f2b_base::{NoMemory, Seq, Text};
use ini_interp::Sections;
use std::alloc::Global;

/// A tag is at most so deep.
const MOST_DEPTH: u8 = 10;

/// What replaces a tag.
#[derive(Drop)]
pub(crate) struct Replacement {
    /// Where the tag's `<` stands.
    pub place: usize,
    /// How deep the value is.
    pub depth: u8,
    /// The value.
    pub text: Text,
}

/// What a `>` of this depth replaces behind what is kept, if it ends a static tag with a value.
fn closed(
    alloc: Global,
    sections: &Sections,
    scope: &Seq<Text>,
    depth: u8,
    kept: &Settled,
) -> Result<Option<Replacement>, TagError>
    ensures ok { IfOk result (λ found. closed (tag_value sections.now scope.now) depth kept.now ≡ Ok found) }
    ensures fault { IfErr result (λ fault. fault ≢ TagError.NoMemory
        → closed (tag_value sections.now scope.now) depth kept.now ≡ Err fault) }
{
    let text = kept.as_str();
    let start = name_start(text.as_bytes());
    if !is_open_at(start, text.as_bytes()) {
        return Ok(None);
    }
    let tag = &text[start..];
    if is_reserved(tag) {
        return Ok(None);
    }
    let place = start - 1;
    let greatest = kept.greatest_depth(depth, place);
    if greatest >= MOST_DEPTH {
        return Err(TagError::TooDeep(Text::from_str(alloc, name_of(tag))?));
    }
    match tag_value(alloc, sections, scope, tag)? {
        Some(text) => Ok(Some(Replacement {
            place,
            depth: greatest + 1,
            text,
        })),
        None => Ok(None),
    }
}

/// Reads a text of this depth behind what is kept.
fn read(
    alloc: Global,
    sections: &Sections,
    scope: &Seq<Text>,
    depth: u8,
    text: &str,
    kept: &mut Settled,
) -> Result<(), TagError>
    requires { depth ≤ 10 }
    ensures ok { OnOk result (read (tag_value sections.now scope.now) (10 - depth) depth text.now kept.old ≡ Ok kept.new) }
    ensures fault { IfErr result (λ fault. fault ≢ TagError.NoMemory
        → read (tag_value sections.now scope.now) (10 - depth) depth text.now kept.old ≡ Err fault) }
{
    let mut rest = text;
    while let Some((plain, behind)) = rest.split_once('>') {
        kept.add(plain, depth)?;
        match closed(alloc, sections, scope, depth, kept)? {
            None => kept.add(">", depth)?,
            Some(value) => {
                kept.cut(value.place);
                let inner = value.text.as_str();
                read(alloc, sections, scope, value.depth, inner, kept)?;
            }
        }
        rest = behind;
    }
    kept.add(rest, depth)?;
    Ok(())
}

/// The text with its static tags replaced by the values that their items have in the scope, the innermost first, and again in what
/// they are replaced by, at most ten deep. A tag whose item has no value stays as it is written.
pub fn substitute(
    alloc: Global,
    text: &str,
    items: &Sections,
    scope: &Seq<Text>,
) -> Result<Text, TagError>
    ensures ok { IfOk result (λ done. substituted items.now scope.now text.now ≡ Ok done) }

    // The first fault from the left, or want of memory.
    ensures fault { IfErr result (λ fault. fault ≢ TagError.NoMemory
        → substituted items.now scope.now text.now ≡ Err fault) }

    // Want of memory has one name.
    ensures told { IfErr result (λ fault. fault ≢ TagError.Interp interp.NoMemory) }
{
    let mut kept = Settled::new(alloc);
    read(alloc, items, scope, 0, text, &mut kept)?;
    Ok(kept.into_text())
}
