//! Patterns with their tags expanded.
ghost use Rattle.std.specs.Prelude.{◌≡◌, ◌+◌, ◌<◌, ◌==◌, ◌∷◌, ◌++◌, length, option_copied, option_map, IfOk, IfSome, OnOk};
ghost use Rattle.std.specs.List.{slice_split, after_first};
ghost use Rattle.host_ident.specs.Expanded.{begins_group, tag_of, front_tag, written, expanded, host_count, hosts_in, parts_of};

use crate::tag::Tag;
use f2b_base::{NoMemory, Text};
use std::alloc::Global;

/// What stands before the first `<`, and what stands behind it.
fn cut(text: &str) -> (&str, Option<&str>)
    ensures parts { slice_split (λ b. b == 60) text.now ≡ result.0.now ∷ parts_of (option_copied result.1) }
    ensures shorter { IfSome result.1 (λ rest. length rest.now < length text.now) }
{
    match text.split_once('<') {
        Some((part, rest)) => (part, Some(rest)),
        None => (text, None),
    }
}

/// Whether a `<` after this text begins a group of the pattern itself.
fn begins_group(before: &str) -> bool
    ensures { result ≡ begins_group before.now }
{
    before.ends_with("(?") || before.ends_with("(?P")
}

/// The tag of a part behind a `<`, with what stands behind the tag.
fn tagged<'t>(before: &str, part: &'t str) -> Option<(Tag, &'t str)>
    ensures tag { option_map (λ t. t.0) result ≡ tag_of before.now part.now }
    ensures rest { IfSome result (λ t. t.1.now ≡ after_first (λ b. b == 62) part.now) }
{
    if begins_group(before) {
        return None;
    }
    let (name, rest) = part.split_once('>')?;
    let tag = Tag::named(name)?;
    Some((tag, rest))
}

/// Adds a part behind a `<`, with its tag expanded.
fn push_part(text: &mut Text, before: &str, part: &str) -> Result<(), NoMemory>
    ensures { OnOk result (text.new ≡ text.old ++ written (tag_of before.now part.now) part.now) }
{
    match tagged(before, part) {
        Some((tag, rest)) => {
            tag.push_expansion(text)?;
            text.push_str(rest)?;
        }
        None => {
            text.push_str("<")?;
            text.push_str(part)?;
        }
    }
    Ok(())
}

/// The pattern with each tag expanded.
pub fn expand(alloc: Global, pattern: &str) -> Result<Text, NoMemory>
    ensures { IfOk result (λ text. text ≡ expanded pattern.now) }
{
    let (mut before, mut rest) = cut(pattern);
    let mut written = Text::from_str(alloc, before)?;
    'parts: while let Some(text) = rest {
        let (part, after) = cut(text);
        push_part(&mut written, before, part)?;
        before = part;
        rest = after;
    }
    Ok(written)
}

/// How many tags of the pattern find a host. It stays at the greatest `u32`.
pub fn hosts(pattern: &str) -> u32
    ensures { result ≡ hosts_in pattern.now }
{
    let mut count: u32 = 0;
    let (mut before, mut rest) = cut(pattern);
    'parts: while let Some(text) = rest {
        let (part, after) = cut(text);
        count = count.saturating_add(host_tags(before, part));
        before = part;
        rest = after;
    }
    count
}

/// 1 where the part has a tag that finds a host, else 0.
fn host_tags(before: &str, part: &str) -> u32
    ensures { result ≡ host_count (tag_of before.now part.now) }
{
    match tagged(before, part) {
        Some((tag, _)) if tag.is_host() => 1,
        _ => 0,
    }
}
