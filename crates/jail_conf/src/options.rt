//! Names with options: `NAME[key=value, key="value"]`.
ghost use Rattle.std.specs.Prelude.{◌≡◌, ◌<◌, ℕ, List, [], length, slice_index, None, IfOk, IfNone, IfSome};
ghost use Rattle.std.specs.List.{before_first};
ghost use Rattle.jail_conf.specs.WrittenOptions.{IsNamed, NamesNothing};
ghost use Rattle.jail_conf.specs.Options.{Key, Value, Quoted, Closed, Outside, IsPlain, options_from, ReadsNothing, ReadsAs, ReadsOption, behind, opens, from_first, groups, named};

use crate::words::{split, trim, trim_start};
use f2b_base::{NoMemory, Seq, Text};
use std::alloc::Global;

/// A name with options.
#[derive(Drop)]
pub(crate) struct Named {
    pub name: Text,
    /// Keys, in lower case, and values, as they are listed.
    pub options: Seq<(Text, Text)>,
}

/// A value, and what stands behind it.
#[derive(Clone, Copy)]
struct Given<'t> {
    value: &'t str,
    /// Whether its group ends behind it.
    is_last: bool,
    rest: &'t str,
}

/// The key at the front of a text, and what stands behind its `=`.
fn key_at(text: &str) -> Option<(&str, &str)>
    ensures none { IfNone result (ReadsNothing (Key []) text.now) }
    ensures some { IfSome result (λ at. ReadsAs (Key []) text.now (Value at.0.now) at.1.now) }
    ensures shorter { IfSome result (λ at. length at.1.now < length text.now) }
{
    let (key, divider, rest) = split(text, "=,[]\"'")?;
    if divider != b'=' {
        return None;
    }
    let key = trim(key);
    if key.is_empty() {
        return None;
    }
    Some((key, rest))
}

/// The value, where behind it there is another option or the end of the group.
fn ended<'t>(value: &'t str, text: &'t str) -> Option<Given<'t>>
    ensures none { IfNone result (ReadsNothing Closed text.now) }
    ensures value { IfSome result (λ given. given.value.now ≡ value.now) }
    ensures some { IfSome result (λ given. ReadsAs Closed text.now (behind given.is_last) given.rest.now) }
    ensures shorter { IfSome result (λ given. length given.rest.now < length text.now) }
{
    let text = trim_start(text);
    if let Some(rest) = text.strip_prefix(',') {
        return Some(Given {
            value,
            is_last: false,
            rest,
        });
    }
    let rest = text.strip_prefix(']')?;
    Some(Given {
        value,
        is_last: true,
        rest,
    })
}

/// The value that runs to the next of these quotes.
fn quoted<'t>(text: &'t str, quote: &str) -> Option<Given<'t>>
    requires one { length quote.now ≡ 1 }
    requires ascii { slice_index quote.now 0 < 128 }
    ensures none { IfNone result ((key : List ℕ) → ReadsNothing (Quoted (slice_index quote.now 0) key []) text.now) }
    ensures some { IfSome result (λ given.
        (key : List ℕ) → ReadsOption (Quoted (slice_index quote.now 0) key []) text.now key given.value.now (behind given.is_last) given.rest.now) }
    ensures shorter { IfSome result (λ given. length given.rest.now < length text.now) }
{
    let (value, _, rest) = split(text, quote)?;
    ended(value, rest)
}

/// The value that runs to the next comma or bracket.
fn plain(text: &str) -> Option<Given<'_>>
    requires { IsPlain text.now }
    ensures none { IfNone result ((key : List ℕ) → ReadsNothing (Value key) text.now) }
    ensures some { IfSome result (λ given. (key : List ℕ) → ReadsOption (Value key) text.now key given.value.now (behind given.is_last) given.rest.now) }
    ensures shorter { IfSome result (λ given. length given.rest.now < length text.now) }
{
    let (value, end, rest) = split(text, ",]\"'")?;
    match end {
        b',' => Some(Given {
            value: trim(value),
            is_last: false,
            rest,
        }),
        b']' => Some(Given {
            value: trim(value),
            is_last: true,
            rest,
        }),
        _ => None,
    }
}

/// The value at the front of a text.
fn value_at(text: &str) -> Option<Given<'_>>
    ensures none { IfNone result ((key : List ℕ) → ReadsNothing (Value key) text.now) }
    ensures some { IfSome result (λ given. (key : List ℕ) → ReadsOption (Value key) text.now key given.value.now (behind given.is_last) given.rest.now) }
    ensures shorter { IfSome result (λ given. length given.rest.now < length text.now) }
{
    let text = trim_start(text);
    if let Some(rest) = text.strip_prefix('"') {
        return quoted(rest, "\"");
    }
    if let Some(rest) = text.strip_prefix('\'') {
        return quoted(rest, "'");
    }
    plain(text)
}

/// Adds the option at the front of a text, and tells whether its group ends behind it, with what stands there.
fn push_option<'t>(
    alloc: Global,
    text: &'t str,
    options: &mut Seq<(Text, Text)>,
) -> Result<Option<(bool, &'t str)>, NoMemory>
    ensures none { IfOk result (λ read. IfNone read (ReadsNothing (Key []) text.now)) }
    ensures some { IfOk result (λ read. IfSome read (λ end. options_from (Key []) options.old text.now ≡ options_from (behind end.0) options.new end.1.now)) }
    ensures shorter { IfOk result (λ read. IfSome read (λ end. length end.1.now < length text.now)) }
{
    let Some((key, rest)) = key_at(text) else {
        return Ok(None);
    };
    let Some(given) = value_at(rest) else {
        return Ok(None);
    };
    let key = Text::from(key.to_ascii_lowercase(alloc)?);
    options.push((key, Text::from_str(alloc, given.value)?))?;
    Ok(Some((given.is_last, given.rest)))
}

/// Adds the options of a group behind its `[`, and tells what stands behind the group.
fn push_group<'t>(
    alloc: Global,
    text: &'t str,
    options: &mut Seq<(Text, Text)>,
) -> Result<Option<&'t str>, NoMemory>
    ensures none { IfOk result (λ read. IfNone read (options_from (Key []) options.old text.now ≡ None)) }
    ensures some { IfOk result (λ read. IfSome read (λ rest. options_from (Key []) options.old text.now ≡ options_from Outside options.new rest.now)) }
    ensures shorter { IfOk result (λ read. IfSome read (λ rest. length rest.now < length text.now)) }
{
    let mut left = text;
    'options: while let Some((is_last, rest)) = push_option(alloc, left, options)? {
        if is_last {
            return Ok(Some(rest));
        }
        left = rest;
    }
    Ok(None)
}

/// The options of some groups.
fn groups(alloc: Global, text: &str) -> Result<Option<Seq<(Text, Text)>>, NoMemory>
    ensures { IfOk result (λ options. options ≡ groups text.now) }
{
    let mut options = Seq::new(alloc);
    let mut left = trim_start(text);
    'groups: while !left.is_empty() {
        let Some(inside) = left.strip_prefix('[') else {
            return Ok(None);
        };
        let Some(rest) = push_group(alloc, inside, &mut options)? else {
            return Ok(None);
        };
        left = trim_start(rest);
    }
    Ok(Some(options))
}

/// What stands before the first `[`, and what stands from there on.
fn cut_name(text: &str) -> (&str, &str)
    ensures name { result.0.now ≡ before_first opens text.now }
    ensures groups { result.1.now ≡ from_first text.now }
{
    let place = text.find('[').unwrap_or(text.len());
    (&text[..place], &text[place..])
}

/// The name with options that a text is, if it is one.
#[tactic(auto, unfolding(crate::specs::Options::named))]
pub(crate) fn read_named(alloc: Global, text: &str) -> Result<Option<Named>, NoMemory>
    ensures value { IfOk result (λ found. found ≡ named text.now) }
    ensures written { IfOk result (λ found. IfSome found (λ one. IsNamed one text.now)) }
    ensures refused { IfOk result (λ found. IfNone found (NamesNothing text.now)) }
{
    let (front, behind) = cut_name(text);
    let Some(options) = groups(alloc, behind)? else {
        return Ok(None);
    };
    let name = trim(front);
    if name.is_empty() {
        return Ok(None);
    }
    Ok(Some(Named {
        name: Text::from_str(alloc, name)?,
        options,
    }))
}
