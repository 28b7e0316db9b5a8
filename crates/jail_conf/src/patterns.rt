//! Patterns of failures and of lines that are ignored, as an item lists them.
ghost use Rattle.std.specs.Prelude.{◌≡◌, option_copied, codes, IfOk};
ghost use Rattle.std.specs.List.{list_all, list_any, filter_map};
ghost use Rattle.host_ident.specs.Expanded.{begins_group};
ghost use Rattle.host_ident.specs.Tags.{is_name_byte, is_mark_name};
ghost use Rattle.jail_conf.specs.Patterns.{name_of, tag_names, is_refused, has_bad_tag, content_mark, is_one_pair, has_one_content, has_bad_prefix_tag, pattern, in_order};
ghost use Rattle.jail_conf.specs.Then.{Gives};

use crate::conf_error::ConfKind;
use crate::fail::Fail;
use crate::limits::{MOST_BYTES, MOST_PATTERNS};
use crate::reading::ReadsItem;
use crate::words::{cut, full_lines};
use f2b_base::{NoMemory, Seq, Text};
use host_ident::hosts;
use std::alloc::Global;

/// Whether a `<` behind this text begins a group of the pattern itself.
fn begins_group(before: &[u8]) -> bool
    ensures { result ≡ begins_group before.now }
{
    before.ends_with(b"(?") || before.ends_with(b"(?P")
}

/// The name of the tag at the front of a part, by what stands before the `<` of that part.
fn name_of<'t>(before: &[u8], part: &'t str) -> Option<&'t str>
    ensures { option_copied result ≡ name_of before.now part.now }
{
    if begins_group(before) {
        return None;
    }
    match part.split_once('>') {
        Some((name, _)) => Some(name),
        None => None,
    }
}

/// The names of the tags of a pattern, in order.
fn tag_names(alloc: Global, pattern: &str) -> Result<Seq<Text>, NoMemory>
    ensures { IfOk result (λ names. names ≡ tag_names pattern.now) }
{
    let mut names = Seq::new(alloc);
    let (first, mut left) = cut(pattern, "<");
    let mut before = first.as_bytes();
    'parts: while let Some(text) = left {
        let (part, rest) = cut(text, "<");
        if let Some(name) = name_of(before, part) {
            names.push(Text::from_str(alloc, name)?)?;
        }
        before = part.as_bytes();
        left = rest;
    }
    Ok(names)
}

/// Whether a name of a tag may have the byte.
fn is_name_byte(byte: u8) -> bool
    ensures { result ≡ is_name_byte byte }
{
    byte.is_ascii_alphanumeric()
        || byte == b'_'
        || byte == b'.'
        || byte == b':'
        || byte == b'/'
        || byte == b'?'
        || byte == b'='
        || byte == b'-'
}

/// Whether a name of a tag may have each of the bytes.
fn is_name(name: &str) -> bool
    ensures { result ≡ list_all is_name_byte name.now }
{
    name.as_bytes().iter().all(|byte| is_name_byte(*byte))
}

/// Whether the name is one of those that mark lines which go together.
fn is_line_mark(name: &str) -> bool
    ensures { result ≡ is_mark_name (codes "F-MLF") name.now }
{
    name.starts_with("F-MLF") && is_name(name)
}

/// Whether a tag of this name stands for nothing here.
fn is_refused(name: &str) -> bool
    ensures { result ≡ is_refused name.now }
{
    name == "SKIPLINES"
        || name == "SUBNET"
        || name == "CIDR"
        || name == "F-ID"
        || name == "F-NOFAIL"
        || is_line_mark(name)
}

/// Whether a pattern has a tag that it may not have.
fn has_bad_tag(alloc: Global, pattern: &str) -> Result<bool, NoMemory>
    ensures { IfOk result (λ bad. bad ≡ has_bad_tag pattern.now) }
{
    let names = tag_names(alloc, pattern)?;
    Ok(
        names.as_slice().iter().any(|name| is_refused(name.as_str())
            || name.as_str() == "F-CONTENT"),
    )
}

/// Whether a tag of this name begins the content, or `None` where it does not end it either.
fn content_mark(name: &str) -> Option<bool>
    ensures { result ≡ content_mark name.now }
{
    if name == "F-CONTENT" {
        Some(true)
    } else if name == "/F-CONTENT" {
        Some(false)
    } else {
        None
    }
}

/// Where the content begins and where it ends, in order.
fn content_marks(alloc: Global, names: &[Text]) -> Result<Seq<bool>, NoMemory>
    ensures { IfOk result (λ marks. marks ≡ filter_map content_mark names.now) }
{
    let mut marks = Seq::new(alloc);
    for name in names {
        if let Some(begins) = content_mark(name.as_str()) {
            marks.push(begins)?;
        }
    }
    Ok(marks)
}

/// Whether these are a beginning and then an end.
fn is_one_pair(marks: &[bool]) -> bool
    ensures { result ≡ is_one_pair marks.now }
{
    match marks {
        [first, second] => *first && !*second,
        _ => false,
    }
}

/// Whether the content begins once, and behind that ends once.
fn has_one_content(alloc: Global, names: &[Text]) -> Result<bool, NoMemory>
    ensures { IfOk result (λ one. one ≡ has_one_content names.now) }
{
    let marks = content_marks(alloc, names)?;
    Ok(is_one_pair(marks.as_slice()))
}

/// Whether one of the tags stands for nothing here.
fn has_refused(names: &[Text]) -> bool
    ensures { result ≡ list_any is_refused names.now }
{
    names.iter().any(|name| is_refused(name.as_str()))
}

/// Whether the pattern of what a line has to match first has a tag that it may not have, or not the one that it has to have.
fn has_bad_prefix_tag(alloc: Global, pattern: &str) -> Result<bool, NoMemory>
    ensures { IfOk result (λ bad. bad ≡ has_bad_prefix_tag pattern.now) }
{
    let names = tag_names(alloc, pattern)?;
    let one = has_one_content(alloc, names.as_slice())?;
    Ok(hosts(pattern) > 0 || has_refused(names.as_slice()) || !one)
}

/// The pattern of a line, where so many stand before it.
fn pattern(alloc: Global, needs_host: bool, before: u64, text: &str) -> Result<Text, Fail<ConfKind>>
    ensures { Gives (pattern needs_host before text.now) result }
{
    let hosts = hosts(text);
    if needs_host && hosts == 0 {
        return Err(Fail::Refused(ConfKind::NoHost));
    }
    if hosts > 1 {
        return Err(Fail::Refused(ConfKind::TwoHosts));
    }
    if has_bad_tag(alloc, text)? {
        return Err(Fail::Refused(ConfKind::BadTag));
    }
    if text.len() > MOST_BYTES || before >= MOST_PATTERNS {
        return Err(Fail::Refused(ConfKind::TooMany));
    }
    Ok(Text::from_str(alloc, text)?)
}

/// The patterns of some lines, where so many stand before them.
fn in_order(
    alloc: Global,
    needs_host: bool,
    before: u64,
    lines: &[Text],
) -> Result<Seq<Text>, Fail<ConfKind>>
    ensures { Gives (in_order needs_host before lines.now) result }
{
    let mut patterns = Seq::new(alloc);
    let mut so_far = before;
    for line in lines {
        let one = pattern(alloc, needs_host, so_far, line.as_str())?;
        so_far += 1;
        patterns.push(one)?;
    }
    Ok(patterns)
}

/// Patterns, one a line.
#[derive(Drop)]
pub(crate) struct Patterns {
    /// Whether each of them has to find a host.
    pub needs_host: bool,
    /// How many the jails have before these.
    pub before: u64,
}

impl ReadsItem<Seq<Text>> for Patterns {
    ghost use Rattle.jail_conf.specs.Patterns.{patterns_in};

    ghost reading = { λ these. patterns_in these.needs_host these.before };

    fn read(&self, alloc: Global, text: &str) -> Result<Seq<Text>, Fail<ConfKind>> {
        let lines = full_lines(alloc, text)?;
        in_order(alloc, self.needs_host, self.before, lines.as_slice())
    }
}

/// What a line has to match first.
#[derive(Drop)]
pub(crate) struct Prefix;

impl ReadsItem<Option<Text>> for Prefix {
    ghost use Rattle.jail_conf.specs.Patterns.{prefix};

    ghost reading = { λ _. prefix };

    fn read(&self, alloc: Global, text: &str) -> Result<Option<Text>, Fail<ConfKind>> {
        if has_bad_prefix_tag(alloc, text)? {
            return Err(Fail::Refused(ConfKind::BadTag));
        }
        if text.len() > MOST_BYTES {
            return Err(Fail::Refused(ConfKind::TooMany));
        }
        let pattern = Text::from_str(alloc, text)?;
        Ok(Some(pattern))
    }
}
