//! One line of a configuration file, and what it says.
ghost use Rattle.std.specs.Prelude.{◌≡◌, ◌<◌, Some, length, slice_index, option_copied};
ghost use Rattle.ini_interp.specs.Lines.{is_blank, trimmed_start, trimmed_end, without_comment, begins_with_blank, is_empty_or_comment, opened_by, divided_at, item_of, content_form, form_of};
ghost use Rattle.ini_interp.specs.Seen.{form};

/// What a line says, in parts of it.
#[derive(Clone, Copy)]
pub(crate) enum Line<'a> {
    /// Nothing: it is blank, or a comment.
    Skipped,
    /// It opens the section of this name.
    Header(&'a str),
    /// It continues a value.
    Continuation(&'a str),
    /// It sets the value of an item: name, as it is written, and value.
    Item(&'a str, &'a str),
    /// It is none of these.
    Broken,
}

fn is_blank(byte: u8) -> bool
    ensures { result ≡ is_blank byte }
{
    byte == b' ' || byte == b'\t'
}

fn trim_start(text: &str) -> &str
    ensures { result.now ≡ trimmed_start text.now }
{
    for (place, &byte) in text.as_bytes().iter().enumerate() {
        if !is_blank(byte) {
            return &text[place..];
        }
    }
    ""
}

fn trim_end(text: &str) -> &str
    ensures { result.now ≡ trimmed_end text.now }
{
    let bytes = text.as_bytes();
    let mut end = bytes.len();
    while end > 0 && is_blank(bytes[end - 1]) {
        end -= 1;
    }
    &text[..end]
}

fn without_comment(line: &str) -> &str
    ensures { result.now ≡ without_comment line.now }
{
    let bytes = line.as_bytes();
    for place in 1..bytes.len() {
        if bytes[place] == b';' && is_blank(bytes[place - 1]) {
            return &line[..place];
        }
    }
    line
}

/// The name of the section that the text opens.
fn header(text: &str) -> Option<&str>
    ensures { option_copied result ≡ opened_by text.now }
{
    let rest = text.strip_prefix('[')?;
    let (section, _) = rest.split_once(']')?;
    Some(section)
}

/// The item whose name and value the byte at this place divides.
fn divided(text: &str, place: usize) -> Line<'_>
    requires within { place < length text.now }
    requires ascii { slice_index text.now place < 128 }
    ensures { form result ≡ divided_at text.now (Some place) }
{
    let name = trim_start(trim_end(&text[..place]));
    let value = trim_start(trim_end(&text[place + 1..]));
    if name.is_empty() {
        return Line::Broken;
    }
    Line::Item(name, value)
}

fn item(text: &str) -> Line<'_>
    ensures { form result ≡ item_of text.now }
{
    for (place, &byte) in text.as_bytes().iter().enumerate() {
        if byte == b'=' || byte == b':' {
            return divided(text, place);
        }
    }
    Line::Broken
}

fn begins_with_blank(text: &str) -> bool
    ensures { result ≡ begins_with_blank text.now }
{
    match text.as_bytes() {
        [] => false,
        [first, ..] => is_blank(*first),
    }
}

fn is_empty_or_comment(text: &str) -> bool
    ensures { result ≡ is_empty_or_comment text.now }
{
    match text.as_bytes() {
        [] => true,
        [first, ..] => *first == b'#' || *first == b';',
    }
}

/// What a line says whose comment and last blanks are gone.
#[tactic(auto, unfolding(crate::specs::Lines::content_form))]
fn content(text: &str) -> Line<'_>
    ensures { form result ≡ content_form text.now }
{
    if begins_with_blank(text) {
        return Line::Continuation(trim_start(text));
    }
    match header(text) {
        Some(section) => Line::Header(section),
        None => item(text),
    }
}

impl Line<'_> {
    /// What the line says.
    #[tactic(auto, unfolding(crate::specs::Lines::form_of))]
    pub(crate) fn read(line: &str) -> Line<'_>
        ensures { form result ≡ form_of line.now }
    {
        if is_empty_or_comment(trim_start(line)) {
            return Line::Skipped;
        }
        content(trim_end(without_comment(line)))
    }
}
