//! What patterns of other dialects may have, and those of this one have not.
ghost use Rattle.std.specs.Prelude.{◌≡◌, option_copied};
ghost use Rattle.std.specs.List.{suffix_len};
ghost use Rattle.pattern_fault.specs.Constructs.{advice, before_ending, construct_between, is_back_reference, is_backslash, is_group_of, is_look_around, is_numbered, opens_group};

/// What patterns of other dialects may have, and those of this one have not.
#[derive(Clone, Copy)]
pub(crate) enum Construct {
    /// What has to stand before or behind, or must not.
    LookAround,
    /// What a group matched, once more.
    BackReference,
    /// One of two cases, by whether a group matched.
    Conditional,
    /// A group that keeps its first match.
    AtomicGroup,
}

fn is_look_around(rest: &str) -> bool
    ensures { result ≡ is_look_around rest.now }
{
    rest.starts_with("(?=")
        || (rest.starts_with("(?!") || (rest.starts_with("(?<=") || rest.starts_with("(?<!")))
}

/// Whether a backslash and a digit stand there.
fn is_numbered(rest: &[u8]) -> bool
    ensures { result ≡ is_numbered rest.now }
{
    match rest {
        [first, second, ..] => *first == b'\\' && second.is_ascii_digit(),
        _ => false,
    }
}

/// How many backslashes stand at the end.
fn backslashes(text: &[u8]) -> usize
    ensures { result ≡ suffix_len is_backslash text.now }
{
    text.iter().rev().take_while(|byte| **byte == b'\\').count()
}

/// What stands before an ending.
fn before_ending<'t>(ending: &str, text: &'t str) -> Option<&'t str>
    ensures { option_copied result ≡ before_ending ending.now text.now }
{
    let front = text.strip_suffix(ending)?;
    Some(front)
}

/// Whether a text ends in a `(?` that begins a group, and not in `\(?`.
fn opens_group(before: &str) -> bool
    ensures { result ≡ opens_group before.now }
{
    match before_ending("(?", before) {
        Some(front) => backslashes(front.as_bytes()) % 2 == 0,
        None => false,
    }
}

/// Whether this stands there, right behind the `(?` of a group.
fn is_group_of(front: &str, before: &str, rest: &str) -> bool
    ensures { result ≡ is_group_of front.now before.now rest.now }
{
    opens_group(before) && rest.starts_with(front)
}

fn is_back_reference(before: &str, rest: &str) -> bool
    ensures { result ≡ is_back_reference before.now rest.now }
{
    is_numbered(rest.as_bytes()) || (rest.starts_with("\\k") || is_group_of("P=", before, rest))
}

/// What stands between these texts of a pattern.
pub(crate) fn construct_between(before: &str, rest: &str) -> Option<Construct>
    ensures { result ≡ construct_between before.now rest.now }
{
    if is_look_around(rest) {
        return Some(Construct::LookAround);
    }
    if is_back_reference(before, rest) {
        return Some(Construct::BackReference);
    }
    if is_group_of("(", before, rest) {
        return Some(Construct::Conditional);
    }
    if is_group_of(">", before, rest) {
        return Some(Construct::AtomicGroup);
    }
    None
}

/// That there is none, and what to do without.
pub(crate) fn advice(construct: Construct) -> &'static str
    ensures { result.now ≡ advice construct }
{
    match construct {
        Construct::LookAround => {
            "there is no look-around: write into the pattern what has to stand there, and keep out by ignoreregex what must not"
        }
        Construct::BackReference => {
            "there are no back references: write once more what is to be repeated"
        }
        Construct::Conditional =>
            "there are no conditionals: write both cases, as (?:first|second)",
        Construct::AtomicGroup => "there are no atomic groups: write (?: in place of (?>",
    }
}
