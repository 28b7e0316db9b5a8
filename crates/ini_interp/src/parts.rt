//! The parts of a raw value, one after the other from the left.
ghost use Rattle.std.specs.Prelude.{◌≡◌, ◌<◌, ◌↔◌, [], length, IsNone, IfSome, IfNone, option_map, Some, None};
ghost use Rattle.ini_interp.specs.References.{referred};
ghost use Rattle.ini_interp.specs.Parts.{IsPercentCut, IsFirstCut, IsReferenceCut};

/// A part of a raw value.
#[derive(Clone, Copy)]
pub(crate) enum Part<'a> {
    /// At least one character, none of them a percent sign.
    Plain(&'a str),
    /// `%%`.
    Sign,
    /// The NAME of `%(NAME)s`.
    Named(&'a str),
    /// A percent sign that begins neither.
    Lone,
}

/// A part, and what stands behind it.
#[derive(Clone, Copy)]
pub(crate) struct Cut<'a> {
    pub part: Part<'a>,
    pub rest: &'a str,
}

/// The reference that this text ends, from behind its `%(` on.
fn named(text: &str) -> Option<Cut<'_>>
    ensures some { IfSome result (IsReferenceCut text.now) }
    ensures none { IfNone result (referred text.now ≡ None) }
{
    let (name, behind) = text.split_once(')')?;
    let rest = behind.strip_prefix('s')?;
    Some(Cut {
        part: Part::Named(name),
        rest,
    })
}

/// The part that a percent sign before this text begins.
fn after_percent(text: &str) -> Cut<'_>
    ensures { IsPercentCut text.now result }
{
    if let Some(rest) = text.strip_prefix('%') {
        return Cut {
            part: Part::Sign,
            rest,
        };
    }
    let lone = Cut {
        part: Part::Lone,
        rest: text,
    };
    match text.strip_prefix('(') {
        Some(behind) => named(behind).unwrap_or(lone),
        None => lone,
    }
}

/// The first part of this text, or `None` where the text is empty.
pub(crate) fn first_part(text: &str) -> Option<Cut<'_>>
    ensures none { IsNone result ↔ (text.now ≡ []) }
    ensures shorter { IfSome result (λ cut. length cut.rest.now < length text.now) }
    ensures first { IfSome result (IsFirstCut text.now) }
{
    if text.is_empty() {
        return None;
    }
    if let Some(behind) = text.strip_prefix('%') {
        return Some(after_percent(behind));
    }
    let at = text.find('%').unwrap_or(text.len());
    Some(Cut {
        part: Part::Plain(&text[..at]),
        rest: &text[at..],
    })
}
