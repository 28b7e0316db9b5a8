//! Commands with their dynamic tags filled in.
ghost use Rattle.std.specs.Prelude.{◌≡◌, ◌<◌, ◌==◌, ◌∷◌, ◌++◌, length, option_copied, IfOk, IfSome, OnOk};
ghost use Rattle.std.specs.List.{slice_split};
ghost use Rattle.f2b_model.specs.Render.{value_of, family_text, part_value, filled, rendered};
ghost use Rattle.tag_subst.specs.Parts.{parts_of};

use crate::addresses::printed;
use crate::groups::opens_group;
use f2b_base::{Family, NoMemory, Text};
use f2b_model::Fill;
use std::alloc::Global;

/// A family as commands name it.
fn family_text(family: Family) -> &'static str
    ensures { result.now ≡ family_text family }
{
    match family {
        Family::Both | Family::Inet4 => "inet4",
        Family::Inet6 => "inet6",
    }
}

/// The value of the tag with this name, if it is that of one.
fn value_of(alloc: Global, name: &str, fill: &Fill) -> Result<Option<Text>, NoMemory>
    ensures { IfOk result (λ value. value ≡ value_of fill.now name.now) }
{
    let Fill {
        ip,
        family,
        failures,
        time,
        bantime,
        bancount,
        matches,
    } = fill;
    let value = match name {
        "ip" => match ip {
            Some(addr) => printed(alloc, *addr)?,
            None => String::new(alloc),
        },
        "family" => String::from_str(alloc, family_text(*family))?,
        "failures" => format!(in alloc; "{failures}")?,
        "time" => format!(in alloc; "{time}")?,
        "bantime" => format!(in alloc; "{bantime}")?,
        "bancount" => format!(in alloc; "{bancount}")?,
        "matches" => String::from_str(alloc, matches.as_str())?,
        "br" => String::from_str(alloc, "\n")?,
        _ => return Ok(None),
    };
    Ok(Some(Text::from(value)))
}

/// What stands before the first `<`, and what stands behind it.
fn cut(text: &str) -> (&str, Option<&str>)
    ensures parts { slice_split (λ b. b == 60) text.now ≡ result.0.now ∷ parts_of (option_copied result.1) }
    ensures shorter { IfSome result.1 (λ rest. length rest.now < length text.now) }
{
    match text.split_once('<') {
        Some((part, rest)) => (part, Some(rest)),
        None => (text, None),
    }
}

/// Adds a part behind a `<`, with its tag filled in.
fn push_part(
    alloc: Global,
    out: &mut Text,
    before: &str,
    part: &str,
    fill: &Fill,
) -> Result<(), NoMemory>
    ensures { OnOk result (out.new ≡ out.old ++ filled (part_value fill.now before.now part.now) part.now) }
{
    if !opens_group(before.as_bytes()) {
        if let Some((name, rest)) = part.split_once('>') {
            if let Some(value) = value_of(alloc, name, fill)? {
                out.push_str(value.as_str())?;
                return out.push_str(rest);
            }
        }
    }
    out.push_str("<")?;
    out.push_str(part)
}

/// The template with each tag filled in. What a value contains is not looked at again.
pub fn render(alloc: Global, template: &str, fill: &Fill) -> Result<Text, NoMemory>
    ensures { IfOk result (λ text. text ≡ rendered template.now fill.now) }
{
    let (mut before, mut rest) = cut(template);
    let mut out = Text::from_str(alloc, before)?;
    'parts: while let Some(text) = rest {
        let (part, after) = cut(text);
        push_part(alloc, &mut out, before, part, fill)?;
        before = part;
        rest = after;
    }
    Ok(out)
}
