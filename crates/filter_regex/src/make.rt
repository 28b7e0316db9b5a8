//! Patterns of a filter, each by one call on the outside.
ghost use Rattle.std.specs.Prelude.{◌≡◌, ◌<◌, ◌^◌, [], ◌∷◌, length, map, option_map, IfOk};
ghost use Rattle.host_ident.specs.Expanded.{expanded};
ghost use Rattle.filter_regex.specs.Builds.{Makes, MakesAll};
ghost use Rattle.filter_regex.specs.Rules.{numbered, pref_place};
ghost use Rattle.filter_regex.specs.Roles.{place_of};

use crate::error::{BuildKind, PatternError, PatternPlace};
use f2b_base::Text;
use f2b_world::{Made, Pattern, Patterns};
use host_ident::expand;
use std::alloc::Global;

/// What the patterns of a list are for.
#[derive(Clone, Copy)]
pub(crate) enum Role {
    Fail,
    Ignore,
}

impl Role {
    /// The place of the pattern with a number.
    fn place(self, number: u32) -> PatternPlace
        ensures { result ≡ place_of self number }
    {
        match self {
            Role::Fail => PatternPlace::Fail(number),
            Role::Ignore => PatternPlace::Ignore(number),
        }
    }
}

/// The pattern at a place, by one call.
fn made<P: Patterns>(
    patterns: &mut P,
    place: PatternPlace,
    text: &str,
) -> Result<Pattern, PatternError>
    ensures { Makes place text.now result (P.stands patterns.old) (P.stands patterns.new) }
{
    match patterns.make(text) {
        Made::Built(pattern) => Ok(pattern),
        Made::Syntax => Err(PatternError::Refused {
            place,
            kind: BuildKind::Syntax,
        }),
        Made::TooBig => Err(PatternError::Refused {
            place,
            kind: BuildKind::TooBig,
        }),
        Made::NoMemory => Err(PatternError::NoMemory),
    }
}

/// The pattern at a place, with its tags expanded.
fn made_expanded<P: Patterns>(
    alloc: Global,
    patterns: &mut P,
    place: PatternPlace,
    text: &Text,
) -> Result<Pattern, PatternError>
    ensures { Makes place (expanded text.now) result (P.stands patterns.old) (P.stands patterns.new) }
{
    let text = expand(alloc, text.as_str())?;
    made(patterns, place, text.as_str())
}

/// The prefix pattern, if there is one.
pub(crate) fn made_pref<P: Patterns>(
    alloc: Global,
    patterns: &mut P,
    pref: &Option<Text>,
) -> Result<Option<Pattern>, PatternError>
    ensures value { IfOk result (λ built. built ≡ option_map expanded pref.now) }
    ensures calls { MakesAll (pref_place (option_map expanded pref.now)) result (P.stands patterns.old) (P.stands patterns.new) }
{
    match pref {
        None => Ok(None),
        Some(text) => Ok(Some(made_expanded(alloc, patterns, PatternPlace::Pref, text)?)),
    }
}

/// The patterns of a list, in their order.
pub(crate) fn made_list<P: Patterns>(
    alloc: Global,
    patterns: &mut P,
    role: Role,
    texts: &[Text],
) -> Result<Vec<Pattern>, PatternError>
    requires { length texts.now < 2 ^ 32 }
    ensures value { IfOk result (λ built. built.items ≡ map expanded texts.now) }
    ensures calls { MakesAll (numbered (place_of role) 1 (map expanded texts.now)) result (P.stands patterns.old) (P.stands patterns.new) }
{
    let mut built = Vec::new(alloc);
    let mut number: u32 = 0;
    for text in texts {
        number += 1;
        let pattern = made_expanded(alloc, patterns, role.place(number), text)?;
        built.push(pattern)?;
    }
    Ok(built)
}
