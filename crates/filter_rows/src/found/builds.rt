//! How filters are built, and what is refused.
use super::*;

// What a jail is made of, which of its patterns is refused and why, and for how many the library was asked.
const REFUSED: [(Parts<'static>, PatternPlace, BuildKind, u64); 8] = [
    (
        Parts {
            pref: "(",
            fail: "(",
            ..NONE
        },
        PatternPlace::Pref,
        BuildKind::Syntax,
        2,
    ),
    (
        Parts {
            pref: "a",
            fail: "(?=x)<IP4>",
            ..NONE
        },
        PatternPlace::Fail(1),
        BuildKind::Syntax,
        3,
    ),
    (
        Parts {
            fail: "a\nb\na{1000}{1000}{100}",
            ignore_lines: "(",
            ..NONE
        },
        PatternPlace::Fail(3),
        BuildKind::TooBig,
        4,
    ),
    (
        Parts {
            fail: "a",
            ignore_lines: "b\n(",
            ..NONE
        },
        PatternPlace::Ignore(2),
        BuildKind::Syntax,
        4,
    ),
    (
        Parts {
            dated: Dated::NoDate,
            ignore_lines: "(",
            ..NONE
        },
        PatternPlace::Ignore(1),
        BuildKind::Syntax,
        1,
    ),
    (
        Parts {
            dated: Dated::Usual,
            fail: "(",
            ..NONE
        },
        PatternPlace::Fail(1),
        BuildKind::Syntax,
        7,
    ),
    (
        Parts {
            dated: Dated::Own("%d.%m("),
            pref: "(",
            ..NONE
        },
        PatternPlace::Date,
        BuildKind::Syntax,
        1,
    ),
    (
        Parts {
            dated: Dated::OwnAnchored("%d.%ma{1000}{1000}{100}"),
            pref: "(",
            ..NONE
        },
        PatternPlace::Date,
        BuildKind::TooBig,
        1,
    ),
];

/// Why a filter is not built, if it is not.
fn error_of(built: &Result<Filter, PatternError>) -> Option<PatternError> {
    match built {
        Ok(_) => None,
        Err(error) => Some(*error),
    }
}

/// Why no filter of a jail is built, and for how many patterns the library was asked.
fn refusal(
    rt: &impl Abort,
    alloc: Global,
    parts: &Parts<'_>,
) -> Result<(Option<PatternError>, u64), NoMemory> {
    let mut library = Library { alloc, asked: 0 };
    let jail = jail(rt, alloc, parts)?;
    let built = Filter::build(alloc, &mut library, &jail);
    Ok((error_of(&built), library.asked))
}

fn are_refused(
    rt: &impl Abort,
    alloc: Global,
    rows: &[(Parts<'_>, PatternPlace, BuildKind, u64)],
) -> Result<(), NoMemory> {
    for &(parts, place, kind, asked) in rows {
        let error = PatternError::Refused { place, kind };
        let saw = refusal(rt, alloc, &parts)?;
        same(rt, parts.fail, saw, (Some(error), asked));
    }
    Ok(())
}

#[test]
fn refused_patterns(rt: HostRuntime) -> Result<(), NoMemory> {
    are_refused(&rt, rt.alloc(), &REFUSED)
}
